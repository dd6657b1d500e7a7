//! A forest's entries in a keeper, and the searches and fragments through it.
ghost use Rattle.std.specs.Prelude.{◌≡◌, ◌<◌, ◌↔◌};

use mm_fragment::stored_fragment;
use mm_host::{Bytes, Fault};
use mm_image::{Entries, Entry, count_key, entries};
use mm_keeper::{Keeper, VecKeeper};
use mm_keeper_lists::KeeperLists;
use mm_label::Label;
use mm_list::Items;
use mm_steps::Steps;
use mm_tree::{Forest, Fragment, elca, keyword_lists};
use mm_words::Query;
use std::alloc::{AllocError, Global};
use std::sync::ledger::{Blank, Ledger};

/// Puts an entry into a small keeper.
#[tactic(auto, using(mm_keeper::specs::Facts::InRange::put_weighs))]
fn put<K: Keeper, L: Ledger>(entry: &Entry, keeper: &mut K, steps: &mut Steps<L>) -> bool
    requires { K.is_sound keeper.old }
    ensures sound { K.is_sound keeper.new }
    ensures maps { K.has_maps keeper.old ↔ K.has_maps keeper.new }
{
    let (key, value) = (entry.key.as_slice(), entry.value.as_slice());
    let is_small = keeper.weight() <= 100_000 && key.len() <= 800 && value.len() <= 1024;
    !key.is_empty() && is_small && keeper.put(key, value, steps).is_ok()
}

/// Puts the entries, but the one at this place.
pub fn put_but<K: Keeper, L: Ledger>(
    entries: &[Entry],
    without: usize,
    keeper: &mut K,
    steps: &mut Steps<L>,
) -> bool
    requires { K.is_sound keeper.old }
    ensures sound { K.is_sound keeper.new }
    ensures maps { K.has_maps keeper.old ↔ K.has_maps keeper.new }
{
    for (i, entry) in entries.iter().enumerate() {
        if i != without && !put(entry, keeper, steps) {
            return false;
        }
    }
    true
}

/// The chunk and occurrence entries of all trees.
pub fn tree_entries(alloc: Global, forest: &Forest) -> Result<Entries, AllocError> {
    entries(alloc, forest.trees())
}

/// The image of the forest: the entries of all trees, and behind them the counts of all words.
pub fn image(alloc: Global, forest: &Forest) -> Result<Entries, AllocError> {
    let mut image = tree_entries(alloc, forest)?;
    for (word, labels) in &keyword_lists(alloc, forest.trees())? {
        let count = (labels.len() as u64).to_be_bytes();
        image.push(Entry {
            key: count_key(alloc, word)?,
            value: Bytes::from_slice(alloc, &count)?,
        })?;
    }
    Ok(image)
}

/// Puts the image of the forest.
fn store<K: Keeper, L: Ledger>(
    alloc: Global,
    forest: &Forest,
    keeper: &mut K,
    steps: &mut Steps<L>,
) -> Result<bool, Fault>
    requires { K.is_sound keeper.old }
    ensures sound { K.is_sound keeper.new }
    ensures maps { K.has_maps keeper.old ↔ K.has_maps keeper.new }
{
    let image = image(alloc, forest)?;
    Ok(put_but(image.as_slice(), image.len(), keeper, steps))
}

/// The smallest and the exclusive answers, by the lists over the entries.
pub fn stored_answers<L: Ledger>(
    alloc: Global,
    blank: Blank,
    forest: &Forest,
    query: &Query,
) -> Result<(Items<Label>, Items<Label>), Fault>
    requires name { blank.name ≡ L.name }
    requires parts { blank.parts ≡ L.parts }
    requires some { 0 < blank.parts }
{
    let mut steps = Steps::<L>::new(blank);
    let mut keeper = VecKeeper::new(Vec::new(alloc));
    if !store(alloc, forest, &mut keeper, &mut steps)? {
        return Err(Fault::Memory);
    }
    let mut lists = KeeperLists::new(alloc, &mut keeper);
    let smallest = mm_slca::answers(alloc, query, &mut lists, &mut steps)?;
    let exclusive = mm_elca::answers(alloc, query, &mut lists, &mut steps)?;
    Ok((smallest, exclusive))
}

/// The fragment of an exclusive answer, out of the entries.
pub fn stored_gathered<L: Ledger>(
    alloc: Global,
    blank: Blank,
    forest: &Forest,
    root: &Label,
    query: &Query,
) -> Result<Fragment, Fault>
    requires name { blank.name ≡ L.name }
    requires parts { blank.parts ≡ L.parts }
    requires some { 0 < blank.parts }
{
    let mut steps = Steps::<L>::new(blank);
    let mut keeper = VecKeeper::new(Vec::new(alloc));
    if !store(alloc, forest, &mut keeper, &mut steps)? {
        return Err(Fault::Memory);
    }
    let answers = elca(alloc, forest, query)?;
    stored_fragment(
        alloc,
        root,
        answers.as_slice(),
        query,
        &mut keeper,
        &mut steps,
    )
}
