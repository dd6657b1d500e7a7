//! The answers of `slca` and of `elca`, by keyword lists and by the plain walk.

ghost use Rattle.std.specs.Prelude.{◌≡◌, ◌<◌};

use mm_examples::documents::{copies, have_texts};
use mm_examples::searches::{Case, TABLE};
use mm_host::Fault;
use mm_label::Label;
use mm_list::Items;
use mm_lists::MemLists;
use mm_steps::Steps;
use mm_tree::{Forest, elca, slca};
use mm_words::Query;
use mm_words::calls::query;
use std::alloc::Global;
use std::marker::Brand;
use std::sync::ledger::{Blank, Ledger};
use std::test::Fail;

fn smallest<L: Ledger>(
    alloc: Global,
    blank: Blank,
    forest: &Forest,
    query: &Query,
) -> Result<Items<Label>, Fault>
    requires name { blank.name ≡ L.name }
    requires parts { blank.parts ≡ L.parts }
    requires some { 0 < blank.parts }
{
    let mut steps = Steps::<L>::new(blank);
    let mut lists = MemLists::of(alloc, forest)?;
    mm_slca::answers(alloc, query, &mut lists, &mut steps)
}

fn exclusive<L: Ledger>(
    alloc: Global,
    blank: Blank,
    forest: &Forest,
    query: &Query,
) -> Result<Items<Label>, Fault>
    requires name { blank.name ≡ L.name }
    requires parts { blank.parts ≡ L.parts }
    requires some { 0 < blank.parts }
{
    let mut steps = Steps::<L>::new(blank);
    let mut lists = MemLists::of(alloc, forest)?;
    mm_elca::answers(alloc, query, &mut lists, &mut steps)
}

/// Whether both searches for the smallest answers find those with these texts.
fn smallest_are(alloc: Global, forest: &Forest, query: &Query, due: &[&str]) -> Result<bool, Fail> {
    let plain = slca(alloc, forest, query)?;
    let fast = smallest::<Brand>(alloc, Blank::new(1), forest, query)?;
    Ok(plain.as_slice() == fast.as_slice() && have_texts(alloc, fast.as_slice(), due)?)
}

/// Whether both searches for the exclusive answers find those with these texts.
fn exclusive_are(
    alloc: Global,
    forest: &Forest,
    query: &Query,
    due: &[&str],
) -> Result<bool, Fail> {
    let plain = elca(alloc, forest, query)?;
    let fast = exclusive::<Brand>(alloc, Blank::new(1), forest, query)?;
    Ok(plain.as_slice() == fast.as_slice() && have_texts(alloc, fast.as_slice(), due)?)
}

/// Whether all four searches find what is due.
fn agrees(alloc: Global, case: &Case) -> Result<bool, Fail> {
    let (document, times, text, smallest, exclusive) = *case;
    let forest = copies(alloc, document, times)?;
    let query = query(alloc, text)?;
    Ok(
        smallest_are(alloc, &forest, &query, smallest)?
            && exclusive_are(alloc, &forest, &query, exclusive)?,
    )
}

#[test]
fn both_searches_find_what_the_plain_walks_find(rt: HostRuntime) -> Result<(), Fail> {
    for case in &TABLE {
        assert!(rt; agrees(rt.alloc(), case)?);
    }
    Ok(())
}
