// Searches.
ghost use Rattle.std.specs.Prelude.{◌≡◌, ◌≤◌};
ghost use Rattle.mm_command.specs.Replies.{reply_text};
ghost use Rattle.mm_keeper.specs.Keeping.{fault_of};
ghost use Rattle.mm_tree.specs.Numbering.{Labelled};
ghost use Rattle.mm_tree.specs.Trees.{Trees};
ghost use Rattle.mm_run.specs.Answers.{AnswersSearch, Shows, found_text, roots};
ghost use Rattle.mm_run.specs.Inside.Carrying.{Carried, Stands};
ghost use Rattle.mm_run.specs.Steps.{find_cost, search_cost};
ghost use Rattle.mm_run.specs.Stores.{Rests};

use mm_command::{Find, Reply};
use mm_host::Fault;
use mm_keeper::Keeper;
use mm_steps::Steps;
use mm_store::Store;
use mm_tree::{Refusal, Text};
use mm_words::calls::query;
use mm_words::{Query, QueryError};
use std::alloc::Global;
use std::sync::ledger::Ledger;

/// The nodes that a search finds, or their fragments.
fn found<K: Keeper, L: Ledger>(
    store: &mut Store<K>,
    find: Find,
    query: &Query,
    steps: &mut Steps<L>,
) -> Result<Reply, Fault>
    ensures answer { (f : Trees Labelled) → Rests K.has_maps K.seen store.old.keeper f
        → Carried K.has_maps K.seen K.is_spent K.moment K.left_since reply_text (Shows f (found_text find query.now f (roots find query.now f))) (λ n. n ≤ find_cost find query.now f) f store.old.keeper store.new.keeper steps.old steps.new result }
    ensures stands { Stands K.over K.has_maps K.is_spent K.fault_count store.old.keeper store.new.keeper (fault_of result) }
    ensures kept_limit { store.new.limit ≡ store.old.limit }
{
    match find {
        Find::Slca => Ok(Reply::Hits(store.slca(query, steps)?)),
        Find::Elca => Ok(Reply::Hits(store.elca(query, steps)?)),
        Find::Maxmatch => Ok(Reply::Fragments(store.maxmatch(query, steps)?)),
        Find::MaxmatchElca => Ok(Reply::Fragments(store.maxmatch_elca(query, steps)?)),
    }
}

/// What a search for the words of a text is answered.
pub fn answer_search<K: Keeper, L: Ledger>(
    alloc: Global,
    store: &mut Store<K>,
    find: Find,
    text: &Text,
    steps: &mut Steps<L>,
) -> Result<Reply, Fault>
    ensures answer { (f : Trees Labelled) → Rests K.has_maps K.seen store.old.keeper f
        → Carried K.has_maps K.seen K.is_spent K.moment K.left_since reply_text (AnswersSearch find text.now f) (λ n. n ≤ search_cost find text.now f) f store.old.keeper store.new.keeper steps.old steps.new result }
    ensures stands { Stands K.over K.has_maps K.is_spent K.fault_count store.old.keeper store.new.keeper (fault_of result) }
    ensures kept_limit { store.new.limit ≡ store.old.limit }
{
    match query(alloc, text.as_str()) {
        Err(QueryError::NoWords) => Ok(Reply::Refused(Refusal::Words)),
        Err(QueryError::TooMany { .. }) => Ok(Reply::Refused(Refusal::Many)),
        Err(QueryError::TooLong { .. }) => Ok(Reply::Refused(Refusal::Long)),
        Err(QueryError::Memory) => Err(Fault::Memory),
        Ok(query) => found(store, find, &query, steps),
    }
}
