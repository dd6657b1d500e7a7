//! The answers of `slca` and of `elca` over a keeper's entries.

use crate::stored::stored_answers;
use mm_examples::documents::{copies, have_texts};
use mm_examples::searches::{Case, TABLE};
use mm_tree::Forest;
use mm_words::Query;
use mm_words::calls::query;
use std::alloc::Global;
use std::marker::Brand;
use std::sync::ledger::Blank;
use std::test::Fail;

/// Whether both searches find what is due.
fn stored_are(
    alloc: Global,
    forest: &Forest,
    query: &Query,
    smallest: &[&str],
    exclusive: &[&str],
) -> Result<bool, Fail> {
    let (low, own) = stored_answers::<Brand>(alloc, Blank::new(1), forest, query)?;
    Ok(
        have_texts(alloc, low.as_slice(), smallest)?
            && have_texts(alloc, own.as_slice(), exclusive)?,
    )
}

fn agrees(alloc: Global, case: &Case) -> Result<bool, Fail> {
    let (document, times, text, smallest, exclusive) = *case;
    let forest = copies(alloc, document, times)?;
    let query = query(alloc, text)?;
    stored_are(alloc, &forest, &query, smallest, exclusive)
}

#[test]
fn both_searches_find_in_entries_what_is_due(rt: HostRuntime) -> Result<(), Fail> {
    for case in &TABLE {
        assert!(rt; agrees(rt.alloc(), case)?);
    }
    Ok(())
}
