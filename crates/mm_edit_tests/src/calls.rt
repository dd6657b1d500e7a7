//! How many calls of a keeper an insertion takes, by a keeper that fails at one call.

ghost use Rattle.std.specs.Prelude.{◌≡◌, ◌<◌, [], IfOk, IsTrue};
ghost use Rattle.mm_edit.specs.Plans.{HasRoomFor};
ghost use Rattle.mm_tree.specs.Trees.{tree_of};
ghost use Rattle.mm_tree.specs.Validity.{is_valid_tree};

use crate::edits::{Edit, WIDE, perform, tree};
use mm_edit::{EditError, Plan, carry_out, plan_load};
use mm_keeper::VecKeeper;
use mm_steps::Steps;
use mm_tree::{Place, Plain};
use std::alloc::{AllocError, Global};
use std::marker::Brand;
use std::sync::ledger::{Blank, Ledger};
use std::test::Fail;

/// Whether an edit is done once the load is carried out, over a keeper that fails at the call of this number behind those of
/// the load: one for each entry.
fn is_served<L: Ledger>(
    alloc: Global,
    load: &Plan,
    edit: Edit<'_>,
    call: u64,
    steps: &mut Steps<L>,
) -> Result<bool, AllocError>
    requires { HasRoomFor [] load.now }
{
    let puts = load.puts().len() as u64;
    let failing = Vec::from_slice(alloc, &[puts.saturating_add(call)])?;
    let mut keeper = VecKeeper::new(failing);
    if carry_out(load, &mut keeper, steps).is_err() {
        return Ok(false);
    }
    let reply = perform(alloc, edit, WIDE, &mut keeper, steps)?;
    Ok(reply.starts_with("ok "))
}

/// How many calls the edit takes; 1,000 where it takes more.
fn served_in<L: Ledger>(
    alloc: Global,
    load: &Plan,
    edit: Edit<'_>,
    steps: &mut Steps<L>,
) -> Result<u64, AllocError>
    requires { HasRoomFor [] load.now }
{
    for calls in 0..1000 {
        if is_served(alloc, load, edit, calls + 1, steps)? {
            return Ok(calls);
        }
    }
    Ok(1000)
}

/// Whether an edit takes so many calls, and no fewer.
fn is_served_in<L: Ledger>(
    alloc: Global,
    load: &Plan,
    edit: Edit<'_>,
    calls: u64,
    steps: &mut Steps<L>,
) -> Result<bool, AllocError>
    requires { HasRoomFor [] load.now }
{
    let more = is_served(alloc, load, edit, calls.saturating_add(1), steps)?;
    Ok(more && !is_served(alloc, load, edit, calls, steps)?)
}

/// An insertion at each place in the midst of the records.
const INSERTIONS: [Edit<'static>; 4] = [
    Edit::Insert(Place::Before, "1.19", "<r>x</r>"),
    Edit::Insert(Place::After, "1.19", "<r>x</r>"),
    Edit::Insert(Place::First, "1", "<r>x</r>"),
    Edit::Insert(Place::Last, "1", "<r>x</r>"),
];

/// How many insertions take as many calls in the large store as in the small one.
fn are_alike<L: Ledger>(
    alloc: Global,
    small: &Plan,
    large: &Plan,
    steps: &mut Steps<L>,
) -> Result<usize, AllocError>
    requires small { HasRoomFor [] small.now }
    requires large { HasRoomFor [] large.now }
{
    for (i, edit) in INSERTIONS.iter().enumerate() {
        let calls = served_in(alloc, small, *edit, steps)?;
        if calls == 1000 || !is_served_in(alloc, large, *edit, calls, steps)? {
            return Ok(i);
        }
    }
    Ok(INSERTIONS.len())
}

/// A document with so many records.
fn records(alloc: Global, count: usize) -> Result<String, AllocError> {
    let records = "<r>x</r>".repeat(alloc, count)?;
    format!(in alloc; "<a>{records}</a>")
}

/// The plan of a load into an empty store.
fn plan_first<L: Ledger>(
    alloc: Global,
    tree: Plain,
    steps: &mut Steps<L>,
) -> Result<Plan, EditError>
    requires { IsTrue (is_valid_tree (tree_of tree)) }
    ensures { IfOk result (λ p. HasRoomFor [] p) }
{
    let mut keeper = VecKeeper::new(Vec::new(alloc));
    plan_load(alloc, &mut keeper, tree, WIDE, steps)
}

/// The same of stores with these documents.
fn counted<L: Ledger>(
    alloc: Global,
    small: Plain,
    large: Plain,
    blank: Blank,
) -> Result<usize, AllocError>
    requires small { IsTrue (is_valid_tree (tree_of small)) }
    requires large { IsTrue (is_valid_tree (tree_of large)) }
    requires name { blank.name ≡ L.name }
    requires parts { blank.parts ≡ L.parts }
    requires some { 0 < blank.parts }
{
    let mut steps = Steps::<L>::new(blank);
    let Ok(small) = plan_first(alloc, small, &mut steps) else {
        return Ok(0);
    };
    match plan_first(alloc, large, &mut steps) {
        Ok(large) => are_alike(alloc, &small, &large, &mut steps),
        Err(_) => Ok(0),
    }
}

fn uncounted(alloc: Global, small: &str, large: &str) -> Result<usize, Fail> {
    let small = tree(alloc, small)?;
    let large = tree(alloc, large)?;
    Ok(counted::<Brand>(alloc, small, large, Blank::new(1))?)
}

#[test]
fn an_insertion_takes_as_many_calls_in_a_large_store(rt: HostRuntime) -> Result<(), Fail> {
    let small = records(rt.alloc(), 20)?;
    let large = records(rt.alloc(), 20_000)?;
    let count = uncounted(rt.alloc(), small.as_str(), large.as_str())?;
    assert_eq!(rt; count, 4);
    Ok(())
}
