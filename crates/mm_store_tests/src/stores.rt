//! The calls of a store over a keeper in memory.

ghost use Rattle.std.specs.Prelude.{◌≡◌, ◌<◌, ◌≤◌, ◌^◌};

use crate::asking::{Asked, replies};
use mm_check::Verdict;
use mm_command::{Find, Reply, write_reply};
use mm_examples::documents::{BIBLIOGRAPHY, NOTES};
use mm_host::Bytes;
use mm_keeper::{Keeper, VecKeeper};
use mm_steps::Steps;
use mm_store::Store;
use mm_tree::Place;
use std::alloc::{AllocError, Global};
use std::marker::Brand;
use std::sync::ledger::{Blank, Ledger};
use std::test::Fail;

/// Calls one after the other, each with its reply.
const CALLS: [(Asked<'static>, &str); 20] = [
    (Asked::Check, "sound 0\n"),
    (Asked::Show("1"), "no 17 absent\n"),
    (Asked::Load(BIBLIOGRAPHY), "ok 1 11\n"),
    (Asked::Check, "sound 11\n"),
    (
        Asked::Search(Find::Slca, "search liu"),
        "hits 1\n1.1 book\n",
    ),
    (
        Asked::Search(Find::Slca, "search"),
        "hits 2\n1.1.1.1 #text\n1.3.1.1 #text\n",
    ),
    (Asked::Search(Find::Elca, "absent liu"), "hits 0\n"),
    (Asked::Load(NOTES), "ok 3 7\n"),
    (
        Asked::Search(Find::Elca, "xml liu"),
        "hits 3\n1.1 book\n3 bib\n3.1.1 #text\n",
    ),
    (Asked::Delete("1"), "ok 1 11\n"),
    (Asked::Delete("1"), "no 17 absent\n"),
    (
        Asked::Search(Find::MaxmatchElca, "xml liu"),
        "fragments 2\nfragment 3 5\n3 bib\n3.3 note\n3.3.1 #text xml\n3.5 author\n3.5.1 #text liu\nfragment 3.1.1 1\n3.1.1 #text xml liu\n",
    ),
    (
        Asked::Search(Find::Maxmatch, "xml liu"),
        "fragments 1\nfragment 3.1.1 1\n3.1.1 #text xml liu\n",
    ),
    (
        Asked::Insert(Place::After, "3.1", "<x>Liu</x>"),
        "ok 3.2.1 2\n",
    ),
    (Asked::Replace("3.3", "more words"), "ok 3.3 1\n"),
    (Asked::Replace("3", "more words"), "no 20 top\n"),
    (Asked::Insert(Place::Last, "3.3", "<x/>"), "no 18 leaf\n"),
    (
        Asked::Search(Find::Slca, "liu xml"),
        "hits 1\n3.1.1 #text\n",
    ),
    (
        Asked::Show("3"),
        "tree 3 8\n<bib><book>xml liu</book><x>Liu</x>more words<author>liu</author></bib>\n",
    ),
    (Asked::Check, "sound 8\n"),
];

/// How many calls get their replies before the first that doesn't.
fn count_replies<K: Keeper, L: Ledger>(
    alloc: Global,
    calls: &[(Asked<'_>, &str)],
    store: &mut Store<K>,
    steps: &mut Steps<L>,
) -> Result<usize, AllocError> {
    for (i, (asked, due)) in calls.iter().enumerate() {
        if !replies(alloc, *asked, due, store, steps)? {
            return Ok(i);
        }
    }
    Ok(calls.len())
}

/// How many calls of an empty store get their replies before the first that doesn't, and its weight afterwards.
fn asked<L: Ledger>(
    alloc: Global,
    calls: &[(Asked<'_>, &str)],
    limit: u64,
    blank: Blank,
) -> Result<(usize, u64), AllocError>
    requires limit { (1024 ≤ limit) × (limit ≤ 2 ^ 40) }
    requires name { blank.name ≡ L.name }
    requires parts { blank.parts ≡ L.parts }
    requires some { 0 < blank.parts }
{
    let mut steps = Steps::<L>::new(blank);
    let mut store = Store::over(alloc, VecKeeper::new(Vec::new(alloc)), limit);
    let count = count_replies(alloc, calls, &mut store, &mut steps);
    let weight = store.weight();
    let _keeper = store.into_keeper();
    Ok((count?, weight))
}

fn asked_uncounted(
    alloc: Global,
    calls: &[(Asked<'_>, &str)],
    limit: u64,
) -> Result<(usize, u64), AllocError>
    requires { (1024 ≤ limit) × (limit ≤ 2 ^ 40) }
{
    asked::<Brand>(alloc, calls, limit, Blank::new(1))
}

#[test]
fn a_store_replies_to_each_call(rt: HostRuntime) -> Result<(), Fail> {
    let (count, _) = asked_uncounted(rt.alloc(), &CALLS, 1 << 40)?;
    assert_eq!(rt; count, CALLS.len());
    Ok(())
}

/// The reply to a load of an element with so many letters is as due, and the weight afterwards.
fn limited<'x>(alloc: Global, text: &'x str, due: &'x str) -> Result<(usize, u64), AllocError> {
    asked_uncounted(alloc, &[(Asked::Load(text), due)], 1024)
}

/// An element with so many letters.
fn letters(alloc: Global, count: usize) -> Result<String, AllocError> {
    let letters = "b".repeat(alloc, count)?;
    format!(in alloc; "<a>{letters}</a>")
}

#[test]
fn the_limit_is_reached_and_not_passed(rt: HostRuntime) -> Result<(), Fail> {
    let most = letters(rt.alloc(), 986)?;
    let more = letters(rt.alloc(), 987)?;
    assert_eq!(rt; limited(rt.alloc(), most.as_str(), "ok 1 2\n")?, (1, 1024));
    assert_eq!(rt; limited(rt.alloc(), more.as_str(), "no 23 full\n")?, (1, 0));
    Ok(())
}

/// Whether a store's keeper ticks, how often it has failed before and afterwards, and whether it is still asked then.
fn ticked<L: Ledger>(
    alloc: Global,
    failing: &[u64],
    blank: Blank,
) -> Result<(bool, u64, u64, bool), AllocError>
    requires name { blank.name ≡ L.name }
    requires parts { blank.parts ≡ L.parts }
    requires some { 0 < blank.parts }
{
    let mut steps = Steps::<L>::new(blank);
    let keeper = VecKeeper::new(Vec::from_slice(alloc, failing)?);
    let mut store = Store::over(alloc, keeper, 1 << 30);
    let before = store.faults();
    let is_done = store.tick(1).is_ok();
    let after = store.faults();
    let asked = Asked::Load(BIBLIOGRAPHY);
    let is_asked = replies(alloc, asked, "ok 1 11\n", &mut store, &mut steps);
    let _keeper = store.into_keeper();
    Ok((is_done, before, after, is_asked?))
}

fn ticked_uncounted(alloc: Global, failing: &[u64]) -> Result<(bool, u64, u64, bool), AllocError> {
    ticked::<Brand>(alloc, failing, Blank::new(1))
}

#[test]
fn a_store_that_fails_once_answers_no_more(rt: HostRuntime) -> Result<(), Fail> {
    assert_eq!(rt; ticked_uncounted(rt.alloc(), &[])?, (true, 0, 0, true));
    assert_eq!(rt; ticked_uncounted(rt.alloc(), &[1])?, (false, 0, 1, false));
    Ok(())
}

#[test]
fn a_key_that_does_not_fit_is_told_in_hexadecimal(rt: HostRuntime) -> Result<(), Fail> {
    let key = Bytes::from_slice(rt.alloc(), b"\x01\x81\xFF\x0A")?;
    let reply = Reply::Checked(Verdict::Unsound {
        key,
        stored: None,
        due: None,
    });
    let text = write_reply(rt.alloc(), &reply)?;
    assert_eq!(rt; text.as_slice(), b"unsound 0181ff0a\n".as_slice());
    Ok(())
}
