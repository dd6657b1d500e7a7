//! What a store is asked, and what it replies.

ghost use Rattle.std.specs.Prelude.{IfOk, IsTrue};
ghost use Rattle.mm_store.specs.Editing.{IsValidEdit};
ghost use Rattle.mm_tree.specs.Trees.{tree_of};
ghost use Rattle.mm_tree.specs.Validity.{is_valid_tree};

use mm_command::{Find, Reply, write_reply};
use mm_host::Fault;
use mm_keeper::Keeper;
use mm_label::Label;
use mm_steps::Steps;
use mm_store::{Edit, Store, StoreError};
use mm_tree::{Place, Plain, Refusal};
use mm_words::Query;
use mm_words::calls::query;
use mm_xml::{XmlError, read};
use std::alloc::{AllocError, Global};
use std::sync::ledger::Ledger;

/// A call of a store, with its texts.
#[derive(Clone, Copy)]
pub enum Asked<'a> {
    Load(&'a str),
    Insert(Place, &'a str, &'a str),
    Delete(&'a str),
    Replace(&'a str, &'a str),
    Search(Find, &'a str),
    Show(&'a str),
    Check,
}

/// The tree of a text.
fn tree(alloc: Global, text: &str) -> Result<Plain, StoreError>
    ensures { IfOk result (λ t. IsTrue (is_valid_tree (tree_of t))) }
{
    let bytes = text.as_bytes();
    if bytes.len() > 10_000 {
        return Err(StoreError::Refused(Refusal::Size));
    }
    match read(alloc, bytes) {
        Ok(tree) => Ok(tree),
        Err(XmlError::NotXml) => Err(StoreError::Refused(Refusal::Xml)),
        Err(XmlError::TooDeep) => Err(StoreError::Refused(Refusal::Deep)),
        Err(XmlError::Memory) => Err(StoreError::Fault(Fault::Memory)),
    }
}

fn label(alloc: Global, text: &str) -> Result<Label, StoreError> {
    match Label::parse(alloc, text) {
        Ok(label) => Ok(label),
        Err(_) => Err(StoreError::Refused(Refusal::Label)),
    }
}

fn words(alloc: Global, text: &str) -> Result<Query, StoreError> {
    match query(alloc, text) {
        Ok(query) => Ok(query),
        Err(_) => Err(StoreError::Refused(Refusal::Words)),
    }
}

fn insert(alloc: Global, place: Place, target: &str, text: &str) -> Result<Edit, StoreError>
    ensures { IfOk result IsValidEdit }
{
    let target = label(alloc, target)?;
    let tree = tree(alloc, text)?;
    Ok(Edit::Insert {
        place,
        target,
        tree,
    })
}

fn replace(alloc: Global, target: &str, text: &str) -> Result<Edit, StoreError>
    ensures { IfOk result IsValidEdit }
{
    let target = label(alloc, target)?;
    let tree = tree(alloc, text)?;
    Ok(Edit::Replace { target, tree })
}

fn change<K: Keeper, L: Ledger>(
    edit: Edit,
    store: &mut Store<K>,
    steps: &mut Steps<L>,
) -> Result<Reply, StoreError>
    requires { IsValidEdit edit }
{
    match store.apply(edit, steps) {
        Ok(done) => Ok(Reply::Done(done)),
        Err(error) => Err(error),
    }
}

fn find<K: Keeper, L: Ledger>(
    find: Find,
    query: &Query,
    store: &mut Store<K>,
    steps: &mut Steps<L>,
) -> Result<Reply, Fault> {
    match find {
        Find::Slca => Ok(Reply::Hits(store.slca(query, steps)?)),
        Find::Elca => Ok(Reply::Hits(store.elca(query, steps)?)),
        Find::Maxmatch => Ok(Reply::Fragments(store.maxmatch(query, steps)?)),
        Find::MaxmatchElca => Ok(Reply::Fragments(store.maxmatch_elca(query, steps)?)),
    }
}

fn search<K: Keeper, L: Ledger>(
    alloc: Global,
    sort: Find,
    text: &str,
    store: &mut Store<K>,
    steps: &mut Steps<L>,
) -> Result<Reply, StoreError> {
    let query = words(alloc, text)?;
    match find(sort, &query, store, steps) {
        Ok(reply) => Ok(reply),
        Err(fault) => Err(StoreError::Fault(fault)),
    }
}

fn show<K: Keeper, L: Ledger>(
    alloc: Global,
    text: &str,
    store: &mut Store<K>,
    steps: &mut Steps<L>,
) -> Result<Reply, StoreError> {
    let label = label(alloc, text)?;
    match store.show(&label, steps) {
        Ok(node) => Ok(Reply::Tree(node)),
        Err(error) => Err(error),
    }
}

fn ask<K: Keeper, L: Ledger>(
    alloc: Global,
    asked: Asked<'_>,
    store: &mut Store<K>,
    steps: &mut Steps<L>,
) -> Result<Reply, StoreError> {
    match asked {
        Asked::Load(text) => {
            let tree = tree(alloc, text)?;
            change(Edit::Load { tree }, store, steps)
        }
        Asked::Insert(place, target, text) => {
            let edit = insert(alloc, place, target, text)?;
            change(edit, store, steps)
        }
        Asked::Delete(target) => {
            let target = label(alloc, target)?;
            change(Edit::Delete { target }, store, steps)
        }
        Asked::Replace(target, text) => {
            let edit = replace(alloc, target, text)?;
            change(edit, store, steps)
        }
        Asked::Search(find, text) => search(alloc, find, text, store, steps),
        Asked::Show(text) => show(alloc, text, store, steps),
        Asked::Check => match store.check(steps) {
            Ok(verdict) => Ok(Reply::Checked(verdict)),
            Err(fault) => Err(StoreError::Fault(fault)),
        },
    }
}

/// Whether a store replies so.
pub fn replies<K: Keeper, L: Ledger>(
    alloc: Global,
    asked: Asked<'_>,
    due: &str,
    store: &mut Store<K>,
    steps: &mut Steps<L>,
) -> Result<bool, AllocError> {
    let reply = match ask(alloc, asked, store, steps) {
        Ok(reply) => reply,
        Err(StoreError::Refused(refusal)) => Reply::Refused(refusal),
        Err(StoreError::Fault(_fault)) => return Ok(false),
    };
    let reply = write_reply(alloc, &reply)?;
    Ok(reply.as_slice() == due.as_bytes())
}
