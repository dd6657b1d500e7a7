//! The entries that a node brings with all below it.

ghost use Rattle.std.specs.Prelude.{◌≡◌, ◌++◌, ◌≤◌, ◌^◌, IfOk, OnOk, IsTrue, flat_map, length, map};
ghost use Rattle.std.specs.BTreeMap.{IsOrdered};
ghost use Rattle.std.specs.Cmp.Lexicographic.{slice_cmp};
ghost use Rattle.std.specs.Ordering.{nat_cmp};
ghost use Rattle.mm_tree.specs.declared.node.Node.TheViews.{out-Node};
ghost use Rattle.mm_tree.specs.Forests.{has_valid_kind};
ghost use Rattle.mm_tree.specs.Numbering.{forest_of, node_of};
ghost use Rattle.mm_tree.specs.Search.{worded};
ghost use Rattle.mm_tree.specs.Trees.{every, one};
ghost use Rattle.mm_tree.specs.Validity.{is_valid_kind};
ghost use Rattle.mm_image.specs.Image.{chunks, chunks_of, counted, entries_of};
ghost use Rattle.mm_image.specs.Inside.Cutting.{listed, numbered};
ghost use Rattle.mm_image.specs.Keyed.{keyed};

use crate::content::pieces_of;
use crate::entry::{Entries, Entry};
use crate::key::{chunk_key, occurrence_key};
use mm_host::Bytes;
use mm_label::Label;
use mm_list::Items;
use mm_tree::{KeywordLists, Kind, Node, keyword_lists};
use mm_words::Word;
use std::alloc::{AllocError, Global};
use std::slice;

/// Puts the entries of a node's pieces.
fn push_pieces(
    alloc: Global,
    label: &Label,
    pieces: Items<Bytes>,
    entries: &mut Entries,
) -> Result<(), AllocError>
    requires { length pieces ≤ 2 ^ 32 }
    ensures { OnOk result (keyed entries.new ≡ keyed entries.old ++ numbered label.now 0 pieces) }
{
    let mut number = 0u64;
    for value in pieces.into_vec() {
        let key = chunk_key(alloc, label, number as u32)?;
        entries.push(Entry { key, value })?;
        number += 1;
    }
    Ok(())
}

/// Puts the chunk entries of a node.
fn push_chunks(
    alloc: Global,
    label: &Label,
    kind: &Kind,
    entries: &mut Entries,
) -> Result<(), AllocError>
    requires { IsTrue (is_valid_kind kind.now) }
    ensures { OnOk result (keyed entries.new ≡ keyed entries.old ++ chunks_of (record { label = label.now; kind = kind.now })) }
{
    let pieces = pieces_of(alloc, kind)?;
    push_pieces(alloc, label, pieces, entries)
}

/// Lends the children of a node. Their kinds are valid, since those of all its nodes are.
fn children_of(node: &Node) -> &[Node]
    requires { IsTrue (every has_valid_kind (one (node_of node.now))) }
    ensures children { result.now ≡ (out-Node node.now).children }
    ensures valid { IsTrue (every has_valid_kind (forest_of result.now)) }
{
    node.children.as_slice()
}

/// Puts the chunk entries of the nodes and of all below them.
fn push_all_chunks(alloc: Global, nodes: &[Node], entries: &mut Entries) -> Result<(), AllocError>
    requires { IsTrue (every has_valid_kind (forest_of nodes.now)) }
    ensures { OnOk result (keyed entries.new ≡ keyed entries.old ++ chunks (forest_of nodes.now)) }
{
    for node in nodes {
        push_chunks(alloc, &node.label, &node.kind, entries)?;
        push_all_chunks(alloc, children_of(node), entries)?;
    }
    Ok(())
}

/// Puts the entries of a word and the nodes that hold it.
fn push_word(
    alloc: Global,
    word: &Word,
    labels: &[Label],
    entries: &mut Entries,
) -> Result<(), AllocError>
    ensures { OnOk result (keyed entries.new ≡ keyed entries.old ++ listed (word.now, labels.now)) }
{
    for label in labels {
        let key = occurrence_key(alloc, word, label)?;
        entries.push(Entry {
            key,
            value: Bytes::new(alloc),
        })?;
    }
    Ok(())
}

/// Puts the occurrence entries.
fn push_occurrences(
    alloc: Global,
    lists: &KeywordLists,
    entries: &mut Entries,
) -> Result<(), AllocError>
    ensures entries { OnOk result (keyed entries.new ≡ keyed entries.old ++ flat_map listed lists.now.entries) }
    ensures ordered { IsOrdered (slice_cmp nat_cmp) lists.now }
{
    for (word, labels) in lists {
        push_word(alloc, word, labels.as_slice(), entries)?;
    }
    Ok(())
}

/// The chunk and occurrence entries of the nodes and of all below them, in the order of their keys.
pub fn entries(alloc: Global, nodes: &[Node]) -> Result<Entries, AllocError>
    requires { IsTrue (every has_valid_kind (forest_of nodes.now)) }
    ensures { IfOk result (λ entries. keyed entries ≡ entries_of (forest_of nodes.now)) }
{
    let mut entries = Items::new(alloc);
    push_all_chunks(alloc, nodes, &mut entries)?;
    let lists = keyword_lists(alloc, nodes)?;
    push_occurrences(alloc, &lists, &mut entries)?;
    Ok(entries)
}

/// For each word of the node and of all below it, in order, how many of them hold it.
pub fn word_counts(alloc: Global, node: &Node) -> Result<Vec<(Word, u64)>, AllocError>
    ensures { IfOk result (λ counts. counts.items ≡ counted (worded (one (node_of node.now)))) }
{
    let mut counts = Vec::new(alloc);
    for (word, labels) in keyword_lists(alloc, slice::from_ref(node))? {
        counts.push((word, labels.len() as u64))?;
    }
    Ok(counts)
}
