// Writing fragments.
ghost use Rattle.std.specs.Prelude.{◌≡◌, ◌++◌, IfOk, OnOk, map};
ghost use Rattle.std.specs.List.{flat_map};
ghost use Rattle.mm_tree.specs.Trees.{nodes, preorder};
ghost use Rattle.mm_tree.specs.Fragments.{fragment_tree, fragment_trees};
ghost use Rattle.mm_command.specs.Replies.{shown_count, word_after_space, shown_line, fragment_head, fragment_text, fragments_text};
ghost use Rattle.mm_command.specs.Inside.Showing.{shown_of};

use mm_label::Label;
use mm_tree::Fragment;
use mm_words::Word;
use std::alloc::{AllocError, Global};

/// How many nodes the fragments have, as far as the number fits.
fn nodes_in(fragments: &[Fragment]) -> u64
    ensures { result ≡ shown_count (nodes (fragment_trees fragments.now)) }
{
    let mut sum: u64 = 0;
    for fragment in fragments {
        let below = nodes_in(fragment.children.as_slice());
        sum = sum.saturating_add(below).saturating_add(1);
    }
    sum
}

fn push_words(reply: &mut Vec<u8>, words: &[Word]) -> Result<(), AllocError>
    ensures { OnOk result (reply.new.items ≡ reply.old.items ++ flat_map word_after_space words.now) }
{
    for word in words {
        reply.push(b' ')?;
        reply.extend_from_slice(word.as_bytes())?;
    }
    Ok(())
}

/// The line of a node of a fragment.
fn push_node(alloc: Global, reply: &mut Vec<u8>, node: &Fragment) -> Result<(), AllocError>
    ensures { OnOk result (reply.new.items ≡ reply.old.items ++ shown_line (shown_of node.now)) }
{
    let label = node.label.text(alloc)?;
    let name = node.name.as_str();
    let line = format!(in alloc; "{label} {name}")?;
    reply.extend_from_slice(line.as_bytes())?;
    push_words(reply, node.matches.as_slice())?;
    reply.push(b'\n')?;
    Ok(())
}

/// The lines of all nodes of the fragments, each before those of its children.
fn push_nodes(alloc: Global, reply: &mut Vec<u8>, fragments: &[Fragment]) -> Result<(), AllocError>
    ensures { OnOk result (reply.new.items ≡ reply.old.items ++ flat_map shown_line (preorder (fragment_trees fragments.now))) }
{
    for fragment in fragments {
        push_node(alloc, reply, fragment)?;
        push_nodes(alloc, reply, fragment.children.as_slice())?;
    }
    Ok(())
}

/// The first line of a fragment.
fn push_head(
    alloc: Global,
    reply: &mut Vec<u8>,
    label: &Label,
    nodes: u64,
) -> Result<(), AllocError>
    ensures { OnOk result (reply.new.items ≡ reply.old.items ++ fragment_head label.now nodes) }
{
    let label = label.text(alloc)?;
    let line = format!(in alloc; "fragment {label} {nodes}\n")?;
    reply.extend_from_slice(line.as_bytes())
}

fn push_fragment(alloc: Global, reply: &mut Vec<u8>, fragment: &Fragment) -> Result<(), AllocError>
    ensures { OnOk result (reply.new.items ≡ reply.old.items ++ fragment_text (fragment_tree fragment.now)) }
{
    let below = fragment.children.as_slice();
    let nodes = nodes_in(below).saturating_add(1);
    push_head(alloc, reply, &fragment.label, nodes)?;
    push_node(alloc, reply, fragment)?;
    push_nodes(alloc, reply, below)?;
    Ok(())
}

fn push_fragments(
    alloc: Global,
    reply: &mut Vec<u8>,
    fragments: &[Fragment],
) -> Result<(), AllocError>
    ensures { OnOk result (reply.new.items ≡ reply.old.items ++ flat_map fragment_text (map fragment_tree fragments.now)) }
{
    for fragment in fragments {
        push_fragment(alloc, reply, fragment)?;
    }
    Ok(())
}

/// The reply of a search for fragments.
pub fn fragments_reply(alloc: Global, fragments: &[Fragment]) -> Result<Vec<u8>, AllocError>
    ensures { IfOk result (λ reply. reply.items ≡ fragments_text (map fragment_tree fragments.now)) }
{
    let count = fragments.len();
    let head = format!(in alloc; "fragments {count}\n")?;
    let mut reply = head.into_bytes();
    push_fragments(alloc, &mut reply, fragments)?;
    Ok(reply)
}
