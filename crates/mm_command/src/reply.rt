// Writing replies.
ghost use Rattle.std.specs.Prelude.{◌≡◌, IfOk, OnOk, ◌++◌};
ghost use Rattle.std.specs.List.{flat_map};
ghost use Rattle.mm_tree.specs.Numbering.{node_of};
ghost use Rattle.mm_command.specs.Replies.{refused_text, done_text, tree_text, hit_line, hits_text, sound_text, unsound_text, verdict_text, reply_text};

use crate::fragments::fragments_reply;
use mm_check::Verdict;
use mm_host::Bytes;
use mm_tree::{Done, Fragments, Hit, Hits, Node, Refusal};
use mm_xml::write;
use std::alloc::{AllocError, Global};

/// The answer of a command.
#[derive(Drop)]
pub enum Reply {
    /// An edit was carried out.
    Done(Done),
    /// A search found these.
    Hits(Hits),
    /// A search for fragments found these.
    Fragments(Fragments),
    /// The node that was asked for.
    Tree(Node),
    /// The map was looked through.
    Checked(Verdict),
    Refused(Refusal),
}

/// The reply of a command that is refused.
fn refused_reply(alloc: Global, refusal: Refusal) -> Result<Vec<u8>, AllocError>
    ensures { IfOk result (λ reply. reply.items ≡ refused_text refusal) }
{
    let number = refusal.number();
    let word = refusal.word();
    let text = format!(in alloc; "no {number} {word}\n")?;
    Ok(text.into_bytes())
}

/// The reply of an edit: the label and the number of nodes of its subtree.
fn done_reply(alloc: Global, done: &Done) -> Result<Vec<u8>, AllocError>
    ensures { IfOk result (λ reply. reply.items ≡ done_text done.now.label done.now.nodes) }
{
    let label = done.label.text(alloc)?;
    let nodes = done.nodes;
    let text = format!(in alloc; "ok {label} {nodes}\n")?;
    Ok(text.into_bytes())
}

fn push_hit(alloc: Global, reply: &mut Vec<u8>, hit: &Hit) -> Result<(), AllocError>
    ensures { OnOk result (reply.new.items ≡ reply.old.items ++ hit_line hit.now) }
{
    let label = hit.label.text(alloc)?;
    let name = hit.name.as_str();
    let line = format!(in alloc; "{label} {name}\n")?;
    reply.extend_from_slice(line.as_bytes())
}

fn push_hits(alloc: Global, reply: &mut Vec<u8>, hits: &[Hit]) -> Result<(), AllocError>
    ensures { OnOk result (reply.new.items ≡ reply.old.items ++ flat_map hit_line hits.now) }
{
    for hit in hits {
        push_hit(alloc, reply, hit)?;
    }
    Ok(())
}

/// The reply of `show`: the node's label, the number of its nodes, and the node as XML.
pub fn tree_reply(alloc: Global, node: &Node) -> Result<Vec<u8>, AllocError>
    ensures { IfOk result (λ reply. reply.items ≡ tree_text (node_of node.now)) }
{
    let label = node.label.text(alloc)?;
    let nodes = node.nodes();
    let head = format!(in alloc; "tree {label} {nodes}\n")?;
    let mut reply = head.into_bytes();
    let xml = write(alloc, node)?;
    reply.extend_from_slice(xml.as_slice())?;
    reply.push(b'\n')?;
    Ok(reply)
}

/// The reply of a search.
fn hits_reply(alloc: Global, hits: &[Hit]) -> Result<Vec<u8>, AllocError>
    ensures { IfOk result (λ reply. reply.items ≡ hits_text hits.now) }
{
    let count = hits.len();
    let head = format!(in alloc; "hits {count}\n")?;
    let mut reply = head.into_bytes();
    push_hits(alloc, &mut reply, hits)?;
    Ok(reply)
}

/// The reply of a check that found an image: how many nodes its forest has.
fn sound_reply(alloc: Global, nodes: u64) -> Result<Vec<u8>, AllocError>
    ensures { IfOk result (λ reply. reply.items ≡ sound_text nodes) }
{
    let text = format!(in alloc; "sound {nodes}\n")?;
    Ok(text.into_bytes())
}

/// The reply of a check that found none: a key that doesn't fit, in lower-case hexadecimal.
fn unsound_reply(alloc: Global, key: &Bytes) -> Result<Vec<u8>, AllocError>
    ensures { IfOk result (λ reply. reply.items ≡ unsound_text key.now) }
{
    let key = hex::encode(alloc, key.as_slice())?;
    let text = format!(in alloc; "unsound {key}\n")?;
    Ok(text.into_bytes())
}

fn checked_reply(alloc: Global, verdict: &Verdict) -> Result<Vec<u8>, AllocError>
    ensures { IfOk result (λ reply. reply.items ≡ verdict_text verdict.now) }
{
    match verdict {
        Verdict::Sound { nodes } => sound_reply(alloc, *nodes),
        Verdict::Unsound { key, .. } => unsound_reply(alloc, key),
    }
}

/// The reply, whose last line ends with a line feed too.
pub fn write_reply(alloc: Global, reply: &Reply) -> Result<Vec<u8>, AllocError>
    ensures { IfOk result (λ bytes. bytes.items ≡ reply_text reply.now) }
{
    match reply {
        Reply::Done(done) => done_reply(alloc, done),
        Reply::Hits(hits) => hits_reply(alloc, hits.as_slice()),
        Reply::Fragments(fragments) => fragments_reply(alloc, fragments.as_slice()),
        Reply::Tree(node) => tree_reply(alloc, node),
        Reply::Checked(verdict) => checked_reply(alloc, verdict),
        Reply::Refused(refusal) => refused_reply(alloc, *refusal),
    }
}
