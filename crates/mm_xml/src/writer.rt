//! From a node to its text, without recursion.

ghost use Rattle.std.specs.Prelude.{◌≡◌, ◌∷◌, ◌++◌, ◌+◌, ◌≤◌, [], IfOk, OnOk};
ghost use Rattle.std.specs.List.{flat_map};
ghost use Rattle.mm_tree.specs.Trees.{one};
ghost use Rattle.mm_tree.specs.Numbering.{node_of};
ghost use Rattle.mm_xml.specs.Writing.{text_byte, value_byte, written_attribute, tag_front, end_tag, written, without_labels};
ghost use Rattle.mm_xml.specs.Inside.Pending.{written_nodes, written_task, written_tasks, whole, turns_of, turns_of_task, turns_of_trees};

use mm_tree::{Attribute, Kind, Node, Text};
use std::alloc::{AllocError, Global};

/// What is still to be written: siblings with all below them, or the end tag of an element.
#[derive(Drop)]
pub enum Task<'a> {
    Siblings(&'a [Node]),
    EndTag(&'a Text),
}

/// What is written, and what is still to be, the last task first.
#[derive(Drop)]
pub struct Writer<'a> {
    pub out: Vec<u8>,
    pub tasks: Vec<Task<'a>>,
}

fn put_text_byte(out: &mut Vec<u8>, byte: u8) -> Result<(), AllocError>
    ensures { OnOk result (out.new.items ≡ out.old.items ++ text_byte byte) }
{
    match byte {
        b'&' => out.extend_from_slice(b"&amp;"),
        b'<' => out.extend_from_slice(b"&lt;"),
        b'>' => out.extend_from_slice(b"&gt;"),
        b'\n' => out.extend_from_slice(b"&#10;"),
        b'\r' => out.extend_from_slice(b"&#13;"),
        _ => Ok(out.push(byte)?),
    }
}

fn put_value_byte(out: &mut Vec<u8>, byte: u8) -> Result<(), AllocError>
    ensures { OnOk result (out.new.items ≡ out.old.items ++ value_byte byte) }
{
    match byte {
        b'&' => out.extend_from_slice(b"&amp;"),
        b'<' => out.extend_from_slice(b"&lt;"),
        b'"' => out.extend_from_slice(b"&quot;"),
        b'\t' => out.extend_from_slice(b"&#9;"),
        b'\n' => out.extend_from_slice(b"&#10;"),
        b'\r' => out.extend_from_slice(b"&#13;"),
        _ => Ok(out.push(byte)?),
    }
}

fn put_text(out: &mut Vec<u8>, text: &Text) -> Result<(), AllocError>
    ensures { OnOk result (out.new.items ≡ out.old.items ++ flat_map text_byte text.now) }
{
    for byte in text.as_bytes() {
        put_text_byte(out, *byte)?;
    }
    Ok(())
}

fn put_value(out: &mut Vec<u8>, value: &Text) -> Result<(), AllocError>
    ensures { OnOk result (out.new.items ≡ out.old.items ++ flat_map value_byte value.now) }
{
    for byte in value.as_bytes() {
        put_value_byte(out, *byte)?;
    }
    Ok(())
}

fn put_attribute(out: &mut Vec<u8>, attribute: &Attribute) -> Result<(), AllocError>
    ensures { OnOk result (out.new.items ≡ out.old.items ++ written_attribute attribute.now) }
{
    out.push(b' ')?;
    out.extend_from_slice(attribute.name.as_bytes())?;
    out.extend_from_slice(b"=\"")?;
    put_value(out, &attribute.value)?;
    out.push(b'"')?;
    Ok(())
}

fn put_tag_front(out: &mut Vec<u8>, name: &Text, attributes: &[Attribute]) -> Result<(), AllocError>
    ensures { OnOk result (out.new.items ≡ out.old.items ++ tag_front name.now attributes.now) }
{
    out.push(b'<')?;
    out.extend_from_slice(name.as_bytes())?;
    for attribute in attributes {
        put_attribute(out, attribute)?;
    }
    Ok(())
}

fn put_end_tag(out: &mut Vec<u8>, name: &Text) -> Result<(), AllocError>
    ensures { OnOk result (out.new.items ≡ out.old.items ++ end_tag name.now) }
{
    out.extend_from_slice(b"</")?;
    out.extend_from_slice(name.as_bytes())?;
    out.push(b'>')?;
    Ok(())
}

impl<'a> Writer<'a> {
    /// Writes a node without its children, which become tasks.
    fn node(&mut self, node: &'a Node) -> Result<(), AllocError>
        ensures whole { OnOk result (whole self.new ≡ self.old.out.items ++ (written_nodes (node.now ∷ []) ++ written_tasks self.old.tasks.items)) }
        ensures turns { OnOk result (turns_of self.new.tasks.items + 2 ≤ turns_of_trees (one (node_of node.now)) + turns_of self.old.tasks.items) }
    {
        match &node.kind {
            Kind::Words { text } => put_text(&mut self.out, text),
            Kind::Element { name, attributes } => {
                put_tag_front(&mut self.out, name, attributes.as_slice())?;
                if node.children.is_empty() {
                    return self.out.extend_from_slice(b"/>");
                }
                self.out.push(b'>')?;
                self.tasks.push(Task::EndTag(name))?;
                self.tasks.push(Task::Siblings(node.children.as_slice()))?;
                Ok(())
            }
        }
    }

    /// Carries a task out, or begins to.
    fn turn(&mut self, task: Task<'a>) -> Result<(), AllocError>
        ensures whole { OnOk result (whole self.new ≡ self.old.out.items ++ (written_task task.entry ++ written_tasks self.old.tasks.items)) }
        ensures turns { OnOk result (turns_of self.new.tasks.items + 1 ≤ turns_of_task task.entry + turns_of self.old.tasks.items) }
    {
        match task {
            Task::EndTag(name) => put_end_tag(&mut self.out, name),
            Task::Siblings(nodes) => {
                let Some((first, rest)) = nodes.split_first() else {
                    return Ok(());
                };
                self.tasks.push(Task::Siblings(rest))?;
                self.node(first)
            }
        }
    }
}

/// The node as XML, in one line without a line end.
pub fn write(alloc: Global, node: &Node) -> Result<Vec<u8>, AllocError>
    ensures { IfOk result (λ bytes. bytes.items ≡ written (without_labels (one (node_of node.now)))) }
{
    let mut writer = Writer {
        out: Vec::new(alloc),
        tasks: Vec::new(alloc),
    };
    writer.node(node)?;
    while let Some(task) = writer.tasks.pop() {
        writer.turn(task)?;
    }
    let Writer { out, tasks: _ } = writer;
    Ok(out)
}
