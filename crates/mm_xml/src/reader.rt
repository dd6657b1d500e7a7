//! From bytes to a tree: both forms, with and without a declaration.

ghost use Rattle.std.specs.Prelude.{◌≡◌, ◌<◌, ◌≤◌, ◌^◌, length, false, IfOk, IsErrOf, IsTrue};
ghost use Rattle.std.specs.Str.{chars};
ghost use Rattle.mm_tree.specs.declared.Kind.{Kind};
ghost use Rattle.mm_tree.specs.Trees.{Tree, tree_of};
ghost use Rattle.mm_tree.specs.Validity.{is_valid_tree};
ghost use Rattle.mm_xml.specs.Grammar.{Spells, normal};
ghost use Rattle.mm_xml.specs.Inside.Machine.{read_as, read_plain, read_all};
ghost use Rattle.mm_xml.specs.Inside.Builds.{order_of, Reads};
ghost use Rattle.mm_xml.specs.Refusals.{IsShallow, IsTooDeep, AnswersFor};

use crate::builder::build;
use crate::declaration::after_declaration;
use crate::decode::{decode, has_line_feeds, with_line_feeds};
use crate::error::XmlError;
use crate::order::Order;
use crate::outline::find_tree;
use mm_tree::Plain;
use std::alloc::Global;

/// The tree that the characters spell in one of the two forms.
fn read_as(alloc: Global, order: Order, text: &str) -> Result<Plain, XmlError>
    requires depth { order.depth ≤ 1 }
    requires squares { order.squares ≡ 0 }
    ensures { Reads result (read_as (order_of order) (chars text.now)) }
{
    match build(alloc, order, text) {
        Err(XmlError::TooDeep) => {
            // What is malformed further on is no XML, however deep.
            find_tree(alloc, order, text)?;
            Err(XmlError::TooDeep)
        }
        answer => answer,
    }
}

/// The tree that the characters spell, in the document form or in the text form, without a declaration.
fn read_plain(alloc: Global, text: &str) -> Result<Plain, XmlError>
    ensures { Reads result (read_plain (chars text.now)) }
{
    match read_as(alloc, Order::document(), text) {
        Err(XmlError::NotXml) => read_as(alloc, Order::text(), text),
        answer => answer,
    }
}

/// The tree that the characters spell. Behind an XML declaration stands a document.
fn read_characters(alloc: Global, text: &str) -> Result<Plain, XmlError>
    ensures { Reads result (read_all (chars text.now)) }
{
    match after_declaration(text) {
        Some(rest) => read_as(alloc, Order::document(), rest),
        None => read_plain(alloc, text),
    }
}

/// The tree that the characters spell once their line ends are line feeds. Only a text with carriage
/// returns is copied.
fn read_lines(alloc: Global, text: &str) -> Result<Plain, XmlError>
    ensures { Reads result (read_all (normal false (chars text.now))) }
{
    if has_line_feeds(text) {
        return read_characters(alloc, text);
    }
    let lines = with_line_feeds(alloc, text)?;
    read_characters(alloc, lines.as_str())
}

/// The one tree that the bytes spell, an element or a text, if it has at most 200 levels. A text counts
/// as a level.
pub fn read(alloc: Global, bytes: &[u8]) -> Result<Plain, XmlError>
    // What is given is a tree that the bytes spell, and not too deep.
    ensures found { IfOk result (λ p. Spells bytes.now (tree_of p) × IsShallow (tree_of p)) }
    // Whatever tree the bytes spell is given, unless it is too deep or memory runs out.
    ensures only { (t : Tree Kind) → Spells bytes.now t → AnswersFor result t }
    // Bytes that are no XML spell no tree.
    ensures none { IsErrOf result XmlError.NotXml → (t : Tree Kind) → ¬ Spells bytes.now t }
    // Bytes that are too deep spell a tree of more levels.
    ensures deep { IsErrOf result XmlError.TooDeep → (t : Tree Kind) × Spells bytes.now t × IsTooDeep t }
    // What is given can be stored.
    ensures valid { length bytes.now < 2 ^ 32 → IfOk result (λ p. IsTrue (is_valid_tree (tree_of p))) }
{
    match decode(bytes) {
        Some(text) => read_lines(alloc, text),
        None => Err(XmlError::NotXml),
    }
}
