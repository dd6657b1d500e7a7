//! The words that are a node's own.

ghost use Rattle.std.specs.Prelude.{◌≡◌, ◌++◌, IfOk, OnOk, flat_map};
ghost use Rattle.mm_words.specs.Words.{IsSetOf};
ghost use Rattle.mm_tree.specs.Search.{attribute_words, own};

use crate::plain::{Attribute, Kind};
use mm_list::Items;
use mm_words::{Word, push_name_words, push_text_words, sorted_words};
use std::alloc::{AllocError, Global};

/// Puts the words of the attributes' names and values behind those of the list.
fn push_attribute_words(
    alloc: Global,
    attributes: &[Attribute],
    list: &mut Vec<Word>,
) -> Result<(), AllocError>
    ensures { OnOk result (list.new.items ≡ list.old.items ++ flat_map attribute_words attributes.now) }
{
    for attribute in attributes {
        push_name_words(alloc, attribute.name.as_str(), list)?;
        push_text_words(alloc, attribute.value.as_str(), list)?;
    }
    Ok(())
}

/// Puts the node's own words behind those of the list, with repeats.
pub fn push_own_words(alloc: Global, kind: &Kind, list: &mut Vec<Word>) -> Result<(), AllocError>
    ensures { OnOk result (list.new.items ≡ list.old.items ++ own kind.now) }
{
    match kind {
        Kind::Element { name, attributes } => {
            push_name_words(alloc, name.as_str(), list)?;
            push_attribute_words(alloc, attributes.as_slice(), list)
        }
        Kind::Words { text } => push_text_words(alloc, text.as_str(), list),
    }
}

/// The words that are a node's own, sorted and distinct: of an element those of its name, of its
/// attributes' names and of their values; of a text its words.
pub fn own_words(alloc: Global, kind: &Kind) -> Result<Items<Word>, AllocError>
    ensures { IfOk result (IsSetOf (own kind.now)) }
{
    let mut list = Vec::new(alloc);
    push_own_words(alloc, kind, &mut list)?;
    sorted_words(list)
}
