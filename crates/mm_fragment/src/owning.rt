//! The words of a query that a node holds itself, read out of the matches below a root.

ghost use Rattle.std.specs.Prelude.{◌≡◌, ◌≤◌, IfOk, length};
ghost use Rattle.std.specs.List.{list_any};
ghost use Rattle.mm_label.specs.Fronts.{Ordered};
ghost use Rattle.mm_fragment.specs.Inside.Owning.{Precedes, is_before, is_mark, marked_words};

use crate::gathering::doubled;
use mm_label::Label;
use mm_list::{Items, at as item_at};
use mm_match::Mark;
use mm_words::Word;
use std::alloc::{AllocError, Global};

/// Whether the mark stands before that of the label with the bit.
fn is_before(bit: u32, label: &Label, mark: &Mark) -> bool
    ensures { result ≡ is_before bit label.now mark.now }
{
    mark.mask < bit || (mark.mask == bit && mark.label < *label)
}

/// Whether it is the mark of the label with the bit.
fn is_mark(bit: u32, label: &Label, mark: &Mark) -> bool
    ensures { result ≡ is_mark bit label.now mark.now }
{
    mark.mask == bit && mark.label == *label
}

/// Whether the label has a mark with the bit among these, which stand in order.
fn has_mark(marks: &[Mark], bit: u32, label: &Label) -> bool
    ensures { Ordered Precedes marks.now → result ≡ list_any (is_mark bit label.now) marks.now }
{
    let place = marks.partition_point(|mark| is_before(bit, label, mark));
    match item_at(marks, place) {
        Some(mark) => is_mark(bit, label, mark),
        None => false,
    }
}

/// The words that the node with the label holds itself, in the query's order.
pub fn own_words(
    alloc: Global,
    words: &[Word],
    marks: &[Mark],
    label: &Label,
) -> Result<Items<Word>, AllocError>
    requires { length words.now ≤ 32 }
    ensures { Ordered Precedes marks.now → IfOk result (λ own. own ≡ marked_words 1 words.now marks.now label.now) }
{
    let mut own = Items::new(alloc);
    let mut bit = 1;
    for word in words {
        if has_mark(marks, bit, label) {
            own.push(word.copy(alloc)?)?;
        }
        bit = doubled(bit);
    }
    Ok(own)
}
