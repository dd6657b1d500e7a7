//! A node that is read piece by piece.

ghost use Rattle.mm_check.specs.Inside.Sizes.{IsSized};

use mm_label::Label;

/// A node of which pieces were read: the number of the last one, and the bytes of them all. All but the last are as long
/// as may be.
#[derive(Drop)]
pub struct Started {
    pub label: Label,
    pub number: u32,
    pub content: Vec<u8>,
    ghost sized: { IsSized number content.items },
}
