// Why a command is refused, with its number and its word.
ghost use Rattle.std.specs.Prelude.{◌≡◌, Some};
ghost use Rattle.mm_tree.specs.Refusals.{number_of, word_of};

use mm_label::LabelError;
use std::alloc::AllocError;
use std::fmt;
use thiserror::Error;

/// Why a command is refused. Where several causes stand together, the first in this order counts.
#[derive(Clone, Copy, Debug, PartialEq, Eq)]
pub enum Refusal {
    /// The line has no form that is known, or its payload has no end.
    Command,
    /// The payload is too long.
    Size,
    /// Nothing may be changed.
    Readonly,
    /// The text is not the canonical text of a label.
    Label,
    /// The query has no word.
    Words,
    /// The query has too many words.
    Many,
    /// A word of the query is too long.
    Long,
    /// No node has the label.
    Absent,
    /// A text can have no children.
    Leaf,
    /// The payload spells no node.
    Xml,
    /// A text would stand on top.
    Top,
    /// A node would stand too deep.
    Deep,
    /// A new label would be too long, or a component of it out of range.
    Room,
    /// The store would pass its limit.
    Full,
}

impl Refusal {
    /// Its number, from 10 to 23.
    pub fn number(&self) -> u8
        ensures { result ≡ number_of self.now }
    {
        match self {
            Refusal::Command => 10,
            Refusal::Size => 11,
            Refusal::Readonly => 12,
            Refusal::Label => 13,
            Refusal::Words => 14,
            Refusal::Many => 15,
            Refusal::Long => 16,
            Refusal::Absent => 17,
            Refusal::Leaf => 18,
            Refusal::Xml => 19,
            Refusal::Top => 20,
            Refusal::Deep => 21,
            Refusal::Room => 22,
            Refusal::Full => 23,
        }
    }

    /// Its word, in small letters.
    pub fn word(&self) -> &'static str
        ensures { result.now ≡ word_of self.now }
    {
        match self {
            Refusal::Command => "command",
            Refusal::Size => "size",
            Refusal::Readonly => "readonly",
            Refusal::Label => "label",
            Refusal::Words => "words",
            Refusal::Many => "many",
            Refusal::Long => "long",
            Refusal::Absent => "absent",
            Refusal::Leaf => "leaf",
            Refusal::Xml => "xml",
            Refusal::Top => "top",
            Refusal::Deep => "deep",
            Refusal::Room => "room",
            Refusal::Full => "full",
        }
    }
}

/// Its word.
impl fmt::Display for Refusal {
    ghost output = { λ refusal. Some (word_of refusal) };

    fn fmt<W: fmt::Write>(&self, f: &mut fmt::Formatter<W>) -> fmt::Result {
        let word = self.word();
        write!(f, "{word}")
    }
}

/// Why a tree isn't taken into a forest.
#[derive(Clone, Copy, Debug, PartialEq, Eq, Error)]
pub enum TreeError {
    #[error("refused: {0}")]
    Refused(Refusal),
    #[error("out of memory")]
    Memory,
}

impl From<AllocError> for TreeError {
    ghost use Rattle.mm_tree.specs.declared.refusal.TreeError.TheVariants.{Memory};

    ghost from_gives = { λ _ e. e ≡ Memory };

    fn from(_error: AllocError) -> TreeError {
        TreeError::Memory
    }
}

impl From<LabelError> for TreeError {
    ghost use Rattle.mm_tree.specs.Refusals.{of_label};

    ghost from_gives = { λ l e. e ≡ of_label l };

    fn from(error: LabelError) -> TreeError {
        match error {
            LabelError::Memory => TreeError::Memory,
            _ => TreeError::Refused(Refusal::Room),
        }
    }
}
