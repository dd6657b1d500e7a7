// A tree without labels, as a reader gives it.
ghost use Rattle.std.specs.Prelude.{◌≡◌, ◌∷◌, []};

use crate::text::Text;
use mm_list::Items;

/// The most bytes of the name of an element or of an attribute.
pub const NAME_LIMIT: usize = 512;

/// An attribute of an element: its name and its value.
#[derive(Drop)]
pub struct Attribute {
    pub name: Text,
    pub value: Text,
}

/// The attributes of an element, in the order of the document.
pub type Attributes = Items<Attribute>;

/// What a node is: an element with its name and attributes, or a text.
#[derive(Drop)]
pub enum Kind {
    Element { name: Text, attributes: Attributes },
    Words { text: Text },
}

/// A tree without labels, as a reader gives it.
#[derive(Drop)]
pub struct Plain {
    pub kind: Kind,
    pub children: Items<Plain>,
}

/// Trees without labels, in the order of the document.
pub type Plains = Items<Plain>;
