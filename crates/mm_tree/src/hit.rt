// A hit: the label and the name of an answer.
ghost use Rattle.std.specs.Prelude.{◌≡◌};
ghost use Rattle.mm_tree.specs.Hits.{name_of};

use crate::plain::Kind;
use crate::text::Text;
use mm_label::Label;
use mm_list::Items;

/// A node that answers a search: its label and its name.
#[derive(Drop)]
pub struct Hit {
    pub label: Label,
    pub name: Text,
}

/// The answers of a search, in the order of the document.
pub type Hits = Items<Hit>;

impl Kind {
    /// The name of a node: an element's own name, and `#text` for a text.
    pub fn name(&self) -> &str
        ensures { result.now ≡ name_of self.now }
    {
        match self {
            Kind::Element { name, .. } => name.as_str(),
            Kind::Words { .. } => "#text",
        }
    }
}
