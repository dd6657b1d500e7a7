// A fragment: what is shown of an answer.
use crate::text::Text;
use mm_label::Label;
use mm_list::Items;
use mm_words::Word;

/// A node as the answer of a search shows it, with the contributors among its children.
#[derive(Drop)]
pub struct Fragment {
    pub label: Label,
    /// An element's own name, and `#text` for a text.
    pub name: Text,
    /// The words of the query that the node itself holds, in the query's order.
    pub matches: Items<Word>,
    pub children: Items<Fragment>,
}

/// Fragments in the order of the document.
pub type Fragments = Items<Fragment>;
