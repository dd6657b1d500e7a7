//! What bytes spell: the two forms, the byte order mark, and that what is written reads back.

ghost use Rattle.std.specs.Prelude.{◌≡◌, ◌++◌, ◌∷◌, [], ◌⊎◌, false, ℕ, List, IsTrue};
ghost use Rattle.std.specs.Str.{chars, encode_utf8_all};
ghost use Rattle.mm_tree.specs.declared.Kind.{Kind};
ghost use Rattle.mm_tree.specs.Trees.{Tree, one, every};
ghost use Rattle.mm_tree.specs.Numbering.{Labelled};
ghost use Rattle.mm_tree.specs.Validity.{is_valid_node};
ghost use Rattle.mm_xml.specs.Grammar.{Spells};
ghost use Rattle.mm_xml.specs.Productions.{is_marked, SpellsDocument, SpellsText};
ghost use Rattle.mm_xml.specs.Writing.{written, without_labels, are_apart, is_marked_text};

use mm_xml::laws::one_spelling;

/// What bytes spell they spell in the document form or in the text form.
pub fn two_forms()
    ensures { (bytes : List ℕ) (t : Tree Kind) → Spells bytes t → SpellsDocument bytes t ⊎ SpellsText bytes t }
{}

/// No bytes spell both a document and a text.
pub fn one_form()
    ensures { (bytes : List ℕ) (t u : Tree Kind) → SpellsDocument bytes t → ¬ SpellsText bytes u }
{
    one_spelling();
}

/// One byte order mark may stand first.
pub fn marked()
    ensures { (bytes : List ℕ) (t : Tree Kind) → is_marked (chars bytes) ≡ false → Spells bytes t → Spells (encode_utf8_all (65279 ∷ []) ++ bytes) t }
{}

/// What is written reads back: what `write` gives for a node spells the node without its labels, where its
/// kinds are valid, its texts have no children and no texts for neighbours, and it isn't itself a text
/// that begins with a byte order mark.
pub fn reads_back()
    ensures { (n : Tree Labelled) → IsTrue (every is_valid_node (without_labels (one n))) → IsTrue (are_apart (without_labels (one n))) → is_marked_text n.0.kind ≡ false → Spells (written (without_labels (one n))) (n.0.kind, without_labels n.1) }
{}
