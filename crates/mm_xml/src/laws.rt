//! Laws of the definition that the reader is held to. Each function's contract is a law, and its proof is
//! all that it does. `one_tree` says that the definition leaves no choice, `valid_tree` that what is spelled
//! can be stored. The productions of XML 1.0, as laws of the same definition, stand in the crate mm_xml_laws.

ghost use Rattle.std.specs.Prelude.{◌≡◌, ◌<◌, ◌^◌, ℕ, List, Option, length, IsTrue};
ghost use Rattle.mm_tree.specs.declared.Kind.{Kind};
ghost use Rattle.mm_tree.specs.Trees.{Tree};
ghost use Rattle.mm_tree.specs.Validity.{is_valid_tree};
ghost use Rattle.mm_xml.specs.Syntax.{Token, Declaration};
ghost use Rattle.mm_xml.specs.Grammar.{SpellsBy, Spells};

/// Bytes spell at most one tree.
pub fn one_tree()
    ensures { (bytes : List ℕ) (t u : Tree Kind) → Spells bytes t → Spells bytes u → t ≡ u }
{}

/// What bytes spell, they spell by one list of tokens, behind a declaration or none.
pub fn one_spelling()
    ensures { (bytes : List ℕ) (t u : Tree Kind) (first other : Option Declaration) (tokens others : List Token) → SpellsBy bytes t first tokens → SpellsBy bytes u other others → tokens ≡ others }
{}

/// The tree that bytes spell can be stored, if the bytes are fewer than 2^32.
pub fn valid_tree()
    ensures { (bytes : List ℕ) (t : Tree Kind) → length bytes < 2 ^ 32 → Spells bytes t → IsTrue (is_valid_tree t) }
{}
