//! The productions of XML 1.0 from parts to the whole. Where a law takes characters in place of bytes, their
//! line ends are turned already: no carriage return. Such laws of a text and of tags are those on bytes, at
//! the bytes of the characters.

ghost use Rattle.std.specs.Prelude.{◌≡◌, ◌++◌, ◌∷◌, [], ◌||◌, false, true, ℕ, List, Option, Some, map, IsTrue};
ghost use Rattle.std.specs.List.{list_all, flat_map};
ghost use Rattle.std.specs.Str.{chars, encode_utf8_all};
ghost use Rattle.mm_tree.specs.declared.Kind.{Kind};
ghost use Rattle.mm_tree.specs.declared.Kind.TheVariants.{Element, Words};
ghost use Rattle.mm_tree.specs.Characters.{is_space};
ghost use Rattle.mm_tree.specs.Trees.{Trees, none, node, Tree};
ghost use Rattle.mm_xml.specs.Letters.{referred, is_free};
ghost use Rattle.mm_xml.specs.Syntax.{is_literal, not_semicolon, Written, spelled_written, attribute_of, External, Token, Section, Comment, Instruction, Start, Close, Doctype, is_token, spelled, Declaration};
ghost use Rattle.mm_xml.specs.Grammar.{spelled_first};
ghost use Rattle.mm_xml.specs.Productions.{is_plain, with_line_feeds, SpellsRun, ends_run, ends_markup, ends_text, SpellsContent, behind_text, SpellsElement, is_misc, SpellsMisc, SpellsProlog, is_first, is_marked, SpellsDocument, SpellsText};
ghost use Rattle.mm_xml.specs.Parts.{SpellsToken, SpellsCharData, SpellsMarkup};

/// A document is an XMLDecl or nothing, Misc with or without a doctypedecl, an element, and Misc.
pub fn document()
    ensures { (first : Option Declaration) (before bytes behind : List ℕ) (t : Tree Kind) → IsTrue (is_first first) → IsTrue (list_all is_plain (spelled_first first)) → SpellsProlog before → SpellsElement bytes t → SpellsMisc behind → SpellsDocument (encode_utf8_all (spelled_first first) ++ (before ++ (bytes ++ behind))) t }
{}

/// An element alone is a document.
pub fn element_alone()
    ensures { (bytes : List ℕ) (t : Tree Kind) → SpellsElement bytes t → SpellsDocument bytes t }
{}

/// Misc, any number, may be none.
pub fn no_misc()
    ensures { SpellsMisc [] }
{}

/// Misc is S, a Comment or a PI, and then Misc.
pub fn misc()
    ensures { (t : Token) (bytes : List ℕ) → IsTrue (is_misc t) → IsTrue (is_token t) → IsTrue (list_all is_plain (spelled t)) → SpellsMisc bytes → SpellsMisc (encode_utf8_all (spelled t) ++ bytes) }
{}

/// What stands before an element may be Misc.
pub fn misc_prolog()
    ensures { (bytes : List ℕ) → SpellsMisc bytes → SpellsProlog bytes }
{}

/// What stands before an element may be Misc, a doctypedecl and Misc.
pub fn doctype()
    ensures { (before behind gap name after : List ℕ) (external : External) → SpellsMisc before → IsTrue (is_token (Doctype gap name external after)) → IsTrue (list_all is_plain (spelled (Doctype gap name external after))) → SpellsMisc behind → SpellsProlog (before ++ (encode_utf8_all (spelled (Doctype gap name external after)) ++ behind)) }
{}

/// A text that isn't blank is the text form of a node.
pub fn text_form()
    ensures { (bytes text : List ℕ) → SpellsRun bytes text → list_all is_space text ≡ false → is_marked (chars bytes) ≡ false → SpellsText bytes (Words (encode_utf8_all text), none) }
{}

/// A text may be nothing.
pub fn no_text()
    ensures { SpellsRun [] [] }
{}

/// A text may be CharData, in which `]]>` doesn't stand.
pub fn char_data()
    ensures { (bytes text : List ℕ) → SpellsCharData bytes text → SpellsRun bytes text }
{}

/// A text may be these characters, among which `]]>` doesn't stand.
pub fn char_data_of_characters()
    ensures { (text : List ℕ) → IsTrue (list_all is_plain text) → IsTrue (list_all is_literal text) → IsTrue (is_free (93 ∷ 93 ∷ 62 ∷ []) text) → SpellsRun (encode_utf8_all text) text }
{}

/// A text may be a Reference or a CDSect, which stand for their characters, or a Comment or a PI, which add none.
pub fn markup()
    ensures { (bytes text : List ℕ) → SpellsMarkup bytes text → SpellsRun bytes text }
{}

/// A text may be a Reference, which stands for its character.
pub fn reference()
    ensures { (body : List ℕ) (c : ℕ) → IsTrue (list_all is_plain body) → IsTrue (list_all not_semicolon body) → referred body ≡ Some c → SpellsRun (encode_utf8_all (38 ∷ (body ++ 59 ∷ []))) (c ∷ []) }
{}

/// A text may be a CDSect, which stands for its characters.
pub fn section()
    ensures { (cs : List ℕ) → IsTrue (is_token (Section cs)) → IsTrue (list_all is_plain cs) → SpellsRun (encode_utf8_all (spelled (Section cs))) cs }
{}

/// A Comment adds nothing to a text.
pub fn comment()
    ensures { (cs : List ℕ) → IsTrue (is_token (Comment cs)) → IsTrue (list_all is_plain cs) → SpellsRun (encode_utf8_all (spelled (Comment cs))) [] }
{}

/// A PI adds nothing to a text.
pub fn instruction()
    ensures { (name cs : List ℕ) → IsTrue (is_token (Instruction name cs)) → IsTrue (list_all is_plain cs) → SpellsRun (encode_utf8_all (spelled (Instruction name cs))) [] }
{}

/// Texts behind one another are one text, where no run of CharData goes on from one to the other.
pub fn joined_text()
    ensures { (a b text more : List ℕ) → SpellsRun a text → SpellsRun b more → IsTrue (ends_run (chars b) || ends_markup (with_line_feeds a)) → SpellsRun (a ++ b) (text ++ more) }
{}

/// An element is an EmptyElemTag.
pub fn empty_element()
    ensures { (bytes name gap : List ℕ) (attributes : List Written) → SpellsToken bytes (Start true name attributes gap) → SpellsElement bytes (Element (encode_utf8_all name) (map attribute_of attributes), none) }
{}

/// An element is an EmptyElemTag of these characters.
pub fn empty_element_tag()
    ensures { (name gap : List ℕ) (attributes : List Written) → IsTrue (is_token (Start true name attributes gap)) → IsTrue (list_all is_plain (flat_map spelled_written attributes ++ gap)) → SpellsElement (encode_utf8_all (spelled (Start true name attributes gap))) (Element (encode_utf8_all name) (map attribute_of attributes), none) }
{}

/// An element is a STag, content and an ETag of the same name.
pub fn element()
    ensures { (opening content closing name gap close_gap : List ℕ) (attributes : List Written) (children : Trees Kind) → SpellsToken opening (Start false name attributes gap) → SpellsContent content children → SpellsToken closing (Close name close_gap) → SpellsElement (opening ++ (content ++ closing)) (Element (encode_utf8_all name) (map attribute_of attributes), children) }
{}

/// An element is a STag and an ETag of these characters, with content between them.
pub fn tags_around_content()
    ensures { (name gap close_gap content : List ℕ) (attributes : List Written) (children : Trees Kind) → IsTrue (is_token (Start false name attributes gap)) → IsTrue (list_all is_plain (flat_map spelled_written attributes ++ gap)) → IsTrue (list_all is_space close_gap) → IsTrue (list_all is_plain close_gap) → SpellsContent content children → SpellsElement (encode_utf8_all (spelled (Start false name attributes gap)) ++ (content ++ encode_utf8_all (spelled (Close name close_gap)))) (Element (encode_utf8_all name) (map attribute_of attributes), children) }
{}

/// Content may be nothing.
pub fn no_content()
    ensures { SpellsContent [] none }
{}

/// Content may be a text, up to the end or the next tag, and then content.
pub fn text_in_content()
    ensures { (bytes text content : List ℕ) (children : Trees Kind) → SpellsRun bytes text → IsTrue (ends_text (chars content)) → SpellsContent content children → SpellsContent (bytes ++ content) (behind_text text children) }
{}

/// Content may be an element, and then content.
pub fn element_in_content()
    ensures { (bytes content : List ℕ) (t : Tree Kind) (children : Trees Kind) → SpellsElement bytes t → SpellsContent content children → SpellsContent (bytes ++ content) (node t.0 t.1 children) }
{}
