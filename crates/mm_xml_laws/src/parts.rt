//! The productions of XML 1.0 from the whole to its parts: what stands in bytes that spell one. A line end
//! may be any of the three.

ghost use Rattle.std.specs.Prelude.{◌∷◌, ℕ, Bool, List, IsTrue};
ghost use Rattle.mm_tree.specs.declared.Kind.{Kind};
ghost use Rattle.mm_tree.specs.Trees.{Trees, Tree};
ghost use Rattle.mm_xml.specs.Syntax.{Reference, Written, is_written, spelled_written, External, Data, Section, Comment, Instruction, Start, Close, Doctype};
ghost use Rattle.mm_xml.specs.Productions.{SpellsRun, SpellsContent, SpellsElement, SpellsMisc, SpellsProlog, SpellsDocument, SpellsText};
ghost use Rattle.mm_xml.specs.Parts.{SpellsCharacters, SpellsToken, DocumentParts, PrologParts, MiscParts, ElementParts, ContentParts, RunParts, TextParts, ReferenceParts, SectionParts, CommentParts, InstructionParts, SpellsAttributes, StartParts, EndParts, MoreAttributes, AttributeParts, TypeParts};

/// A document is an XMLDecl or nothing, Misc with or without a doctypedecl, an element, and Misc. A byte order
/// mark may come first.
pub fn document_parts()
    ensures { (bytes : List ℕ) (t : Tree Kind) → SpellsDocument bytes t → DocumentParts bytes t }
{}

/// What stands before an element is Misc, or Misc, a doctypedecl and Misc.
pub fn prolog_parts()
    ensures { (bytes : List ℕ) → SpellsProlog bytes → PrologParts bytes }
{}

/// Misc is nothing, or S, a Comment or a PI, and then Misc.
pub fn misc_parts()
    ensures { (bytes : List ℕ) → SpellsMisc bytes → MiscParts bytes }
{}

/// An element is an EmptyElemTag, or a STag, content and an ETag.
pub fn element_parts()
    ensures { (bytes : List ℕ) (t : Tree Kind) → SpellsElement bytes t → ElementParts bytes t }
{}

/// Content is nothing, or begins with an element or a text and goes on as content.
pub fn content_parts()
    ensures { (bytes : List ℕ) (children : Trees Kind) → SpellsContent bytes children → ContentParts bytes children }
{}

/// A text is nothing, or CharData as far as it goes, a Reference, a CDSect, a Comment or a PI, and then a text.
pub fn text_parts()
    ensures { (bytes text : List ℕ) → SpellsRun bytes text → RunParts bytes text }
{}

/// The text form is a text that isn't blank. A byte order mark may come first.
pub fn text_form_parts()
    ensures { (bytes : List ℕ) (t : Tree Kind) → SpellsText bytes t → TextParts bytes t }
{}

/// A Reference is `&`, a name or a number, and `;`.
pub fn reference_parts()
    ensures { (bytes body : List ℕ) → SpellsToken bytes (Data (Reference body)) → ReferenceParts bytes body }
{}

/// A CDSect is `<![CDATA[`, Chars, and the first `]]>`.
pub fn section_parts()
    ensures { (bytes cs : List ℕ) → SpellsToken bytes (Section cs) → SectionParts bytes cs }
{}

/// A Comment is `<!--`, Chars without `--`, and `-->`.
pub fn comment_parts()
    ensures { (bytes cs : List ℕ) → SpellsToken bytes (Comment cs) → CommentParts bytes cs }
{}

/// A PI is `<?`, a name but `xml`, what is behind white space, and the first `?>`.
pub fn instruction_parts()
    ensures { (bytes name cs : List ℕ) → SpellsToken bytes (Instruction name cs) → InstructionParts bytes name cs }
{}

/// A STag is `<`, a name, attributes and `>`; an EmptyElemTag ends with `/>`.
pub fn start_parts()
    ensures { (bytes name gap : List ℕ) (empty : Bool) (attributes : List Written) → SpellsToken bytes (Start empty name attributes gap) → StartParts bytes empty name attributes gap }
{}

/// An ETag is `</`, a name and `>`.
pub fn end_parts()
    ensures { (bytes name gap : List ℕ) → SpellsToken bytes (Close name gap) → EndParts bytes name gap }
{}

/// Attributes are the first and the others.
pub fn attributes_parts()
    ensures { (bytes : List ℕ) (first : Written) (others : List Written) → SpellsAttributes bytes (first ∷ others) → MoreAttributes bytes first others }
{}

/// An Attribute is a name, Eq and a value in quotes.
pub fn attribute_parts()
    ensures { (bytes : List ℕ) (a : Written) → IsTrue (is_written a) → SpellsCharacters bytes (spelled_written a) → AttributeParts bytes a }
{}

/// A doctypedecl is `<!DOCTYPE`, a name, an ExternalID or none, and `>`.
pub fn doctype_parts()
    ensures { (bytes gap name after : List ℕ) (external : External) → SpellsToken bytes (Doctype gap name external after) → TypeParts bytes gap name external after }
{}
