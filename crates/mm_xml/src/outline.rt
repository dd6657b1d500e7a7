//! Whether a text spells a tree, told from the names of the open elements alone.

ghost use Rattle.std.specs.Prelude.{◌≡◌, ◌≤◌, [], false};
ghost use Rattle.std.specs.Str.{chars};
ghost use Rattle.mm_xml.specs.Inside.Outlines.{outlined, is_over, outline_begin, outline_end, outline_leaf, outline_text, outline_open, outline_start, outline_finish, outline_step, outline_as};
ghost use Rattle.mm_xml.specs.Inside.Builds.{outline_of, order_of, Moves, Blanks, Outlines};
ghost use Rattle.mm_xml.specs.Inside.Lexemes.{sign_of};

use crate::error::XmlError;
use crate::lexeme::Lexeme;
use crate::order::Order;
use crate::text::is_empty;
use mm_tree::Text;
use mm_tree::characters::{is_blank, is_space};
use std::alloc::Global;

/// The names of the open elements, and whether a node was met: what tells whether characters spell a
/// tree, without the tree.
#[derive(Drop)]
pub struct Outline {
    pub names: Vec<Text>,
    pub begun: bool,
}

impl Outline {
    fn new(alloc: Global) -> Outline
        ensures { outline_of result ≡ outlined [] false }
    {
        Outline {
            names: Vec::new(alloc),
            begun: false,
        }
    }

    /// Whether the tree was closed.
    fn is_over(&self) -> bool
        ensures { result ≡ is_over (outline_of self.now) }
    {
        self.begun && self.names.is_empty()
    }

    fn begin(&mut self, name: Text) -> Result<(), XmlError>
        ensures { Moves result (outline_of self.new) (outline_begin (outline_of self.old) name) }
    {
        if self.is_over() {
            return Err(XmlError::NotXml);
        }
        self.names.push(name)?;
        self.begun = true;
        Ok(())
    }

    fn end(&mut self, name: &Text) -> Result<(), XmlError>
        ensures { Moves result (outline_of self.new) (outline_end (outline_of self.old).names self.old.begun name.now) }
    {
        match self.names.pop() {
            Some(own) if name.as_bytes() == own.as_bytes() => Ok(()),
            _ => Err(XmlError::NotXml),
        }
    }

    fn leaf(&mut self) -> Result<(), XmlError>
        ensures { Moves result (outline_of self.new) (outline_leaf (outline_of self.old)) }
    {
        if self.is_over() {
            return Err(XmlError::NotXml);
        }
        self.begun = true;
        Ok(())
    }

    fn text(&mut self, blank: bool) -> Result<(), XmlError>
        ensures { Moves result (outline_of self.new) (outline_text (outline_of self.old) blank) }
    {
        if blank { Ok(()) } else { self.leaf() }
    }

    fn open(&mut self, empty: bool, name: Text) -> Result<(), XmlError>
        ensures { Moves result (outline_of self.new) (outline_open (outline_of self.old) empty name) }
    {
        if empty { self.leaf() } else { self.begin(name) }
    }

    fn start(&mut self, blank: bool, empty: bool, name: Text) -> Result<(), XmlError>
        ensures { Moves result (outline_of self.new) (outline_start (outline_of self.old) blank empty name) }
    {
        self.text(blank)?;
        self.open(empty, name)
    }

    fn finish_element(&mut self, blank: bool, name: &Text) -> Result<(), XmlError>
        ensures { Moves result (outline_of self.new) (outline_finish (outline_of self.old) blank name.now) }
    {
        self.text(blank)?;
        self.end(name)
    }

    /// Takes the next lexeme in. Gives whether the characters since the last tag are still blank.
    fn step(&mut self, blank: bool, lexeme: Lexeme<'_>) -> Result<bool, XmlError>
        ensures { Blanks result (outline_of self.new) (outline_step (outline_of self.old) blank (sign_of lexeme.entry)) }
    {
        match lexeme {
            Lexeme::Character(c) => Ok(blank && is_space(c)),
            Lexeme::Named(c) => Ok(blank && is_space(c)),
            Lexeme::Passage(inner) => Ok(blank && is_blank(inner)),
            Lexeme::Skipped | Lexeme::Doctype => Ok(blank),
            Lexeme::Open(empty, name, _) => {
                self.start(blank, empty, name)?;
                Ok(true)
            }
            Lexeme::Close(name) => {
                self.finish_element(blank, &name)?;
                Ok(true)
            }
        }
    }
}

/// Whether the characters spell a tree, however deep. Builds nothing of it.
pub fn find_tree(alloc: Global, order: Order, text: &str) -> Result<(), XmlError>
    requires depth { order.depth ≤ 1 }
    requires squares { order.squares ≡ 0 }
    ensures { Outlines result (outline_as (order_of order) (chars text.now)) }
{
    let mut outline = Outline::new(alloc);
    let mut order = order;
    let mut blank = true;
    let mut rest = text;
    for _ in 0..text.len() {
        if is_empty(rest) {
            break;
        }
        let (lexeme, behind) = order.next_lexeme(alloc, rest)?;
        blank = outline.step(blank, lexeme)?;
        rest = behind;
    }
    if !is_empty(rest) {
        return Err(XmlError::NotXml);
    }
    outline.text(blank)?;
    if outline.is_over() {
        Ok(())
    } else {
        Err(XmlError::NotXml)
    }
}
