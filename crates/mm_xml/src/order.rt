//! Which lexeme may stand where.

ghost use Rattle.std.specs.Prelude.{◌≡◌, ◌+◌, ◌<◌, ◌≤◌, ◌^◌, false, true, IfOk, IsTrue};
ghost use Rattle.std.specs.Str.{chars};
ghost use Rattle.mm_xml.specs.Inside.Machine.{document as document_order, text as text_order, sign_may, sign_next};
ghost use Rattle.mm_xml.specs.Inside.Builds.{order_of, Follows};
ghost use Rattle.mm_xml.specs.Grammar.{is_inside};
ghost use Rattle.mm_xml.specs.Inside.Lexemes.{sign_of};

use crate::error::XmlError;
use crate::lexeme::{Lexeme, next_passage};
use mm_tree::characters::is_space;
use std::alloc::Global;

/// What the lexemes so far leave open: how many `]` stand just before, whether a document type may still
/// stand, how many elements are open, and whether all is a text, which has no tags.
#[derive(Clone, Copy, Debug)]
pub struct Order {
    pub squares: usize,
    pub before: bool,
    pub depth: usize,
    pub textual: bool,
}

impl Order {
    /// Where a document begins.
    pub fn document() -> Order
        ensures order { order_of result ≡ document_order }
        ensures depth { result.depth ≡ 0 }
        ensures squares { result.squares ≡ 0 }
    {
        Order {
            squares: 0,
            before: true,
            depth: 0,
            textual: false,
        }
    }

    /// Where a text begins, as if inside an element.
    pub fn text() -> Order
        ensures order { order_of result ≡ text_order }
        ensures depth { result.depth ≡ 1 }
        ensures squares { result.squares ≡ 0 }
    {
        Order {
            squares: 0,
            before: false,
            depth: 1,
            textual: true,
        }
    }

    /// Whether an element is open, or all is a text.
    pub fn is_inside(&self) -> bool
        ensures { result ≡ is_inside self.now.depth }
    {
        self.depth > 0
    }

    /// Whether the lexeme may stand here.
    fn may(&self, lexeme: &Lexeme<'_>) -> bool
        ensures { result ≡ sign_may (order_of self.now) (sign_of lexeme.now) }
    {
        match lexeme {
            Lexeme::Character(c) => {
                !(*c == '>' && self.squares >= 2) && (self.depth > 0 || is_space(*c))
            }
            Lexeme::Named(_) | Lexeme::Passage(_) => self.depth > 0,
            Lexeme::Skipped => true,
            Lexeme::Doctype => self.before,
            Lexeme::Open(_, _, _) | Lexeme::Close(_) => !self.textual,
        }
    }

    /// What the lexeme leaves open.
    fn advance(&mut self, lexeme: &Lexeme<'_>)
        requires deep { self.old.depth + 1 < 2 ^ 64 }
        requires square { self.old.squares + 1 < 2 ^ 64 }
        ensures order { order_of self.new ≡ sign_next (order_of self.old) (sign_of lexeme.now) }
        ensures depth { self.new.depth ≤ self.old.depth + 1 }
        ensures squares { self.new.squares ≤ self.old.squares + 1 }
    {
        let squares = self.squares;
        self.squares = 0;
        match lexeme {
            Lexeme::Character(c) => {
                if *c == ']' {
                    self.squares = squares + 1;
                }
            }
            Lexeme::Open(empty, _, _) => {
                self.before = false;
                if !*empty {
                    self.depth += 1;
                }
            }
            Lexeme::Doctype => {
                self.before = false;
            }
            Lexeme::Close(_) => {
                self.before = false;
                self.depth = self.depth.saturating_sub(1);
            }
            Lexeme::Named(_) | Lexeme::Passage(_) | Lexeme::Skipped => {}
        }
    }

    /// Takes the lexeme in, where it may stand here.
    fn accept(&mut self, lexeme: &Lexeme<'_>) -> bool
        requires deep { self.old.depth + 1 < 2 ^ 64 }
        requires square { self.old.squares + 1 < 2 ^ 64 }
        ensures may { result ≡ sign_may (order_of self.old) (sign_of lexeme.now) }
        ensures order { IsTrue result → order_of self.new ≡ sign_next (order_of self.old) (sign_of lexeme.now) }
        ensures depth { self.new.depth ≤ self.old.depth + 1 }
        ensures squares { self.new.squares ≤ self.old.squares + 1 }
    {
        let may = self.may(lexeme);
        if may {
            self.advance(lexeme);
        }
        may
    }

    /// Takes in the lexeme at the front, where it may stand here. Gives it, and what comes after it.
    pub fn next_lexeme<'a>(
        &mut self,
        alloc: Global,
        text: &'a str,
    ) -> Result<(Lexeme<'a>, &'a str), XmlError>
        requires deep { self.old.depth + 1 < 2 ^ 64 }
        requires square { self.old.squares + 1 < 2 ^ 64 }
        ensures follows { Follows result (order_of self.old) (order_of self.new) (chars text.now) }
        ensures depth { IfOk result (λ x. self.new.depth ≤ self.old.depth + 1) }
        ensures squares { IfOk result (λ x. self.new.squares ≤ self.old.squares + 1) }
    {
        let Some((lexeme, behind)) = next_passage(alloc, self.is_inside(), text)? else {
            return Err(XmlError::NotXml);
        };
        if self.accept(&lexeme) {
            Ok((lexeme, behind))
        } else {
            Err(XmlError::NotXml)
        }
    }
}
