//! Builds the tree from the lexemes of a text.

ghost use Rattle.std.specs.Prelude.{◌≡◌, ◌≤◌, []};
ghost use Rattle.std.specs.Str.{chars};
ghost use Rattle.mm_xml.specs.Inside.Lexemes.{sign_of, chars_of};
ghost use Rattle.mm_xml.specs.Inside.Machine.{Before, sign_step, finish_step, read_as};
ghost use Rattle.mm_xml.specs.Inside.Builds.{state_of, order_of, Advances, Finishes, Gives};

use crate::error::XmlError;
use crate::lexeme::Lexeme;
use crate::order::Order;
use crate::stack::Stack;
use crate::text::{clear, is_empty, push, push_all};
use mm_tree::{Kind, Plain};
use std::alloc::Global;

/// The elements that are open, and the characters since the last tag.
#[derive(Drop)]
pub struct Builder {
    pub stack: Stack,
    pub run: String,
}

impl Builder {
    fn new(alloc: Global) -> Builder
        ensures state { state_of result.stack ≡ Before }
        ensures run { chars_of result.run ≡ [] }
    {
        Builder {
            stack: Stack::new(alloc),
            run: String::new(alloc),
        }
    }

    /// Takes the next lexeme in.
    fn step(&mut self, alloc: Global, lexeme: Lexeme<'_>) -> Result<(), XmlError>
        ensures { Advances result (state_of self.old.stack) (state_of self.new.stack) (chars_of self.new.run) (sign_step (state_of self.old.stack) (chars_of self.old.run) (sign_of lexeme.entry)) }
    {
        match lexeme {
            Lexeme::Character(c) => push(&mut self.run, c)?,
            Lexeme::Named(c) => push(&mut self.run, c)?,
            Lexeme::Passage(inner) => push_all(&mut self.run, inner)?,
            Lexeme::Skipped => {}
            Lexeme::Doctype => {}
            Lexeme::Open(empty, name, attributes) => {
                let kind = Kind::Element { name, attributes };
                self.stack.start(alloc, self.run.as_str(), empty, kind)?;
                clear(&mut self.run);
            }
            Lexeme::Close(name) => {
                self.stack.finish_element(alloc, self.run.as_str(), &name)?;
                clear(&mut self.run);
            }
        }
        Ok(())
    }

    /// The tree, where all is closed.
    fn finish(self, alloc: Global) -> Result<Plain, XmlError>
        ensures { Finishes result (state_of self.stack) (finish_step (state_of self.stack) (chars_of self.run)) }
    {
        let Builder { stack, run } = self;
        stack.finish(alloc, run.as_str())
    }
}

/// The tree that the characters spell. Stops at the first level too many, whatever follows.
pub fn build(alloc: Global, order: Order, text: &str) -> Result<Plain, XmlError>
    requires depth { order.depth ≤ 1 }
    requires squares { order.squares ≡ 0 }
    ensures { Gives result (read_as (order_of order) (chars text.now)) }
{
    let mut builder = Builder::new(alloc);
    let mut order = order;
    let mut rest = text;
    for _ in 0..text.len() {
        if is_empty(rest) {
            break;
        }
        let (lexeme, behind) = order.next_lexeme(alloc, rest)?;
        builder.step(alloc, lexeme)?;
        rest = behind;
    }
    if !is_empty(rest) {
        return Err(XmlError::NotXml);
    }
    builder.finish(alloc)
}
