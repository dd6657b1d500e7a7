//! Queries.

ghost use Rattle.std.specs.Prelude.{◌≡◌};
ghost use Rattle.mm_words.specs.Words.{IsQuery};

use crate::word::Word;
use mm_list::Items;
use std::marker::Model;

/// The most words of a query.
pub const QUERY_LIMIT: usize = 32;

/// A query, seen as its words: 1 to 32, all distinct.
#[derive(Debug, Drop)]
pub struct Query {
    words: Items<Word>,
}

impl Model for Query {
    ghost use Rattle.std.specs.Prelude.{List, ℕ};
    ghost use Rattle.mm_words.specs.Words.{IsQuery};

    ghost Value = { List (List ℕ) };

    ghost view = { λ q. q.words };

    ghost invariant = { λ q. IsQuery q.words };
}

/// The query that has these words.
pub fn of_words(words: Items<Word>) -> Query
    requires { IsQuery words }
    ensures { result ≡ words }
{
    Query { words }
}

impl Query {
    /// Lends its words, in the order in which they were asked for. Takes no memory.
    pub fn words(&self) -> &[Word]
        ensures value { result.now ≡ self.now }
        ensures query { IsQuery self.now }
    {
        self.words.as_slice()
    }
}
