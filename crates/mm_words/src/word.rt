//! Words.

ghost use Rattle.std.specs.Prelude.{◌≡◌, IfOk, refl, IsTrue};
ghost use Rattle.std.specs.Prelude.{nat_eq};
ghost use Rattle.std.specs.Cmp.{partial_equiv_from_equiv, partial_order_from_agreeing_total};
ghost use Rattle.std.specs.Cmp.Lexicographic.{pointwise, slice_cmp, texts_ties};
ghost use Rattle.std.specs.Ordering.{nat_cmp, as_partial_cmp};
ghost use Rattle.std.proofs.lemmas.Cmp.{nat_list_cmp_total, nat_list_eq_equiv};
ghost use Rattle.std.proofs.Common.{rules};
ghost use Rattle.mm_words.specs.Words.{has_no_zero, is_word, word_in};

use smallvec::SmallVec;
use std::alloc::{AllocError, Global};
use std::cmp::Ordering;
use std::marker::Model;

/// The most bytes of a word.
pub const WORD_LIMIT: usize = 256;

/// A word, seen as its bytes: 1 to 256, none of them 00. A word of at most 16 bytes, as most are, takes
/// no memory of its own.
#[derive(Debug, Drop)]
pub struct Word {
    bytes: SmallVec<u8, 16>,
}

impl Model for Word {
    ghost use Rattle.std.specs.Prelude.{List, ℕ, IsTrue};
    ghost use Rattle.mm_words.specs.Words.{is_word};

    ghost Value = { List ℕ };

    ghost view = { λ w. w.bytes.items };

    ghost invariant = { λ w. IsTrue (is_word w.bytes.items) };
}

pub fn has_no_zero(bytes: &[u8]) -> bool
    ensures { result ≡ has_no_zero bytes.now }
{
    bytes.iter().all(|b| *b != 0)
}

fn is_word(bytes: &[u8]) -> bool
    ensures { result ≡ is_word bytes.now }
{
    1 <= bytes.len() && bytes.len() <= WORD_LIMIT && has_no_zero(bytes)
}

impl Word {
    /// The word of these bytes, or None where they are not 1 to 256 or one of them is 00.
    pub fn from_bytes(alloc: Global, bytes: &[u8]) -> Result<Option<Word>, AllocError>
        ensures { IfOk result (λ word. word ≡ word_in bytes.now) }
    {
        if !is_word(bytes) {
            return Ok(None);
        }
        let bytes = SmallVec::from_slice(alloc, bytes)?;
        Ok(Some(Word { bytes }))
    }

    /// Lends its bytes. Takes no memory.
    pub fn as_bytes(&self) -> &[u8]
        ensures value { result.now ≡ self.now }
        ensures word { IsTrue (is_word self.now) }
    {
        self.bytes.as_slice()
    }

    /// The same word once more.
    pub fn copy(&self, alloc: Global) -> Result<Word, AllocError>
        ensures { IfOk result (λ word. word ≡ self.now) }
    {
        let bytes = SmallVec::from_slice(alloc, self.bytes.as_slice())?;
        Ok(Word { bytes })
    }
}

impl PartialEq for Word {
    ghost eq = { pointwise nat_eq };

    ghost laws = { partial_equiv_from_equiv nat_list_eq_equiv };

    fn eq(&self, other: &Word) -> bool {
        self.bytes.as_slice() == other.bytes.as_slice()
    }
}

impl Eq for Word {
    ghost laws = { nat_list_eq_equiv };
}

impl PartialOrd for Word {
    ghost partial_cmp = { as_partial_cmp (slice_cmp nat_cmp) };

    ghost laws = { partial_order_from_agreeing_total (slice_cmp nat_cmp) nat_list_cmp_total (λ x y. refl) texts_ties };

    fn partial_cmp(&self, other: &Word) -> Option<Ordering> {
        Some(self.cmp(other))
    }
}

/// The order of the bytes.
impl Ord for Word {
    ghost cmp = { slice_cmp nat_cmp };

    ghost total = { nat_list_cmp_total };

    ghost matches_partial_cmp = { Prim.search rules };

    ghost matches_eq = { texts_ties };

    fn cmp(&self, other: &Word) -> Ordering {
        self.bytes.as_slice().cmp(other.bytes.as_slice())
    }
}
