//! The query of a text.

ghost use Rattle.std.specs.Prelude.{◌≡◌, IfOk, OnOk, IfErr, None, map, filter};
ghost use Rattle.mm_words.specs.Words.{is_word, kept_words, first_occurrences, query_words};
ghost use Rattle.mm_words.specs.Refusals.{first_long, query_refusal, IsRefusal};

use crate::error::QueryError;
use crate::fold::fold;
use crate::queries::{QUERY_LIMIT, Query, of_words};
use crate::word::{WORD_LIMIT, Word, has_no_zero};
use mm_list::Items;
use std::alloc::{AllocError, Global};
use std::collections::BTreeSet;
use unicode_segmentation::UnicodeSegmentation;

/// The folded words of the text, with repeats and of any length, without those that hold a byte 00.
fn kept_words(alloc: Global, text: &str) -> Result<Items<Items<u8>>, AllocError>
    ensures { IfOk result (λ words. words ≡ kept_words text.now) }
{
    let mut words = Items::new(alloc);
    for piece in text.unicode_words() {
        let word = fold(alloc, piece)?;
        if has_no_zero(word.as_slice()) {
            words.push(word)?;
        }
    }
    Ok(words)
}

/// Each word once, where it comes first.
fn first_occurrences<'a>(alloc: Global, words: &'a [Items<u8>]) -> Result<Vec<&'a [u8]>, AllocError>
    ensures { IfOk result (λ found. map (λ w. w.now) found.items ≡ first_occurrences words.now) }
{
    let mut seen = BTreeSet::new(alloc);
    let mut found = Vec::new(alloc);
    for word in words {
        if seen.insert(word.as_slice())? {
            found.push(word.as_slice())?;
        }
    }
    Ok(found)
}

/// The length of the first word that is too long.
fn first_long(words: &[&[u8]]) -> Option<u64>
    ensures { result ≡ first_long (map (λ w. w.now) words.now) }
{
    for word in words {
        if word.len() > WORD_LIMIT {
            return Some(word.len() as u64);
        }
    }
    None
}

/// The words that have these bytes.
fn words_of(alloc: Global, list: &[&[u8]]) -> Result<Items<Word>, AllocError>
    ensures { IfOk result (λ words. words ≡ filter is_word (map (λ w. w.now) list.now)) }
{
    let mut words = Items::new(alloc);
    for bytes in list {
        if let Some(word) = Word::from_bytes(alloc, bytes)? {
            words.push(word)?;
        }
    }
    Ok(words)
}

/// The query of a text: its distinct folded words, without those that hold a byte 00, in the order in
/// which each first occurs.
///
/// # Errors
///
/// `NoWords` where there is none, else `TooMany` where there are more than 32, else `TooLong` where one
/// has more than 256 bytes. `Memory` alone may come at any time.
pub fn query(alloc: Global, text: &str) -> Result<Query, QueryError>
    ensures words { IfOk result (λ q. q ≡ query_words text.now) }
    ensures accepted { OnOk result (query_refusal (query_words text.now) ≡ None) }
    ensures refused { IfErr result (λ e. IsRefusal e (query_refusal (query_words text.now))) }
{
    let kept = kept_words(alloc, text)?;
    let distinct = first_occurrences(alloc, kept.as_slice())?;
    let found = distinct.len();
    if found == 0 {
        return Err(QueryError::NoWords);
    }
    if found > QUERY_LIMIT {
        return Err(QueryError::TooMany {
            found: found as u64,
        });
    }
    if let Some(bytes) = first_long(distinct.as_slice()) {
        return Err(QueryError::TooLong { bytes });
    }
    let words = words_of(alloc, distinct.as_slice())?;
    Ok(of_words(words))
}
