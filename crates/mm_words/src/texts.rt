//! The words of a text and of a name.

ghost use Rattle.std.specs.Prelude.{◌≡◌, ◌≤◌, ◌++◌, IfOk, OnOk, length};
ghost use Rattle.std.specs.List.{position_or_len};
ghost use Rattle.mm_words.specs.Words.{text_words, is_cut, name_words, IsSetOf};
ghost use Rattle.mm_words.specs.Inside.Cuts.{CutsOnce};

use crate::fold::fold;
use crate::word::Word;
use mm_list::Items;
use std::alloc::{AllocError, Global};
use unicode_segmentation::UnicodeSegmentation;

/// Puts the words of the text behind those of the list, in the order of the text, with repeats. After an
/// `Err` the list may end with some of them.
pub fn push_text_words(alloc: Global, text: &str, list: &mut Vec<Word>) -> Result<(), AllocError>
    ensures { OnOk result (list.new.items ≡ list.old.items ++ text_words text.now) }
{
    for piece in text.unicode_words() {
        let folded = fold(alloc, piece)?;
        if let Some(word) = Word::from_bytes(alloc, folded.as_slice())? {
            list.push(word)?;
        }
    }
    Ok(())
}

/// The words, sorted by their bytes, each once.
pub fn sorted_words(words: Vec<Word>) -> Result<Items<Word>, AllocError>
    ensures { IfOk result (IsSetOf words.items) }
{
    let mut list = words;
    list.sort()?;
    list.dedup();
    Ok(Items::from_vec(list))
}

/// The words of a text, sorted and distinct. Those of more than 256 folded bytes, and those with a byte
/// 00, are left out.
pub fn words_of_text(alloc: Global, text: &str) -> Result<Items<Word>, AllocError>
    ensures { IfOk result (IsSetOf (text_words text.now)) }
{
    let mut list = Vec::new(alloc);
    push_text_words(alloc, text, &mut list)?;
    sorted_words(list)
}

fn is_cut(b: u8) -> bool
    ensures { result ≡ is_cut b }
{
    b == b':' || b == b'-' || b == b'.' || b == b'_'
}

/// Where the first cut is, or the length.
fn cut_place(bytes: &[u8]) -> usize
    ensures value { result ≡ position_or_len is_cut bytes.now }
    ensures bound { result ≤ length bytes.now }
{
    bytes.iter().take_while(|b| !is_cut(**b)).count()
}

/// The name before the first cut, and what stands behind it.
fn cut_once(name: &str) -> Option<(&str, &str)>
    ensures { CutsOnce result name.now }
{
    let i = cut_place(name.as_bytes());
    if i == name.len() {
        return None;
    }
    Some((&name[..i], &name[i + 1..]))
}

/// Puts the words of the name behind those of the list, in the order of the name, with repeats: the
/// words of its pieces, cut at each `:`, `-`, `.` and `_`. After an `Err` the list may end with some of
/// them.
pub fn push_name_words(alloc: Global, name: &str, list: &mut Vec<Word>) -> Result<(), AllocError>
    ensures { OnOk result (list.new.items ≡ list.old.items ++ name_words name.now) }
{
    let mut rest = name;
    while let Some((piece, after)) = cut_once(rest) {
        push_text_words(alloc, piece, list)?;
        rest = after;
    }
    push_text_words(alloc, rest, list)
}

/// The words of a name, sorted and distinct.
pub fn words_of_name(alloc: Global, name: &str) -> Result<Items<Word>, AllocError>
    ensures { IfOk result (IsSetOf (name_words name.now)) }
{
    let mut list = Vec::new(alloc);
    push_name_words(alloc, name, &mut list)?;
    sorted_words(list)
}
