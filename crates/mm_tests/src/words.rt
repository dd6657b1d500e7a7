//! Worked words, names and queries.

use mm_words::calls::query;
use mm_words::{QueryError, Word, words_of_name, words_of_text};
use std::alloc::{AllocError, Global};
use std::test::Fail;

/// The words, parted by spaces.
fn joined(alloc: Global, words: &[Word]) -> Result<Vec<u8>, AllocError> {
    let mut bytes = Vec::new(alloc);
    for word in words {
        if !bytes.is_empty() {
            bytes.push(b' ')?;
        }
        bytes.extend_from_slice(word.as_bytes())?;
    }
    Ok(bytes)
}

fn of_text(alloc: Global, text: &str) -> Result<Vec<u8>, AllocError> {
    joined(alloc, words_of_text(alloc, text)?.as_slice())
}

fn of_name(alloc: Global, name: &str) -> Result<Vec<u8>, AllocError> {
    joined(alloc, words_of_name(alloc, name)?.as_slice())
}

fn of_query(alloc: Global, text: &str) -> Result<Vec<u8>, QueryError> {
    Ok(joined(alloc, query(alloc, text)?.words())?)
}

/// So many texts in a row.
fn repeated(alloc: Global, text: &str, times: u32) -> Result<String, AllocError> {
    let mut all = String::new(alloc);
    for _ in 0..times {
        all.push_str(text)?;
    }
    Ok(all)
}

/// The words `w0`, `w1` and so on, parted by spaces.
fn numbered(alloc: Global, count: u32) -> Result<String, AllocError> {
    let mut all = String::new(alloc);
    for i in 0..count {
        all.push_str(format!(in alloc; "w{i} ")?.as_str())?;
    }
    Ok(all)
}

// Han and Thai are cut between characters, Hangul isn't, and Hebrew keeps a quote between letters. Two
// spellings of a letter are two words.
#[test]
fn the_words_of_texts(rt: HostRuntime) -> Result<(), Fail> {
    for (text, words) in [
        ("Straße", "strasse"),
        ("can't", "can't"),
        ("w63", "w63"),
        ("b A b a.", "a b"),
        ("xml:lang foo_bar", "foo_bar xml:lang"),
        ("😀 ... !", ""),
        ("\u{e9} e\u{301} \u{c9}", "e\u{301} \u{e9}"),
        (
            "한국어, 漢字 กา צה\"ל МОСКВА Größe",
            "grösse москва צה\"ל ก า 字 漢 한국어",
        ),
    ] {
        let found = of_text(rt.alloc(), text)?;
        assert_eq!(rt; found.as_slice(), words.as_bytes());
    }
    Ok(())
}

#[test]
fn a_word_of_258_bytes_is_none(rt: HostRuntime) -> Result<(), Fail> {
    let long = repeated(rt.alloc(), "İ", 86)?;
    let found = of_text(rt.alloc(), long.as_str())?;
    assert!(rt; found.is_empty());
    Ok(())
}

#[test]
fn the_words_of_names(rt: HostRuntime) -> Result<(), Fail> {
    for (name, words) in [("xml:lang", "lang xml"), ("A-b._c:a", "a b c")] {
        let found = of_name(rt.alloc(), name)?;
        assert_eq!(rt; found.as_slice(), words.as_bytes());
    }
    Ok(())
}

#[test]
fn the_words_of_queries(rt: HostRuntime) -> Result<(), Fail> {
    for (text, words) in [
        ("Search SEARCH liu", "search liu"),
        ("b a. B xml:a", "b a xml:a"),
    ] {
        let found = of_query(rt.alloc(), text)?;
        assert_eq!(rt; found.as_slice(), words.as_bytes());
    }
    Ok(())
}

/// How many words a query has.
fn count(alloc: Global, text: &str) -> Result<usize, QueryError> {
    Ok(query(alloc, text)?.words().len())
}

/// How many words a query of so many words has, all of them standing there so many times.
fn count_numbered(alloc: Global, words: u32, times: u32) -> Result<usize, QueryError> {
    let once = numbered(alloc, words)?;
    let text = repeated(alloc, once.as_str(), times)?;
    count(alloc, text.as_str())
}

#[test]
fn thirty_two_words_are_few(rt: HostRuntime) -> Result<(), Fail> {
    assert_eq!(rt; count_numbered(rt.alloc(), 32, 2), Ok(32));
    assert_eq!(rt;
        count_numbered(rt.alloc(), 33, 1),
        Err(QueryError::TooMany { found: 33 })
    );
    Ok(())
}

/// How many words a query of a long word and so many others has.
fn count_behind_long(alloc: Global, others: u32) -> Result<usize, QueryError> {
    let mut text = repeated(alloc, "İ", 86)?;
    text.push_str(" ")?;
    let numbered = numbered(alloc, others)?;
    text.push_str(numbered.as_str())?;
    count(alloc, text.as_str())
}

#[test]
fn the_first_cause_counts(rt: HostRuntime) -> Result<(), Fail> {
    assert_eq!(rt; count(rt.alloc(), "😀 ..."), Err(QueryError::NoWords));
    assert_eq!(rt;
        count_behind_long(rt.alloc(), 0),
        Err(QueryError::TooLong { bytes: 258 })
    );
    assert_eq!(rt;
        count_behind_long(rt.alloc(), 32),
        Err(QueryError::TooMany { found: 33 })
    );
    Ok(())
}

/// The word that has so many bytes.
fn long(alloc: Global, bytes: u32) -> Result<Option<Word>, AllocError> {
    Word::from_bytes(alloc, repeated(alloc, "a", bytes)?.as_bytes())
}

fn is_word(alloc: Global, bytes: u32) -> Result<bool, AllocError> {
    Ok(long(alloc, bytes)?.is_some())
}

/// Whether the longest word is the same once more.
fn copies(alloc: Global) -> Result<bool, AllocError> {
    match long(alloc, 256)? {
        Some(word) => Ok(word.copy(alloc)? == word),
        None => Ok(false),
    }
}

/// Whether a word stands before the one that goes on behind it.
fn rises(alloc: Global) -> Result<bool, AllocError> {
    let longer = long(alloc, 256)?;
    match (long(alloc, 255)?, longer) {
        (Some(shorter), Some(longer)) => Ok(shorter < longer),
        _ => Ok(false),
    }
}

#[test]
fn two_hundred_and_fifty_six_bytes_are_a_word(rt: HostRuntime) -> Result<(), Fail> {
    let alloc = rt.alloc();
    for (bytes, due) in [(0, false), (255, true), (256, true), (257, false)] {
        assert!(rt; is_word(alloc, bytes)? == due);
    }
    assert!(rt; copies(alloc)?);
    assert!(rt; rises(alloc)?);
    assert!(rt; Word::from_bytes(alloc, b"a\0b")?.is_none());
    Ok(())
}
