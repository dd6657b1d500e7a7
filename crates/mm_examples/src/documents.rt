//! The documents of the examples.

use mm_label::Label;
use mm_tree::Forest;
use mm_xml::read;
use std::alloc::{AllocError, Global};
use std::test::Fail;

pub const BIBLIOGRAPHY: &str =
    "<bib><book><title>XML search</title><author>Liu</author></book><book><title>Keyword search</title><author>Chen</author></book></bib>";

/// The book holds all words that the root holds.
pub const NOTES: &str = "<bib><book>xml liu</book><note>xml</note><author>liu</author></bib>";

/// The second player holds fewer of the words than the first.
pub const PLAYERS: &str =
    "<team><name>Bears</name><players><player><name>Gold</name><pos>forward</pos></player><player><name>Miller</name><pos>guard</pos></player></players></team>";

/// Two players with the same words.
pub const GUARDS: &str =
    "<team><name>Bears</name><player><pos>guard</pos></player><player><pos>guard</pos></player></team>";

/// Loads the document so many times.
pub fn load(alloc: Global, forest: &mut Forest, document: &str, times: u8) -> Result<(), Fail> {
    let bytes = document.as_bytes();
    if bytes.len() > 1000 {
        return Err("a long document")?;
    }
    for _ in 0..times {
        forest.load(alloc, read(alloc, bytes)?)?;
    }
    Ok(())
}

/// A forest of so many copies of the document.
pub fn copies(alloc: Global, document: &str, times: u8) -> Result<Forest, Fail> {
    let mut forest = Forest::new(alloc);
    load(alloc, &mut forest, document, times)?;
    Ok(forest)
}

/// Puts a piece behind a text, so many times.
pub fn push_times(text: &mut String, piece: &str, times: usize) -> Result<(), AllocError> {
    for _ in 0..times {
        text.push_str(piece)?;
    }
    Ok(())
}

/// Whether the label has this text.
pub fn has_text(alloc: Global, label: &Label, text: &str) -> Result<bool, AllocError> {
    let own = label.text(alloc)?;
    Ok(own.as_str() == text)
}

/// Whether the labels have these texts.
pub fn have_texts(alloc: Global, labels: &[Label], texts: &[&str]) -> Result<bool, AllocError> {
    for (label, text) in labels.iter().zip(texts) {
        if !has_text(alloc, label, text)? {
            return Ok(false);
        }
    }
    Ok(labels.len() == texts.len())
}
