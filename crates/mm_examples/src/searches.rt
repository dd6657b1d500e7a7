//! What the searches answer.

use crate::documents::{BIBLIOGRAPHY, NOTES};

/// So many copies of a document, a query, the labels of its smallest answers and those of its exclusive ones.
pub type Case = (
    &'static str,
    u8,
    &'static str,
    &'static [&'static str],
    &'static [&'static str],
);

pub const TABLE: [Case; 8] = [
    (BIBLIOGRAPHY, 0, "liu", &[], &[]),
    (BIBLIOGRAPHY, 1, "liu chen", &["1"], &["1"]),
    (BIBLIOGRAPHY, 1, "absent liu", &[], &[]),
    (
        BIBLIOGRAPHY,
        2,
        "title author",
        &["1.1", "1.3", "3.1", "3.3"],
        &["1.1", "1.3", "3.1", "3.3"],
    ),
    (
        BIBLIOGRAPHY,
        3,
        "chen keyword",
        &["1.3", "3.3", "5.3"],
        &["1.3", "3.3", "5.3"],
    ),
    (NOTES, 1, "xml liu", &["1.1.1"], &["1", "1.1.1"]),
    (
        NOTES,
        2,
        "xml",
        &["1.1.1", "1.3.1", "3.1.1", "3.3.1"],
        &["1.1.1", "1.3.1", "3.1.1", "3.3.1"],
    ),
    (
        NOTES,
        3,
        "book liu",
        &["1.1", "3.1", "5.1"],
        &["1.1", "3.1", "5.1"],
    ),
];
