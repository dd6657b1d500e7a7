//! Words of the program, and the options that they ask for.

use crate::{WordsError, read_options};
use std::alloc::{AllocError, Global};
use std::test::Fail;

fn owned(alloc: Global, words: &[&str]) -> Result<Vec<String>, AllocError> {
    let mut all = Vec::new(alloc);
    for word in words {
        let mut text = String::new(alloc);
        text.push_str(word)?;
        all.push(text)?;
    }
    Ok(all)
}

#[test]
fn all_four_options(rt: HostRuntime) -> Result<(), Fail> {
    let words = [
        "kwstore",
        "--sample=7",
        "--read-only",
        "--limit",
        "2048",
        "--slice=0",
    ];
    let words = owned(rt.alloc(), words.as_slice())?;
    let options = read_options(rt.alloc(), words.as_slice())?;
    assert_eq!(rt; options.slice, 0);
    assert_eq!(rt; options.limit, 2048);
    assert!(rt; options.read_only);
    assert_eq!(rt; options.sample, Some(7));
    Ok(())
}

#[test]
fn a_slice_of_1025_pages_is_not_taken(rt: HostRuntime) -> Result<(), Fail> {
    let words = owned(rt.alloc(), ["kwstore", "--slice", "1025"].as_slice())?;
    let options = read_options(rt.alloc(), words.as_slice());
    assert!(rt; matches!(options, Err(WordsError::Usage)));
    Ok(())
}
