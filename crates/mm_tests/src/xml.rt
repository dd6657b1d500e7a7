//! A document read and written, and megabytes of tags, by calls alone: what is taken and what is refused
//! are cases of runs.

ghost use Rattle.std.specs.Prelude.{◌<◌, ◌^◌, length};

use mm_examples::documents::push_times;
use mm_tree::Forest;
use mm_xml::{XmlError, read, write};
use std::alloc::{AllocError, Global};
use std::test::Fail;

/// What is read, written again: read by `Forest::load`, since only a labelled tree can be written.
fn again(alloc: Global, bytes: &[u8]) -> Result<Vec<u8>, Fail>
    requires { length bytes.now < 2 ^ 32 }
{
    let tree = read(alloc, bytes)?;
    let mut forest = Forest::new(alloc);
    forest.load(alloc, tree)?;
    let root = forest.trees().first().ok_or("a tree")?;
    Ok(write(alloc, root)?)
}

#[test]
fn writes_one_line(rt: HostRuntime) -> Result<(), Fail> {
    let bytes =
        b"<!-- made by hand -->\n<note xml:lang=\"en\">Tom <![CDATA[& ]]>Jerry&#x21;<?p q?> <b/></note>";
    let want = b"<note xml:lang=\"en\">Tom &amp; Jerry! <b/></note>";
    let written = again(rt.alloc(), bytes)?;
    assert_eq!(rt; written.as_slice(), want.as_slice());
    Ok(())
}

/// So many start tags, and so many end tags behind them.
fn tags(alloc: Global, starts: usize, ends: usize) -> Result<String, AllocError> {
    let mut text = String::new(alloc);
    push_times(&mut text, "<a>", starts)?;
    push_times(&mut text, "</a>", ends)?;
    Ok(text)
}

/// Whether such tags are no XML, and whether they are too deep.
fn refused(alloc: Global, starts: usize, ends: usize) -> Result<(bool, bool), AllocError> {
    let text = tags(alloc, starts, ends)?;
    match read(alloc, text.as_bytes()) {
        Ok(_) => Ok((false, false)),
        Err(XmlError::NotXml) => Ok((true, false)),
        Err(XmlError::TooDeep) => Ok((false, true)),
        Err(XmlError::Memory) => Err(AllocError),
    }
}

/// Sixteen megabytes of start tags alone, and two million elements inside one another.
#[test]
fn answers_megabytes(rt: HostRuntime) -> Result<(), Fail> {
    assert!(rt; refused(rt.alloc(), 5_592_405, 0)? == (true, false));
    assert!(rt; refused(rt.alloc(), 2_000_000, 2_000_000)? == (false, true));
    Ok(())
}
