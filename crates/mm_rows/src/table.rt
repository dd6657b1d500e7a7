//! The table: its lines one after the other, and the case that they are at.

use crate::case::Case;
use crate::row::{Row, row_of};
use crate::text::push_text;
use anyhow::{Result, bail};
use std::alloc::{AllocError, Global};
use std::io;

/// A table that is being read: the case at work, once its title has come.
#[derive(Drop)]
pub struct Table {
    alloc: Global,
    case: Option<Case>,
}

/// The numbers of a list that is parted by spaces; None where a word of it is no number.
fn numbers(alloc: Global, list: &str) -> Result<Option<Vec<u64>>, AllocError> {
    let mut numbers = Vec::new(alloc);
    for word in list.split_whitespace() {
        match word.parse::<u64>() {
            Ok(number) => numbers.push(number)?,
            Err(_) => return Ok(None),
        }
    }
    Ok(Some(numbers))
}

fn words(alloc: Global, list: &str) -> Result<Vec<String>, AllocError> {
    let mut words = Vec::new(alloc);
    for word in list.split_whitespace() {
        words.push(String::from_str(alloc, word)?)?;
    }
    Ok(words)
}

/// Puts the text behind the input so many times; false where it can't be read.
fn push_times(
    alloc: Global,
    input: &mut Vec<u8>,
    times: u64,
    text: &str,
) -> Result<bool, AllocError> {
    for turn in 0..times {
        if !push_text(alloc, input, text, turn)? {
            return Ok(false);
        }
    }
    Ok(true)
}

/// Takes what the row says into the case; false where it can't be read.
fn take_row(alloc: Global, case: &mut Case, row: Row<'_>) -> Result<bool, AllocError> {
    match row {
        Row::Blank => {}
        Row::Line(text) => {
            let is_read = push_text(alloc, &mut case.input, text, 0)?;
            case.input.push(b'\n')?;
            return Ok(is_read);
        }
        Row::Times(times, text) => return push_times(alloc, &mut case.input, times, text),
        Row::Words(list) => case.words = words(alloc, list)?,
        Row::FailingReads(list) => match numbers(alloc, list)? {
            Some(calls) => case.failing_reads = calls,
            None => return Ok(false),
        },
        Row::FailingWrites(list) => match numbers(alloc, list)? {
            Some(calls) => case.failing_writes = calls,
            None => return Ok(false),
        },
        Row::Pieces(number) => match number.parse::<usize>() {
            Ok(most) => case.most = most,
            Err(_) => return Ok(false),
        },
        Row::Limit(number) => match number.parse::<u64>() {
            Ok(limit) => case.limit = Some(limit),
            Err(_) => return Ok(false),
        },
    }
    Ok(true)
}

impl Table {
    /// A table of which nothing is read yet.
    pub fn new(alloc: Global) -> Table {
        Table { alloc, case: None }
    }

    /// Takes the next line. A title ends the case before it, which is run. What stands before the first
    /// title is prose.
    pub fn take<W: io::Write>(&mut self, line: &str, index: usize, out: &mut W) -> Result<()> {
        if line.starts_with("# ") {
            self.end(out)?;
            out.write_all(line.as_bytes())?;
            out.write_all(b"\n")?;
            self.case = Some(Case::new(self.alloc));
            return Ok(());
        }
        let Some(case) = &mut self.case else {
            return Ok(());
        };
        let is_read = match row_of(line) {
            Some(row) => take_row(self.alloc, case, row)?,
            None => false,
        };
        if !is_read {
            bail!("line {} of the table: {line:?}", index.saturating_add(1));
        }
        Ok(())
    }

    /// Runs the last case.
    pub fn end<W: io::Write>(&mut self, out: &mut W) -> Result<()> {
        if let Some(case) = self.case.take() {
            case.outcome(self.alloc)?.report(self.alloc, out)?;
        }
        Ok(())
    }
}
