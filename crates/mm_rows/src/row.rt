//! What one line of the table says.

/// A line of the table.
#[derive(Clone, Copy)]
pub enum Row<'a> {
    /// Nothing stands on it.
    Blank,
    /// A line of the input, which gets a line feed.
    Line(&'a str),
    /// A part of the input, which stands there so many times and gets no line feed.
    Times(u64, &'a str),
    /// The words that the program is called with.
    Words(&'a str),
    /// The calls of the source that fail, counted from 1.
    FailingReads(&'a str),
    /// The calls of the sink that fail, counted from 1.
    FailingWrites(&'a str),
    /// How many bytes a read or a write moves at most.
    Pieces(&'a str),
    /// How many bytes the store may hold.
    Limit(&'a str),
}

/// What stands behind the bar of a line of input.
fn input_row(rest: &str) -> Option<Row<'_>> {
    if rest.is_empty() {
        return Some(Row::Line(rest));
    }
    let (times, text) = rest.split_once(' ')?;
    if times.is_empty() {
        return Some(Row::Line(text));
    }
    match times.parse::<u64>() {
        Ok(times) => Some(Row::Times(times, text)),
        Err(_) => None,
    }
}

/// What the line says, or None where it says nothing that a table may say.
pub fn row_of(line: &str) -> Option<Row<'_>> {
    if line.is_empty() {
        return Some(Row::Blank);
    }
    if let Some(rest) = line.strip_prefix("|") {
        return input_row(rest);
    }
    let (name, value) = line.split_once(": ")?;
    match name {
        "words" => Some(Row::Words(value)),
        "failing reads" => Some(Row::FailingReads(value)),
        "failing writes" => Some(Row::FailingWrites(value)),
        "pieces" => Some(Row::Pieces(value)),
        "limit" => Some(Row::Limit(value)),
        _ => None,
    }
}
