// Lines, cut from an input.
ghost use Rattle.std.specs.Prelude.{◌≡◌, ◌≤◌, [], Err, vec_len};
ghost use Rattle.mm_run.specs.declared.line.ReadError.TheVariants.{Source};
ghost use Rattle.mm_run.specs.Inside.Input.{rest, reach};
ghost use Rattle.mm_run.specs.Inside.Step.{faults_after, GivesLine};

use crate::buffer::{Buffer, Supply, refill};
use mm_host::Source;
use thiserror::Error;

/// Why no more could be read.
#[derive(Debug, Drop, Error)]
pub enum ReadError {
    #[error("the source failed")]
    Source,
    #[error("memory ran out")]
    Memory,
}

/// What ends a line.
#[derive(Clone, Copy, Debug)]
pub enum Ending {
    Feed,
    /// The end of the input.
    Input,
    /// No end came in the bytes that may be taken.
    Full,
}

/// Puts a line behind a text, as far as the text has at most so many bytes, and answers what ends it.
pub fn read_line<S: Source>(
    source: &mut S,
    buffer: &mut Buffer,
    text: &mut Vec<u8>,
    limit: usize,
) -> Result<Ending, ReadError>
    requires { vec_len text.old ≤ limit }
    ensures line { GivesLine (rest (S.left source.old) buffer.old) (rest (S.left source.new) buffer.new) (reach buffer.old) (reach buffer.new) text.old.items text.new.items limit result }
    ensures bound { vec_len text.new ≤ limit }
    ensures grows { vec_len text.old ≤ vec_len text.new }
    ensures none { result ≡ Err Source → buffer.new.held ≡ [] }
    ensures faults { S.fault_count source.new ≡ faults_after result (S.fault_count source.old) }
{
    'parts: loop {
        match refill(source, buffer) {
            Ok(Supply::Held) => {}
            Ok(Supply::End) => return Ok(Ending::Input),
            Ok(Supply::Full) => return Ok(Ending::Full),
            Err(_) => return Err(ReadError::Source),
        }
        match buffer.take_line(text, limit) {
            Ok(true) => return Ok(Ending::Feed),
            Ok(false) => {}
            Err(_) => return Err(ReadError::Memory),
        }
    }
}
