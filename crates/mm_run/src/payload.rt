// Payloads, cut from an input.
ghost use Rattle.std.specs.Prelude.{◌≡◌, false, ◌+◌, ◌<◌, ◌≤◌, ◌^◌, ℕ, List, [], ◌++◌, Err, Some, IfOk, take, drop, length, vec_len, if◌then◌else◌};
ghost use Rattle.mm_run.specs.declared.line.ReadError.TheVariants.{Source};
ghost use Rattle.mm_run.specs.Inside.Input.{rest, reach};
ghost use Rattle.mm_run.specs.Forms.{quits};
ghost use Rattle.mm_run.specs.Payloads.{closes, unstopped, joined, ended_rows, payload_of, payload_limit};
ghost use Rattle.mm_run.specs.Inside.Step.{faults_after, EndsRow, GivesRow, GivesNext};

use crate::buffer::Buffer;
use crate::command::{Body, Command, PAYLOAD_LIMIT, Payload};
use crate::line::{Ending, ReadError, read_line};
use crate::reading::Next;
use mm_command::{Line, without_return};
use mm_host::Source;
use std::alloc::{AllocError, Global};

/// Whether a line ends a payload.
#[tactic(auto, unfolding(crate::specs::Payloads::closes))]
fn closes(line: &[u8]) -> bool
    ensures { result ≡ closes line.now }
{
    without_return(line) == b".".as_slice()
}

/// Takes a line that ends a payload away from behind it, and says whether there was one.
fn take_closing(payload: &mut Vec<u8>, start: usize) -> bool
    requires { start ≤ vec_len payload.old }
    ensures closes { result ≡ closes (drop start payload.old.items) }
    ensures items { payload.new.items ≡ (if result then take start payload.old.items else payload.old.items) }
{
    let is_closing = closes(&payload[start..]);
    if is_closing {
        payload.truncate(start);
    }
    is_closing
}

/// Drops the full stop that a payload's line begins with.
fn drop_stop(payload: &mut Vec<u8>, start: usize)
    requires { start ≤ vec_len payload.old }
    ensures { payload.new.items ≡ take start payload.old.items ++ unstopped (drop start payload.old.items) }
{
    if start < payload.len() && payload[start] == b'.' {
        payload.remove(start);
    }
}

/// Makes a line of a payload of what stands behind it, and says whether it fits.
fn end_row(payload: &mut Vec<u8>, start: usize, limit: usize) -> Result<bool, AllocError>
    requires { start ≤ vec_len payload.old }
    ensures { IfOk result (EndsRow (take start payload.old.items ++ unstopped (drop start payload.old.items)) payload.new.items limit) }
{
    drop_stop(payload, start);
    if payload.len() > limit {
        return Ok(false);
    }
    payload.push(b'\n')?;
    Ok(true)
}

/// What a line of a payload is.
#[derive(Clone, Copy, Debug)]
pub enum Row {
    /// It stands behind the payload.
    Added,
    /// With it the payload passes its limit.
    Over,
    /// It ends the payload.
    Closed,
    /// It ends the payload, and the input ends with it.
    LastClosed,
    /// The input ends with it, and the payload has no end.
    Cut,
    /// No end of it came in the bytes that may be taken.
    Full,
}

/// Reads a line of a payload, and puts it with a line feed behind the payload.
fn next_row<S: Source>(
    source: &mut S,
    buffer: &mut Buffer,
    payload: &mut Vec<u8>,
    limit: usize,
) -> Result<Row, ReadError>
    requires few { vec_len payload.old ≤ limit + 1 }
    requires small { limit ≤ 2 ^ 24 }
    ensures row { GivesRow (rest (S.left source.old) buffer.old) (rest (S.left source.new) buffer.new) (reach buffer.old) (reach buffer.new) payload.old.items payload.new.items limit result }
    ensures none { result ≡ Err Source → buffer.new.held ≡ [] }
    ensures faults { S.fault_count source.new ≡ faults_after result (S.fault_count source.old) }
{
    let start = payload.len();
    // Three bytes of a line tell one that ends the payload from one that doesn't.
    match read_line(source, buffer, payload, limit + 4) {
        Err(error) => Err(error),
        Ok(Ending::Full) => Ok(Row::Full),
        Ok(Ending::Input) => {
            if take_closing(payload, start) {
                Ok(Row::LastClosed)
            } else {
                Ok(Row::Cut)
            }
        }
        Ok(Ending::Feed) => {
            if take_closing(payload, start) {
                return Ok(Row::Closed);
            }
            match end_row(payload, start, limit) {
                Err(_) => Err(ReadError::Memory),
                Ok(true) => Ok(Row::Added),
                Ok(false) => Ok(Row::Over),
            }
        }
    }
}

/// The payload of the lines that were read.
fn finished(payload: Vec<u8>) -> Payload
    requires { vec_len payload ≤ payload_limit + 1 }
    ensures { (rows : List (List ℕ)) → payload.items ≡ ended_rows rows → result ≡ payload_of rows }
{
    let mut payload = payload;
    payload.pop();
    Payload::Whole(Body::from_vec(payload))
}

/// Reads the rest of a payload that passed its limit.
fn skip_payload<S: Source>(
    alloc: Global,
    source: &mut S,
    buffer: &mut Buffer,
    form: Option<Line>,
) -> Result<Next, ReadError>
    requires { quits form ≡ false }
    ensures next { (rows : List (List ℕ)) → payload_limit < length (joined rows)
        → GivesNext (Some (record { form = form; rows = rows })) (rest (S.left source.old) buffer.old) (rest (S.left source.new) buffer.new) (reach buffer.old) (reach buffer.new) result }
    ensures none { result ≡ Err Source → buffer.new.held ≡ [] }
    ensures faults { S.fault_count source.new ≡ faults_after result (S.fault_count source.old) }
{
    let mut row = Vec::new(alloc);
    'rows: loop {
        row.clear();
        match next_row(source, buffer, &mut row, 0) {
            Err(error) => return Err(error),
            Ok(Row::Full) => return Ok(Next::Full),
            Ok(Row::Cut) => {
                let payload = Payload::Cut;
                return Ok(Next::Last(Command { form, payload }));
            }
            Ok(Row::LastClosed) => {
                let payload = Payload::Long;
                return Ok(Next::Last(Command { form, payload }));
            }
            Ok(Row::Closed) => {
                let payload = Payload::Long;
                return Ok(Next::Command(Command { form, payload }));
            }
            Ok(Row::Over) => {}
            Ok(Row::Added) => {}
        }
    }
}

/// Reads the payload of a command.
pub fn next_payload<S: Source>(
    alloc: Global,
    source: &mut S,
    buffer: &mut Buffer,
    form: Option<Line>,
) -> Result<Next, ReadError>
    requires { quits form ≡ false }
    ensures next { GivesNext (Some (record { form = form; rows = [] })) (rest (S.left source.old) buffer.old) (rest (S.left source.new) buffer.new) (reach buffer.old) (reach buffer.new) result }
    ensures none { result ≡ Err Source → buffer.new.held ≡ [] }
    ensures faults { S.fault_count source.new ≡ faults_after result (S.fault_count source.old) }
{
    let mut payload = Vec::new(alloc);
    'rows: loop {
        match next_row(source, buffer, &mut payload, PAYLOAD_LIMIT) {
            Err(error) => return Err(error),
            Ok(Row::Full) => return Ok(Next::Full),
            Ok(Row::Cut) => {
                let payload = Payload::Cut;
                return Ok(Next::Last(Command { form, payload }));
            }
            Ok(Row::LastClosed) => {
                let payload = finished(payload);
                return Ok(Next::Last(Command { form, payload }));
            }
            Ok(Row::Closed) => {
                let payload = finished(payload);
                return Ok(Next::Command(Command { form, payload }));
            }
            Ok(Row::Over) => {
                drop(payload);
                return skip_payload(alloc, source, buffer, form);
            }
            Ok(Row::Added) => {}
        }
    }
}
