// Commands, cut from an input.
ghost use Rattle.std.specs.Prelude.{◌≡◌, [], Err, None, IfOk, IfErr};
ghost use Rattle.mm_run.specs.declared.line.ReadError.TheVariants.{Source, Memory};
ghost use Rattle.mm_run.specs.Inside.Input.{rest, reach};
ghost use Rattle.mm_run.specs.Inside.Step.{faults_after, GivesNext, IsLast};

use crate::buffer::Buffer;
use crate::command::{Command, Payload};
use crate::forms::{form_of, quits, takes_payload};
use crate::line::{Ending, ReadError, read_line};
use crate::payload::next_payload;
use mm_host::Source;
use std::alloc::Global;

/// How many bytes of a line are kept: with two more than it may have and a carriage return it is too long.
const LINE_KEPT: usize = 65_538;

/// What comes next.
#[derive(Drop)]
pub enum Next {
    Command(Command),
    /// The end of the input ends it.
    Last(Command),
    Quit,
    End,
    /// No whole command came in the bytes that may be taken.
    Full,
}

/// The command on a line that the end of the input ends.
fn last_command(alloc: Global, line: &[u8]) -> Result<Next, ReadError>
    ensures last { IfOk result (λ next. IsLast line.now next) }
    ensures memory { IfErr result (λ e. e ≡ Memory) }
{
    if line.is_empty() {
        return Ok(Next::End);
    }
    let Ok(form) = form_of(alloc, line) else {
        return Err(ReadError::Memory);
    };
    let payload = if takes_payload(&form) {
        Payload::Cut
    } else {
        Payload::Nothing
    };
    Ok(Next::Last(Command { form, payload }))
}

/// Reads a command.
pub fn next_command<S: Source>(
    alloc: Global,
    source: &mut S,
    buffer: &mut Buffer,
) -> Result<Next, ReadError>
    ensures next { GivesNext None (rest (S.left source.old) buffer.old) (rest (S.left source.new) buffer.new) (reach buffer.old) (reach buffer.new) result }
    ensures none { result ≡ Err Source → buffer.new.held ≡ [] }
    ensures faults { S.fault_count source.new ≡ faults_after result (S.fault_count source.old) }
{
    let mut line = Vec::new(alloc);
    match read_line(source, buffer, &mut line, LINE_KEPT) {
        Err(error) => Err(error),
        Ok(Ending::Full) => Ok(Next::Full),
        Ok(Ending::Input) => last_command(alloc, &line),
        Ok(Ending::Feed) => {
            let Ok(form) = form_of(alloc, &line) else {
                return Err(ReadError::Memory);
            };
            if quits(&form) {
                Ok(Next::Quit)
            } else if takes_payload(&form) {
                next_payload(alloc, source, buffer, form)
            } else {
                let payload = Payload::Nothing;
                Ok(Next::Command(Command { form, payload }))
            }
        }
    }
}
