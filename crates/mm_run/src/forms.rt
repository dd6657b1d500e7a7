// What a command line asks for.
ghost use Rattle.std.specs.Prelude.{◌≡◌, IfOk};
ghost use Rattle.mm_run.specs.Forms.{form_of, has_payload, takes_payload, ends_run, quits};

use mm_command::{Line, LineError, read_line};
use std::alloc::{AllocError, Global};

/// What a command line asks for, or None where it is in no form.
pub fn form_of(alloc: Global, line: &[u8]) -> Result<Option<Line>, AllocError>
    ensures { IfOk result (λ form. form ≡ form_of line.now) }
{
    match read_line(alloc, line) {
        Ok(line) => Ok(Some(line)),
        Err(LineError::NotACommand) => Ok(None),
        Err(LineError::Memory) => Err(AllocError),
    }
}

fn has_payload(line: &Line) -> bool
    ensures { result ≡ has_payload line.now }
{
    match line {
        Line::Load | Line::Insert { .. } | Line::Replace { .. } => true,
        Line::Blank
        | Line::Delete { .. }
        | Line::Search { .. }
        | Line::Show { .. }
        | Line::Check
        | Line::Quit => false,
    }
}

/// Whether a payload follows.
pub fn takes_payload(form: &Option<Line>) -> bool
    ensures { result ≡ takes_payload form.now }
{
    match form {
        None => false,
        Some(line) => has_payload(line),
    }
}

fn ends_run(line: &Line) -> bool
    ensures { result ≡ ends_run line.now }
{
    match line {
        Line::Quit => true,
        Line::Blank
        | Line::Load
        | Line::Insert { .. }
        | Line::Delete { .. }
        | Line::Replace { .. }
        | Line::Search { .. }
        | Line::Show { .. }
        | Line::Check => false,
    }
}

/// Whether the run ends.
pub fn quits(form: &Option<Line>) -> bool
    ensures { result ≡ quits form.now }
{
    match form {
        None => false,
        Some(line) => ends_run(line),
    }
}
