//! What a run is asked.

ghost use Rattle.std.specs.Prelude.{◌≡◌, ◌≤◌, ◌^◌, length, vec_len};

use mm_command::Line;
use std::marker::Model;

/// How many bytes a payload has at most.
pub const PAYLOAD_LIMIT: usize = 1 << 24;

/// The bytes of a payload, at most 2^24. Contracts see them as a list.
#[derive(Debug, Drop)]
pub struct Body {
    bytes: Vec<u8>,
}

impl Model for Body {
    ghost use Rattle.std.specs.Prelude.{List, ℕ, vec_len, ◌≤◌, ◌^◌};

    ghost Value = { List ℕ };

    ghost view = { λ body. body.bytes.items };

    ghost invariant = { λ body. vec_len body.bytes ≤ 2 ^ 24 };
}

impl Body {
    /// The bytes as a payload. Takes no memory.
    pub fn from_vec(bytes: Vec<u8>) -> Body
        requires { vec_len bytes ≤ 2 ^ 24 }
        ensures { result ≡ bytes.items }
    {
        Body { bytes }
    }

    /// Lends the bytes.
    pub fn as_slice(&self) -> &[u8]
        ensures value { result.now ≡ self.now }
        ensures bound { length result.now ≤ 2 ^ 24 }
    {
        self.bytes.as_slice()
    }
}

/// What follows a command line.
#[derive(Debug, Drop)]
pub enum Payload {
    /// The line takes no payload.
    Nothing,
    /// The payload's lines, joined by line feeds.
    Whole(Body),
    /// It passed the limit.
    Long,
    /// The end of the input cut it.
    Cut,
}

/// A command with its payload.
#[derive(Drop)]
pub struct Command {
    /// What its line asks for, or None where the line is in no form.
    pub form: Option<Line>,
    pub payload: Payload,
}
