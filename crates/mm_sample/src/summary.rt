//! What the replies to a script came to.

ghost use Rattle.std.specs.Prelude.{◌≡◌, IfOk};
ghost use Rattle.mm_sample.specs.Summary.{summary_text};

use std::alloc::{AllocError, Global};

/// The counts over the replies to a script, and what the script left.
#[derive(Clone, Debug, Drop)]
pub struct Summary {
    /// How many commands were answered.
    pub commands: u64,
    /// How many edits were accepted.
    pub accepted: u64,
    /// How many commands were refused.
    pub refused: u64,
    /// The hits and fragments of all searches together.
    pub answers: u64,
    /// How many nodes the last forest has.
    pub nodes: u64,
    /// The weight of its image, in bytes.
    pub weight: u64,
    /// SHA-256 of the bytes of all replies.
    pub digest: [u8; 32],
}

/// The text of a summary: eight lines, each of a name and what it counts; the digest in hexadecimal.
pub fn write_summary(alloc: Global, seed: u64, summary: &Summary) -> Result<Vec<u8>, AllocError>
    ensures { IfOk result (λ text. text.items ≡ summary_text seed summary.now) }
{
    let Summary {
        commands,
        accepted,
        refused,
        answers,
        nodes,
        weight,
        digest,
    } = summary;
    let digest = hex::encode(alloc, digest.as_slice())?;
    let mut text = format!(in alloc;
        "sample {seed}\ncommands {commands}\naccepted {accepted}\nrefused {refused}\n"
    )?;
    let found = format!(in alloc;
        "answers {answers}\nnodes {nodes}\nweight {weight}\nsha256 {digest}\n"
    )?;
    text.push_str(found.as_str())?;
    Ok(text.into_bytes())
}
