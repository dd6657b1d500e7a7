//! A whole script.

ghost use Rattle.std.specs.Prelude.{◌≡◌, ◌++◌, IfOk, OnOk};
ghost use Rattle.std.specs.List.{concat};
ghost use Rattle.mm_sample.specs.Draws.{after};
ghost use Rattle.mm_sample.specs.Script.{loads, rounds, script_text};

use crate::commands::{DOCUMENTS, push_change, push_load, push_search};
use crate::draws::Draws;
use std::alloc::{AllocError, Global};

/// How many edits, each with a search, follow the loads.
const ROUNDS: u64 = 300;

fn push_loads(alloc: Global, script: &mut Vec<u8>, draws: &mut Draws) -> Result<(), AllocError>
    ensures text { OnOk result (script.new.items ≡ script.old.items ++ concat (loads 200 0 draws.old.number)) }
    ensures draws { OnOk result (draws.new.number ≡ after 6400 draws.old.number) }
{
    for document in 0..DOCUMENTS {
        push_load(alloc, script, draws, document)?;
    }
    Ok(())
}

fn push_rounds(alloc: Global, script: &mut Vec<u8>, draws: &mut Draws) -> Result<(), AllocError>
    ensures { OnOk result (script.new.items ≡ script.old.items ++ concat (rounds 300 draws.old.number)) }
{
    for round in 0..ROUNDS {
        push_change(alloc, script, draws)?;
        push_search(alloc, script, draws)?;
    }
    Ok(())
}

/// The sample script of a seed: loads of 200 documents, 300 rounds of an edit and a search, and a check.
pub fn script(alloc: Global, seed: u64) -> Result<Vec<u8>, AllocError>
    ensures { IfOk result (λ script. script.items ≡ script_text seed) }
{
    let mut draws = Draws::new(seed);
    let mut script = Vec::new(alloc);
    push_loads(alloc, &mut script, &mut draws)?;
    push_rounds(alloc, &mut script, &mut draws)?;
    script.extend_from_slice(b"check\n")?;
    Ok(script)
}
