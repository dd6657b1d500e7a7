// A record that was read.
ghost use Rattle.std.specs.Prelude.{◌≡◌, OnOk, IfErr};
ghost use Rattle.mm_journal.specs.Records.{sorts};
ghost use Rattle.mm_journal.specs.Records.Read.{Whole, Wrong};

use mm_host::{Bytes, Damage};

/// What a record holds, and the place of its gate in area Journal.
#[derive(Debug, Drop)]
pub struct Payload {
    pub at: u64,
    pub sort: u8,
    pub bytes: Bytes,
}

/// Whether all records are of the sort that is due, or the damage of the first that isn't.
#[tactic(auto, unfolding(crate::specs::Records::sorts))]
pub fn check_sorts(payloads: &[Payload], due: u8) -> Result<(), Damage>
    ensures ok { OnOk result (sorts due payloads.now ≡ Whole tt) }
    ensures damaged { IfErr result (λ damage. sorts due payloads.now ≡ Wrong damage) }
{
    for payload in payloads {
        if payload.sort != due {
            return Err(Damage::Sort {
                at: payload.at,
                stored: payload.sort,
                due,
            });
        }
    }
    Ok(())
}
