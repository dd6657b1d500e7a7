//! What entries weigh.

ghost use Rattle.std.specs.Prelude.{◌≡◌, ◌+◌, ◌-◌, ◌^◌, length, min};
ghost use Rattle.mm_image.specs.Keyed.{keyed};
ghost use Rattle.mm_keeper.specs.Entries.{weight_of};

use mm_image::Entry;

/// The lengths of all keys and values together, as far as the number goes.
pub fn weight(entries: &[Entry]) -> u64
    ensures { result ≡ min (weight_of (keyed entries.now)) (2 ^ 64 - 1) }
{
    let mut weight = 0u64;
    for entry in entries {
        let key = entry.key.len() as u64;
        let value = entry.value.len() as u64;
        weight = weight.saturating_add(key).saturating_add(value);
    }
    weight
}
