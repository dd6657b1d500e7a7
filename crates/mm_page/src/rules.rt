// The rules of a leaf.
ghost use Rattle.std.specs.Prelude.{◌≡◌, ◌+◌, ◌*◌, ◌≤◌, ◌<◌, ℕ, List, [], length, Option};
ghost use Rattle.mm_page.specs.Leaf.{block, number_at, cell_end, key_at, two, IsLeaf, count_of};
ghost use Rattle.mm_page.specs.Rules.{fault_of};
ghost use Rattle.mm_page.specs.Inside.Rows.{IsCell, AreCells};

use crate::bytes::{part, read_two};

/// The first rule that a page breaks: its number, the value that stands there, and the value that is due.
#[derive(Clone, Copy, Debug)]
pub struct Violation {
    pub why: u8,
    pub stored: u64,
    pub due: u64,
}

pub(crate) fn cell_fault(bytes: &[u8], i: usize, at: usize, last: &[u8]) -> Option<Violation>
    requires size { length bytes.now ≡ 4096 }
    requires slot { 16 + 2 * i + 2 ≤ 4096 }
    requires at { at ≤ 4096 }
    ensures fault { result ≡ Rattle.mm_page.specs.Rules.cell_fault bytes.now i at last.now }
    ensures right { result ≡ Option.None → IsCell bytes.now i at last.now }
{
    let slot = read_two(bytes, 16 + 2 * i);
    if at < slot || slot < at {
        return Some(Violation {
            why: 6,
            stored: slot as u64,
            due: at as u64,
        });
    }
    if 4096 < at + 4 {
        return Some(Violation {
            why: 7,
            stored: at as u64 + 4,
            due: 4096,
        });
    }
    let key = read_two(bytes, at);
    let value = read_two(bytes, at + 2);
    let end = at + 4 + key + value;
    if 4096 < end {
        return Some(Violation {
            why: 7,
            stored: end as u64,
            due: 4096,
        });
    }
    if key == 0 {
        return Some(Violation {
            why: 8,
            stored: 0,
            due: 800,
        });
    }
    if 800 < key {
        return Some(Violation {
            why: 8,
            stored: key as u64,
            due: 800,
        });
    }
    if 1024 < value {
        return Some(Violation {
            why: 8,
            stored: value as u64,
            due: 1024,
        });
    }
    if last.cmp(part(bytes, at + 4, key)).is_lt() {
        return None;
    }
    Some(Violation {
        why: 9,
        stored: i as u64 + 1,
        due: 0,
    })
}

/// The first of a leaf's own rules that the bytes break.
pub(crate) fn fault_in(bytes: &[u8]) -> Option<Violation>
    requires { length bytes.now ≡ 4096 }
    ensures fault { result ≡ fault_of bytes.now }
    ensures leaf { result ≡ Option.None → IsLeaf bytes.now }
{
    let sort = bytes[0];
    if sort != 76 {
        return Some(Violation {
            why: 5,
            stored: sort as u64,
            due: 76,
        });
    }
    let count = read_two(bytes, 2);
    if 2040 < count {
        return Some(Violation {
            why: 6,
            stored: count as u64,
            due: 2040,
        });
    }
    let mut at = 16 + 2 * count;
    let mut last = part(bytes, 0, 0);
    'walk: for i in 0..count {
        if let Some(wrong) = cell_fault(bytes, i, at, last) {
            return Some(wrong);
        }
        let key = read_two(bytes, at);
        let value = read_two(bytes, at + 2);
        last = part(bytes, at + 4, key);
        at = at + 4 + key + value;
    }
    None
}
