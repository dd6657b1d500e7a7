// Page 0, the head of a paged store.
ghost use Rattle.std.specs.Prelude.{◌≡◌, ◌≤◌, ◌^◌, ◌↔◌, Option, IfOk, OnOk, IfErr};
ghost use Rattle.mm_page.specs.Header.{header_of, header_fault, header_bytes};

use crate::bytes::{read_eight, write_eight};
use crate::rules::Violation;

// The text MMKWPG01.
const MARK: u64 = 0x4D4D_4B57_5047_3031;

const MOST_PAGES: u64 = 1 << 43;

/// The number of pages, page 0 included, and the number of the first leaf.
#[derive(Clone, Copy, Debug)]
pub struct Header {
    pub pages: u64,
    pub first: u64,
}

impl Header {
    /// The header that these bytes spell, or the first of its rules that they break.
    pub fn from_bytes(bytes: &[u8; 4096]) -> Result<Header, Violation>
        ensures header { IfOk result (λ h. h ≡ header_of bytes.now) }
        ensures sound { OnOk result (header_fault bytes.now ≡ Option.None) }
        ensures broken { IfErr result (λ w. header_fault bytes.now ≡ Option.Some w) }
    {
        let mark = read_eight(bytes, 0);
        if mark != MARK {
            return Err(Violation {
                why: 1,
                stored: mark,
                due: MARK,
            });
        }
        let pages = read_eight(bytes, 8);
        if pages < 2 || MOST_PAGES < pages {
            return Err(Violation {
                why: 2,
                stored: pages,
                due: MOST_PAGES,
            });
        }
        Ok(Header {
            pages,
            first: read_eight(bytes, 16),
        })
    }

    /// The bytes of page 0 with this header. They are read back as it, where it keeps the rules.
    pub fn to_bytes(self) -> [u8; 4096]
        ensures bytes { result ≡ header_bytes self }
        ensures reads_back { header_of result ≡ self }
        ensures sound { (header_fault result ≡ Option.None) ↔ ((2 ≤ self.pages) × (self.pages ≤ 2 ^ 43)) }
    {
        let mut bytes = [0; 4096];
        write_eight(&mut bytes, 0, MARK);
        write_eight(&mut bytes, 8, self.pages);
        write_eight(&mut bytes, 16, self.first);
        bytes
    }
}
