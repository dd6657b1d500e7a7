// Numbers and blocks in a page's bytes.
ghost use Rattle.std.specs.Prelude.{◌≡◌, ◌+◌, ◌-◌, ◌≤◌, ◌<◌, ◌++◌, ℕ, List, length, take, drop, replicate};
ghost use Rattle.byteorder.specs.Endian.{big_number, big_bytes};
ghost use Rattle.mm_page.specs.Leaf.{block, pasted, two, first_two, number_at, cell};

use byteorder::{BigEndian, ByteOrder};

/// The number in the two bytes at a place, the highest first.
pub(crate) fn read_two(bytes: &[u8], at: usize) -> usize
    requires { at + 2 ≤ length bytes.now }
    ensures number { result ≡ number_at at bytes.now }
    ensures bytes { block at 2 bytes.now ≡ two result }
    ensures small { result < 65536 }
{
    256 * (bytes[at] as usize) + (bytes[at + 1] as usize)
}

/// So many bytes from a place on.
pub(crate) fn part(bytes: &[u8], at: usize, n: usize) -> &[u8]
    requires { at + n ≤ length bytes.now }
    ensures { result.now ≡ block at n bytes.now }
{
    let rest = &bytes[at..];
    &rest[..n]
}

/// The number in the eight bytes at a place, the highest first.
pub(crate) fn read_eight(bytes: &[u8], at: usize) -> u64
    requires { at + 8 ≤ length bytes.now }
    ensures { result ≡ big_number 8 (drop at bytes.now) }
{
    BigEndian::read_u64(&bytes[at..])
}

/// Writes a number as two bytes, the highest first.
pub(crate) fn write_two(bytes: &mut [u8], at: usize, n: usize)
    requires room { at + 2 ≤ length bytes.old }
    requires small { n < 65536 }
    ensures bytes { bytes.new ≡ pasted bytes.old at (two n) }
    ensures length { length bytes.new ≡ length bytes.old }
{
    bytes[at] = (n / 256) as u8;
    bytes[at + 1] = (n % 256) as u8;
}

/// Writes a number as eight bytes, the highest first.
pub(crate) fn write_eight(bytes: &mut [u8], at: usize, n: u64)
    requires { at + 8 ≤ length bytes.old }
    ensures bytes { bytes.new ≡ pasted bytes.old at (big_bytes 8 n) }
    ensures length { length bytes.new ≡ length bytes.old }
{
    let part = n.to_be_bytes();
    write_part(bytes, at, &part);
}

/// Writes bytes at a place.
pub(crate) fn write_part(bytes: &mut [u8], at: usize, part: &[u8])
    requires { at + length part.now ≤ length bytes.old }
    ensures bytes { bytes.new ≡ pasted bytes.old at part.now }
    ensures length { length bytes.new ≡ length bytes.old }
{
    bytes[at..at + part.len()].copy_from_slice(part);
}

/// Moves a block, which may overlap its new place.
pub(crate) fn move_part(bytes: &mut [u8], from: usize, n: usize, to: usize)
    requires from { from + n ≤ length bytes.old }
    requires to { to + n ≤ length bytes.old }
    ensures bytes { bytes.new ≡ pasted bytes.old to (block from n bytes.old) }
    ensures length { length bytes.new ≡ length bytes.old }
{
    bytes.copy_within(from..from + n, to);
}

/// Writes 00 from a place on.
pub(crate) fn clear_from(bytes: &mut [u8], at: usize)
    requires { at ≤ length bytes.old }
    ensures { bytes.new ≡ pasted bytes.old at (replicate (length bytes.old - at) 0) }
{
    bytes[at..].fill(0);
}

/// Writes an entry's cell.
pub(crate) fn write_cell(bytes: &mut [u8], at: usize, key: &[u8], value: &[u8])
    requires room { at + 4 + length key.now + length value.now ≤ length bytes.old }
    requires key { length key.now ≤ 800 }
    requires value { length value.now ≤ 1024 }
    ensures bytes { bytes.new ≡ pasted bytes.old at (cell (key.now, value.now)) }
    ensures length { length bytes.new ≡ length bytes.old }
{
    write_two(bytes, at, key.len());
    write_two(bytes, at + 2, value.len());
    write_part(bytes, at + 4, key);
    write_part(bytes, at + 4 + key.len(), value);
}
