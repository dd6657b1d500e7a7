// Batches: the bytes of changes, written and read.
ghost use Rattle.std.specs.Prelude.{◌≡◌, ◌≤◌, ◌<◌, ◌+◌, ◌++◌, ◌^◌, ℕ, List, Option, IsTrue, true, length, take, drop, OnOk, OnErr, IfOk, IfErr, Some, None};
ghost use Rattle.byteorder.specs.Endian.{big_bytes};
ghost use Rattle.mm_host.specs.declared.damage.Damage.{Damage};
ghost use Rattle.mm_host.specs.declared.damage.Fault.TheVariants as fault;
ghost use Rattle.mm_keeper.specs.Entries.{Entries, HasRoom, IsSorted, put, without, has};
ghost use Rattle.mm_keeper.specs.Blocks.{joined};
ghost use Rattle.mm_journal.specs.Records.{Read};
ghost use Rattle.mm_journal.specs.Records.Read.{Whole, Wrong};
ghost use Rattle.mm_journal.specs.Settled.{MayAnswer};
ghost use Rattle.mm_logmap.specs.Batches.{changed, change_at, change_of_size, batch, encoded};
ghost use Rattle.mm_logmap.specs.Inside.Spelled.{value_of, HasFitKeys};

use byteorder::{BigEndian, ByteOrder};
use mm_host::{Area, Damage, Fault};
use mm_keeper::SortedMap;
use std::alloc::AllocError;

const REMOVED: u16 = 0xFFFF;

const MOST_WEIGHT: u64 = 1 << 42;

// A change that was read, and how many bytes it has.
#[derive(Drop)]
struct Change<'a> {
    key: &'a [u8],
    value: &'a [u8],
    removes: bool,
    size: usize,
}

fn write_lengths(head: &mut [u8], key: u16, value: u16)
    requires { length head.old ≡ 4 }
    ensures { head.new ≡ big_bytes 2 key ++ big_bytes 2 value }
{
    BigEndian::write_u16(head, key);
    BigEndian::write_u16(&mut head[2..], value);
}

/// Adds the bytes of a put to a batch.
#[tactic(auto, unfolding(crate::specs::Batches::encoded))]
pub(crate) fn write_put(staged: &mut Vec<u8>, key: &[u8], value: &[u8]) -> Result<(), AllocError>
    requires key { length key.now ≤ 800 }
    requires value { length value.now ≤ 1024 }
    ensures { OnOk result (staged.new.items ≡ staged.old.items ++ encoded key.now (Some value.now)) }
{
    let mut head = [0u8; 4];
    write_lengths(&mut head, key.len() as u16, value.len() as u16);
    staged.extend_from_slice(&head)?;
    staged.extend_from_slice(key)?;
    staged.extend_from_slice(value)?;
    Ok(())
}

/// Adds the bytes of a remove to a batch.
#[tactic(auto, unfolding(crate::specs::Batches::encoded))]
pub(crate) fn write_remove(staged: &mut Vec<u8>, key: &[u8]) -> Result<(), AllocError>
    requires { length key.now ≤ 800 }
    ensures { OnOk result (staged.new.items ≡ staged.old.items ++ encoded key.now None) }
{
    let mut head = [0u8; 4];
    write_lengths(&mut head, key.len() as u16, REMOVED);
    staged.extend_from_slice(&head)?;
    staged.extend_from_slice(key)?;
    Ok(())
}

fn after(bytes: &[u8], n: usize) -> &[u8]
    requires { n ≤ length bytes.now }
    ensures { result.now ≡ drop n bytes.now }
{
    &bytes[n..]
}

fn piece(bytes: &[u8], from: usize, n: usize) -> &[u8]
    requires { from + n ≤ length bytes.now }
    ensures { result.now ≡ take n (drop from bytes.now) }
{
    &bytes[from..from + n]
}

// The change whose key and value have these lengths.
#[tactic(auto, unfolding(crate::specs::Batches::change_of_size))]
fn read_sized(
    at: u64,
    rest: &[u8],
    key: usize,
    n: usize,
    removes: bool,
) -> Result<Change<'_>, Damage>
    requires key { (1 ≤ key) × (key ≤ 800) }
    requires n { n ≤ 1024 }
    ensures ok { IfOk result (λ c. (next : ℕ → List ℕ → Entries → Read Entries) (map : Entries)
        → change_of_size next at rest.now key n (value_of removes (take n (drop (4 + key) rest.now))) map ≡ next (at + c.size) (drop c.size rest.now) (changed map c.key.now (value_of c.removes c.value.now))) }
    ensures size { IfOk result (λ c. (0 < c.size) × (c.size ≤ length rest.now)) }
    ensures key { IfOk result (λ c. (1 ≤ length c.key.now) × (length c.key.now ≤ 800)) }
    ensures value { IfOk result (λ c. length c.value.now ≤ 1024) }
    ensures err { IfErr result (λ d. (next : ℕ → List ℕ → Entries → Read Entries) (map : Entries)
        → change_of_size next at rest.now key n (value_of removes (take n (drop (4 + key) rest.now))) map ≡ Wrong d) }
{
    let size = 4 + key + n;
    if rest.len() < size {
        return Err(Damage::Cut {
            place: Area::Journal,
            at,
            needed: size as u64,
            held: rest.len() as u64,
        });
    }
    Ok(Change {
        key: piece(rest, 4, key),
        value: piece(rest, 4 + key, n),
        removes,
        size,
    })
}

// The first change of these bytes, which stand at a place of the journal.
#[tactic(auto, unfolding(crate::specs::Batches::change_at, crate::specs::Batches::change_of))]
fn read_change(at: u64, rest: &[u8]) -> Result<Change<'_>, Damage>
    requires { at + length rest.now < 2 ^ 63 }
    ensures ok { IfOk result (λ c. (next : ℕ → List ℕ → Entries → Read Entries) (map : Entries)
        → change_at next at rest.now map ≡ next (at + c.size) (drop c.size rest.now) (changed map c.key.now (value_of c.removes c.value.now))) }
    ensures size { IfOk result (λ c. (0 < c.size) × (c.size ≤ length rest.now)) }
    ensures key { IfOk result (λ c. (1 ≤ length c.key.now) × (length c.key.now ≤ 800)) }
    ensures value { IfOk result (λ c. length c.value.now ≤ 1024) }
    ensures err { IfErr result (λ d. (next : ℕ → List ℕ → Entries → Read Entries) (map : Entries) → change_at next at rest.now map ≡ Wrong d) }
{
    if rest.len() < 4 {
        return Err(Damage::Cut {
            place: Area::Journal,
            at,
            needed: 4,
            held: rest.len() as u64,
        });
    }
    let key = BigEndian::read_u16(rest);
    let value = BigEndian::read_u16(after(rest, 2));
    if key < 1 {
        return Err(Damage::Size {
            at,
            stored: key as u64,
            least: 1,
            most: 800,
        });
    }
    if key > 800 {
        return Err(Damage::Size {
            at,
            stored: key as u64,
            least: 1,
            most: 800,
        });
    }
    if value == REMOVED {
        return read_sized(at, rest, key as usize, 0, true);
    }
    if value > 1024 {
        return Err(Damage::Size {
            at: at + 2,
            stored: value as u64,
            least: 0,
            most: 1024,
        });
    }
    read_sized(at, rest, key as usize, value as usize, false)
}

// Whether the map stays within its bound whatever entry of these lengths is put.
fn has_room(map: &SortedMap, key: &[u8], value: &[u8]) -> bool
    requires key { length key.now ≤ 800 }
    requires value { length value.now ≤ 1024 }
    ensures { IsTrue result → HasRoom (joined map.now) key.now value.now }
{
    let more = key.len() as u64 + value.len() as u64;
    if map.weight() > MOST_WEIGHT - more {
        return false;
    }
    true
}

/// Puts an entry. A map past its bound finds no memory.
pub(crate) fn put(map: &mut SortedMap, key: &[u8], value: &[u8]) -> Result<(), AllocError>
    requires key { (1 ≤ length key.now) × (length key.now ≤ 800) }
    requires value { length value.now ≤ 1024 }
    ensures put { OnOk result (joined map.new ≡ put (joined map.old) key.now value.now) }
    ensures sorted { IsSorted (joined map.old) → IsSorted (joined map.new) }
    ensures fit { HasFitKeys (joined map.old) → HasFitKeys (joined map.new) }
{
    if !has_room(map, key, value) {
        return Err(AllocError);
    }
    match map.put(key, value) {
        Ok(_) => Ok(()),
        Err(error) => Err(error),
    }
}

/// Takes out the entry of a key, and answers whether there was one.
pub(crate) fn remove(map: &mut SortedMap, key: &[u8]) -> bool
    ensures removed { joined map.new ≡ without (joined map.old) key.now }
    ensures told { result ≡ has (joined map.old) key.now }
    ensures sorted { IsSorted (joined map.new) }
    ensures fit { HasFitKeys (joined map.old) → HasFitKeys (joined map.new) }
    ensures short { HasFitKeys (joined map.old) → result ≡ true → length key.now ≤ 800 }
{
    map.remove(key).is_some()
}

// Makes a change in a map.
fn apply(map: &mut SortedMap, change: &Change<'_>) -> Result<(), AllocError>
    requires key { (1 ≤ length change.now.key.now) × (length change.now.key.now ≤ 800) }
    requires value { length change.now.value.now ≤ 1024 }
    ensures changed { OnOk result (joined map.new ≡ changed (joined map.old) change.now.key.now (value_of change.now.removes change.now.value.now)) }
    ensures sorted { IsSorted (joined map.old) → IsSorted (joined map.new) }
    ensures fit { HasFitKeys (joined map.old) → HasFitKeys (joined map.new) }
{
    if change.removes {
        remove(map, change.key);
        return Ok(());
    }
    put(map, change.key, change.value)
}

/// Makes the changes of a batch in a map, or answers the first damage of its bytes.
pub(crate) fn replay(at: u64, payload: &[u8], map: &mut SortedMap) -> Result<(), Fault>
    requires { at + length payload.now < 2 ^ 63 }
    ensures ok { OnOk result (batch at payload.now (joined map.old) ≡ Whole (joined map.new)) }
    ensures sorted { IsSorted (joined map.old) → IsSorted (joined map.new) }
    ensures fit { HasFitKeys (joined map.old) → HasFitKeys (joined map.new) }
    ensures err { IfErr result (MayAnswer ⊥ (λ damage. batch at payload.now (joined map.old) ≡ Wrong damage)) }
{
    let mut rest = payload;
    let mut place = at;
    'changes: while rest.len() > 0 {
        match read_change(place, rest) {
            Err(damage) => return Err(Fault::Damaged(damage)),
            Ok(change) => {
                let size = change.size;
                match apply(map, &change) {
                    Err(_) => return Err(Fault::Memory),
                    Ok(()) => {}
                }
                rest = after(rest, size);
                place += size as u64;
            }
        }
    }
    Ok(())
}
