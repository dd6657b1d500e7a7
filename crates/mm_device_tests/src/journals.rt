//! The journal, byte by byte, and what crashes leave of it.

use mm_host::{Area, Damage, Disk, Fault, MemDisk, Pick};
use mm_journal::{Journal, Sealed, check_sorts};
use std::alloc::{AllocError, Global};
use std::test::Fail;

// The put of the key 03 61 with the value 00 00 00 00 00 00 00 01.
const PUT: [u8; 14] = [0, 2, 0, 8, 3, 0x61, 0, 0, 0, 0, 0, 0, 0, 1];

// The SHA-256 of its length, the sort 1 and the put.
const DIGEST: [u8; 32] = [
    0x4C, 0x99, 0x3D, 0x15, 0x1C, 0x6F, 0x5F, 0xD8, 0x79, 0xEF, 0x1E, 0xA4, 0x30, 0x65, 0x21, 0x4F,
    0x81, 0x01, 0x07, 0x71, 0x95, 0xCF, 0xF1, 0xA8, 0x13, 0x6F, 0xF7, 0x7F, 0x02, 0xAB, 0x8A, 0x96,
];

fn disk_of(alloc: Global, journal: &[u8]) -> Result<MemDisk, AllocError> {
    let journal = Vec::from_slice(alloc, journal)?;
    Ok(MemDisk::new(Vec::new(alloc), journal, Vec::new(alloc), None))
}

// What opening finds: 0 and the number of records, 1 and the numbers of a cut, or 2 and the place of a wrong digest.
fn opened(alloc: Global, disk: &mut MemDisk) -> [u64; 4] {
    match Journal::from_disk(alloc, disk) {
        Ok((_journal, found)) => [0, found.len() as u64, 0, 0],
        Err(
            Fault::Damaged(
                Damage::Cut {
                    at,
                    needed,
                    held,
                    ..
                },
            ),
        ) => [1, at, needed, held],
        Err(Fault::Damaged(Damage::Digest { at, .. })) => [2, at, 0, 0],
        Err(_) => [3, 0, 0, 0],
    }
}

fn found_in(alloc: Global, journal: &[u8]) -> Result<[u64; 4], AllocError> {
    let mut disk = disk_of(alloc, journal)?;
    Ok(opened(alloc, &mut disk))
}

// Adds a record to an empty disk's journal, and takes it back where that is asked.
fn write_put(alloc: Global, disk: &mut MemDisk, is_reset: bool) -> Result<(), Fault> {
    let (mut journal, _found) = Journal::from_disk(alloc, disk)?;
    if journal.is_begun() {
        return Ok(());
    }
    let sealed = Sealed::new(alloc, 1, &PUT)?;
    journal.begin(disk)?;
    journal.append(disk, &sealed)?;
    if is_reset {
        return journal.reset(disk);
    }
    Ok(())
}

// Adds three records to an empty disk's journal. Their gates stand at 0, 42 and 98, the last one at 145.
fn write_three(alloc: Global, disk: &mut MemDisk) -> Result<(), Fault> {
    let (mut journal, _found) = Journal::from_disk(alloc, disk)?;
    if journal.is_begun() {
        return Ok(());
    }
    let first = Sealed::new(alloc, 1, b"")?;
    let second = Sealed::new(alloc, 1, &PUT)?;
    let third = Sealed::new(alloc, 2, b"third")?;
    journal.begin(disk)?;
    journal.append(disk, &first)?;
    journal.append(disk, &second)?;
    journal.append(disk, &third)
}

#[test]
fn an_append_writes_the_bytes_of_the_format(rt: HostRuntime) -> Result<(), Fail> {
    let mut disk = disk_of(rt.alloc(), b"")?;
    assert!(rt; write_put(rt.alloc(), &mut disk, false).is_ok());
    let mut due = Vec::from_slice(rt.alloc(), &[0xA5, 0, 0, 0, 0, 0, 0, 0, 14, 1])?;
    due.extend_from_slice(&PUT)?;
    due.extend_from_slice(&DIGEST)?;
    due.extend_from_slice(&[0])?;
    assert_eq!(rt; disk.bytes(Area::Journal), due.as_slice());
    assert_eq!(rt; opened(rt.alloc(), &mut disk), [0, 1, 0, 0]);
    Ok(())
}

#[test]
fn a_reset_leaves_no_records(rt: HostRuntime) -> Result<(), Fail> {
    let mut disk = disk_of(rt.alloc(), b"")?;
    assert!(rt; write_put(rt.alloc(), &mut disk, true).is_ok());
    assert_eq!(rt; disk.bytes(Area::Journal).len(), 57);
    assert_eq!(rt; opened(rt.alloc(), &mut disk), [0, 0, 0, 0]);
    Ok(())
}

#[test]
fn odd_journals(rt: HostRuntime) -> Result<(), Fail> {
    let mut wrong = [0; 43];
    wrong[0] = 0xA5;
    wrong[9] = 2;
    let table = [
        (b"".as_slice(), [0, 0, 0, 0]),
        (b"\xA5".as_slice(), [0, 0, 0, 0]),
        (b"\x00\xA5\xA5\xFF".as_slice(), [0, 0, 0, 0]),
        (b"\xA5\0\0\0\0\0\0\0\x05\x02a".as_slice(), [1, 0, 43, 11]),
        (wrong.as_slice(), [2, 0, 0, 0]),
    ];
    for (journal, due) in table {
        assert_eq!(rt; found_in(rt.alloc(), journal)?, due);
    }
    Ok(())
}

// What a cut at this length is answered with, behind an open gate at a place whose payload has n bytes.
fn cut(at: u64, n: u64, length: u64) -> [u64; 4] {
    let held = length.saturating_sub(at);
    let needed = if held < 43 { 43 } else { n.saturating_add(43) };
    [1, at, needed, held]
}

fn due_at(length: u64) -> [u64; 4] {
    match length {
        0..=1 => [0, 0, 0, 0],
        2..=42 => cut(0, 0, length),
        43..=98 => cut(42, 14, length),
        99..=145 => cut(98, 5, length),
        _ => [0, 3, 0, 0],
    }
}

#[test]
fn a_journal_cut_at_each_length(rt: HostRuntime) -> Result<(), Fail> {
    let mut disk = disk_of(rt.alloc(), b"")?;
    assert!(rt; write_three(rt.alloc(), &mut disk).is_ok());
    let whole = disk.bytes(Area::Journal);
    assert_eq!(rt; whole.len(), 146);
    for length in 0..147 {
        let front = whole.get(..length).unwrap_or(b"".as_slice());
        assert_eq!(rt; found_in(rt.alloc(), front)?, due_at(length as u64));
    }
    Ok(())
}

// What is found after a crash after so many calls, and 4 where there were fewer.
fn found_after(
    alloc: Global,
    disk: &MemDisk,
    calls: u64,
    pick: Pick,
) -> Result<[u64; 4], AllocError> {
    if calls > disk.calls() {
        return Ok([4, 0, 0, 0]);
    }
    let mut crashed = disk.crash(calls, pick)?;
    Ok(opened(alloc, &mut crashed))
}

#[test]
fn a_crash_leaves_whole_records(rt: HostRuntime) -> Result<(), Fail> {
    let mut disk = disk_of(rt.alloc(), b"")?;
    assert!(rt; write_three(rt.alloc(), &mut disk).is_ok());
    assert_eq!(rt; disk.calls(), 17);
    // The first three calls open the journal, two begin it, and four add each record. How many records there
    // are after so many calls, where all that was written is kept, and where what no sync made sure of is lost.
    let kept = [0, 0, 0, 0, 0, 0, 0, 0, 1, 1, 1, 1, 2, 2, 2, 2, 3, 3];
    let lost = [0, 0, 0, 0, 0, 0, 0, 0, 0, 1, 1, 1, 1, 2, 2, 2, 2, 3];
    let picks = [
        (Pick::Kept, kept),
        (Pick::Filled { byte: 0xA5 }, kept),
        (Pick::Front { bytes: 1 }, kept),
        (Pick::Lost, lost),
        (Pick::Filled { byte: 0 }, lost),
        (Pick::Front { bytes: 0 }, lost),
    ];
    for (pick, counts) in picks {
        for (calls, count) in counts.iter().enumerate() {
            let found = found_after(rt.alloc(), &disk, calls as u64, pick)?;
            assert_eq!(rt; found, [0, *count, 0, 0]);
        }
    }
    Ok(())
}

// The place, the sort and the due sort of the first record of three that isn't of the sort 1.
fn first_odd_sort(alloc: Global, disk: &mut MemDisk) -> [u64; 3] {
    match Journal::from_disk(alloc, disk) {
        Ok((_journal, found)) => match check_sorts(&found, 1) {
            Err(Damage::Sort { at, stored, due }) => [at, stored as u64, due as u64],
            _ => [0, 0, 0],
        },
        Err(_) => [0, 0, 0],
    }
}

#[test]
fn a_record_of_another_sort(rt: HostRuntime) -> Result<(), Fail> {
    let mut disk = disk_of(rt.alloc(), b"")?;
    assert!(rt; write_three(rt.alloc(), &mut disk).is_ok());
    assert_eq!(rt; first_odd_sort(rt.alloc(), &mut disk), [98, 2, 1]);
    Ok(())
}
