//! Each device once, by hand.

use mm_host::{
    Area, Bytes, Disk, Failed, MemDisk, MemSink, MemSource, NoDisk, Pick, QuietSink, QuietSource,
    Sink, Source, write_all,
};
use std::alloc::{AllocError, Global};
use std::test::Fail;

// What a source gives to one read into five bytes that held dots, and how many of them it says it gave.
fn first_read<S: Source>(source: &mut S) -> Result<(usize, [u8; 5]), Failed> {
    let mut into = [b'.'; 5];
    let count = source.read(&mut into)?;
    Ok((count, into))
}

// Two reads with one that fails between them, and a third at the end: what the two give, how many bytes each gives,
// and how often the source failed.
fn reads(source: &mut MemSource) -> Result<([u8; 5], [u8; 5], [usize; 3], u64), Failed> {
    let (first, whole) = first_read(source)?;
    if first_read(source).is_ok() {
        return Err(Failed);
    }
    let (second, rest) = first_read(&mut &mut *source)?;
    let (third, _) = first_read(source)?;
    Ok((whole, rest, [first, second, third], source.faults()))
}

#[test]
fn a_source_in_memory_gives_its_bytes_and_fails_where_listed(rt: HostRuntime) -> Result<(), Fail> {
    let bytes = Vec::from_slice(rt.alloc(), b"seven b")?;
    let failing = Vec::from_slice(rt.alloc(), &[2])?;
    let mut source = MemSource::new(bytes, failing);
    assert_eq!(rt; reads(&mut source)?, (*b"seven", *b" b...", [5, 2, 0], 1));
    Ok(())
}

// Whether each of three writes of four and five bytes is taken.
fn writes(sink: &mut MemSink) -> [bool; 3] {
    let first = write_all(sink, b"four").is_ok();
    let second = write_all(sink, b"none").is_ok();
    let third = write_all(sink, b"five!").is_ok();
    [first, second, third]
}

#[test]
fn a_sink_in_memory_takes_what_fits_and_fails_where_listed(rt: HostRuntime) -> Result<(), Fail> {
    let failing = Vec::from_slice(rt.alloc(), &[2])?;
    let mut sink = MemSink::new(rt.alloc(), 6, failing)?;
    assert_eq!(rt; writes(&mut sink), [true, false, false]);
    assert_eq!(rt; sink.bytes(), b"fourfi".as_slice());
    assert_eq!(rt; sink.faults(), 2);
    Ok(())
}

#[test]
fn a_quiet_source_never_fails(rt: HostRuntime) -> Result<(), Fail> {
    let mut source = QuietSource::new(Vec::from_slice(rt.alloc(), b"abc")?);
    assert_eq!(rt; first_read(&mut source)?, (3, *b"abc.."));
    assert_eq!(rt; source.faults(), 0);
    Ok(())
}

#[test]
fn a_quiet_sink_never_fails(rt: HostRuntime) {
    let mut sink = QuietSink::new();
    assert!(rt; write_all(&mut sink, b"gone").is_ok());
    assert_eq!(rt; sink.faults(), 0);
}

// Whether each call of a disk that isn't there is answered.
fn calls(disk: &mut NoDisk) -> [bool; 4] {
    let length = disk.len(Area::Pages).is_ok();
    let read = disk.read(Area::Journal, 0, &mut [0; 2]).is_ok();
    let written = disk.write_at(Area::Pages, 0, b"x").is_ok();
    [length, read, written, disk.sync(Area::Journal).is_ok()]
}

#[test]
fn a_disk_that_is_not_there_fails_at_each_call(rt: HostRuntime) {
    let mut disk = NoDisk::new();
    assert_eq!(rt; calls(&mut disk), [false; 4]);
    assert_eq!(rt; [disk.faults(), disk.wants()], [4, 0]);
}

// Three bytes that were kept, how many they are, and whether there were none at first.
fn kept(alloc: Global) -> Result<(Vec<u8>, usize, bool), AllocError> {
    let was_empty = Bytes::new(alloc).is_empty();
    let mut bytes = Bytes::from_slice(alloc, b"ke")?;
    bytes.push(b'y')?;
    let count = bytes.len();
    let again = Bytes::from_vec(bytes.into_vec());
    Ok((again.into_vec(), count, was_empty))
}

// A disk with six bytes of pages and one of journal.
fn small_disk(
    alloc: Global,
    failing: &[u64],
    failing_from: Option<u64>,
) -> Result<MemDisk, AllocError> {
    let pages = Vec::from_slice(alloc, b"abcdef")?;
    let journal = Vec::from_slice(alloc, b"j")?;
    let failing = Vec::from_slice(alloc, failing)?;
    Ok(MemDisk::new(pages, journal, failing, failing_from))
}

// All that a read of the area gives.
fn all_of(alloc: Global, disk: &mut MemDisk, area: Area) -> Result<Vec<u8>, Fail> {
    let size = disk.len(area)?;
    let mut bytes = vec![in alloc; 0u8; size as usize]?;
    disk.read(area, 0, &mut bytes)?;
    Ok(bytes)
}

// What a crash after so many calls leaves of the area, and none where there were fewer calls.
fn left(
    alloc: Global,
    disk: &MemDisk,
    calls: u64,
    pick: Pick,
    area: Area,
) -> Result<Vec<u8>, AllocError> {
    if calls > disk.calls() {
        return Ok(Vec::new(alloc));
    }
    let crashed = disk.crash(calls, pick)?;
    Vec::from_slice(alloc, crashed.bytes(area))
}

// Four calls, the last of which fails: a write and a sync of pages, and two writes that no sync makes stable.
fn write_to(disk: &mut MemDisk) -> [bool; 4] {
    let first = disk.write_at(Area::Pages, 1, b"XY").is_ok();
    let second = disk.sync(Area::Pages).is_ok();
    let third = disk.write_at(Area::Journal, 3, b"kl").is_ok();
    let fourth = disk.write_at(Area::Pages, 5, b"PQRS").is_ok();
    [first, second, third, fourth]
}

#[test]
fn a_disk_in_memory_reads_what_was_written(rt: HostRuntime) -> Result<(), Fail> {
    let mut disk = small_disk(rt.alloc(), &[4], None)?;
    assert_eq!(rt; write_to(&mut disk), [true, true, true, false]);
    assert_eq!(rt; [disk.calls(), disk.faults(), disk.wants()], [4, 1, 0]);

    let pages = all_of(rt.alloc(), &mut disk, Area::Pages)?;
    assert_eq!(rt; pages.as_slice(), b"aXYdePQ".as_slice());
    let journal = all_of(rt.alloc(), &mut disk, Area::Journal)?;
    assert_eq!(rt; journal.as_slice(), b"j\0\0kl".as_slice());

    assert!(rt; disk.write_at(Area::Pages, 1 << 62, b"x").is_err());
    assert_eq!(rt; [disk.faults(), disk.wants()], [1, 1]);
    Ok(())
}

#[test]
fn a_crash_leaves_what_was_picked(rt: HostRuntime) -> Result<(), Fail> {
    let mut disk = small_disk(rt.alloc(), &[4], None)?;
    write_to(&mut disk);
    let table = [
        (4, Pick::Lost, b"aXYdef".as_slice(), b"j".as_slice()),
        (3, Pick::Kept, b"aXYdef".as_slice(), b"j\0\0kl".as_slice()),
        (
            4,
            Pick::Filled { byte: b'.' },
            b"aXYde..".as_slice(),
            b"j....".as_slice(),
        ),
        (
            4,
            Pick::Front { bytes: 3 },
            b"aXYdeP".as_slice(),
            b"j\0\0kl".as_slice(),
        ),
        (
            4,
            Pick::Front { bytes: 1 },
            b"aXYdef".as_slice(),
            b"j\0\0k".as_slice(),
        ),
    ];
    for (calls, pick, pages, journal) in table {
        let left_pages = left(rt.alloc(), &disk, calls, pick, Area::Pages)?;
        assert_eq!(rt; left_pages.as_slice(), pages);
        let left_journal = left(rt.alloc(), &disk, calls, pick, Area::Journal)?;
        assert_eq!(rt; left_journal.as_slice(), journal);
    }
    Ok(())
}

#[test]
fn a_disk_in_memory_fails_from_a_call_on(rt: HostRuntime) -> Result<(), Fail> {
    let mut disk = small_disk(rt.alloc(), &[], Some(2))?;
    assert_eq!(rt; write_to(&mut disk), [true, false, false, false]);
    assert_eq!(rt; [disk.faults(), disk.wants()], [3, 0]);
    Ok(())
}

#[test]
fn bytes_are_kept(rt: HostRuntime) -> Result<(), Fail> {
    let (bytes, count, was_empty) = kept(rt.alloc())?;
    assert_eq!(rt; bytes.as_slice(), b"key".as_slice());
    assert!(rt; count == 3 && was_empty);
    Ok(())
}
