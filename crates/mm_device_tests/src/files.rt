//! The disk of two files, in the current folder.

use mm_files::FileDisk;
use mm_host::{Area, Disk, Failed};
use std::fs;
use std::test::Fail;

const FURTHEST: u64 = 1 << 62;

// Writes into both areas, and syncs them. One write begins past the end, and another writes nothing there.
fn write(disk: &mut FileDisk<'_>) -> Result<[u64; 2], Failed> {
    disk.write_at(Area::Journal, 3, b"abcd")?;
    disk.write_at(Area::Journal, 4, b"X")?;
    disk.write_at(Area::Pages, 2, b"")?;
    disk.sync(Area::Journal)?;
    disk.sync(Area::Pages)?;
    Ok([disk.len(Area::Pages)?, disk.len(Area::Journal)?])
}

fn read(disk: &mut FileDisk<'_>) -> Result<([u8; 7], [u8; 2]), Failed> {
    let mut whole = [b'.'; 7];
    let mut part = [b'.'; 2];
    disk.read(Area::Journal, 0, &mut whole)?;
    disk.read(Area::Journal, 5, &mut part)?;
    Ok((whole, part))
}

// Whether each call is answered that can't be done: two reads that pass the end, and two writes past the bound.
fn refused(disk: &mut FileDisk<'_>) -> [bool; 4] {
    let begins_inside = disk.read(Area::Journal, 6, &mut [0; 2]).is_ok();
    let begins_past = disk.read(Area::Pages, u64::MAX, &mut [0; 1]).is_ok();
    let far = disk.write_at(Area::Pages, FURTHEST, b"x").is_ok();
    let farther = disk.write_at(Area::Pages, u64::MAX, b"xy").is_ok();
    [begins_inside, begins_past, far, farther]
}

#[test]
fn files_keep_what_was_written(rt: HostRuntime) -> Result<(), Fail> {
    let _ = fs::remove_file(&rt, "kw.pages");
    let _ = fs::remove_file(&rt, "kw.journal");
    let mut disk = FileDisk::new(&rt);
    assert_eq!(rt; write(&mut disk)?, [2, 7]);
    assert_eq!(rt; read(&mut disk)?, (*b"\0\0\0aXcd", *b"cd"));
    let mut again = FileDisk::new(&rt);
    assert_eq!(rt; read(&mut again)?, (*b"\0\0\0aXcd", *b"cd"));
    assert_eq!(rt; refused(&mut again), [false; 4]);
    assert_eq!(rt; [again.faults(), again.wants()], [2, 2]);
    assert_eq!(rt; fs::metadata(&rt, "kw.pages")?.len(), 2);
    Ok(())
}
