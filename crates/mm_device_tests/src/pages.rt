//! Leaf pages and page 0, byte by byte: each rule broken once, and a leaf that is filled to its last byte. Pages in memory.

use mm_host::{Damage, Fault};
use mm_page::{Header, MemPages, Page, Pages};
use std::alloc::Global;
use std::test::Fail;

// The leaf with the one entry of key 03 61 and value 00 00 00 00 00 00 00 01, and no next leaf.
fn one_entry() -> [u8; 4096] {
    let mut bytes = [0; 4096];
    let front: [u8; 32] = [
        0x4C, 0, 0, 1, 0, 0, 0, 0, 0, 0, 0, 0, 0, 0, 0, 0, 0, 0x12, 0, 2, 0, 8, 3, 0x61, 0, 0, 0,
        0, 0, 0, 0, 1,
    ];
    bytes[..32].copy_from_slice(&front);
    bytes
}

// Puts an entry in where there is room for it, and answers whether it did.
#[tactic(auto, using(mm_page::specs::Facts::Sizes::size_insert))]
fn put(page: &mut Page, key: &[u8], value: &[u8]) -> bool {
    if key.is_empty() || 800 < key.len() || 1024 < value.len() {
        return false;
    }
    if page.room() < 6 + key.len() + value.len() {
        return false;
    }
    match page.find(key) {
        Ok(_) => false,
        Err(index) => {
            page.insert(index, key, value);
            true
        }
    }
}

#[test]
fn an_insert_writes_the_bytes_of_the_format(rt: HostRuntime) -> Result<(), Fail> {
    let mut page = Page::empty(rt.alloc())?;
    assert!(rt; put(&mut page, &[3, 0x61], &[0, 0, 0, 0, 0, 0, 0, 1]));
    assert_eq!(rt; *page.bytes(), one_entry());

    page.set_next(7);
    assert_eq!(rt; page.next(), 7);
    assert_eq!(rt; page.bytes()[11], 7);
    Ok(())
}

// The number of the rule that the bytes break, what stands there and what is due, or noughts where they break none.
fn broken(rt: &HostRuntime, bytes: &[u8; 4096]) -> (u8, u64, u64) {
    match Page::from_bytes(rt.alloc(), 5, bytes) {
        Ok(_) => (0, 0, 0),
        Err(
            Fault::Damaged(
                Damage::Page {
                    page: 5,
                    why,
                    stored,
                    due,
                },
            ),
        ) => (why, stored, due),
        Err(_) => (255, 0, 0),
    }
}

#[test]
fn each_rule_is_told(rt: HostRuntime) {
    assert_eq!(rt; broken(&rt, &one_entry()), (0, 0, 0));

    // A byte that is changed, and what is told then.
    let changes: [(usize, u8, (u8, u64, u64)); 7] = [
        (0, 0x4D, (5, 77, 76)),
        (2, 8, (6, 2049, 2040)),
        (17, 19, (6, 19, 18)),
        (20, 0x20, (7, 8224, 4096)),
        (19, 0, (8, 0, 800)),
        (18, 4, (8, 1026, 800)),
        (20, 5, (8, 1288, 1024)),
    ];
    for (at, byte, told) in changes {
        let mut bytes = one_entry();
        if at < 4096 {
            bytes[at] = byte;
        }
        assert_eq!(rt; broken(&rt, &bytes), told, "at {at}");
    }
}

#[test]
fn keys_that_do_not_rise_are_told(rt: HostRuntime) {
    let mut bytes = [0; 4096];
    let front: [u8; 30] = [
        0x4C, 0, 0, 2, 0, 0, 0, 0, 0, 0, 0, 0, 0, 0, 0, 0, 0, 20, 0, 25, 0, 1, 0, 0, b'b', 0, 1, 0,
        0, b'b',
    ];
    bytes[..30].copy_from_slice(&front);
    assert_eq!(rt; broken(&rt, &bytes), (9, 2, 0));
    bytes[29] = b'a';
    assert_eq!(rt; broken(&rt, &bytes), (9, 2, 0));
    bytes[29] = b'c';
    assert_eq!(rt; broken(&rt, &bytes), (0, 0, 0));
}

// Four entries, each of 1,014 bytes and the 6 that it takes more, fill a leaf.
#[test]
fn a_leaf_is_filled_to_its_last_byte(rt: HostRuntime) -> Result<(), Fail> {
    let mut page = Page::empty(rt.alloc())?;
    let value = [7; 1013];
    for key in [b"c", b"a", b"d", b"b"] {
        assert!(rt; put(&mut page, key, &value));
    }
    assert_eq!(rt; page.room(), 0);
    assert_eq!(rt; page.bytes()[4095], 7);
    assert!(rt; !put(&mut page, b"e", b""));

    let mut back = Page::empty(rt.alloc())?;
    if page.len() >= 3 {
        page.split(&mut back, 3);
    }
    assert_eq!(rt; (page.len(), back.len()), (3, 1));
    assert_eq!(rt; page.find(b"c"), Ok(2));
    assert_eq!(rt; back.find(b"c"), Err(0));
    assert_eq!(rt; page.bytes()[4095], 0);
    Ok(())
}

// The header that these bytes spell, or the rule that they break, what stands there and what is due.
fn read(bytes: &[u8; 4096]) -> Result<(u64, u64), (u8, u64, u64)> {
    match Header::from_bytes(bytes) {
        Ok(header) => Ok((header.pages, header.first)),
        Err(violation) => Err((violation.why, violation.stored, violation.due)),
    }
}

#[test]
fn page_0_has_the_bytes_of_the_format(rt: HostRuntime) {
    let front: [u8; 24] = [
        0x4D, 0x4D, 0x4B, 0x57, 0x50, 0x47, 0x30, 0x31, 0, 0, 0, 0, 0, 0, 0, 2, 0, 0, 0, 0, 0, 0,
        0, 1,
    ];
    let mut bytes = [0; 4096];
    bytes[..24].copy_from_slice(&front);
    let header = Header { pages: 2, first: 1 };
    assert_eq!(rt; header.to_bytes(), bytes);
    assert_eq!(rt; read(&bytes), Ok((2, 1)));

    bytes[15] = 1;
    assert_eq!(rt; read(&bytes), Err((2, 1, 8_796_093_022_208)));
    bytes[9] = 8;
    assert_eq!(rt;
        read(&bytes),
        Err((2, 0x0008_0000_0000_0001, 8_796_093_022_208))
    );
    bytes[7] = 0x32;
    assert_eq!(rt;
        read(&bytes),
        Err((1, 0x4D4D_4B57_5047_3032, 0x4D4D_4B57_5047_3031))
    );
}

// The numbers of two fresh pages, and of one more after the first was freed; how many pages there are; and how often the
// disk failed and found no memory.
fn given_out(alloc: Global) -> Result<[u64; 5], Fault> {
    let mut pages = MemPages::new(alloc);
    let first = pages.fresh()?;
    let second = pages.fresh()?;
    pages.free(first)?;
    let again = pages.fresh()?;
    pages.commit()?;
    pages.tick(1)?;
    Ok([
        first,
        second,
        again,
        pages.count(),
        pages.faults() + pages.wants(),
    ])
}

// The number of the next leaf that a page was given, and what the header says before and after it was set.
fn written(alloc: Global) -> Result<(u64, bool, [u64; 2]), Fault> {
    let mut pages = MemPages::new(alloc);
    let number = pages.fresh()?;
    match pages.edit(number) {
        Ok(page) => page.set_next(5),
        Err(error) => return Err(error.into_fault()),
    }
    pages.settle(&[number])?;
    let next = match pages.page(number) {
        Ok(page) => page.next(),
        Err(error) => return Err(error.into_fault()),
    };
    let none = pages.header()?.is_none();
    pages.set_header(Header {
        pages: pages.count(),
        first: number,
    })?;
    match pages.header()? {
        Some(header) => Ok((next, none, [header.pages, header.first])),
        None => Ok((next, none, [0, 0])),
    }
}

#[test]
fn pages_in_memory_are_given_out_again(rt: HostRuntime) -> Result<(), Fail> {
    assert_eq!(rt; given_out(rt.alloc())?, [1, 2, 1, 3, 0]);
    assert_eq!(rt; written(rt.alloc())?, (5, true, [2, 1]));
    Ok(())
}
