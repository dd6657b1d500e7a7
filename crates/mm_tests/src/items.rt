//! A list, edited.

ghost use Rattle.std.specs.Prelude.{◌≡◌, length};

use mm_list::{Items, at};
use std::alloc::{AllocError, Global};
use std::test::Fail;

// The items after puts at the end, at the front and behind one.
fn grown(alloc: Global) -> Result<Items<u32>, AllocError> {
    let mut items = Items::new(alloc);
    items.push(2)?;
    items.push(4)?;
    items.insert(0, 1)?;
    items.insert_after(1, 3)?;
    Ok(items)
}

// What is taken out of four items that are changed, from the middle and, once they are turned round, from the end.
fn changed(items: &mut Items<u32>) -> (u32, Option<u32>)
    requires { length items.old ≡ 4 }
{
    *items.at_mut(1) = 7;
    items.set(0, 9);
    let taken = items.remove(2);
    items.reverse();
    (taken, items.pop())
}

#[test]
fn edits_a_list(rt: HostRuntime) -> Result<(), Fail> {
    let mut items = grown(rt.alloc())?;
    assert_eq!(rt; items.as_slice(), [1, 2, 3, 4].as_slice());
    assert_eq!(rt; items.get(2).copied(), Some(3));
    assert_eq!(rt; at(items.as_slice(), 4).copied(), None);
    assert!(rt; items.len() == 4 && !items.is_empty());
    assert_eq!(rt; changed(&mut items), (3, Some(9)));
    let back = Items::from_vec(items.into_vec());
    assert_eq!(rt; back.as_slice(), [4, 7].as_slice());
    Ok(())
}
