//! Lists that grow and shrink, and lists with room.

use pw_lists::Items;
use std::test::Fail;

// A list grows item by item, by a row and by one number.
#[test]
fn lists_grow_and_shrink(rt: HostRuntime) -> Result<(), Fail> {
    let mut bytes: Items<u8> = Items::new(rt.alloc());
    assert!(rt; bytes.pop() == None);
    bytes.reserve(2)?;
    bytes.push(7)?;
    bytes.extend(&[8, 9])?;
    bytes.extend_filled(2, 5)?;
    assert!(rt; bytes.len() == 5 && bytes.as_slice() == [7, 8, 9, 5, 5].as_slice());
    assert!(rt; bytes.pop() == Some(5) && bytes.len() == 4);
    if let Some(last) = bytes.as_mut_slice().last_mut() {
        *last = 6;
    }
    let copied = bytes.copy(rt.alloc())?;
    assert!(rt; copied.as_slice() == [7, 8, 9, 6].as_slice());
    Ok(())
}

#[test]
fn a_filled_list_is_copied(rt: HostRuntime) -> Result<(), Fail> {
    let samples: Items<i16> = Items::filled(rt.alloc(), 2, -3)?;
    let copied = samples.copy(rt.alloc())?;
    assert!(rt; copied.as_slice() == [-3, -3].as_slice());
    Ok(())
}

#[test]
fn a_list_with_room_grows_without_memory(rt: HostRuntime) -> Result<(), Fail> {
    let numbers: Items<u32> = Items::from_slice(rt.alloc(), &[1, 2])?;
    let mut room = numbers.copy(rt.alloc())?.into_room(3)?;
    assert!(rt; room.spare() >= 3);
    room.push_spare(3);
    assert!(rt; room.as_slice() == [1, 2, 3].as_slice() && room.spare() >= 2);
    assert!(rt; room.into_items().len() == 3 && numbers.len() == 2);
    assert!(rt; Items::from_vec(numbers.into_vec()).as_slice() == [1, 2].as_slice());
    Ok(())
}
