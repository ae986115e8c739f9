//! The points of controls.

use control_sequence::{ControlFault, Point, controls_of};
use pod_codec::{Control, Pod, Prop};
use pw_lists::{Items, Memory};
use std::alloc::Global;
use std::test::Fail;

// A control: its offset, its kind, and the keys and the Ints of its object's properties.
type ControlRow<'a> = (u32, u32, &'a [(u32, i32)]);

// A sequence of controls.
fn sequence_of(alloc: Global, rows: &[ControlRow<'_>]) -> Result<Pod, Memory> {
    let mut controls = Items::new(alloc);
    for (offset, kind, numbers) in rows {
        let mut props = Items::new(alloc);
        for (key, number) in *numbers {
            props.push(Prop {
                key: *key,
                flags: 0,
                value: Pod::Int(*number),
            })?;
        }
        let value = Pod::Object {
            object: 0x40002,
            id: 2,
            props,
        };
        controls.push(Control {
            offset: *offset,
            kind: *kind,
            value,
        })?;
    }
    Ok(Pod::Sequence { unit: 0, controls })
}

#[test]
fn controls_without_a_gain_give_no_point(rt: HostRuntime) -> Result<(), Fail> {
    let rows: [ControlRow<'_>; 3] = [
        (0, 2, &[(3, 64), (0x1000001, 9)]),
        (1, 1, &[(0x1000001, 64), (0x1000001, 70000)]),
        (7, 1, &[]),
    ];
    let sequence = sequence_of(rt.alloc(), rows.as_slice())?;
    match controls_of(rt.alloc(), &sequence) {
        Ok(points) => {
            assert!(rt; points.items.as_slice() == [Point { offset: 1, g: 64 }].as_slice());
        }
        Err(_fault) => panic!(rt; "the sequence has points"),
    }
    Ok(())
}

#[test]
fn no_sequence_gives_no_points(rt: HostRuntime) {
    match controls_of(rt.alloc(), &Pod::None) {
        Ok(_points) => panic!(rt; "no sequence gave points"),
        Err(fault) => {
            assert!(rt; fault == ControlFault::NotSequence && fault.number() == 1);
        }
    }
}
