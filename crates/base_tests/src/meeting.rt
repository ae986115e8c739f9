//! Two nodes that meet, each in a thread, and two in one thread, which never do.

use pw_outside::{Gate, Meet};
use std::thread::join;

// A node enters ten cycles.
fn enter_ten(meet: &Meet, node: u32) {
    for cycle in 0..10 {
        meet.enter(node, cycle);
    }
}

#[test]
fn two_threads_meet(rt: HostRuntime) {
    let meet = Meet::new(0, 1);
    join(&rt, || enter_ten(&meet, 0), || enter_ten(&meet, 1));
    assert!(rt; meet.met());
}

// Only a node's first entry into a cycle counts.
#[test]
fn one_thread_never_meets(rt: HostRuntime) {
    let meet = Meet::new(0, 1);
    meet.enter(0, 5);
    meet.enter(1, 5);
    meet.enter(0, 6);
    meet.enter(0, 5);
    meet.enter(2, 7);
    assert!(rt; !meet.met());
}
