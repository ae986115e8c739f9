//! What the printed samples do not show: that two threads are at work.

use crate::{SCRIPT, VOICES, play};
use pw_outside::Meet;
use std::test::Fail;

#[test]
fn the_two_voices_are_played_by_two_threads(rt: HostRuntime) -> Result<(), Fail> {
    let gate = Meet::new(0, 1);
    let played = play(&rt, rt.alloc(), SCRIPT, VOICES.as_slice(), &gate);
    assert!(rt; played.is_ok());
    assert!(rt; gate.met());
    Ok(())
}
