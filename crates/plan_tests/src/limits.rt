//! Limits, up to them and one above.

use crate::showing::{Part, Row};
use graph_plan::PlanFault;
use plan_support::{TextFault, plan_text};
use pw_lists::Which;
use std::test::Fail;

/// Plans that just keep a limit.
pub const KEPT: [Row; 2] = [
    // Each cycle of only the built-in driver has five events, of which there may be 4,194,304.
    Row {
        title: "events are planned up to the limit",
        text: "cycles 838860",
        sources: &[],
        part: Part::Shape,
        wanted: "from 0 cycles 838860 driver 63\nnode 63 waits 1 wakes 63\n",
    },
    // A cycle has 65,536 samples of the sink, of which there may be 134,217,728.
    Row {
        title: "samples of sinks are planned up to the limit",
        text: "quantum 8192\nsquare q 48000 8 4 1\nsink o o.wav\nlink q.out o.in\ncycles 2048\n",
        sources: &[],
        part: Part::Nothing,
        wanted: "from 0 cycles 2048 driver 63\n",
    },
];

/// Texts, the lines by which they pass a limit, and the limit.
const PASSED: [(&str, u32, Which); 3] = [
    ("cycles 838861", 1, Which::Events),
    ("# no more\ncycles 838860\ncycles 1\n", 3, Which::Events),
    (
        "quantum 8192\nsquare q 48000 8 4 1\nsink o o.wav\nlink q.out o.in\ncycles 2048\n\
            off o\ncycles 1\non o\ncycles 1\n",
        9,
        Which::SinkSamples,
    ),
];

#[test]
fn the_line_that_passes_a_limit_is_named(rt: HostRuntime) {
    for (text, line, which) in PASSED {
        let wanted = TextFault::Plan(PlanFault::Limit { line, which });
        match plan_text(rt.alloc(), text, [].as_slice()) {
            Ok(_plan) => assert!(rt; false, "{text}"),
            Err(fault) => assert!(rt; fault == wanted, "{text}"),
        }
    }
}

// Each epoch has 8 buffers of 8192 frames of 16 bytes, of which 256 make the limit.
#[test]
fn bytes_of_blocks_are_planned_up_to_the_limit(rt: HostRuntime) -> Result<(), Fail> {
    let alloc = rt.alloc();
    let first = "quantum 8192\nsquare q 48000 8 4 1\nmeter p\nbuffers q out 8\nlink q.out p.in\n";
    let mut text = String::from_str(alloc, first)?;
    for _epoch in 0..256 {
        text.push_str("cycles 1\n")?;
    }
    assert!(rt; plan_text(alloc, text.as_str(), [].as_slice()).is_ok());
    text.push_str("cycles 1\n")?;
    let (line, which) = (262, Which::BlockBytes);
    let wanted = TextFault::Plan(PlanFault::Limit { line, which });
    match plan_text(alloc, text.as_str(), [].as_slice()) {
        Ok(_plan) => assert!(rt; false, "257 epochs"),
        Err(fault) => assert!(rt; fault == wanted, "257 epochs"),
    }
    Ok(())
}
