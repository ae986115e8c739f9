//! What is active from epoch to epoch, and what drives.

use crate::showing::{Part, Row};
use plan_support::Silence;

/// A source that is off in the second epoch.
const OFF: &str = "source s s.wav\nsink o o.wav\ndriver o 1\nlink s.out o.in\ncycles 1\noff s\n\
    cycles 2\n";

pub const EPOCHS: [Row; 3] = [
    Row {
        title: "a node is off in the next epoch",
        text: OFF,
        sources: &[Silence::Mono { frames: 4 }],
        part: Part::Shape,
        wanted: "from 0 cycles 1 driver 1\nnode 0 waits 1 wakes 1\nnode 1 waits 2 wakes 0 1\n\
            link 0.0 1.0 1 2\nfrom 1 cycles 2 driver 1\nnode 1 waits 1 wakes 1\n",
    },
    Row {
        title: "no node begins anew where one is off",
        text: OFF,
        sources: &[Silence::Mono { frames: 4 }],
        part: Part::Fresh,
        wanted: "from 0 cycles 1 driver 1\nfresh 1 1\nfrom 1 cycles 2 driver 1\n",
    },
    // Of two parts that no link joins, only the one with the driver is active.
    Row {
        title: "the first driver of the greatest priority drives",
        text: "square q 48000 1 4 1\nmeter p\nsink o o.wav\ndriver o 5\ndriver p 5\n\
            link q.out o.in\ncycles 1\noff p\ncycles 1\n",
        sources: &[],
        part: Part::Shape,
        wanted: "from 0 cycles 1 driver 1\nnode 1 waits 1 wakes 1\n\
            from 1 cycles 1 driver 2\nnode 0 waits 1 wakes 2\nnode 2 waits 2 wakes 0 2\n\
            link 0.0 2.0 1 2\n",
    },
];
