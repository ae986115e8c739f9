//! Cycles of `drain` lines.

use crate::showing::{Part, Row};
use plan_support::Silence;

pub const DRAINS: [Row; 2] = [
    // While it is off the source needs no cycle, and gives no frame.
    Row {
        title: "a source that was off is drained",
        text: "quantum 2\nsource s s.wav\nsink o o.wav\ndriver o 1\nlink s.out o.in\ncycles 1\n\
            off s\ndrain\ncycles 3\non s\ndrain\ndrain\n",
        sources: &[Silence::Mono { frames: 6 }],
        part: Part::Nothing,
        wanted: "from 0 cycles 1 driver 1\nfrom 1 cycles 3 driver 1\nfrom 4 cycles 2 driver 1\n",
    },
    // Five frames of stereo make three quanta of two, and the longer source decides.
    Row {
        title: "the longest source is drained",
        text: "quantum 2\nsource s s.wav\nsource t t.wav\nmeter p\nmeter q\n\
            link s.out p.in\nlink t.out q.in\ndrain\n",
        sources: &[Silence::Mono { frames: 4 }, Silence::Stereo { frames: 5 }],
        part: Part::Nothing,
        wanted: "from 0 cycles 3 driver 63\n",
    },
];
