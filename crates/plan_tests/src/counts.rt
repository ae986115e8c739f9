//! Required counts, targets and forms.

use crate::showing::{Part, Row};
use plan_support::Silence;

/// The split and the mix of a stereo source.
const SPLIT_AND_MIX: &str = "quantum 4\nsource s st.wav\nsplit x\nmix2 m 256 256\nsink o o.wav\n\
    driver o 1\nlink s.out x.in\nlink x.left m.a\nlink x.right m.b\nlink m.out o.in\ncycles 1\n";

pub const COUNTS: [Row; 4] = [
    Row {
        title: "a split and a mix wait for two",
        text: SPLIT_AND_MIX,
        sources: &[Silence::Stereo { frames: 4 }],
        part: Part::Shape,
        wanted: "from 0 cycles 1 driver 3\nnode 0 waits 1 wakes 1 3\nnode 1 waits 2 wakes 2 3\n\
            node 2 waits 2 wakes 3\nnode 3 waits 4 wakes 0 1 2 3\nlink 0.0 1.0 2 2\n\
            link 1.1 2.0 1 2\nlink 1.2 2.1 1 2\nlink 2.2 3.0 1 2\n",
    },
    Row {
        title: "the ports of a split and a mix have their forms",
        text: SPLIT_AND_MIX,
        sources: &[Silence::Stereo { frames: 4 }],
        part: Part::Forms,
        wanted: "from 0 cycles 1 driver 3\nform 0.0 48000 2\nform 1.0 48000 2\nform 1.1 48000 1\n\
            form 1.2 48000 1\nform 2.0 48000 1\nform 2.1 48000 1\nform 2.2 48000 1\n\
            form 3.0 48000 1\n",
    },
    Row {
        title: "two links between two nodes are one dependency",
        text: "square q 48000 1 4 100\nmix2 m 256 256\nsink o o.wav\ndriver o 1\n\
            link q.out m.a\nlink q.out m.b\nlink m.out o.in\ncycles 1\n",
        sources: &[],
        part: Part::Shape,
        wanted: "from 0 cycles 1 driver 2\nnode 0 waits 1 wakes 1 2\nnode 1 waits 2 wakes 2\n\
            node 2 waits 3 wakes 0 1 2\nlink 0.0 1.0 1 2\nlink 0.0 1.1 1 2\nlink 1.2 2.0 1 2\n",
    },
    Row {
        title: "late links are no dependencies",
        text: "quantum 2\nsource s s.wav\ngain g 256\nasync g\nsink o o.wav\ndriver o 1\n\
            link s.out g.in\nlink g.out o.in\ncycles 4\n",
        sources: &[Silence::Mono { frames: 4 }],
        part: Part::Shape,
        wanted: "from 0 cycles 4 driver 2\nnode 0 waits 1 wakes 2\nnode 1 waits 1 wakes 2\n\
            node 2 waits 3 wakes 0 1 2\nlink 0.0 1.0 1 2 late\nlink 1.1 2.0 1 2 late\n",
    },
];
