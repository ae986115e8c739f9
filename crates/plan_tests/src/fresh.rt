//! Nodes that begin anew.

use crate::showing::{Part, Row};
use plan_support::Silence;

pub const FRESH: [Row; 3] = [
    // The sink had a link and keeps its format; the source and the delay gave theirs up.
    Row {
        title: "a relinked delay begins anew",
        text: "quantum 2\nsource s s.wav\ndelay d 1\nsink o o.wav\ndriver o 1\n\
            link s.out d.in\nlink d.out o.in\ncycles 1\nunlink s.out d.in\nunlink d.out o.in\n\
            link s.out d.in\nlink d.out o.in\ncycles 1\n",
        sources: &[Silence::Mono { frames: 4 }],
        part: Part::Fresh,
        wanted: "from 0 cycles 1 driver 2\nfresh 1 1\nfresh 2 1\n\
            from 1 cycles 1 driver 2\nfresh 0 0\nfresh 1 1\n",
    },
    Row {
        title: "a gain takes stereo after mono",
        text: "source m m.wav\nsource t t.wav\ngain g 256\nlink m.out g.in\ncycles 1\n\
            unlink m.out g.in\nlink t.out g.in\ncycles 1\ncycles 1\n",
        sources: &[Silence::Mono { frames: 1 }, Silence::Stereo { frames: 1 }],
        part: Part::Fresh,
        wanted: "from 0 cycles 1 driver 63\nfresh 2 1\n\
            from 1 cycles 1 driver 63\nfresh 0 0\nfresh 2 2\nfrom 2 cycles 1 driver 63\n",
    },
    // A link that comes and goes between two epochs leaves its nodes fresh, without a channel.
    Row {
        title: "a node that gave up between epochs is named",
        text: "source m m.wav\nsink o o.wav\ncycles 1\nlink m.out o.in\nunlink m.out o.in\n\
            cycles 1\ncycles 1\n",
        sources: &[Silence::Mono { frames: 1 }],
        part: Part::Fresh,
        wanted: "from 0 cycles 1 driver 63\nfrom 1 cycles 1 driver 63\nfresh 0 0\nfresh 1 0\n\
            from 2 cycles 1 driver 63\n",
    },
];
