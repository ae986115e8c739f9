//! THE TABLE of commands: the parameters of each, in order.
ghost use Rattle.std.specs.Prelude.{◌≡◌};
ghost use Rattle.graph_script.specs.Table.{params_of};

use crate::limits::{CYCLES_LIMIT, LOOP_LIMIT, PRIORITY_LIMIT};
use crate::name::Name;
use crate::param::{Counted, Form, Label, Param};
use pw_lists::{
    AMP_LIMIT, BUFFERS_LIMIT, CHANNELS_LIMIT, DELAY_LIMIT, GAIN_LIMIT, PERIOD_LIMIT, QUANTUM_LIMIT,
    RATE_LIMIT,
};

const NEW: Param = Param {
    label: Label::Name,
    form: Form::New,
};

const NODE: Param = Param {
    label: Label::Name,
    form: Form::Node,
};

const FILE: Param = Param {
    label: Label::File,
    form: Form::File,
};

const PORT: Param = Param {
    label: Label::Port,
    form: Form::Port,
};

const CHANNELS: Param = Param {
    label: Label::Channels,
    form: Form::Number {
        low: 1,
        high: CHANNELS_LIMIT,
        counted: Counted::Unsaid,
    },
};

const NEW_NODE: [Param; 1] = [NEW];

const FILE_NODE: [Param; 2] = [NEW, FILE];

const SQUARE: [Param; 5] = [
    NEW,
    Param {
        label: Label::Rate,
        form: Form::Number {
            low: 1,
            high: RATE_LIMIT,
            counted: Counted::FramesASecond,
        },
    },
    CHANNELS,
    Param {
        label: Label::Period,
        form: Form::Number {
            low: 1,
            high: PERIOD_LIMIT,
            counted: Counted::Frames,
        },
    },
    Param {
        label: Label::Amp,
        form: Form::Number {
            low: 0,
            high: AMP_LIMIT,
            counted: Counted::Unsaid,
        },
    },
];

const GAIN: [Param; 2] = [
    NEW,
    Param {
        label: Label::G,
        form: Form::Gain { high: GAIN_LIMIT },
    },
];

const MIX2: [Param; 3] = [
    NEW,
    Param {
        label: Label::Ga,
        form: Form::Gain { high: GAIN_LIMIT },
    },
    Param {
        label: Label::Gb,
        form: Form::Gain { high: GAIN_LIMIT },
    },
];

const DELAY: [Param; 2] = [
    NEW,
    Param {
        label: Label::Frames,
        form: Form::Number {
            low: 0,
            high: DELAY_LIMIT,
            counted: Counted::Unsaid,
        },
    },
];

const MAP: [Param; 3] = [
    NEW,
    CHANNELS,
    Param {
        label: Label::List,
        form: Form::Channels,
    },
];

const ENDS: [Param; 2] = [
    Param {
        label: Label::From,
        form: Form::Output,
    },
    Param {
        label: Label::To,
        form: Form::Input,
    },
];

const OFFER: [Param; 3] = [NODE, PORT, FILE];

const BUFFERS: [Param; 3] = [
    NODE,
    PORT,
    Param {
        label: Label::N,
        form: Form::Number {
            low: 1,
            high: BUFFERS_LIMIT,
            counted: Counted::Unsaid,
        },
    },
];

const DRIVER: [Param; 2] = [
    NODE,
    Param {
        label: Label::Priority,
        form: Form::Number {
            low: 0,
            high: PRIORITY_LIMIT,
            counted: Counted::Unsaid,
        },
    },
];

const LOOP: [Param; 2] = [
    NODE,
    Param {
        label: Label::K,
        form: Form::Number {
            low: 0,
            high: LOOP_LIMIT,
            counted: Counted::Unsaid,
        },
    },
];

const ONE_NODE: [Param; 1] = [NODE];

const QUANTUM: [Param; 1] = [Param {
    label: Label::N,
    form: Form::Number {
        low: 1,
        high: QUANTUM_LIMIT,
        counted: Counted::Frames,
    },
}];

const CYCLES: [Param; 1] = [Param {
    label: Label::N,
    form: Form::Number {
        low: 1,
        high: CYCLES_LIMIT,
        counted: Counted::Unsaid,
    },
}];

const DRAIN: [Param; 0] = [];

/// The parameters of a command. Takes no memory.
pub fn params_of(name: Name) -> &'static [Param]
    ensures { result.now ≡ params_of name }
{
    match name {
        Name::Source | Name::Sink => &FILE_NODE,
        Name::Square => &SQUARE,
        Name::Gain => &GAIN,
        Name::Mix2 => &MIX2,
        Name::Delay => &DELAY,
        Name::Map => &MAP,
        Name::Split | Name::Meter => &NEW_NODE,
        Name::Link | Name::Unlink => &ENDS,
        Name::Offer => &OFFER,
        Name::Buffers => &BUFFERS,
        Name::Driver => &DRIVER,
        Name::Loop => &LOOP,
        Name::On | Name::Off | Name::Async => &ONE_NODE,
        Name::Quantum => &QUANTUM,
        Name::Cycles => &CYCLES,
        Name::Drain => &DRAIN,
    }
}
