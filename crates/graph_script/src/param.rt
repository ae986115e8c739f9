//! The parameters of commands.
ghost use Rattle.std.specs.Prelude.{◌≡◌};
ghost use Rattle.graph_script.specs.Table.{label_word};

/// What a parameter is called.
#[derive(Clone, Copy, Drop)]
pub enum Label {
    Name,
    File,
    Rate,
    Channels,
    Period,
    Amp,
    G,
    Ga,
    Gb,
    Frames,
    List,
    Port,
    From,
    To,
    Priority,
    K,
    N,
}

/// What a number counts, where its label does not say it.
#[derive(Clone, Copy, PartialEq, Eq, Drop)]
pub enum Counted {
    Unsaid,
    Frames,
    FramesASecond,
}

/// How the word of a parameter is read.
#[derive(Clone, Copy, PartialEq, Eq, Drop)]
pub enum Form {
    /// The name of a new node.
    New,
    /// The name of a node of an earlier line.
    Node,
    /// A number from `low` to `high`, without sign.
    Number {
        low: u32,
        high: u32,
        counted: Counted,
    },
    /// A gain in 1/256: at most `high` without its sign.
    Gain {
        high: u32,
    },
    /// A list of channels, each below the number before it.
    Channels,
    /// A file.
    File,
    /// A port of the node before it.
    Port,
    /// A node and an output of it, parted by a dot.
    Output,
    /// A node and an input of it, parted by a dot.
    Input,
}

/// A parameter of a command: one word.
#[derive(Clone, Copy, Drop)]
pub struct Param {
    pub label: Label,
    pub form: Form,
}

/// The word that a parameter is called by where it is explained.
pub fn label_word(label: Label) -> &'static [u8]
    ensures { result.now ≡ label_word label }
{
    match label {
        Label::Name => b"NAME".as_slice(),
        Label::File => b"FILE".as_slice(),
        Label::Rate => b"RATE".as_slice(),
        Label::Channels => b"CHANNELS".as_slice(),
        Label::Period => b"PERIOD".as_slice(),
        Label::Amp => b"AMP".as_slice(),
        Label::G => b"G".as_slice(),
        Label::Ga => b"GA".as_slice(),
        Label::Gb => b"GB".as_slice(),
        Label::Frames => b"FRAMES".as_slice(),
        Label::List => b"LIST".as_slice(),
        Label::Port => b"PORT".as_slice(),
        Label::From => b"A.PORT".as_slice(),
        Label::To => b"B.PORT".as_slice(),
        Label::Priority => b"PRIORITY".as_slice(),
        Label::K => b"K".as_slice(),
        Label::N => b"N".as_slice(),
    }
}
