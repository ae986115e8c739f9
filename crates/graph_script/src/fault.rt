//! What is wrong with a text that is no script.
ghost use Rattle.std.specs.Prelude.{◌≡◌};
ghost use Rattle.graph_script.specs.Faults.{why_number};

use pw_lists::Which;

/// What is wrong with a line.
#[derive(Clone, Copy, Debug, PartialEq, Eq, Drop)]
pub enum ScriptWhy {
    /// A byte that is not allowed.
    Byte,
    /// The first word is no command.
    Command,
    /// Too few words or too many.
    Arguments,
    /// A number's form or range is wrong.
    Number,
    /// A name, a file word or an endpoint has the wrong form.
    NameForm,
    /// A node has the name already, or it is `dummy`.
    NameTaken,
    /// No node has the name.
    NameUnknown,
    /// The node's kind has no port of this name, or not on this side of a link.
    PortUnknown,
    /// A command is on a line before the quantum.
    QuantumLate,
    /// The node is neither a sink nor a meter.
    NotDriverKind,
    /// An earlier link line names the node.
    OfferLate,
    /// There are as many nodes, or lines `cycles` and `drain`, as there may be.
    TooMany(Which),
    /// An earlier link line names the node.
    AsyncLate,
}

impl ScriptWhy {
    /// Its number in a printed line, from 1 to 14; 13 is not used.
    pub fn number(self) -> u8
        ensures { result ≡ why_number self }
    {
        match self {
            ScriptWhy::Byte => 1,
            ScriptWhy::Command => 2,
            ScriptWhy::Arguments => 3,
            ScriptWhy::Number => 4,
            ScriptWhy::NameForm => 5,
            ScriptWhy::NameTaken => 6,
            ScriptWhy::NameUnknown => 7,
            ScriptWhy::PortUnknown => 8,
            ScriptWhy::QuantumLate => 9,
            ScriptWhy::NotDriverKind => 10,
            ScriptWhy::OfferLate => 11,
            ScriptWhy::TooMany(_which) => 12,
            ScriptWhy::AsyncLate => 14,
        }
    }
}

/// The first line at fault, or that there was no memory for the script.
#[derive(Clone, Copy, Debug, PartialEq, Eq, Drop)]
pub enum ScriptFault {
    At { line: u32, why: ScriptWhy },
    Memory,
}
