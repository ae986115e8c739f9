//! Why a host has no samples.

use graph_plan::PlanFault;
use graph_script::ScriptFault;
use pw_lists::Memory;
use script_inputs::InputFault;

/// Why a script is not played.
#[derive(Clone, Copy, Debug, PartialEq, Eq, Drop)]
pub enum HostFault {
    /// The text is longer than a script may be, 1048576 bytes.
    TooLong,
    /// The text is no script: the first line at fault, and the cause.
    Script(ScriptFault),
    /// A line of the script lacks its voice or its format.
    Inputs(InputFault),
    /// The script passes a limit of a run.
    Plan(PlanFault),
    /// The line of a sink was not taken.
    Output,
    /// No memory was left.
    Memory,
}

impl From<Memory> for HostFault {
    fn from(_memory: Memory) -> HostFault {
        HostFault::Memory
    }
}

impl From<ScriptFault> for HostFault {
    fn from(fault: ScriptFault) -> HostFault {
        HostFault::Script(fault)
    }
}

impl From<InputFault> for HostFault {
    fn from(fault: InputFault) -> HostFault {
        HostFault::Inputs(fault)
    }
}

impl From<PlanFault> for HostFault {
    fn from(fault: PlanFault) -> HostFault {
        HostFault::Plan(fault)
    }
}
