//! A script of a text, ready to be planned.
ghost use Rattle.std.specs.Prelude.{All, IfOk};
ghost use Rattle.format_filter.specs.CommonFormat.{IsSoundFormat};
ghost use Rattle.script_inputs.specs.Inputs.{HasForm};
ghost use Rattle.plan_support.specs.working.Ready.{IsReady};

use format_filter::Format;
use graph_plan::PlanFault;
use graph_script::{Script, parse};
use pw_lists::{Items, Memory, SCRIPT_BYTES_LIMIT};
use script_inputs::{InputFault, Inputs, inputs_of};
use std::alloc::Global;
use wav_files::Wav;

/// Why a text has no plan.
#[derive(Clone, Copy, Debug, PartialEq, Eq, Drop)]
pub enum TextFault {
    /// It is no script, or longer than one may be.
    NoScript,
    /// A source has no wave, an offer no format, or a format does not meet what its port offers.
    Inputs(InputFault),
    Plan(PlanFault),
    Memory,
}

impl From<Memory> for TextFault {
    fn from(_memory: Memory) -> TextFault {
        TextFault::Memory
    }
}

impl From<InputFault> for TextFault {
    fn from(fault: InputFault) -> TextFault {
        TextFault::Inputs(fault)
    }
}

impl From<PlanFault> for TextFault {
    fn from(fault: PlanFault) -> TextFault {
        TextFault::Plan(fault)
    }
}

/// A script, and what a plan asks for beside it.
#[derive(Drop)]
pub(crate) struct Ready {
    pub script: Script,
    pub inputs: Inputs,
}

/// The script of a text, whose sources have these waves and whose `offer` lines these formats, each
/// in the order of the lines.
pub(crate) fn ready_offered(
    alloc: Global,
    text: &str,
    waves: Items<Wav>,
    formats: &[Format],
) -> Result<Ready, TextFault>
    requires waves { All HasForm waves }
    requires formats { All IsSoundFormat formats.now }
    ensures { IfOk result (λ ready. IsReady ready.script ready.inputs) }
{
    let bytes = text.as_bytes();
    if (bytes.len() as u64) > SCRIPT_BYTES_LIMIT {
        return Err(TextFault::NoScript);
    }
    let Ok(script) = parse(alloc, bytes) else {
        return Err(TextFault::NoScript);
    };
    let inputs = inputs_of(alloc, &script, waves, formats)?;
    Ok(Ready { script, inputs })
}

/// The script of a text without `offer` lines, whose sources have these waves in their order.
pub(crate) fn ready_of(alloc: Global, text: &str, waves: Items<Wav>) -> Result<Ready, TextFault>
    requires { All HasForm waves }
    ensures { IfOk result (λ ready. IsReady ready.script ready.inputs) }
{
    let formats = Items::new(alloc);
    ready_offered(alloc, text, waves, formats.as_slice())
}
