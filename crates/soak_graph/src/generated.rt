//! What is made of a number for a plan.
ghost use Rattle.std.specs.Prelude.{◌≡◌, IfOk};
ghost use Rattle.graph_script.specs.Kinds.{HasKinds};
ghost use Rattle.graph_script.specs.Order.{HasOrder};
ghost use Rattle.graph_script.specs.Ranges.{HasRanges};
ghost use Rattle.graph_plan.specs.Conditions.{AreScriptPorts, HaveWaves};
ghost use Rattle.soak_graph.specs.working.Drawing.{HasDrawn};
ghost use Rattle.soak_graph.specs.SoakChains.{soak_waves};
ghost use Rattle.soak_graph.specs.SoakPorts.{soak_ports};
ghost use Rattle.soak_graph.specs.SoakScript.{soak_script};

use crate::drawing::{Drawn, draw_graph};
use crate::ports::ports_with;
use crate::text::text_with;
use graph_script::{Script, ScriptFault, parse};
use port_model::Ports;
use pw_lists::{Items, Memory};
use std::alloc::Global;
use wav_files::WavIn;

/// A script with the ports of its nodes and the waves of its sources.
#[derive(Drop)]
pub struct Generated {
    pub script: Script,
    pub ports: Ports,
    pub waves: Items<WavIn>,
}

// The script, read from its text.
fn script_with(alloc: Global, drawn: &Drawn) -> Result<Script, Memory>
    requires { HasDrawn drawn.now }
    ensures script { IfOk result (λ script. script ≡ soak_script drawn.now.number) }
    ensures ranges { IfOk result HasRanges }
    ensures kinds { IfOk result HasKinds }
    ensures order { IfOk result HasOrder }
{
    let text = text_with(alloc, drawn)?;
    match parse(alloc, text.as_slice()) {
        Ok(script) => Ok(script),
        Err(ScriptFault::Memory) => Err(Memory),
        Err(ScriptFault::At { .. }) => unreachable!(),
    }
}

/// The graph of a number: its script, which is made as text and read by `parse`, the ports of its
/// nodes, and a mono wave of 65536 frames at 48000 frames a second for each of its eight sources.
/// No such text is refused. Takes memory for 1048576 bytes of samples, and time in proportion.
pub fn generate(alloc: Global, number: u32) -> Result<Generated, Memory>
    ensures script { IfOk result (λ made. made.script ≡ soak_script number) }
    ensures ports { IfOk result (λ made. made.ports ≡ soak_ports number) }
    ensures waves { IfOk result (λ made. made.waves ≡ soak_waves number) }

    // What a plan asks of them.
    ensures ranges { IfOk result (λ made. HasRanges made.script) }
    ensures kinds { IfOk result (λ made. HasKinds made.script) }
    ensures order { IfOk result (λ made. HasOrder made.script) }
    ensures taken { IfOk result (λ made. AreScriptPorts made.script.lines made.ports) }
    ensures given { IfOk result (λ made. HaveWaves made.ports made.waves) }
{
    let drawn = draw_graph(alloc, number)?;
    let script = script_with(alloc, &drawn)?;
    let ports = ports_with(alloc, &drawn)?;
    Ok(Generated {
        script,
        ports,
        waves: drawn.waves,
    })
}
