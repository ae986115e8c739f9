//! The inputs of a script, line by line.
ghost use Rattle.std.specs.Prelude.{◌≡◌, ◌≤◌, length, All, IfOk};
ghost use Rattle.pw_lists.specs.Limits.{nodes_limit};
ghost use Rattle.format_filter.specs.CommonFormat.{IsSoundFormat};
ghost use Rattle.graph_script.specs.Kinds.{HasKinds};
ghost use Rattle.graph_script.specs.Making.{NamesMade};
ghost use Rattle.graph_script.specs.Order.{HasOrder};
ghost use Rattle.graph_script.specs.Ranges.{HasRanges};
ghost use Rattle.graph_lines.specs.Start.{kinds_of};
ghost use Rattle.graph_plan.specs.Conditions.{AreLinesOf, AreScriptPorts, HaveWaves};
ghost use Rattle.script_inputs.specs.Inputs.{HasForm, nothing_made};
ghost use Rattle.script_inputs.specs.ScriptInputs.{MakesAll, UnlessMemory, AreInputsOf};

use crate::fault::InputFault;
use crate::given::{formats_taken, next_wave};
use crate::inputs::Inputs;
use crate::lines::after_line;
use format_filter::Format;
use graph_script::{Line, Script};
use port_model::Ports;
use pw_lists::Items;
use std::alloc::Global;
use wav_files::Wav;

// What lines make of nothing, with these waves and formats.
fn make_all(
    alloc: Global,
    lines: &[Line],
    waves: Items<Wav>,
    formats: &[Format],
    nothing: Inputs,
) -> Result<Inputs, InputFault>
    requires lines { AreLinesOf (kinds_of lines.now) lines.now }
    requires made { NamesMade 0 lines.now }
    requires few { length (kinds_of lines.now) ≤ nodes_limit }
    requires forms { All HasForm waves }
    requires formats { All IsSoundFormat formats.now }
    requires nothing { nothing ≡ nothing_made }
    ensures made { UnlessMemory (MakesAll lines.now waves formats.now nothing_made) result }
    ensures ports { IfOk result (λ inputs. AreScriptPorts lines.now inputs.ports) }
    ensures waves { IfOk result (λ inputs. HaveWaves inputs.ports inputs.waves) }
{
    let mut inputs = nothing;
    let mut left = waves.into_vec().into_iter();
    let mut used = 0;
    for line in lines {
        let wave = next_wave(&line.command, &mut left);
        match after_line(alloc, line, wave, formats.get(used), inputs) {
            Err(fault) => return Err(fault),
            Ok(after) => inputs = after,
        }
        used += formats_taken(&line.command);
    }
    Ok(inputs)
}

/// What a plan of a script asks for beside it: the ports of its nodes, and a wave for each source.
///
/// `waves` are those of the script's `source` lines and `formats` those of its `offer` lines, each
/// in the order of the lines; the file words of the lines are not looked at. Waves and formats that
/// no line takes are left out. An `offer` line narrows what its port offers by then, and by
/// only its format; the format's id is not looked at.
///
/// Errors: the first line that is refused: a `source` line for which no wave is left, an `offer`
/// line for which no format is left, or whose format does not meet what its port offers by then.
///
/// Cost: waves are moved and not copied; an offer takes time in proportion to the fields of its
/// format. Memory: the ports, and a list of the waves.
///
/// Public source: PipeWire's documentation, "SPA POD"; `spa/pod/filter.h`, `spa_pod_filter`; the
/// script is this project's.
pub fn inputs_of(
    alloc: Global,
    script: &Script,
    waves: Items<Wav>,
    formats: &[Format],
) -> Result<Inputs, InputFault>
    requires ranges { HasRanges script.now }
    requires kinds { HasKinds script.now }
    requires order { HasOrder script.now }
    requires forms { All HasForm waves }
    requires formats { All IsSoundFormat formats.now }
    // The ports and the waves are the script's own, as its lines say.
    ensures own { AreInputsOf script.now.lines waves formats.now result }
    // What `plan` asks for.
    ensures ports { IfOk result (λ inputs. AreScriptPorts script.now.lines inputs.ports) }
    ensures waves { IfOk result (λ inputs. HaveWaves inputs.ports inputs.waves) }
{
    match Ports::new(alloc) {
        Err(_memory) => Err(InputFault::Memory),
        Ok(ports) => make_all(
            alloc,
            script.lines.as_slice(),
            waves,
            formats,
            Inputs {
                ports,
                waves: Items::new(alloc),
            },
        ),
    }
}
