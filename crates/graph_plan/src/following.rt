//! All lines of a script, one after the other.
ghost use Rattle.std.specs.Prelude.{◌≡◌, ◌≤◌, IfOk, All};
ghost use Rattle.graph_lines.specs.Ready.{IsReady, HasRan};
ghost use Rattle.graph_plan.specs.Conditions.{AreLinesOf};
ghost use Rattle.graph_plan.specs.Planned.{IsFollowed};

use crate::fault::PlanFault;
use graph_lines::{Graph, Stepped};
use graph_script::Line;
use pw_lists::{Items, Memory};
use wav_files::WavIn;

/// The graph after all lines, or the first line that passes a limit.
pub(crate) fn follow(
    mut graph: Graph,
    lines: &[Line],
    waves: &Items<WavIn>,
) -> Result<Graph, PlanFault>
    requires ready { IsReady graph }
    requires ran { HasRan graph }
    requires lines { AreLinesOf graph.kinds lines.now }
    requires channels { All (λ w. 1 ≤ w.wav.channels) waves.now }
    ensures followed { IsFollowed waves.now graph lines.now result }
    ensures ready { IfOk result IsReady }
    ensures kinds { IfOk result (λ end. end.kinds ≡ graph.kinds) }
{
    for line in lines {
        match graph.step(&line.command, waves) {
            Ok(Stepped::Done) => {}
            Ok(Stepped::Passed { which }) => {
                return Err(PlanFault::Limit {
                    line: line.line,
                    which,
                });
            }
            Err(Memory) => return Err(PlanFault::Memory),
        }
    }
    Ok(graph)
}
