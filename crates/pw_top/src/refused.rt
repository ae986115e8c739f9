//! The links that a plan refuses for want of a common format, and what both sides admit.
ghost use Rattle.std.specs.Prelude.{◌≡◌, IfOk};
ghost use Rattle.graph_script.specs.Kinds.{HasKinds};
ghost use Rattle.graph_script.specs.Ranges.{HasRanges};
ghost use Rattle.graph_plan.specs.Conditions.{AreScriptPorts, HaveWaves};
ghost use Rattle.pw_top.specs.RefusedFound.{lacks_format, any_refused, AreRefusedIf};

use graph_script::Script;
use port_model::Ports;
use pw_graph::{LineOutcome, LinkLine};
use pw_lists::{Items, Memory};
use refused_links::{RefusedLink, refused_links};
use std::alloc::Global;
use wav_files::WavIn;

// Whether there was no common format.
fn lacks_format(outcome: &LineOutcome) -> bool
    ensures { result ≡ lacks_format outcome.now }
{
    matches!(outcome, LineOutcome::NoFormat { .. })
}

// Whether a line of a plan found no common format.
fn any_refused(lines: &[LinkLine]) -> bool
    ensures { result ≡ any_refused lines.now }
{
    lines.iter().any(|line| lacks_format(&line.outcome))
}

/// The refused links of a script, if a line of its plan found no common format. Else nothing is
/// sought: a plan that made all its links costs one look at each of its lines.
pub(crate) fn refused_in(
    alloc: Global,
    script: &Script,
    ports: Ports,
    waves: &Items<WavIn>,
    lines: &[LinkLine],
) -> Result<Items<RefusedLink>, Memory>
    requires ranges { HasRanges script.now }
    requires kinds { HasKinds script.now }
    requires ports { AreScriptPorts script.now.lines ports }
    requires waves { HaveWaves ports waves.now }
    ensures { IfOk result (AreRefusedIf (any_refused lines.now) script.now.lines waves.now ports) }
{
    if any_refused(lines) {
        refused_links(alloc, script, waves, ports)
    } else {
        Ok(Items::new(alloc))
    }
}
