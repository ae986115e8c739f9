//! What any line does.
ghost use Rattle.std.specs.Prelude.{◌≡◌, ◌^◌, ◌<◌, ◌≤◌, IfOk, All};
ghost use Rattle.graph_script.specs.declared.command.Command.TheVariants.{Drain};
ghost use Rattle.graph_lines.specs.declared.graph.Stepped.TheVariants.{Done};
ghost use Rattle.graph_lines.specs.Conditions.{MayStep};
ghost use Rattle.graph_lines.specs.EpochLines.{RunsFor, Steps};
ghost use Rattle.graph_lines.specs.Gathering.{DrainsUpTo};
ghost use Rattle.graph_lines.specs.Ready.{IsReady, HasRan};

use crate::draining::drain_cycles;
use crate::graph::{Graph, Stepped};
use crate::limits::judge;
use graph_script::Command;
use pw_lists::{EVENTS_LIMIT, Items, Memory};
use wav_files::WavIn;

/// A number of cycles that passes the limit of events: a cycle has three.
pub(crate) const TOO_MANY: u64 = EVENTS_LIMIT + 1;

impl Graph {
    // Runs for some cycles.
    fn run_for(&mut self, cycles: u32) -> Result<Stepped, Memory>
        requires sound { IsReady self.old }
        requires ran { HasRan self.old }
        ensures { IfOk result (λ stepped. RunsFor self.old cycles stepped self.new) }
    {
        if cycles == 0 {
            return Ok(Stepped::Done);
        }
        let epoch = self.epoch_of(cycles)?;
        match judge(self.kinds.as_slice(), self.sums, &epoch) {
            Ok(sums) => self.take(epoch, sums),
            Err(which) => Ok(Stepped::Passed { which }),
        }
    }

    // The cycles of a `drain` line, of which those above `most` are left out.
    pub(crate) fn cycles_left(&self, waves: &Items<WavIn>, most: u64) -> Result<u32, Memory>
        requires sound { IsReady self.now }
        requires channels { All (λ w. 1 ≤ w.wav.channels) waves.now }
        requires most { most < 2 ^ 32 }
        ensures { IfOk result (λ cycles. DrainsUpTo most waves.now self.now cycles) }
    {
        let active = self.active_now()?;
        let cycles = drain_cycles(self.quantum, self.nodes.as_slice(), &active.here, waves);
        Ok(cycles.min(most) as u32)
    }

    // A `drain` line.
    fn drain(&mut self, waves: &Items<WavIn>) -> Result<Stepped, Memory>
        requires sound { IsReady self.old }
        requires ran { HasRan self.old }
        requires channels { All (λ w. 1 ≤ w.wav.channels) waves.now }
        ensures { IfOk result (λ stepped. Steps waves.now self.old Drain stepped self.new) }
    {
        let cycles = self.cycles_left(waves, TOO_MANY)?;
        self.run_for(cycles)
    }

    // What a line does.
    fn step_line(&mut self, command: &Command, waves: &Items<WavIn>) -> Result<Stepped, Memory>
        requires sound { IsReady self.old }
        requires ran { HasRan self.old }
        requires line { MayStep self.old command.now }
        requires channels { All (λ w. 1 ≤ w.wav.channels) waves.now }
        ensures { IfOk result (λ stepped. Steps waves.now self.old command.now stepped self.new) }
    {
        match command {
            Command::Cycles { n } => self.run_for(*n),
            Command::Drain => self.drain(waves),
            _ => self.set_by(command),
        }
    }

    /// What a line of a script does. `cycles` and `drain` lines make an epoch of what the graph is
    /// then, unless they have no cycle; the other lines change the graph, and `quantum` and `offer`
    /// lines do nothing, since they were taken before the first line. `waves` are those of the
    /// sources.
    ///
    /// `Passed`: a `link` line that has no other outcome where 256 links are there, or an epoch
    /// with which the events, the samples of sinks or the bytes of blocks pass their limit, looked
    /// at in this order. After it and after `Memory` the graph is to be dropped.
    ///
    /// Public source: PipeWire's documentation, "Graph Scheduling"; the lines are this project's.
    pub fn step(&mut self, command: &Command, waves: &Items<WavIn>) -> Result<Stepped, Memory>
        requires sound { IsReady self.old }
        requires ran { HasRan self.old }
        requires line { MayStep self.old command.now }
        requires channels { All (λ w. 1 ≤ w.wav.channels) waves.now }
        ensures line { IfOk result
            (λ stepped. Steps waves.now self.old command.now stepped self.new) }

        // Where the line is done, the next one may follow.
        ensures sound { IfOk result (λ stepped. stepped ≡ Done → IsReady self.new) }
        ensures ran { IfOk result (λ stepped. stepped ≡ Done → HasRan self.new) }
    {
        self.step_line(command, waves)
    }
}
