//! The epoch that a line would make.
ghost use Rattle.std.specs.Prelude.{◌≡◌, ◌≤◌, IfOk, All};
ghost use Rattle.graph_script.specs.declared.command.Command.TheVariants.{Drain};
ghost use Rattle.graph_lines.specs.Ready.{IsReady};
ghost use Rattle.graph_lines.specs.Upcoming.{IsEpochFor, IsUpcoming};

use crate::graph::Graph;
use crate::stepping::TOO_MANY;
use graph_script::Command;
use pw_graph::Epoch;
use pw_lists::{Items, Memory};
use wav_files::WavIn;

impl Graph {
    // The epoch of `cycles` cycles; none for no cycle.
    fn epoch_for(&self, cycles: u32) -> Result<Option<Epoch>, Memory>
        requires { IsReady self.now }
        ensures { IfOk result (IsEpochFor self.now cycles) }
    {
        if cycles == 0 {
            return Ok(None);
        }
        let epoch = self.epoch_of(cycles)?;
        Ok(Some(epoch))
    }

    // The epoch of a `drain` line.
    fn drain_epoch(&self, waves: &Items<WavIn>) -> Result<Option<Epoch>, Memory>
        requires sound { IsReady self.now }
        requires channels { All (λ w. 1 ≤ w.wav.channels) waves.now }
        ensures { IfOk result (IsUpcoming waves.now self.now Drain) }
    {
        let cycles = self.cycles_left(waves, TOO_MANY)?;
        self.epoch_for(cycles)
    }

    /// The epoch that a line would make of the graph, which stays: that of a `cycles` or `drain`
    /// line, unless it has no cycle; other lines make no epoch. A drain of more cycles than there
    /// may be events is cut to one more than that, which passes the limit of events whatever it is.
    /// `waves` are those of the sources.
    ///
    /// Cost: that of `epoch_of`.
    ///
    /// Public source: PipeWire's documentation, "Graph Scheduling"; the lines are this project's.
    pub fn next_epoch(
        &self,
        command: &Command,
        waves: &Items<WavIn>,
    ) -> Result<Option<Epoch>, Memory>
        requires sound { IsReady self.now }
        requires channels { All (λ w. 1 ≤ w.wav.channels) waves.now }
        ensures { IfOk result (IsUpcoming waves.now self.now command.now) }
    {
        match command {
            Command::Cycles { n } => self.epoch_for(*n),
            Command::Drain => self.drain_epoch(waves),
            _ => Ok(None),
        }
    }
}
