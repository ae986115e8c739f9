//! What any line does in a rehearsal, which makes no epoch.
ghost use Rattle.std.specs.Prelude.{◌≡◌, ◌<◌, ◌≤◌, length, map, IfOk, All};
ghost use Rattle.std.specs.List.{range_with_len};
ghost use Rattle.graph_script.specs.declared.command.Command.TheVariants.{Drain};
ghost use Rattle.graph_lines.specs.declared.graph.Stepped.TheVariants.{Done};
ghost use Rattle.graph_lines.specs.Conditions.{MayStep};
ghost use Rattle.graph_lines.specs.Ready.{HasReadyNodes, IsReady};
ghost use Rattle.graph_lines.specs.Rehearsal.{standing_past, GoesPast, Rehearses};

use crate::graph::{Graph, Stepped};
use crate::standing::Standing;
use crate::taking::cycles_in;
use graph_script::Command;
use pw_graph::Epoch;
use pw_lists::{Items, Memory};
use wav_files::WavIn;

/// The greatest number of cycles that a rehearsal counts.
const MOST_CYCLES: u64 = 4_294_967_295;

impl Graph {
    // What an epoch leaves of a node.
    fn standing_past(&self, epoch: &Epoch, node: u32) -> Standing
        requires { node < length self.now.nodes }
        ensures { result ≡ standing_past self.now epoch.now node }
    {
        let standing = self.standing(node);
        Standing {
            kept: standing.kept || self.is_formed_sink(epoch, node),
            ran: standing.ran.saturating_add(cycles_in(epoch, node)),
            ..standing
        }
    }

    // What an epoch leaves of all nodes.
    fn standings_past(&self, epoch: &Epoch) -> Result<Items<Standing>, Memory>
        requires { HasReadyNodes self.now.nodes self.now.kinds self.now.ports }
        ensures { IfOk result (λ nodes. nodes
            ≡ map (standing_past self.now epoch.now) (range_with_len 0 (length self.now.nodes))) }
    {
        let mut nodes = Items::new(self.alloc);
        for node in 0..self.node_count() {
            nodes.push(self.standing_past(epoch, node))?;
        }
        Ok(nodes)
    }

    // Goes past an epoch of some cycles.
    fn go_past(&mut self, cycles: u32) -> Result<Stepped, Memory>
        requires { IsReady self.old }
        ensures { IfOk result
            (λ stepped. (stepped ≡ Done) × GoesPast self.old cycles self.new) }
    {
        if cycles == 0 {
            return Ok(Stepped::Done);
        }
        let epoch = self.epoch_of(cycles)?;
        let nodes = self.standings_past(&epoch)?;
        self.nodes = nodes;
        Ok(Stepped::Done)
    }

    // Goes past the epoch of a `drain` line.
    fn drain_past(&mut self, waves: &Items<WavIn>) -> Result<Stepped, Memory>
        requires sound { IsReady self.old }
        requires channels { All (λ w. 1 ≤ w.wav.channels) waves.now }
        ensures { IfOk result (λ stepped. Rehearses waves.now self.old Drain stepped self.new) }
    {
        let cycles = self.cycles_left(waves, MOST_CYCLES)?;
        self.go_past(cycles)
    }

    // What a line of a rehearsal does.
    fn rehearse_line(&mut self, command: &Command, waves: &Items<WavIn>) -> Result<Stepped, Memory>
        requires sound { IsReady self.old }
        requires line { MayStep self.old command.now }
        requires channels { All (λ w. 1 ≤ w.wav.channels) waves.now }
        ensures { IfOk result
            (λ stepped. Rehearses waves.now self.old command.now stepped self.new) }
    {
        match command {
            Command::Cycles { n } => self.go_past(*n),
            Command::Drain => self.drain_past(waves),
            _ => self.set_by(command),
        }
    }

    /// What a line of a script does in a rehearsal, which shows what links its lines make: all that
    /// it does to links, formats and marks, and of an epoch only what formats hang on: which sinks
    /// had a form and how many cycles each node was active in. No epoch is made, and nothing is
    /// summed.
    ///
    /// `Passed`: a `link` line that has no other outcome where 256 links are there; it makes no
    /// link, and the next line may follow. After `Memory` the graph is to be dropped.
    ///
    /// Public source: PipeWire's documentation, "Graph Scheduling"; the lines are this project's.
    pub fn rehearse(&mut self, command: &Command, waves: &Items<WavIn>) -> Result<Stepped, Memory>
        requires sound { IsReady self.old }
        requires line { MayStep self.old command.now }
        requires channels { All (λ w. 1 ≤ w.wav.channels) waves.now }
        ensures line { IfOk result
            (λ stepped. Rehearses waves.now self.old command.now stepped self.new) }
        ensures sound { IfOk result (λ stepped. IsReady self.new) }
    {
        self.rehearse_line(command, waves)
    }
}
