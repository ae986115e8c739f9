//! A part of a script, followed line by line.
ghost use Rattle.std.specs.Prelude.{◌≡◌, ◌+◌, ◌≤◌, ◌&&◌, not, All, IfOk, Some, None};
ghost use Rattle.pw_graph.specs.PlanSums.{capped};
ghost use Rattle.graph_lines.specs.declared.graph.Stepped.TheVariants.{Done};
ghost use Rattle.graph_lines.specs.Sums.{capped_sums, passed};
ghost use Rattle.graph_plan.specs.working.Ahead.{is_run, both_sums, IsAhead};
ghost use Rattle.graph_plan.specs.working.Members.{IsStanding, IsReadyFor};
ghost use Rattle.graph_plan.specs.Moving.{MakesOf, own_sums};
ghost use Rattle.graph_plan.specs.working.MovingTogether.{HasTaken, GoesBy};
ghost use Rattle.graph_plan.specs.PartLines.{is_line_of};

use crate::partition::is_among;
use graph_lines::{Graph, Stepped, Sums};
use graph_script::{Command, Line};
use pw_graph::Epoch;
use pw_lists::{Items, Memory};
use wav_files::WavIn;

/// A part: its nodes, ascending, and the graph that its lines so far have made.
#[derive(Drop)]
pub(crate) struct Member {
    pub(crate) nodes: Items<u32>,
    pub(crate) graph: Graph,
}

// Whether a line is one of the part of these nodes: it makes a node, or names only these.
fn is_line_of(nodes: &[u32], line: &Line) -> bool
    ensures { result ≡ is_line_of nodes.now line.now }
{
    match &line.command {
        Command::Driver { node, .. } => is_among(nodes, *node),
        Command::Loop { node, .. } => is_among(nodes, *node),
        Command::Offer { port, .. } => is_among(nodes, port.node),
        Command::Buffers { port, .. } => is_among(nodes, port.node),
        Command::Link { from, to } => is_among(nodes, from.node) && is_among(nodes, to.node),
        Command::Unlink { from, to } => is_among(nodes, from.node) && is_among(nodes, to.node),
        Command::On { node } => is_among(nodes, *node),
        Command::Off { node } => is_among(nodes, *node),
        Command::Async { node } => is_among(nodes, *node),
        _ => true,
    }
}

// Whether a line may make an epoch.
fn is_run(command: &Command) -> bool
    ensures { result ≡ is_run command.now }
{
    match command {
        Command::Cycles { .. } => true,
        Command::Drain => true,
        _ => false,
    }
}

// Whether a line is one of the part of these nodes, and makes no epoch.
fn is_change(nodes: &[u32], line: &Line) -> bool
    ensures { result ≡ (is_line_of nodes.now line.now && not (is_run line.now.command)) }
{
    is_line_of(nodes, line) && !is_run(&line.command)
}

// The sum of two numbers, or the greatest number.
#[tactic(auto, using(graph_lines::proofs::SumLemmas::to_capped))]
fn sum_of(a: u64, b: u64) -> u64
    ensures { result ≡ capped (a + b) }
{
    a.saturating_add(b)
}

// Sums and those of a part, added.
fn sums_of(sums: Sums, own: Sums) -> Sums
    ensures { result ≡ capped_sums (both_sums sums own) }
{
    let events = sum_of(sums.events, own.events);
    let samples = sum_of(sums.samples, own.samples);
    let bytes = sum_of(sums.bytes, own.bytes);
    Sums {
        events,
        samples,
        bytes,
    }
}

impl Member {
    // The epoch that a line would make of the part.
    pub(crate) fn next_epoch(
        &self,
        line: &Line,
        waves: &Items<WavIn>,
    ) -> Result<Option<Epoch>, Memory>
        requires ready { IsReadyFor line.now self.now }
        requires channels { All (λ w. 1 ≤ w.wav.channels) waves.now }
        ensures { IfOk result (IsAhead waves.now line.now self.now) }
    {
        if is_line_of(self.nodes.as_slice(), line) {
            self.graph.next_epoch(&line.command, waves)
        } else {
            Ok(None)
        }
    }

    // Sums, with those of the part and of an epoch that it would make.
    pub(crate) fn sums_more(&self, sums: Sums, epoch: &Option<Epoch>) -> Sums
        ensures { result ≡ capped_sums (both_sums sums (own_sums self.now epoch.now)) }
    {
        let before = sums_of(sums, self.graph.sums);
        match epoch {
            Some(epoch) => before.with(self.graph.kinds.as_slice(), epoch),
            None => before,
        }
    }

    // Takes an epoch.
    fn take(&mut self, epoch: Epoch) -> Result<Stepped, Memory>
        requires stands { IsStanding self.old }
        requires within { passed (own_sums self.old (Some epoch)) ≡ None }
        ensures done { IfOk result (λ stepped. stepped ≡ Done) }
        ensures taken { IfOk result (λ stepped. HasTaken self.old epoch self.new) }
    {
        let sums = self.graph.sums.with(self.graph.kinds.as_slice(), &epoch);
        self.graph.take(epoch, sums)
    }

    // What a line does that makes no epoch of the part.
    fn change(&mut self, line: &Line, waves: &Items<WavIn>) -> Result<Stepped, Memory>
        requires ready { IsReadyFor line.now self.old }
        requires made { MakesOf waves.now line.now self.old None }
        requires channels { All (λ w. 1 ≤ w.wav.channels) waves.now }
        ensures { IfOk result
            (λ stepped. GoesBy waves.now line.now self.old None stepped self.new) }
    {
        if is_change(self.nodes.as_slice(), line) {
            self.graph.step(&line.command, waves)
        } else {
            Ok(Stepped::Done)
        }
    }

    // What a line does to the part, of which it makes this epoch, if any.
    pub(crate) fn go_by(
        &mut self,
        line: &Line,
        epoch: Option<Epoch>,
        waves: &Items<WavIn>,
    ) -> Result<Stepped, Memory>
        requires ready { IsReadyFor line.now self.old }
        requires made { MakesOf waves.now line.now self.old epoch }
        requires within { passed (own_sums self.old epoch) ≡ None }
        requires channels { All (λ w. 1 ≤ w.wav.channels) waves.now }
        ensures { IfOk result
            (λ stepped. GoesBy waves.now line.now self.old epoch stepped self.new) }
    {
        match epoch {
            Some(epoch) => self.take(epoch),
            None => self.change(line, waves),
        }
    }
}
