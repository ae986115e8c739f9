//! What the nodes of a loop have kept.
ghost use Rattle.std.specs.Prelude.{◌≡◌, ◌<◌, ◌↔◌, ℕ, Contains, IfNone, IfSome, IsTrue, length, slice_index};
ghost use Rattle.pw_graph.specs.declared.kind.Kind.TheVariants.{Sink, Meter};
ghost use Rattle.pw_graph.specs.PlanForms.{kind_at};
ghost use Rattle.data_loop.specs.Loops.{IsLoop, plan_of};
ghost use Rattle.data_loop.specs.LoopKept.{Keeps, KeepsAtEnd, HasTaken, HasPeak, HasPeakAtEnd};

use crate::loop_state::LoopState;
use pw_lists::Items;
use std::alloc::Global;

// The index of a number in a list, if it is there.
fn place_in(nodes: &[u32], node: u32) -> Option<usize>
    ensures some { IfSome result (λ i.
        (i < length nodes.now) × (slice_index nodes.now i ≡ node)) }
    ensures none { IfNone result (¬ (Contains nodes.now node)) }
{
    for index in 0..nodes.len() {
        if nodes[index] == node {
            return Some(index);
        }
    }
    None
}

// The index of a number in a list that has it.
fn index_in(nodes: &[u32], node: u32) -> usize
    requires own { Contains nodes.now node }
    ensures inside { result < length nodes.now }
    ensures at { slice_index nodes.now result ≡ node }
{
    match place_in(nodes, node) {
        Some(index) => index,
        None => unreachable!(),
    }
}

impl LoopState {
    /// The stream of a sink of this loop so far: at the end of the run, its whole stream. Takes no
    /// memory.
    pub fn kept(&self, node: u32) -> &[i16]
        requires whole { IsLoop self.now }
        requires own { Contains self.now.nodes node }
        requires sink { kind_at (plan_of self.now) node ≡ Sink }
        ensures state { Keeps self.now node result.now }
        ensures end { KeepsAtEnd self.now node result.now }
    {
        self.states[index_in(self.nodes.as_slice(), node)].kept()
    }

    /// Moves the stream of a sink of this loop out, without a copy: at the end of the run, its
    /// whole stream. The sink is then prepared for no frame. Takes no memory.
    pub fn take_kept(&mut self, alloc: Global, node: u32) -> Items<i16>
        requires whole { IsLoop self.old }
        requires own { Contains self.old.nodes node }
        requires sink { kind_at (plan_of self.old) node ≡ Sink }
        ensures whole { IsLoop self.new }
        ensures taken { HasTaken self.old node result self.new }
    {
        let at = index_in(self.nodes.as_slice(), node);
        self.states[at].take_kept(alloc)
    }

    /// Whether a node is one of the loop's. Takes no memory.
    pub fn has_node(&self, node: u32) -> bool
        ensures { IsTrue result ↔ Contains self.now.nodes node }
    {
        place_in(self.nodes.as_slice(), node).is_some()
    }

    /// The greatest absolute value that a meter of this loop received so far, 0 to 32768. Takes no
    /// memory.
    pub fn greatest(&self, node: u32) -> u32
        requires whole { IsLoop self.now }
        requires own { Contains self.now.nodes node }
        requires meter { kind_at (plan_of self.now) node ≡ Meter }
        ensures state { HasPeak self.now node result }
        ensures end { HasPeakAtEnd self.now node result }
    {
        self.states[index_in(self.nodes.as_slice(), node)].greatest()
    }
}
