//! The graph after an epoch.
ghost use Rattle.std.specs.Prelude.{◌≡◌, ◌+◌, ◌^◌, ◌<◌, ℕ, ◌==◌, length, IfOk, None, slice_index_or};
ghost use Rattle.std.specs.List.{list_any};
ghost use Rattle.pw_graph.specs.declared.kind.Kind.TheVariants.{Dummy};
ghost use Rattle.pw_graph.specs.PlanSums.{is_sink};
ghost use Rattle.graph_lines.specs.declared.graph.Stepped.TheVariants.{Done};
ghost use Rattle.graph_lines.specs.Activity.{standing};
ghost use Rattle.graph_lines.specs.Epochs.{has_node};
ghost use Rattle.graph_lines.specs.EpochLines.{cycles_in, is_formed_sink, StandsAfter, IsAfter};
ghost use Rattle.graph_lines.specs.Ready.{IsReady, HasRan};
ghost use Rattle.graph_lines.specs.Sums.{sums_with, passed};

use crate::graph::{Graph, Stepped};
use crate::limits::Sums;
use crate::standing::Standing;
use pw_graph::{Epoch, Kind, PortForm, Shape, ShapeNode, is_sink};
use pw_lists::{Items, Memory};

// Whether one of these is the node.
fn any_node(nodes: &[ShapeNode], node: u32) -> bool
    ensures { result ≡ list_any (λ n. n.node == node) nodes.now }
{
    nodes.iter().any(|n| n.node == node)
}

// Whether a node is active.
fn has_node(shape: &Shape, node: u32) -> bool
    ensures { result ≡ has_node shape.now node }
{
    any_node(shape.nodes.as_slice(), node)
}

// The cycles of an epoch that a node is active in.
pub(crate) fn cycles_in(epoch: &Epoch, node: u32) -> u32
    ensures { result ≡ cycles_in epoch.now node }
{
    if has_node(&epoch.shape, node) {
        epoch.shape.cycles
    } else {
        0
    }
}

// Whether the node of this number is a sink.
fn is_sink_at(kinds: &[Kind], node: u32) -> bool
    ensures { result ≡ is_sink (slice_index_or kinds.now node Dummy) }
{
    match kinds.get(node as usize) {
        Some(kind) => is_sink(kind),
        None => false,
    }
}

// Whether one of these is a form of the node.
fn has_form(forms: &[PortForm], node: u32) -> bool
    ensures { result ≡ list_any (λ f. f.port.node == node) forms.now }
{
    forms.iter().any(|form| form.port.node == node)
}

impl Graph {
    // Whether a node is a sink that has a form in an epoch.
    pub(crate) fn is_formed_sink(&self, epoch: &Epoch, node: u32) -> bool
        ensures { result ≡ is_formed_sink self.now epoch.now node }
    {
        is_sink_at(self.kinds.as_slice(), node) && has_form(epoch.forms.as_slice(), node)
    }

    // What is said of a node after an epoch.
    fn standing_after(&self, epoch: &Epoch, node: u32) -> Standing
        requires sound { IsReady self.now }
        requires ran { HasRan self.now }
        requires room { self.now.first + epoch.now.shape.cycles < 2 ^ 32 }
        requires node { node < length self.now.nodes }
        ensures { StandsAfter self.now epoch.now node result }
    {
        let standing = self.standing(node);
        Standing {
            gave_up: false,
            told: self.channels_in(node),
            kept: standing.kept || self.is_formed_sink(epoch, node),
            ran: standing.ran + cycles_in(epoch, node),
            ..standing
        }
    }

    // What is said of all nodes after an epoch.
    fn standings_after(&self, epoch: &Epoch) -> Result<Items<Standing>, Memory>
        requires sound { IsReady self.now }
        requires ran { HasRan self.now }
        requires room { self.now.first + epoch.now.shape.cycles < 2 ^ 32 }
        ensures many { IfOk result (λ nodes. length nodes ≡ length self.now.nodes) }
        ensures each { IfOk result (λ nodes. (n : ℕ) → n < length self.now.nodes
            → StandsAfter self.now epoch.now n (standing nodes n)) }
    {
        let mut nodes = Items::new(self.alloc);
        for node in 0..self.node_count() {
            nodes.push(self.standing_after(epoch, node))?;
        }
        Ok(nodes)
    }

    /// Takes an epoch whose sums pass no limit: it is one of the epochs, its cycles are counted,
    /// and each node gets the channels of its first input. A sink that has a form in it keeps
    /// its format from then on. After `Memory` the graph is to be dropped.
    pub fn take(&mut self, epoch: Epoch, sums: Sums) -> Result<Stepped, Memory>
        requires sound { IsReady self.old }
        requires ran { HasRan self.old }
        requires sums { sums ≡ sums_with self.old.kinds self.old.sums epoch }
        requires limits { passed sums ≡ None }
        ensures done { IfOk result (λ stepped. stepped ≡ Done) }
        ensures after { IfOk result (λ stepped. IsAfter self.old epoch self.new) }

        // The next line may follow.
        ensures sound { IfOk result (λ stepped. IsReady self.new) }
        ensures ran { IfOk result (λ stepped. HasRan self.new) }
    {
        let nodes = self.standings_after(&epoch)?;
        let cycles = epoch.shape.cycles;
        self.epochs.push(epoch)?;
        self.first += cycles;
        self.sums = sums;
        self.nodes = nodes;
        Ok(Stepped::Done)
    }
}
