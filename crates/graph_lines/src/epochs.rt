//! The epoch of a line.
ghost use Rattle.std.specs.Prelude.{◌≡◌, IfOk};
ghost use Rattle.pw_graph.specs.Dependencies.{nodes_of};
ghost use Rattle.graph_lines.specs.Epochs.{IsEpochOf};
ghost use Rattle.graph_lines.specs.Gathering.{IsActivityOf, IsShapeOf};
ghost use Rattle.graph_lines.specs.Searching.{numbers_in};
ghost use Rattle.graph_lines.specs.Ready.{IsReady};

use crate::graph::Graph;
use crate::shaping::{active_nodes, bare_nodes, counted, driver_of, live_wires};
use pw_graph::{Epoch, NODES, Shape};
use pw_lists::{Items, Memory};

/// The nodes that are active in an epoch.
#[derive(Drop)]
pub(crate) struct ActiveNodes {
    pub(crate) driver: u32,
    /// Of each of the 64 numbers whether that node is active.
    pub(crate) here: [bool; NODES],
}

impl Graph {
    // The driver and the active nodes of an epoch that begins now.
    pub(crate) fn active_now(&self) -> Result<ActiveNodes, Memory>
        requires { IsReady self.now }
        ensures { IfOk result (IsActivityOf self.now) }
    {
        let live = live_wires(self.alloc, self.nodes.as_slice(), self.wires.as_slice())?;
        let driver = driver_of(self.kinds.as_slice(), self.nodes.as_slice());
        let here = active_nodes(live.as_slice(), driver);
        Ok(ActiveNodes { driver, here })
    }

    // The shape of an epoch of this many cycles.
    fn shape_of(&self, cycles: u32, active: &ActiveNodes) -> Result<Shape, Memory>
        requires sound { IsReady self.now }
        requires active { IsActivityOf self.now active.now }
        ensures shape { IfOk result (IsShapeOf self.now cycles) }
        ensures numbers { IfOk result (λ shape. nodes_of shape ≡ numbers_in active.now.here 64) }
    {
        let nodes = bare_nodes(self.alloc, &active.here)?;
        let links = self.links_in(&active.here)?;
        let shape = Shape {
            quantum: self.quantum,
            first: self.first,
            cycles,
            driver: active.driver,
            nodes,
            links,
        };
        counted(self.alloc, shape)
    }

    /// The epoch of `cycles` cycles that begins now: its driver and active nodes with their
    /// required counts and targets, the live links between them with the channels of their outputs,
    /// the forms of all ports of active nodes, and all nodes that begin anew. The graph stays.
    ///
    /// Cost: 64 looks at each link for the active nodes, one more for who has a link to whom, and
    /// for the counts of each active node two looks at each active node.
    ///
    /// Public source: PipeWire's documentation, "Graph Scheduling".
    pub fn epoch_of(&self, cycles: u32) -> Result<Epoch, Memory>
        requires { IsReady self.now }
        ensures { IfOk result (IsEpochOf self.now cycles) }
    {
        let active = self.active_now()?;
        let shape = self.shape_of(cycles, &active)?;
        let forms = self.forms_of(&active.here)?;
        let fresh = self.fresh_nodes()?;
        Ok(Epoch {
            shape,
            forms,
            fresh,
        })
    }
}
