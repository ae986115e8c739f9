//! Who is on which seat of the boards.
ghost use Rattle.std.specs.Prelude.{◌≡◌, ◌≤◌, IfOk, length, map};
ghost use Rattle.std.specs.List.{range_with_len};
ghost use Rattle.pw_lists.specs.Limits.{nodes_limit};
ghost use Rattle.graph_run.specs.Assignment.{loop_of, cell_number, cell_count};
ghost use Rattle.graph_run.specs.Seating.{IsSeatingOf, holder_of, nodes_of_loop, seat_row, seated_by};

use crate::assignment::{drives_somewhere, owner_row};
use pw_graph::{Plan, Shape};
use pw_lists::{Items, Memory};
use std::alloc::Global;

/// The seat of each node of a plan. Seats are numbered from 0, one a loop; the last, of the number
/// `loops`, is that of the driver's own loop, on which each node is that drives in some epoch.
#[derive(Drop)]
pub struct Seating {
    pub(crate) owner: Items<u32>,
    pub(crate) loops: u32,
}

impl Seating {
    /// How many loops there are beside the driver's own. Takes no memory.
    pub fn loops(&self) -> u32
        ensures { result ≡ self.now.loops }
    {
        self.loops
    }

    /// The seat of a node: that of the driver's own loop for what is no node of the plan. Takes no
    /// memory.
    pub fn holder(&self, node: u32) -> u32
        ensures { result ≡ holder_of self.now node }
    {
        match self.owner.as_slice().get(node as usize) {
            Some(seat) => *seat,
            None => self.loops,
        }
    }
}

/// The seating by loops: each node is on the seat of its loop, as `loop_of` says.
///
/// Memory: a number for each node. Cost: a pass over the epochs for each node.
pub fn loop_seating(alloc: Global, plan: &Plan, loops: u32) -> Result<Seating, Memory>
    requires nodes { length plan.now.nodes ≤ nodes_limit }
    requires few { loops ≤ nodes_limit }
    ensures is { IfOk result (λ s. s ≡ seated_by (loop_of plan.now loops) plan.now loops) }
    ensures seating { IfOk result (IsSeatingOf plan.now) }
{
    let owner = owner_row(alloc, plan, loops)?;
    Ok(Seating { owner, loops })
}

// How many nodes drive in no epoch.
fn count_cells(plan: &Plan) -> u32
    requires nodes { length plan.now.nodes ≤ nodes_limit }
    ensures { result ≡ cell_count plan.now }
{
    let mut cells = 0;
    for node in 0..plan.nodes.len() {
        if !drives_somewhere(plan, node as u32) {
            cells += 1;
        }
    }
    cells
}

// The cell of each node, where there are `cells`.
fn cell_row(alloc: Global, plan: &Plan, cells: u32) -> Result<Items<u32>, Memory>
    requires nodes { length plan.now.nodes ≤ nodes_limit }
    requires cells { cells ≡ cell_count plan.now }
    ensures { IfOk result (λ row. row
        ≡ map (cell_number plan.now) (range_with_len 0 (length plan.now.nodes))) }
{
    let mut row = Items::new(alloc);
    let mut next = 0;
    for node in 0..plan.nodes.len() {
        if drives_somewhere(plan, node as u32) {
            row.push(cells)?;
        } else {
            row.push(next)?;
            next += 1;
        }
    }
    Ok(row)
}

/// The seating by cells: each node that drives in no epoch has a seat of its own, in the order of
/// the nodes, and all others are on that of the driver's own loop.
///
/// Memory: a number for each node. Cost: two passes over the epochs for each node.
pub fn cell_seating(alloc: Global, plan: &Plan) -> Result<Seating, Memory>
    requires nodes { length plan.now.nodes ≤ nodes_limit }
    ensures is { IfOk result (λ s. s
        ≡ seated_by (cell_number plan.now) plan.now (cell_count plan.now)) }
    ensures seating { IfOk result (IsSeatingOf plan.now) }
{
    let loops = count_cells(plan);
    let owner = cell_row(alloc, plan, loops)?;
    Ok(Seating { owner, loops })
}

/// The nodes of a loop, which are those on its seat: ascending.
pub fn nodes_of_loop(
    alloc: Global,
    plan: &Plan,
    seating: &Seating,
    which: u32,
) -> Result<Items<u32>, Memory>
    requires few { length plan.now.nodes ≤ nodes_limit }
    ensures { IfOk result (λ nodes. nodes
        ≡ nodes_of_loop (holder_of seating.now) plan.now which) }
{
    let mut nodes = Items::new(alloc);
    for node in 0..plan.nodes.len() {
        if seating.holder(node as u32) == which {
            nodes.push(node as u32)?;
        }
    }
    Ok(nodes)
}

/// The seats of a shape's nodes.
pub(crate) fn seat_row(
    alloc: Global,
    seating: &Seating,
    shape: &Shape,
) -> Result<Items<u32>, Memory>
    ensures { IfOk result (λ row. row ≡ seat_row (holder_of seating.now) shape.now) }
{
    let mut row = Items::new(alloc);
    for node in shape.nodes.as_slice() {
        row.push(seating.holder(node.node))?;
    }
    Ok(row)
}
