//! Which loop the nodes of two squares and a sink belong to, and which cell; and their seats on the
//! boards.
ghost use Rattle.std.specs.Prelude.{◌≤◌};
ghost use Rattle.ready_queues.specs.Lanes.{loops_limit};
ghost use Rattle.plan_support.specs.Work.{CanRun};

use crate::threads::TWO_SQUARES;
use graph_run::{boards_of, cell_seating, loop_of, loop_seating, nodes_of_loop};
use plan_support::{Work, work_of};
use pw_graph::{NODES, Plan};
use std::alloc::Global;
use std::test::Fail;

/// A node, how many loops there are, and its loop: a driver is in the driver's own, and so is each
/// node of no loops.
const LOOPS: [(u32, u32, u32); 8] = [
    (0, 2, 0),
    (1, 2, 1),
    (1, 3, 2),
    (2, 2, 2),
    (0, 0, 0),
    (1, 0, 0),
    (1, 16, 5),
    (2, 16, 16),
];

// Whether the nodes of a loop are these.
fn has_nodes(alloc: Global, plan: &Plan, loops: u32, which: u32, wanted: &[u32]) -> bool
    requires few { loops ≤ loops_limit }
{
    if plan.nodes.len() >= NODES {
        return false;
    }
    let Ok(seating) = loop_seating(alloc, plan, loops) else {
        return false;
    };
    match nodes_of_loop(alloc, plan, &seating, which) {
        Ok(nodes) => nodes.as_slice() == wanted,
        Err(_memory) => false,
    }
}

// Whether each of the two squares has a cell, and the sink, which drives, is with the driver's own.
fn has_cells(alloc: Global, plan: &Plan) -> bool {
    if plan.nodes.len() >= NODES {
        return false;
    }
    match cell_seating(alloc, plan) {
        Ok(cells) => {
            let squares = cells.holder(0) == 0 && cells.holder(1) == 1;
            squares && cells.holder(2) == 2 && cells.holder(63) == 2 && cells.loops() == 2
        }
        Err(_memory) => false,
    }
}

// Whether each of two loops and the driver's own has a seat on each of two boards.
fn has_seats(alloc: Global, work: &Work) -> bool
    requires { CanRun work.now.plan work.now.waves }
{
    let Ok(seating) = loop_seating(alloc, &work.plan, 2) else {
        return false;
    };
    match boards_of(alloc, &work.plan, &work.waves, &seating) {
        Ok(all) => {
            all.boards.len() == 2
                && all.drivers.len() == 2
                && all.seats.len() == 3
                && all.seats.iter().all(|row| row.as_slice().len() == 2)
        }
        Err(_memory) => false,
    }
}

// Whether the nodes of the squares have their loops, and the loops their nodes and their seats.
fn squares_are_assigned(alloc: Global) -> bool {
    let Some(work) = work_of(alloc, TWO_SQUARES) else {
        return false;
    };
    let plan = &work.plan;
    for (node, loops, which) in LOOPS.as_slice() {
        if loop_of(plan, *loops, *node) != *which {
            return false;
        }
    }
    has_nodes(alloc, plan, 2, 1, &[1])
        && has_nodes(alloc, plan, 2, 2, &[2])
        && has_nodes(alloc, plan, 0, 0, &[0, 1, 2])
        && has_cells(alloc, plan)
        && has_seats(alloc, &work)
}

#[test]
fn a_node_has_its_loop_and_each_loop_its_seats(rt: HostRuntime) -> Result<(), Fail> {
    assert!(rt; squares_are_assigned(rt.alloc()));
    Ok(())
}
