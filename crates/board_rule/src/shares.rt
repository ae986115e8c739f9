//! What each seat of a board begins with: of all entries those that are its own.
ghost use Rattle.std.specs.Prelude.{◌≡◌, ◌+◌, IfOk};
ghost use Rattle.pw_graph.specs.Pools.{IsPooledShape};
ghost use Rattle.board_rule.specs.Layout.{layout_of, HasSeats};
ghost use Rattle.board_rule.specs.start.Owners.{own, owners_of};
ghost use Rattle.board_rule.specs.View.{first_view};
ghost use Rattle.board_rule.specs.working.Shares.{HasShares};
ghost use Rattle.board_rule.specs.working.Slots.{IsStart};

use crate::board_shape::BoardShape;
use crate::dealing::{deal, take};
use crate::progress::NodeProgress;
use crate::starts::Starts;
use crate::view::{BlockView, ReadView, WriteView};
use std::alloc::{AllocError, Global};

/// By the numbers of seats, the nodes, the ends of links and the blocks that each begins with. The
/// driver's seat is the last.
#[derive(Drop)]
pub struct Shares {
    pub(crate) nodes: Vec<Vec<NodeProgress>>,
    pub(crate) writes: Vec<Vec<WriteView>>,
    pub(crate) reads: Vec<Vec<ReadView>>,
    pub(crate) blocks: Vec<Vec<BlockView>>,
}

// The shares of all seats of a board.
fn all_shares(
    alloc: Global,
    board_shape: &BoardShape,
    starts: &Starts,
) -> Result<Shares, AllocError>
    requires starts { IsStart (layout_of board_shape.now) starts.now }
    requires seats { HasSeats board_shape.now }
    requires pooled { IsPooledShape board_shape.now.shape }
    ensures { IfOk result (λ shares. HasShares (layout_of board_shape.now) 0
        (board_shape.now.seats + 1) shares) }
{
    let owners = &starts.owners;
    let most = board_shape.seats;
    Ok(Shares {
        nodes: deal(
            alloc,
            owners.nodes.as_slice(),
            most,
            starts.nodes.as_slice(),
        )?,
        writes: deal(
            alloc,
            owners.writes.as_slice(),
            most,
            starts.writes.as_slice(),
        )?,
        reads: deal(
            alloc,
            owners.reads.as_slice(),
            most,
            starts.reads.as_slice(),
        )?,
        blocks: deal(
            alloc,
            owners.blocks.as_slice(),
            most,
            starts.blocks.as_slice(),
        )?,
    })
}

/// The ends of links of the driver's seat, and the shares of the loops' seats. Cost: two looks at
/// each node, link and block, and four lists for each seat.
pub(crate) fn shares_of(
    alloc: Global,
    board_shape: &BoardShape,
    starts: &Starts,
) -> Result<(Vec<ReadView>, Shares), AllocError>
    requires starts { IsStart (layout_of board_shape.now) starts.now }
    requires seats { HasSeats board_shape.now }
    requires pooled { IsPooledShape board_shape.now.shape }
    ensures driver { let p = layout_of board_shape.now in
        IfOk result (λ t. t.0.items
        ≡ own p.seats (owners_of p).reads (first_view p).reads) }
    ensures loops { IfOk result (λ t. HasShares (layout_of board_shape.now) 0
        board_shape.now.seats t.1) }
{
    let mut shares = all_shares(alloc, board_shape, starts)?;
    let reads = take(alloc, &mut shares.reads, board_shape.seats);
    Ok((reads, shares))
}
