//! What the seat of a loop keeps of a follower to step by. The phases themselves are in contracts
//! only.
ghost use Rattle.board_rule.specs.OnBoard.{layout};
ghost use Rattle.pw_lists.specs.Limits.{dummy_node};
ghost use Rattle.std.specs.Prelude.{◌≡◌, ◌<◌, ◌≤◌, ◌^◌, true, cond, eqb};
ghost use Rattle.pw_graph.specs.declared.event.Event.TheVariants.{Start, Finish};
ghost use Rattle.pw_graph.specs.EventWords.{event_node};
ghost use Rattle.board_rule.specs.events.Bits.{with_bit};
ghost use Rattle.board_rule.specs.Layout.{nodes};
ghost use Rattle.board_rule.specs.working.Progress.{progress_settled};

use crate::board::Board;
use pw_graph::Event;

/// A follower in its cycle `next`: how many targets it has lowered, whether FINISHED is stored, and
/// the tickets that it drew last.
#[derive(Clone, Copy, Drop)]
pub struct NodeProgress {
    pub(crate) next: u64,
    pub(crate) told: usize,
    pub(crate) ends: bool,
    pub(crate) start: u64,
    pub(crate) finish: u64,
}

/// The node has lowered the first `n` of its targets.
pub(crate) fn settle(node: &mut NodeProgress, targets: usize, told: usize, owes: bool)
    requires { node.old.next < 2 ^ 63 }
    ensures { node.new ≡ progress_settled targets node.old told owes }
{
    if !owes && told == targets {
        node.next += 1;
        node.told = 0;
        node.ends = false;
    } else {
        node.told = told;
        node.ends = true;
    }
}

/// The node has drawn the ticket of its Start, or of its Finish.
pub(crate) fn draw(node: &mut NodeProgress, ticket: u64)
    ensures { node.new ≡ cond node.old.ends (record node.old { finish = ticket })
        (record node.old { start = ticket }) }
{
    if node.ends {
        node.finish = ticket;
    } else {
        node.start = ticket;
    }
}

/// FINISHED is stored.
pub(crate) fn finish(node: &mut NodeProgress)
    ensures { node.new ≡ record node.old { ends = true } }
{
    node.ends = true;
}

/// The ticket that the node holds.
pub(crate) fn ticket_held(node: NodeProgress) -> u64
    ensures { result ≡ cond node.ends node.finish node.start }
{
    if node.ends { node.finish } else { node.start }
}

/// The event of the ticket that a follower holds.
pub(crate) fn node_event(ends: bool, cycle: u32, node: u32) -> Event
    requires { node ≤ dummy_node }
    ensures is { result ≡ cond ends (Finish cycle node) (Start cycle node) }
    ensures node { event_node result ≤ dummy_node }
{
    if ends {
        Event::Finish { cycle, node }
    } else {
        Event::Start { cycle, node }
    }
}

/// The nodes that are woken, with a target more where its pending word was found at 1.
pub(crate) fn wake(board: &Board, woke: u64, target: usize, found: u64) -> u64
    requires { target < nodes (layout board.now) }
    ensures { result ≡ cond (eqb found 1)
        (with_bit woke ((layout board.now).number target)) woke }
{
    if found == 1 {
        woke | 1 << board.number(target)
    } else {
        woke
    }
}
