//! What the driver's seat keeps to step by. Its phase is in contracts only.
ghost use Rattle.std.specs.Prelude.{◌≡◌, ◌<◌, ◌≤◌, ◌^◌, cond};
ghost use Rattle.pw_lists.specs.Limits.{dummy_node};
ghost use Rattle.pw_graph.specs.EventWords.{event_node};
ghost use Rattle.board_rule.specs.start.StartViews.{resting};
ghost use Rattle.board_rule.specs.working.DriverProgress.{lead_progress_of, told_so_far, reset_so_far, due_ticket, due_event, lead_drawn, lead_stored, is_begin};

use pw_graph::Event;

/// The event whose ticket the driver's seat draws next, or holds.
#[derive(Clone, Copy, Drop)]
pub enum Due {
    Begin,
    Tick,
    Start,
    Finish,
    End,
}

/// The driver's seat in its cycle: how many nodes it has reset, or targets lowered; the event that
/// is due; and the tickets that it drew last, `start` and `finish` for its own node.
#[derive(Clone, Copy, Drop)]
pub struct DriverProgress {
    pub(crate) cycle: u64,
    pub(crate) done: usize,
    pub(crate) due: Due,
    pub(crate) ticket: u64,
    pub(crate) start: u64,
    pub(crate) finish: u64,
}

/// The driver's seat before its first cycle.
pub(crate) fn lead_at(first: u64) -> DriverProgress
    ensures { result ≡ lead_progress_of (resting first) }
{
    DriverProgress {
        cycle: first,
        done: 0,
        due: Due::Begin,
        ticket: 0,
        start: 0,
        finish: 0,
    }
}

/// `n` targets are lowered, and the last of these may be owed its trigger.
pub(crate) fn told_so_far(targets: usize, told: usize, owes: bool) -> usize
    ensures { result ≡ told_so_far targets told owes }
{
    if !owes && told == targets { 0 } else { told }
}

/// The first `n` nodes are reset.
pub(crate) fn reset_so_far(nodes: usize, done: usize) -> usize
    ensures { result ≡ reset_so_far nodes done }
{
    if done == nodes { 0 } else { done }
}

/// The driver's seat has drawn the ticket of the event that is due.
pub(crate) fn lead_draw(lead: &mut DriverProgress, ticket: u64)
    ensures { lead.new ≡ lead_drawn lead.old lead.old.due ticket }
{
    match lead.due {
        Due::Start => lead.start = ticket,
        Due::Finish => lead.finish = ticket,
        _ => lead.ticket = ticket,
    }
}

/// The ticket that the driver's seat holds.
pub(crate) fn lead_ticket(lead: DriverProgress) -> u64
    ensures { result ≡ due_ticket lead lead.due }
{
    match lead.due {
        Due::Start => lead.start,
        Due::Finish => lead.finish,
        _ => lead.ticket,
    }
}

/// The driver's seat has stored the event that was due.
pub(crate) fn lead_store(lead: &mut DriverProgress)
    requires { lead.old.cycle < 2 ^ 63 }
    ensures { lead.new ≡ lead_stored lead.old lead.old.due }
{
    match lead.due {
        Due::Begin => lead.due = Due::Tick,
        Due::Tick => {}
        Due::Start => lead.due = Due::Finish,
        Due::Finish => lead.due = Due::End,
        Due::End => {
            lead.cycle += 1;
            lead.due = Due::Begin;
        }
    }
}

/// The event that is due. The late set of a Tick is in a word of its own.
pub(crate) fn lead_event(due: Due, cycle: u32, node: u32) -> Event
    requires { node ≤ dummy_node }
    ensures is { result ≡ due_event due cycle node }
    ensures node { event_node result ≤ dummy_node }
{
    match due {
        Due::Begin => Event::Begin { cycle },
        Due::Tick => Event::Tick { cycle, late: 0 },
        Due::Start => Event::Start { cycle, node },
        Due::Finish => Event::Finish { cycle, node },
        Due::End => Event::End { cycle },
    }
}

/// The nodes that are woken: none at the Begin of a cycle.
pub(crate) fn woke_at_draw(due: Due, woke: u64) -> u64
    ensures { result ≡ cond (is_begin due) 0 woke }
{
    match due {
        Due::Begin => 0,
        _ => woke,
    }
}
