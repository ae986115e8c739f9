//! What has happened in a cycle so far.
ghost use Rattle.std.specs.Prelude.{[]};
ghost use Rattle.trace_check.specs.working.Admitting.{HasSmallNode, Becomes, StandsFor};

use crate::node_sets::with;
use pw_graph::Event;

/// Which nodes have started and finished, and whether there was a Tick.
#[derive(Clone, Copy, Drop)]
pub(crate) struct SoFar {
    pub(crate) started: u64,
    pub(crate) finished: u64,
    pub(crate) ticked: bool,
}

/// After the Begin of a cycle: nothing.
pub(crate) fn nothing_yet(_cycle: u32) -> SoFar
    ensures { StandsFor _cycle [] result }
{
    SoFar {
        started: 0,
        finished: 0,
        ticked: false,
    }
}

/// After one event more.
pub(crate) fn after_event(so_far: SoFar, event: &Event) -> SoFar
    requires { HasSmallNode event.now }
    ensures { Becomes so_far event.now result }
{
    let SoFar {
        started,
        finished,
        ticked,
    } = so_far;
    match event {
        Event::Start { node, .. } => SoFar {
            started: with(started, *node),
            finished,
            ticked,
        },
        Event::Finish { node, .. } => SoFar {
            started,
            finished: with(finished, *node),
            ticked,
        },
        Event::Tick { .. } => SoFar {
            started,
            finished,
            ticked: true,
        },
        _ => so_far,
    }
}
