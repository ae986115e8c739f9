//! How the queues and parkers begin, and the way of each thread to them.
ghost use Rattle.std.specs.Prelude.{◌≡◌, ◌<◌, ◌≤◌, ℕ, [], length, All, IfOk, Some, slice_get};
ghost use Rattle.crossbeam_queue.specs.Passes.{view, IsPassOf, ruled_capacity};
ghost use Rattle.crossbeam_utils.specs.Token.{parker_view};
ghost use Rattle.ready_queues.specs.declared.way.Way.{Way};
ghost use Rattle.ready_queues.specs.Hands.{hand};
ghost use Rattle.ready_queues.specs.Lanes.{loops_limit, unparks};
ghost use Rattle.pw_lists.specs.Limits.{dummy_node};
ghost use Rattle.ready_queues.specs.Opening.{IsFreshEnd, AreFreshEnds, IsBareWay, AreBare, IsNewWay};
ghost use Rattle.ready_queues.specs.ParkingRule.{woken};

use crate::call::Call;
use crate::end::End;
use crate::lane::Lane;
use crate::parking::{ParkPass, Parker, Unparker};
use crate::queue::{Named, Naming, Queue, QueuePass};
use crate::starting::open_start;
use crate::way::Way;
use crate::ways::Ways;
use pw_graph::NODES;
use pw_lists::{Items, Memory};
use std::alloc::Global;
use std::marker::Brand;

// A queue that is named for its loop, with one pass to it. The name is given at the call, by these
// arguments.
fn open_queue<N: Named>(
    alloc: Global,
    _owner: &Items<u32>,
    _number: u32,
) -> Result<(Queue, QueuePass), Memory>
    ensures room { IfOk result (λ q. ruled_capacity q.0 ≡ 64) }
    ensures pass { IfOk result (λ q. IsPassOf q.0 q.1
        × (view q.1 ≡ hand N.owner N.number [] [])) }
{
    match Queue::ruled(alloc, NODES) {
        Ok((queue, mut pass)) => {
            queue.another::<Naming<N>>(&mut pass);
            Ok((queue, pass))
        }
        Err(_refused) => Err(Memory),
    }
}

// The queue of a loop, where `owner` has the loop of each node.
fn queue_of(alloc: Global, owner: &Items<u32>, number: u32) -> Result<(Queue, QueuePass), Memory>
    ensures room { IfOk result (λ q. ruled_capacity q.0 ≡ 64) }
    ensures pass { IfOk result (λ q. IsPassOf q.0 q.1
        × (view q.1 ≡ hand owner.now number [] [])) }
{
    open_queue::<Brand>(alloc, owner, number)
}

// A parker with its first pass, and what unparks it.
fn parker_of(alloc: Global) -> Result<(Parker, ParkPass, Unparker), Memory>
    ensures parker { IfOk result (λ p.
        p.1.table_id ≡ unparks p.0.unparker) }
    ensures unparker { IfOk result (λ p. p.1.table_id ≡ unparks p.2) }
    ensures unused { IfOk result (λ p. parker_view p.1 ≡ woken 0 0) }
{
    match Parker::ruled(alloc) {
        Ok((parker, own)) => match parker.unparker().clone() {
            Ok(unparker) => Ok((parker, own, unparker)),
            Err(_refused) => Err(Memory),
        },
        Err(_refused) => Err(Memory),
    }
}

// What there is of a loop at the start, for all threads, for the driver's and for its own.
struct Opened {
    lane: Lane,
    end: End,
    way: Way,
}

// The queue and the parker of a loop. Its way has no ends yet.
fn open_loop(
    alloc: Global,
    owner: &Items<u32>,
    driver: &Unparker,
    number: u32,
) -> Result<Opened, Memory>
    ensures room { IfOk result (λ o. ruled_capacity o.lane.queue ≡ 64) }
    ensures end { IfOk result (λ o. IsFreshEnd owner.now number o.lane o.end) }
    ensures way { IfOk result (λ o.
        IsBareWay o.lane (unparks driver.now) number o.way) }
{
    let (queue, pass) = queue_of(alloc, owner, number)?;
    let (parker, own, unparker) = parker_of(alloc)?;
    let (started, mut begins) = open_start(alloc)?;
    let wake = unparker.pass();
    let sight = started.another(&mut begins);
    let driver = driver.pass();
    Ok(Opened {
        lane: Lane {
            queue,
            unparker,
            started,
            call: Call::new(),
        },
        end: End {
            number,
            pass,
            wake,
            sight,
        },
        way: Way {
            number,
            parker,
            own,
            driver,
            begins,
            ends: Vec::new(alloc),
            taken: 0,
            rested: 0,
        },
    })
}

// What there is of all loops at the start.
struct OpenedLoops {
    lanes: Items<Lane>,
    ends: Items<End>,
    ways: Items<Way>,
}

// The queues and parkers of all loops, in their order.
fn open_loops(
    alloc: Global,
    owner: &Items<u32>,
    driver: &Unparker,
    loops: u32,
) -> Result<OpenedLoops, Memory>
    ensures count { IfOk result (λ o. (length o.lanes ≡ loops) × (length o.ways ≡ loops)) }
    ensures rooms { IfOk result (λ o. All (λ lane. ruled_capacity lane.queue ≡ 64) o.lanes) }
    ensures ends { IfOk result (λ o. AreFreshEnds owner.now o.lanes o.ends) }
    ensures ways { IfOk result (λ o. AreBare o.lanes (unparks driver.now) o.ways) }
{
    let mut lanes = Items::new(alloc);
    let mut ends = Items::new(alloc);
    let mut ways = Items::new(alloc);
    for number in 0..loops {
        let Opened { lane, end, way } = open_loop(alloc, owner, driver, number)?;
        lanes.push(lane)?;
        ends.push(end)?;
        ways.push(way)?;
    }
    Ok(OpenedLoops { lanes, ends, ways })
}

impl Ways {
    /// For each loop a queue of 64 numbers and a parker, and a parker for the driver's thread. It
    /// answers the driver's way, and one for each loop in their order; no other is ever made.
    ///
    /// Memory: for each loop a queue, and for each thread a parker and one entry a loop; a copy of
    /// `owner`.
    /// Condition: `owner` gives for each node its loop, or `loops` for the driver's own. There are
    /// at most 63 nodes and 16 loops.
    pub fn new(
        alloc: Global,
        owner: &Items<u32>,
        loops: u32,
    ) -> Result<(Ways, Way, Items<Way>), Memory>
        requires few { loops ≤ loops_limit }
        requires nodes { length owner.now ≤ dummy_node }
        requires owners { All (λ l. l ≤ loops) owner.now }

        ensures owner { IfOk result (λ t. t.0.owner ≡ owner.now) }
        ensures loops { IfOk result (λ t. t.0.loops ≡ loops) }
        // The driver's way, and those of the loops.
        ensures driver { IfOk result (λ t. IsNewWay t.0 loops t.1) }
        ensures count { IfOk result (λ t. length t.2 ≡ loops) }
        ensures ways { IfOk result (λ t. (k : ℕ) (w : Way) → slice_get t.2 k ≡ Some w
            → IsNewWay t.0 k w) }
    {
        let owner = owner.copy(alloc)?;
        let (parker, own, unparker) = parker_of(alloc)?;
        // No lane is the driver's: its way has the own seat of a word that nothing looks at.
        let (_unread, begins) = open_start(alloc)?;
        let OpenedLoops { lanes, ends, ways } = open_loops(alloc, &owner, &unparker, loops)?;
        let mut ends = ends.into_vec();
        let mut others = ways.into_vec();
        let ways = Ways {
            owner,
            loops,
            lanes,
            driver: unparker,
            call: Call::new(),
        };
        ways.equip_all(alloc, ends.as_mut_slice(), others.as_mut_slice())?;
        let driver = ways.driver.pass();
        let way = Way {
            number: loops,
            parker,
            own,
            driver,
            begins,
            ends,
            taken: 0,
            rested: 0,
        };
        Ok((ways, way, Items::from_vec(others)))
    }
}
