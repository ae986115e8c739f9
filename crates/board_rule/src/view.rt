//! What a seat knows of its board. The views themselves are in contracts only: no value of
//! `View` is made.
use pw_graph::Event;
use std::collections::LinkedList;

/// The phase of a follower in its cycle.
#[derive(Clone, Copy, Drop)]
pub enum Phase {
    /// It waits to be triggered.
    Idle,
    Awake,
    /// The ticket of its Start is drawn.
    StartDrawn,
    /// Its Start is stored: it works.
    Running,
    /// FINISHED is stored.
    Done,
    /// The ticket of its Finish is drawn.
    FinishDrawn,
    /// Its Finish is stored, and the first `n` targets are lowered. The last of these may be owed
    /// its trigger.
    Telling { told: usize, owes: bool },
}

/// A follower, in its cycle `next`. `start` and `finish` are the tickets that it drew last.
#[derive(Clone, Copy, Drop)]
pub struct NodeView {
    pub next: u64,
    pub phase: Phase,
    pub start: u64,
    pub finish: u64,
}

/// The phase of the driver's seat in its cycle.
#[derive(Clone, Copy, Drop)]
pub enum DriverPhase {
    /// The cycle is not yet begun.
    Between,
    BeginDrawn,
    /// The first `n` nodes are reset.
    Reset { done: usize },
    /// And the pending word of the next one.
    Half { done: usize },
    /// All are reset, and the first `n` targets are lowered. The last of these may be owed its
    /// trigger.
    Kick { told: usize, owes: bool },
    /// All targets are lowered, and the driver's node waits to be triggered.
    Waiting,
    /// The ticket of a Tick is drawn, and statuses are loaded.
    Checking,
    /// The late set is stored.
    LateStored,
    Awake,
    StartDrawn,
    Running,
    Done,
    FinishDrawn,
    FinishStored,
    EndDrawn,
}

/// The driver's seat, in its cycle. `checked` says that a check was begun in it, `checks` in how
/// many cycles of the epoch one was, and `lates` has a Tick for each late set that was stored, in
/// their order. `ticket` is the one that it drew last for a Begin, a Tick or an End, `start` and
/// `finish` those for its own node.
pub struct DriverView {
    pub cycle: u64,
    pub drive: DriverPhase,
    pub checked: bool,
    pub checks: u64,
    pub lates: LinkedList<Event>,
    pub ticket: u64,
    pub start: u64,
    pub finish: u64,
}

/// The writer's end of a link: one more than the cycle of its last load and of its last store, and
/// the numbers of the blocks that it stored last and before that.
#[derive(Clone, Copy, Drop)]
pub struct WriteView {
    pub loaded: u64,
    pub stored: u64,
    pub id: u32,
    pub last: u32,
}

/// The reader's end of a link: one more than the cycle of its last load, of its last decrement and
/// of its last store, and the number of the block that it loaded last.
#[derive(Clone, Copy, Drop)]
pub struct ReadView {
    pub loaded: u64,
    pub lowered: u64,
    pub stored: u64,
    pub id: u32,
}

/// A block, as the seat of its writer knows it.
#[derive(Clone, Copy, Drop)]
pub enum BlockView {
    Free,
    /// `n` of its words are filled.
    Filling { words: u64 },
    /// It was announced in the cycle before this one.
    Out { stamp: u64 },
}

/// The word of a node that a step found.
#[derive(Clone, Copy, Drop)]
pub struct Found {
    pub node: u32,
    pub word: u64,
}

/// What a seat's steps found, newest first.
pub struct Trail {
    /// The status words of claims that were too early.
    pub tries: LinkedList<Found>,
    /// The pending words of the targets that the last begin or finish has lowered.
    pub told: LinkedList<Found>,
    /// The status words that the last check has loaded.
    pub looks: LinkedList<Found>,
}

/// Which seat has each node by index, the writer's and the reader's end of each link by number, and
/// each block by pool and number. All seats of a board have the same.
pub struct Owners {
    pub nodes: LinkedList<u32>,
    pub writes: LinkedList<u32>,
    pub reads: LinkedList<u32>,
    pub blocks: LinkedList<u32>,
}

/// What one seat knows. A loop's seat has a number below the number of loops' seats, and the
/// driver's seat has that number itself; which fields count is decided by it.
pub struct View {
    pub number: usize,
    /// The driver's: how many loops' seats are split off.
    pub split: usize,
    /// The driver's.
    pub lead: DriverView,
    /// A loop's: by index in the shape. Only those of the seat count.
    pub nodes: LinkedList<NodeView>,
    /// By number of the link. Those that the seat writes or reads count.
    pub writes: LinkedList<WriteView>,
    pub reads: LinkedList<ReadView>,
    /// By link: how many sample words of the block that it took last the reader has loaded, in
    /// their order.
    pub words_read: LinkedList<u64>,
    /// By pool and number. Those that the seat fills count.
    pub blocks: LinkedList<BlockView>,
    /// By pool: one more than the cycle of its last reclaim, where the first cycle counts as one.
    /// Those that the seat fills count.
    pub reclaimed: LinkedList<u64>,
    pub owners: Owners,
    pub trail: Trail,
    /// The samples that are expected, by cycle of the epoch and pool. All seats of a board have the
    /// same.
    pub expect: LinkedList<LinkedList<LinkedList<i16>>>,
}
