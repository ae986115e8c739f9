//! A board: the words of one epoch that all threads share.
ghost use Rattle.std.specs.Prelude.{◌≡◌, ◌+◌, ◌<◌, ◌≤◌, ◌^◌, [], length, slice_index};
ghost use Rattle.pw_lists.specs.Limits.{dummy_node};
ghost use Rattle.pw_graph.specs.Layout.{pending_place, status_place, late_place, event_place, event_count, area_count};
ghost use Rattle.board_rule.specs.Layout.{layout_of, IsSound, nodes, first, last, word_count};
ghost use Rattle.board_rule.specs.working.Rows.{HasRows, HasIndexes};
ghost use Rattle.board_rule.specs.working.Slots.{HasSlots};

use crate::board_shape::BoardShape;
use crate::rows::Rows;
use crate::rule::BoardTable;
use crate::slots::Slots;
use pw_graph::{Event, Shape};
use pw_lists::Room;

/// The words of one epoch, in one table of atomic words with no lock round it. Threads share it by
/// reference, and each steps on it with a seat of its own.
#[derive(Drop)]
pub struct Board {
    pub(crate) table: BoardTable,
    pub(crate) board_shape: BoardShape,
    pub(crate) rows: Rows,
    pub(crate) slot_rows: Slots,
    /// For the events, when the board is closed.
    pub(crate) spare: Room<Event>,
    ghost sound: { IsSound (layout_of board_shape) },
    ghost placed: { HasIndexes board_shape.shape },
    ghost about: { table.shared.key ≡ board_shape },
    ghost words: { table.shared.table_id.words ≡ word_count board_shape.shape },
    ghost room: { event_place board_shape.shape (event_count board_shape.shape)
        ≤ word_count board_shape.shape },
    ghost fits: { word_count board_shape.shape < 2 ^ 64 },
    ghost slots: { table.shared.table_id.slots ≡ 0 },
    ghost tied: { HasRows board_shape.shape rows },
    ghost slotted: { HasSlots (layout_of board_shape) slot_rows },
    ghost unused: { spare.list ≡ [] },
    ghost enough: { event_count board_shape.shape ≤ spare.spare },
}

impl Board {
    /// The shape that the board was made for.
    pub fn shape(&self) -> &Shape
        ensures { result.now ≡ self.now.board_shape.shape }
    {
        &self.board_shape.shape
    }

    /// How many targets a node of the shape has.
    pub fn target_count(&self, node: u32) -> usize
        requires { (layout_of self.now.board_shape).index node
            < nodes (layout_of self.now.board_shape) }
        ensures { let p = layout_of self.now.board_shape in
            result ≡ length (p.targets (p.index node)) }
    {
        self.targets_at(self.index_of(node))
    }

    /// A word, for tests and pictures. It needs no seat, and no seat knows more by it.
    pub fn peek(&self, word: usize) -> u64
        requires { word < word_count self.now.board_shape.shape }
    {
        self.table.shared.peek(word)
    }
}

impl Board {
    /// How many nodes there are.
    pub(crate) fn nodes(&self) -> usize
        ensures { result ≡ nodes (layout_of self.now.board_shape) }
    {
        self.board_shape.shape.nodes.len()
    }

    /// The index of the driver.
    pub(crate) fn driver(&self) -> usize
        ensures is { result ≡ (layout_of self.now.board_shape).driver }
        ensures inside { result < nodes (layout_of self.now.board_shape) }
    {
        self.rows.driver
    }

    /// The index of a node.
    pub(crate) fn index_of(&self, node: u32) -> usize
        requires { (layout_of self.now.board_shape).index node
            < nodes (layout_of self.now.board_shape) }
        ensures { result ≡ (layout_of self.now.board_shape).index node }
    {
        self.rows.indexes[node as usize]
    }

    /// The required count at an index.
    pub(crate) fn required(&self, at: usize) -> u64
        requires { at < nodes (layout_of self.now.board_shape) }
        ensures { result ≡ (layout_of self.now.board_shape).required at }
    {
        self.rows.required[at]
    }

    /// How many targets the node at an index has.
    pub(crate) fn targets_at(&self, at: usize) -> usize
        requires { at < nodes (layout_of self.now.board_shape) }
        ensures { result ≡ length ((layout_of self.now.board_shape).targets at) }
    {
        self.rows.targets[at].len()
    }

    /// One of the targets, by index.
    pub(crate) fn target(&self, at: usize, i: usize) -> usize
        requires inside { at < nodes (layout_of self.now.board_shape) }
        requires near { i < length ((layout_of self.now.board_shape).targets at) }
        ensures is { result ≡ slice_index ((layout_of self.now.board_shape).targets at) i }
        ensures inside { result < nodes (layout_of self.now.board_shape) }
    {
        self.rows.targets[at][i]
    }

    /// The number of the node at an index.
    pub(crate) fn number(&self, at: usize) -> u32
        requires { at < nodes (layout_of self.now.board_shape) }
        ensures is { result ≡ (layout_of self.now.board_shape).number at }
        ensures most { result ≤ dummy_node }
    {
        self.board_shape.shape.nodes.as_slice()[at].node
    }
}

impl Board {
    /// Where the words of the activation record at an index are.
    pub(crate) fn pending_word(&self, at: usize) -> usize
        requires { at < nodes (layout_of self.now.board_shape) }
        ensures is { result ≡ pending_place self.now.board_shape.shape at }
        ensures there { result < self.now.table.shared.table_id.words }
    {
        1 + at
    }

    pub(crate) fn status_word(&self, at: usize) -> usize
        requires { at < nodes (layout_of self.now.board_shape) }
        ensures is { result ≡ status_place self.now.board_shape.shape at }
        ensures there { result < self.now.table.shared.table_id.words }
    {
        1 + self.nodes() + at
    }
}

impl Board {
    /// Where the ticket word is.
    pub(crate) fn ticket_word(&self) -> usize
        ensures is { result ≡ 0 }
        ensures there { result < self.now.table.shared.table_id.words }
    {
        0
    }

    // How many io areas the links before the late sets have.
    fn areas(&self) -> usize
        ensures { result ≡ area_count self.now.board_shape.shape.links }
    {
        self.rows.areas
    }

    /// Where the late set of a cycle is, counted from the first.
    pub(crate) fn late_word(&self, past: usize) -> usize
        requires { past < self.now.board_shape.shape.cycles }
        ensures is { result ≡ late_place self.now.board_shape.shape past }
        ensures there { result < self.now.table.shared.table_id.words }
        ensures later { nodes (layout_of self.now.board_shape) + nodes
            (layout_of self.now.board_shape) < result }
    {
        1 + 2 * self.nodes() + self.areas() + past
    }

    /// Where the late sets and the events begin.
    pub(crate) fn first_late(&self) -> usize
        ensures { result ≡ late_place self.now.board_shape.shape 0 }
    {
        1 + 2 * self.nodes() + self.areas()
    }

    pub(crate) fn first_event(&self) -> usize
        ensures { result ≡ event_place self.now.board_shape.shape 0 }
    {
        self.first_late() + self.board_shape.shape.cycles as usize
    }

    /// Where the event of a ticket is.
    pub(crate) fn event_word(&self, ticket: u64) -> usize
        requires { ticket < event_count self.now.board_shape.shape }
        ensures is { result ≡ event_place self.now.board_shape.shape ticket }
        ensures there { result < self.now.table.shared.table_id.words }
        ensures later { nodes (layout_of self.now.board_shape) + nodes
            (layout_of self.now.board_shape) < result }
    {
        1 + 2 * self.nodes()
            + self.areas()
            + self.board_shape.shape.cycles as usize
            + ticket as usize
    }
}

impl Board {
    /// A cycle of the epoch, as its number.
    pub(crate) fn cycle(&self, cycle: u64) -> u32
        requires { cycle < last (layout_of self.now.board_shape) }
        ensures { result ≡ cycle }
    {
        cycle as u32
    }

    /// How many cycles of the epoch precede one.
    pub(crate) fn past(&self, cycle: u64) -> u32
        requires { (first (layout_of self.now.board_shape) ≤ cycle)
            × (cycle ≤ last (layout_of self.now.board_shape)) }
        ensures { first (layout_of self.now.board_shape) + result ≡ cycle }
    {
        (cycle - u64::from(self.board_shape.shape.first)) as u32
    }
}
