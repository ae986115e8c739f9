//! Words of a board of four nodes, as tests compare them.
ghost use Rattle.std.specs.Prelude.{◌≡◌, ◌+◌, ◌<◌, ◌≤◌, length};
ghost use Rattle.pw_graph.specs.Layout.{area_count, event_count, event_place};
ghost use Rattle.board_rule.specs.Layout.{word_count};

use board_rule::Board;
use graph_checks::is_pooled_shape;
use pw_graph::{ShapeLink, pools_of};
use pw_outside::Gate;
use std::alloc::Global;
use std::sync::atomic::{AtomicU64, Ordering};

// Whether the words from an index on are these.
fn has_words(board: &Board, first: usize, words: &[u64]) -> bool
    requires nodes { length board.now.board_shape.shape.nodes ≡ 4 }
    requires inside { first + length words.now ≤ 13 }
{
    for at in 0..words.len() {
        if board.peek(first + at) != words[at] {
            return false;
        }
    }
    true
}

/// Whether the pending and the status words of four nodes are these.
pub(crate) fn nodes_are(board: &Board, pending: [u64; 4], status: [u64; 4]) -> bool {
    board.shape().nodes.len() == 4
        && has_words(board, 1, pending.as_slice())
        && has_words(board, 5, status.as_slice())
}

/// Whether the words of the first three io areas are these.
pub(crate) fn areas_are(board: &Board, areas: [u64; 3]) -> bool {
    board.shape().nodes.len() == 4 && has_words(board, 9, areas.as_slice())
}

// How many io areas these links have.
fn area_count(links: &[ShapeLink]) -> usize
    ensures { result ≤ area_count links.now }
{
    let mut areas = 0usize;
    for link in links {
        areas = areas.saturating_add(if link.delayed { 2 } else { 1 });
    }
    areas
}

// Where the words of the first pool begin.
fn first_pool(board: &Board) -> usize
    ensures { let shape = board.now.board_shape.shape in
        result ≤ event_place shape (event_count shape) }
{
    let shape = board.shape();
    let cycles = shape.cycles as usize;
    let nodes = shape.nodes.len();
    1 + 2 * nodes + area_count(shape.links.as_slice()) + cycles + cycles * (2 * nodes + 3)
}

// Whether these two words are at an index.
fn has_two(board: &Board, at: usize, first: u64, second: u64) -> bool
    requires { at + 1 < word_count board.now.board_shape.shape }
{
    board.peek(at) == first && board.peek(at + 1) == second
}

/// Whether the first block of the first pool has `readers` readers, and `samples` as its first
/// word.
pub(crate) fn block_is(alloc: Global, board: &Board, readers: u64, samples: u64) -> bool {
    if !is_pooled_shape(board.shape()) {
        return false;
    }
    let Ok(pools) = pools_of(alloc, board.shape()) else {
        return false;
    };
    let Some(pool) = pools.as_slice().get(0) else {
        return false;
    };
    if pool.blocks == 0 || pool.words == 0 {
        return false;
    }
    has_two(board, first_pool(board), readers, samples)
}

/// A gate that compares the words of a board's nodes while one of them has its turn.
#[derive(Drop)]
pub(crate) struct Inside<'b> {
    board: &'b Board,
    pending: [u64; 4],
    status: [u64; 4],
    seen: AtomicU64,
}

impl<'b> Inside<'b> {
    pub(crate) fn new(board: &'b Board, pending: [u64; 4], status: [u64; 4]) -> Inside<'b> {
        Inside {
            board,
            pending,
            status,
            seen: AtomicU64::new(0),
        }
    }

    /// In how many turns the words were these.
    pub(crate) fn seen(&self) -> u64 {
        self.seen.load(Ordering::SeqCst)
    }
}

impl<'b> Gate for Inside<'b> {
    fn enter(&self, _node: u32, _cycle: u32) {
        if nodes_are(self.board, self.pending, self.status) {
            self.seen.fetch_add(1, Ordering::SeqCst);
        }
    }
}
