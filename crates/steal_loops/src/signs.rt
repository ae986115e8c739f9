//! The signs of nodes that were woken, by which threads find the cells that are ready.
//!
//! A visit of a cell that is not ready is not free: the cell is moved to the thread's processor and
//! leaves that of the thread that runs it. So threads look for signs first: bit n of one word is
//! 1 once node n was woken, until a thread takes it up. A sign is only a hint: contracts see
//! nothing of it, and a thread that finds no sign for a while visits all cells.
ghost use Rattle.std.specs.Prelude.{◌≡◌, ◌≢◌, ◌<◌, ℕ, cond, IfSome, IfNone};
ghost use Rattle.std.specs.Int.{bit_at};
ghost use Rattle.steal_loops.specs.working.NodeSets.{AreCelled, IsKept};

use crossbeam_utils::CachePadded;
use graph_run::Seating;
use std::sync::atomic::{AtomicU64, Ordering};

/// The signs of a run, and which nodes have a cell: no other has a sign. Nothing else is on the
/// cache lines of the word.
#[derive(Drop)]
pub(crate) struct Signs {
    word: CachePadded<AtomicU64>,
    celled: u64,
}

// The set of one node.
fn bit_of(node: u32) -> u64 {
    1 << (node % 64)
}

// The set with one node more, or the same.
fn noted(set: u64, node: u32, more: bool) -> u64
    requires below { node < 64 }
    requires new { bit_at set node ≡ 0 }
    ensures here { bit_at result node ≡ cond more 1 0 }
    ensures others { (n : ℕ) → n ≢ node → bit_at result n ≡ bit_at set n }
{
    if more { set | 1 << node } else { set }
}

// The nodes that have a cell.
fn celled_nodes(seating: &Seating) -> u64
    ensures { AreCelled seating.now result }
{
    let mut celled = 0;
    for node in 0..64 {
        let has_cell = seating.holder(node) < seating.loops();
        celled = noted(celled, node, has_cell);
    }
    celled
}

// The least node of a set, if there is one.
fn least_of(set: u64) -> Option<u32>
    ensures some { IfSome result (λ node. (node < 64) × (bit_at set node ≡ 1)) }
    ensures none { IfNone result ((n : ℕ) → n < 64 → bit_at set n ≡ 0) }
{
    let node = set.trailing_zeros();
    if node < 64 { Some(node) } else { None }
}

// The set without one node.
fn without(set: u64, node: u32) -> u64
    requires { node < 64 }
    ensures here { bit_at result node ≡ 0 }
    ensures others { (n : ℕ) → n < 64 → n ≢ node → bit_at result n ≡ bit_at set n }
{
    set & !(1 << node)
}

impl Signs {
    /// No node has a sign.
    pub(crate) fn new(seating: &Seating) -> Signs
        ensures { AreCelled seating.now result.celled }
    {
        Signs {
            word: CachePadded::new(AtomicU64::new(0)),
            celled: celled_nodes(seating),
        }
    }

    /// Sets the signs of a set of nodes: bit n is node n. One atomic step, or none.
    pub(crate) fn set(&self, woke: u64) {
        let new = woke & self.celled;
        if new != 0 {
            let word: &AtomicU64 = &self.word;
            word.fetch_or(new, Ordering::SeqCst);
        }
    }

    /// The first node of a set that has a cell, if there is one, and the set without it.
    pub(crate) fn split(&self, woke: u64) -> (Option<u32>, u64)
        ensures { IsKept self.now.celled result.0 woke result.1 }
    {
        match least_of(woke & self.celled) {
            Some(node) => (Some(node), without(woke, node)),
            None => (None, woke),
        }
    }

    /// Sets the sign of a node that a thread kept, if it kept one.
    pub(crate) fn give_up(&self, kept: Option<u32>) {
        if let Some(node) = kept {
            self.set_again(node);
        }
    }

    /// Sets the sign of one node again.
    pub(crate) fn set_again(&self, node: u32) {
        self.set(bit_of(node));
    }

    /// Takes the sign of a node away. Whether it was there, and no other thread was faster.
    pub(crate) fn take(&self, node: u32) -> bool {
        let word: &AtomicU64 = &self.word;
        let bit = bit_of(node);
        word.load(Ordering::SeqCst) & bit != 0 && word.fetch_and(!bit, Ordering::SeqCst) & bit != 0
    }

    // The first node with a sign from `from` on, and after the last from 0 on, if there is one.
    fn first_from(&self, from: u32) -> Option<u32> {
        let word: &AtomicU64 = &self.word;
        let from = from % 64;
        let ahead = least_of(word.load(Ordering::SeqCst).rotate_right(from))?;
        Some(from.wrapping_add(ahead) % 64)
    }

    /// Takes some sign away, that of the first node from `from` on, and after the last from 0 on:
    /// the node. Where another thread was faster it goes on behind that node. None where there is
    /// none, or another thread was faster as often as there are nodes.
    pub(crate) fn take_next(&self, from: u32) -> Option<u32> {
        let mut from = from;
        for _try in 0..64 {
            let node = self.first_from(from)?;
            if self.take(node) {
                return Some(node);
            }
            from = node.wrapping_add(1);
        }
        None
    }
}
