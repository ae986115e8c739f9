//! The node that may be next in an order: a remaining one that no other remaining one precedes.
ghost use Rattle.std.specs.Prelude.{◌≡◌, ℕ, false, MatchOption, IfSome, slice_index_or, length};
ghost use Rattle.pw_graph.specs.LinkOrder.{is_blocked, IsStuck, IsFree, AreBlocked};

use crate::ids::NODES;
use crate::shape::ShapeLink;

// Whether a node is left.
fn is_left(left: &[bool], node: u32) -> bool
    ensures { result ≡ slice_index_or left.now node false }
{
    match left.get(node as usize) {
        Some(here) => *here,
        None => false,
    }
}

// Whether a link that is not delayed leads to the node from a remaining one.
fn is_blocked(links: &[ShapeLink], left: &[bool], node: u32) -> bool
    ensures { result ≡ is_blocked links.now left.now node }
{
    links.iter().any(|link| !link.delayed && link.to.node == node && is_left(left, link.from.node))
}

/// The next node in topological order: the first remaining one that no remaining one
/// precedes, if there is one.
/// `left` says of each of the 64 numbers whether that node is left. Takes no memory; cost: for each
/// node that is left one look at each link.
pub fn find_free(links: &[ShapeLink], left: &[bool]) -> Option<usize>
    requires { length left.now ≡ 64 }
    ensures free { MatchOption result (IsStuck links.now left.now) (IsFree links.now left.now) }
    ensures first { IfSome result (AreBlocked links.now left.now) }
{
    for n in 0..NODES {
        if is_left(left, n as u32) && !is_blocked(links, left, n as u32) {
            return Some(n);
        }
    }
    None
}
