//! Who waits for whom in a shape.
ghost use Rattle.std.specs.Prelude.{◌≡◌, ℕ, ◌==◌, ◌&&◌, not, count_by, filter, map, IsTrue, ◌↔◌, Contains, take};
ghost use Rattle.pw_graph.specs.Dependencies.{nodes_of, are_linked, waits, required_of, targets_of};
ghost use Rattle.std.specs.List.{list_any};
ghost use Rattle.pw_graph.specs.SoundShape.{IsCounted};

use pw_graph::{Shape, ShapeNode};

// A link that is not delayed goes from `m` to `n`.
fn is_linked(shape: &Shape, m: u32, n: u32) -> bool
    ensures { result ≡ are_linked shape.now m n }
{
    shape.links.as_slice().iter().any(|link| !link.delayed
        && link.from.node == m
        && link.to.node == n)
}

/// Whether `n` waits for `m`. Takes no memory; cost: one look at each link.
pub(crate) fn is_waiting(shape: &Shape, n: u32, m: u32) -> bool
    ensures { result ≡ waits shape.now n m }
{
    m == shape.driver || n == shape.driver || is_linked(shape, m, n)
}

// Whether one of the nodes has this number.
fn is_among(shape: &Shape, n: u32) -> bool
    ensures { result ≡ list_any (λ m. m.node == n) shape.now.nodes }
{
    shape.nodes.as_slice().iter().any(|m| m.node == n)
}

/// Whether the shape has this node. Takes no memory.
pub(crate) fn has_node(shape: &Shape, n: u32) -> bool
    ensures { IsTrue result ↔ Contains (nodes_of shape.now) n }
{
    is_among(shape, n)
}

// How many of the nodes a node waits for.
fn count_waiting(shape: &Shape, n: u32) -> usize
    ensures { result ≡ count_by (λ m. waits shape.now n m.node) shape.now.nodes }
{
    shape
        .nodes
        .as_slice()
        .iter()
        .filter(|m| is_waiting(shape, n, m.node))
        .count()
}

// How many dependencies a node has.
fn count_required(shape: &Shape, n: u32) -> usize
    ensures { result ≡ required_of shape.now n }
{
    count_waiting(shape, n)
}

// Whether a follower waits for `m`.
fn is_target(shape: &Shape, m: u32, n: u32) -> bool
    ensures { result ≡ (not (n == shape.now.driver) && waits shape.now n m) }
{
    n != shape.driver && is_waiting(shape, n, m)
}

#[tactic(auto, using(pw_graph::proofs::ShapeLemmas::front_on, pw_graph::proofs::ShapeLemmas::front_off))]
// Whether the list is that of the node's targets.
fn has_targets(shape: &Shape, m: u32, targets: &[u32]) -> bool
    ensures { IsTrue result ↔ (targets.now ≡ targets_of shape.now m) }
{
    let mut rest = targets;
    for n in shape.nodes.as_slice() {
        if is_target(shape, m, n.node) {
            match rest.split_first() {
                Some((first, more)) if *first == n.node => rest = more,
                _ => return false,
            }
        }
    }
    rest.len() == 1 && rest[0] == shape.driver
}

/// Whether a node's required count and targets are those of its dependencies. Takes no memory.
pub(crate) fn is_counted(shape: &Shape, n: &ShapeNode) -> bool
    ensures { IsTrue result ↔ IsCounted shape.now n.now }
{
    n.required as usize == count_required(shape, n.node)
        && has_targets(shape, n.node, n.targets.as_slice())
}
