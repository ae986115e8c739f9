//! The indexes of the nodes of a shape, and a table of them by number.
ghost use Rattle.std.specs.Prelude.{◌≡◌, ◌<◌, ◌==◌};
ghost use Rattle.std.specs.List.{position};
ghost use Rattle.board_rule.specs.Layout.{index_in};
ghost use Rattle.board_rule.specs.working.NodeIndexes.{AreIndexes};

use pw_graph::Shape;

// The index of a node, if the shape has it.
fn find_index(shape: &Shape, node: u32) -> Option<usize>
    ensures { result ≡ position (λ n. n.node == node) shape.now.nodes }
{
    shape.nodes.as_slice().iter().position(|n| n.node == node)
}

/// The index of a node of a shape, or the number of its nodes. Cost: a look at each node.
#[tactic(auto, using(crate::proofs::activation::RowLemmas::place_or_end))]
pub fn index_in(shape: &Shape, node: u32) -> usize
    ensures { result ≡ index_in shape.now node }
{
    find_index(shape, node).unwrap_or(shape.nodes.len())
}

/// The table of a shape: the indexes of the numbers below 64. Cost: a look at each node for each
/// number.
pub(crate) fn indexes_of(shape: &Shape) -> [usize; 64]
    ensures { AreIndexes shape.now result }
{
    let mut indexes = [0usize; 64];
    for n in 0..64 {
        indexes[n as usize] = index_in(shape, n);
    }
    indexes
}

/// The index of a node of a shape, or the number of its nodes, by the table of the shape. Cost: one
/// look at the table; of a number that is not below 64 a look at each node.
pub(crate) fn index_by(shape: &Shape, indexes: &[usize; 64], node: u32) -> usize
    requires { AreIndexes shape.now indexes.now }
    ensures { result ≡ index_in shape.now node }
{
    if node < 64 {
        indexes[node as usize]
    } else {
        index_in(shape, node)
    }
}
