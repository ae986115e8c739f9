//! Whether the links that are not delayed have a loop.
ghost use Rattle.std.specs.Prelude.{◌≡◌, false, IsTrue, ◌↔◌, All};
ghost use Rattle.pw_graph.specs.LinkOrder.{HasOrder, IsWithinNodes};

use pw_graph::{NODES, ShapeLink, find_free};

// Whether no node is left.
fn is_none_left(left: &[bool]) -> bool
    ensures { IsTrue result ↔ All (λ here. here ≡ false) left.now }
{
    left.iter().all(|here| !*here)
}

/// Whether some order of the nodes rises along each link that is not delayed. Takes no memory.
/// Nodes are taken away one after the other, each when no such link leads to it from a remaining
/// one.
pub(crate) fn has_order(links: &[ShapeLink]) -> bool
    requires { All IsWithinNodes links.now }
    ensures { IsTrue result ↔ HasOrder links.now }
{
    let mut left = [true; NODES];
    while let Some(n) = find_free(links, &left) {
        left[n] = false;
    }
    is_none_left(&left)
}
