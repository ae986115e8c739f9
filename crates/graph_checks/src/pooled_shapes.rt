//! Whether a shape is pooled.
ghost use Rattle.std.specs.Prelude.{◌≡◌, IsTrue, ◌↔◌, All, AllPairs};
ghost use Rattle.pw_graph.specs.Pools.{AreAlike, IsPooledShape};

use crate::soundness::is_sound_shape;
use pw_graph::{Shape, ShapeLink};

// Whether two links, if they leave one port, have the same channels.
fn are_alike(k: &ShapeLink, l: &ShapeLink) -> bool
    ensures { IsTrue result ↔ AreAlike k.now l.now }
{
    k.from != l.from || k.channels == l.channels
}

// Whether a link has the channels of each of these that leaves its port.
fn is_like(earlier: &[ShapeLink], link: &ShapeLink) -> bool
    ensures { IsTrue result ↔ All (λ k. AreAlike k link.now) earlier.now }
{
    earlier.iter().all(|k| are_alike(k, link))
}

// Whether all links from one port have the same channels.
fn all_alike(links: &[ShapeLink]) -> bool
    ensures { IsTrue result ↔ AllPairs AreAlike links.now }
{
    for i in 0..links.len() {
        if !is_like(&links[..i], &links[i]) {
            return false;
        }
    }
    true
}

/// Whether a shape is pooled: sound, and all links from one output port have the same channels.
/// Takes no memory.
pub fn is_pooled_shape(shape: &Shape) -> bool
    ensures { IsTrue result ↔ IsPooledShape shape.now }
{
    is_sound_shape(shape) && all_alike(shape.links.as_slice())
}
