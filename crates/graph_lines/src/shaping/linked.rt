//! Which nodes have a link to which, read off all links at once.
ghost use Rattle.std.specs.Prelude.{◌≡◌, ◌+◌, ◌*◌, true, false, not, All, length, replicate};
ghost use Rattle.std.specs.Prelude.{slice_set, if◌then◌else◌};
ghost use Rattle.pw_graph.specs.LinkOrder.{IsWithinNodes};
ghost use Rattle.graph_lines.specs.Searching.{is_in, is_linked, HasRows};

use pw_graph::{NODES, ShapeLink};

// A row of 64 numbers for each of 64 numbers.
const PAIRS: usize = NODES * NODES;

// Whether a place is in.
fn is_at(here: &[bool], place: usize) -> bool
    ensures { result ≡ is_in here.now place }
{
    match here.get(place) {
        Some(is_in) => *is_in,
        None => false,
    }
}

// Whether a node is in.
pub(crate) fn is_in(here: &[bool], node: u32) -> bool
    ensures { result ≡ is_in here.now node }
{
    is_at(here, node as usize)
}

// Whether `n` is in the row of `m`.
pub(crate) fn is_linked(rows: &[bool], m: u32, n: u32) -> bool
    ensures { result ≡ is_linked rows.now m n }
{
    (n as usize) < NODES && is_at(rows, m as usize * NODES + n as usize)
}

// Rows without a number.
fn no_rows() -> [bool; PAIRS]
    ensures { result ≡ replicate 4096 false }
{
    [false; PAIRS]
}

// Puts the end of a link into the row of its start, unless the link is delayed.
fn put_link(rows: &mut [bool], link: &ShapeLink)
    requires long { length rows.old ≡ 4096 }
    requires within { IsWithinNodes link.now }
    ensures { rows.new ≡ (if not link.now.delayed
        then slice_set rows.old (link.now.from.node * 64 + link.now.to.node) true
        else rows.old) }
{
    if !link.delayed {
        rows[link.from.node as usize * NODES + link.to.node as usize] = true;
    }
}

// Of each number a row of the numbers to which a link goes from it that is not delayed. Takes no
// memory; cost: one look at each link.
pub(crate) fn linked_rows(links: &[ShapeLink]) -> [bool; PAIRS]
    requires { All IsWithinNodes links.now }
    ensures { HasRows links.now result }
{
    let mut rows = no_rows();
    for link in links {
        put_link(&mut rows, link);
    }
    rows
}
