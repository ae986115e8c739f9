//! Sets of node numbers: bit n is node n.
ghost use Rattle.std.specs.Prelude.{◌<◌, IsTrue, ◌↔◌, IsBitSet};
ghost use Rattle.trace_check.specs.working.NodeSets.{IsWithin, AreApart, Gains, Loses, IsDifference, IsFirstOutside};

/// Whether a node is in the set.
pub(crate) fn has(set: u64, node: u32) -> bool
    requires { node < 64 }
    ensures { IsTrue result ↔ IsBitSet set node }
{
    set & (1 << node) != 0
}

/// The set with a node more.
pub(crate) fn with(set: u64, node: u32) -> u64
    requires { node < 64 }
    ensures { Gains set node result }
{
    set | (1 << node)
}

/// The set without a node.
pub(crate) fn without(set: u64, node: u32) -> u64
    requires { node < 64 }
    ensures { Loses set node result }
{
    set & !(1 << node)
}

/// Whether all nodes of one set are in another.
pub(crate) fn is_within(set: u64, other: u64) -> bool
    ensures { IsTrue result ↔ IsWithin set other }
{
    set & !other == 0
}

/// Whether two sets have no node in common.
pub(crate) fn are_apart(set: u64, other: u64) -> bool
    ensures { IsTrue result ↔ AreApart set other }
{
    set & other == 0
}

/// The nodes of one set that are not in another.
pub(crate) fn difference(set: u64, other: u64) -> u64
    ensures { IsDifference set other result }
{
    set & !other
}

/// The first node of one set that is not in another.
pub(crate) fn first_outside(set: u64, other: u64) -> u32
    requires { ¬ IsWithin set other }
    ensures { IsFirstOutside set other result }
{
    (set & !other).trailing_zeros()
}
