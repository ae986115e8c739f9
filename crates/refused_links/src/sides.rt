//! What is told of two ports that part at a key.
ghost use Rattle.std.specs.Prelude.{◌≡◌, IfOk};
ghost use Rattle.port_model.specs.PortState.{IsPort, IsInput, IsOutput};
ghost use Rattle.refused_links.specs.Sides.{both_sides, Tells};
ghost use Rattle.refused_links.specs.working.Finding.{ShowsSides};

use crate::choices::choice_at;
use crate::held::node_side;
use crate::refused_link::Sides;
use format_filter::Format;
use port_model::{Offered, Ports};
use pw_graph::PortId;
use pw_lists::Memory;
use std::alloc::Global;

// What two offers admit at a key.
fn both_sides(alloc: Global, own: &Format, other: &Format, key: u32) -> Result<Sides, Memory>
    ensures { IfOk result (λ sides. sides ≡ both_sides own.now other.now key) }
{
    let from = choice_at(alloc, own, key)?;
    let to = choice_at(alloc, other, key)?;
    Ok(Sides::Both { from, to })
}

// What is told of the two ports, by what each offers.
fn sides_of(
    alloc: Global,
    ports: &Ports,
    from: PortId,
    to: PortId,
    own: &Offered,
    other: &Offered,
    key: u32,
) -> Result<Sides, Memory>
    requires from { IsPort ports.now from }
    requires to { IsPort ports.now to }
    ensures { IfOk result (Tells ports.now from to own.now other.now key) }
{
    match own {
        Offered::Nothing { .. } => node_side(alloc, ports, from, key),
        Offered::Offer(first) => match other {
            Offered::Nothing { .. } => node_side(alloc, ports, to, key),
            Offered::Offer(second) => both_sides(alloc, first, second, key),
        },
    }
}

/// What is told of an output and an input port that part at a key.
pub(crate) fn sides_at(
    alloc: Global,
    ports: &Ports,
    from: PortId,
    to: PortId,
    key: u32,
) -> Result<Sides, Memory>
    requires from { IsOutput ports.now from }
    requires to { IsInput ports.now to }
    ensures { IfOk result (ShowsSides ports.now from to key) }
{
    let own = ports.offered(alloc, from)?;
    let other = ports.offered(alloc, to)?;
    sides_of(alloc, ports, from, to, &own, &other, key)
}
