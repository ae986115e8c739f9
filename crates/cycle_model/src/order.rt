//! An order in which the nodes of an epoch can be worked out, one after the other.
ghost use Rattle.std.specs.Prelude.{◌≡◌, ℕ, ◌<◌, true, false, All, length, slice_index_or, IfOk};
ghost use Rattle.pw_graph.specs.LinkOrder.{HasOrder, IsWithinNodes};
ghost use Rattle.cycle_model.specs.Mixing.{takes_part};
ghost use Rattle.cycle_model.specs.working.NodeOrder.{IsOrder, IsWhole};

use crate::epochs::takes_part;
use pw_graph::{Epoch, NODES, find_free};
use pw_lists::{Items, Memory};
use std::alloc::Global;

/// Marks each active node.
fn mark_active(epoch: &Epoch, left: &mut [bool])
    requires { length left.old ≡ 64 }
    ensures { (n : ℕ) → n < 64 → slice_index_or left.new n false ≡ takes_part epoch.now n }
{
    for n in 0..NODES {
        left[n] = takes_part(epoch, n as u32);
    }
}

/// An order of the active nodes: each after those whose output it gets in the same cycle.
pub(crate) fn order_of(alloc: Global, epoch: &Epoch) -> Result<Items<u32>, Memory>
    requires within { All IsWithinNodes epoch.now.shape.links }
    requires nodes { (n : ℕ) → takes_part epoch.now n ≡ true → n < 64 }
    requires order { HasOrder epoch.now.shape.links }
    requires active { All (λ l. takes_part epoch.now l.from.node ≡ true) epoch.now.shape.links }
    ensures order { IfOk result (IsOrder epoch.now) }
    ensures whole { IfOk result (IsWhole epoch.now) }
{
    let links = epoch.shape.links.as_slice();
    let mut left = [false; NODES];
    mark_active(epoch, &mut left);
    let mut order = Items::new(alloc);
    while let Some(n) = find_free(links, &left) {
        left[n] = false;
        order.push(n as u32)?;
    }
    Ok(order)
}
