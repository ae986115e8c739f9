//! How many cycles of a run a node works.
ghost use Rattle.std.specs.Prelude.{◌≡◌};
ghost use Rattle.std.specs.List.{list_any};
ghost use Rattle.pw_graph.specs.Pools.{is_same_port};
ghost use Rattle.pw_graph.specs.SoundPlan.{IsSoundPlan};
ghost use Rattle.cycle_model.specs.Epochs.{all_cycles};
ghost use Rattle.cycle_model.specs.Mixing.{takes_part};
ghost use Rattle.node_progress.specs.Standing.{port_at, works_in, worked};

use pw_graph::{Epoch, Plan, PortId, is_same_port};

/// Whether a node is one of the epoch's active nodes. Takes no memory.
pub fn takes_part(epoch: &Epoch, node: u32) -> bool
    ensures { result ≡ takes_part epoch.now node }
{
    let nodes = epoch.shape.nodes.as_slice();
    nodes.iter().any(|active| active.node == node)
}

// Whether its first port has a form.
fn has_form(epoch: &Epoch, node: u32) -> bool
    ensures { result ≡ list_any (λ f. is_same_port f.port (port_at node 0)) epoch.now.forms }
{
    let port = PortId { node, port: 0 };
    let forms = epoch.forms.as_slice();
    forms.iter().any(|form| is_same_port(form.port, port))
}

/// Whether a node works in the epoch: it is active, and where it drives, its input has a form.
/// Takes no memory; a look at the epoch's nodes and forms.
pub fn works_in(epoch: &Epoch, node: u32) -> bool
    ensures { result ≡ works_in epoch.now node }
{
    takes_part(epoch, node) && (epoch.shape.driver != node || has_form(epoch, node))
}

/// In how many cycles of the whole run the node works. Takes no memory; a look at the nodes and
/// forms of each epoch.
pub fn worked_cycles(plan: &Plan, node: u32) -> u64
    requires { IsSoundPlan plan.now }
    ensures { result ≡ worked plan.now node (all_cycles plan.now) }
{
    let mut cycles = 0;
    for epoch in plan.epochs.as_slice() {
        if works_in(epoch, node) {
            cycles += u64::from(epoch.shape.cycles);
        }
    }
    cycles
}
