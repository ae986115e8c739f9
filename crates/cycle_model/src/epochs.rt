//! What an epoch says of nodes and ports.
ghost use Rattle.std.specs.Prelude.{◌≡◌};
ghost use Rattle.cycle_model.specs.Epochs.{channels_of};
ghost use Rattle.cycle_model.specs.Mixing.{takes_part};

use pw_graph::{Epoch, PortForm, PortId, is_same_port};

/// Whether a node is one of the epoch's active nodes.
pub fn takes_part(epoch: &Epoch, node: u32) -> bool
    ensures { result ≡ takes_part epoch.now node }
{
    for active in epoch.shape.nodes.as_slice() {
        if active.node == node {
            return true;
        }
    }
    false
}

/// The channels of a port, or 0 without a form.
pub fn channels_of(forms: &[PortForm], port: PortId) -> u32
    ensures { result ≡ channels_of forms.now port }
{
    for form in forms {
        if is_same_port(form.port, port) {
            return form.channels;
        }
    }
    0
}
