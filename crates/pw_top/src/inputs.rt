//! What the lines of a script have loaded so far.

use port_model::Ports;
use pw_lists::Items;
use wav_files::WavIn;

/// The nodes that lines have made, with what their ports offer, and the waves of their sources,
/// which are from files of `used` bytes together.
#[derive(Drop)]
pub struct PlanInputs {
    pub ports: Ports,
    pub waves: Items<WavIn>,
    pub used: u64,
}
