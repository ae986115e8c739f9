//! What a plan asks for beside the script.

use port_model::Ports;
use pw_lists::Items;
use wav_files::WavIn;

/// The nodes that lines have made, with what their ports offer, and the waves of their sources.
#[derive(Drop)]
pub struct Inputs {
    pub ports: Ports,
    pub waves: Items<WavIn>,
}
