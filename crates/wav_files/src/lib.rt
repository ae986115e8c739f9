//! WAV files of 16-bit PCM, as waves of samples, and what a run answers.
#![tactic(auto)]

mod chunks;
mod fault;
mod form;
mod format_chunk;
mod header;
mod outcome;
mod piece;
mod reading;
mod wav;
mod writing;

pub use fault::WavFault;
pub use outcome::{Kept, Outcome, Peak};
pub use reading::read_wav;
pub use wav::{Wav, WavIn};
pub use writing::write_wav;
