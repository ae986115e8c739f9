//! The kernels as plain loops, one sample or frame a turn. The kernels over lanes use them for each
//! lane and for the samples that fill no lane, and are measured beside them.

mod channels;
mod clamp;
mod gains;
mod peaks;
mod summing;

pub use channels::{map_channels, split};
pub use clamp::clamp_out;
pub use gains::{gain, mix2};
pub(crate) use peaks::higher;
pub use peaks::peak;
pub use summing::mix_into;
