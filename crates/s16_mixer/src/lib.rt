//! Sample kernels: what the engine does to rows of 16-bit samples.
//!
//! Each call works over whole slices, takes no memory and does not fail. What it leaves is its
//! plain 32 bits wide until `clamp_out` limits them once.
#![tactic(auto)]

mod channels;
mod clamp;
mod gains;
mod peaks;
pub mod plain;
mod summing;

pub use channels::{map_channels, split};
pub use clamp::clamp_out;
pub use gains::{gain, mix2};
pub use peaks::peak;
pub use summing::mix_into;
