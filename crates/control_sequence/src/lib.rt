//! The gain of a stream, frame by frame, from a control sequence.
//!
//! `controls_of` reads the points of a sequence: of each control that carries properties with a
//! gain, its offset in frames and a gain. An `Automation` goes along a stream with them: each frame
//! by the gain of the last point at or before it, whatever the pieces of the stream.
#![tactic(auto)]

mod applying;
mod automation;
mod fault;
mod points;
mod reading;

pub use automation::Automation;
pub use fault::ControlFault;
pub use points::{Point, Points};
pub use reading::controls_of;
