//! Formats with choices: what they admit, and what two of them have in common.
//!
//! A choice is the set of its members. `meet` computes the common members of two choices, `filter`
//! the common format of two offers, and `fixate` takes each pick. `format_of` and `pod_of` go
//! between formats and the objects that spell them.
#![tactic(auto)]

mod choice;
mod common;
mod comparing;
mod copying;
mod fault;
mod fixation;
mod format;
mod from_pod;
mod from_value;
mod intersection;
mod leaves;
mod members;
mod merging;
mod numbers;
mod picking;
mod progression;
mod to_pod;
mod values;

pub use choice::{Choice, Wide};
pub use common::{Filtered, filter};
pub use fault::FormatFault;
pub use fixation::fixate;
pub use format::{Field, Format};
pub use from_pod::format_of;
pub use intersection::meet;
pub use to_pod::pod_of;
