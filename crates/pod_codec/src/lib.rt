//! SPA PODs: values as bytes that say their own length and type.
#![tactic(auto)]

mod children;
mod containers;
mod copying;
mod cursor;
mod dump;
mod fault;
mod pod;
mod pod_type;
mod reading;
mod scalars;
mod text;
mod writing;

pub use copying::copy_pods;
pub use dump::dump_text;
pub use fault::{PodFault, WriteFault};
pub use pod::{ChoiceKind, Control, Pod, Prop};
pub use pod_type::type_number;
pub use reading::read_pod;
pub use writing::write_pod;
