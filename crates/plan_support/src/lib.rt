//! Plans of the texts of scripts, for tests and for programs that are timed.
//!
//! `plan_text` reads a script and plans it, with a wave of zeros for each source, and `plan_offered`
//! also with formats for its `offer` lines; `parts_text` has the nodes of its parts, and
//! `plans_text` their plans. `work_of` is the plan of a text with a wave that a run can play.
//! `MeetAll` is a gate that shows whether many nodes are awake at once.
#![tactic(auto)]

mod meeting;
mod ready;
mod silence;
mod texts;
mod work;

pub use meeting::{MeetAll, SEVENTEEN_SQUARES};
pub use ready::TextFault;
pub use silence::Silence;
pub use texts::{parts_text, plan_offered, plan_text, plans_text};
pub use work::{Work, WorkRow, work_of};
