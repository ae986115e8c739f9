//! The frame of the commands of pipegraph (`pw_top`) and of pipegraph-pods (`pod_text`): what an
//! expected answer is, how far it was followed, and the calls that load, deliver and end, over the
//! statuses and requests of a program.
//!
//! A program says by `Ending` what its statuses are to the frame, and by `Program` what its words
//! ask for and which answers are allowed. `run` does what words ask for; `load_step` and `finish`
//! are its parts, for a program that keeps more in its hands.
#![tactic(auto)]

mod delivering;
mod ending;
mod loading;
mod program;
mod running;
mod work;

pub use delivering::finish;
pub use ending::{End, Ending};
pub use loading::load_step;
pub use program::{Misread, Program};
pub use running::run;
pub use work::{Content, Store, Work};
