//! A run of a plan by threads: which loop each node belongs to, the boards of all epochs with their
//! seats by loop, the loops in threads of their own, and the end of all boards.
//!
//! A plan of epochs is run on one board an epoch. `boards_of` makes them all before the first
//! cycle, each with the samples of the cycle function as what it has to give. `run_plan` starts
//! each loop once, in a thread of its own, and drives; a loop that it was asked to adopt, or whose
//! start is refused, is run by the driver's thread. `close_all` ends the boards and answers one
//! legal history.
#![tactic(auto)]

mod alone;
mod assignment;
mod boards;
mod closing;
mod crew;
mod ended;
mod epochs;
mod leading;
mod loops;
mod opening;
mod outcomes;
mod plan_run;
mod preparing;
mod rooms;
mod seating;
mod shared;
mod ways;

pub use alone::{AloneRun, prepare_alone, run_alone};
pub use assignment::loop_of;
pub use boards::{Boards, boards_of, boards_with_pools};
pub use closing::{ClosedBoards, close_all};
pub use crew_run::{AnyStarts, Roster, Starts};
pub use ended::{EndedRun, finish_run};
pub use epochs::{Course, run_epochs};
pub use loops::{loops_of, loops_with_pools};
pub use opening::{OpenedRun, open_run};
pub use plan_run::{run_plan, run_plan_with};
pub use rooms::{Rooms, rooms_for};
pub use seating::{Seating, cell_seating, loop_seating, nodes_of_loop};
pub use ways::ways_of;
