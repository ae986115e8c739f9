//! A command that runs nothing and finds nothing, up to its stores: what it loads, and what it
//! gives then.
ghost use Rattle.command_frame.specs.Preparing.{LoadsOnly};
ghost use Rattle.pw_top.specs.working.Ending.{CommandCause, IsDeliverable, Tells};

use pw_outside::Files;
use run_results::{Status, Work};
use std::alloc::Global;

/// A command that runs nothing and finds nothing beside its report. It stores and puts nothing
/// either.
pub trait Prepare {
    ghost use Rattle.pw_outside.specs.Files.{Names};
    ghost use Rattle.pw_top.specs.Answer.{Answer};

    // The answers that are allowed, by what the files hold.
    ghost answers: { Self → Names → Answer → Type 0 };

    /// Makes the loads in order.
    fn prepare<F: Files>(self, alloc: Global, files: &mut F) -> Result<Work, Status>
        ensures files { LoadsOnly (F.held files.old) (F.held files.new) (F.load_faults files.old)
            (F.load_faults files.new) (F.store_faults files.old) (F.store_faults files.new) }
        ensures told { Tells (F.held files.old) (answers self) result }
        ensures cause { CommandCause IsDeliverable (F.load_faults files.old)
            (F.load_faults files.new) result };
}
