//! The ways of one thread to the queues and parkers.
ghost use Rattle.std.specs.Prelude.{◌≡◌, ◌-◌, ◌^◌, min};
ghost use Rattle.crossbeam_utils.specs.Token.{parker_view};
ghost use Rattle.ready_queues.specs.Ends.{received_by};
ghost use Rattle.ready_queues.specs.Lanes.{unparks};

use crate::end::End;
use crate::parking::{ParkPass, Parker};
use crate::start_rule::StartSeat;

/// What one thread has of the queues and parkers: its own parker, its passes to all, and the right
/// to start. It is answered by `Ways::new` and goes with its thread.
#[derive(Drop)]
pub struct Way {
    pub(crate) number: u32,
    pub(crate) parker: Parker,
    pub(crate) own: ParkPass,
    pub(crate) driver: ParkPass,
    pub(crate) begins: StartSeat,
    pub(crate) ends: Vec<End>,
    pub(crate) taken: u64,
    pub(crate) rested: u64,
    pub ghost parks: { own.table_id ≡ unparks parker.unparker },
    pub ghost counted: { taken ≡ min (received_by ends.items) (2 ^ 64 - 1) },
    pub ghost rests: { rested ≡ min (parker_view own).taken (2 ^ 64 - 1) },
}

impl Way {
    /// The number of its loop; how many loops there are, where it is the driver's. Takes no memory.
    pub fn number(&self) -> u32
        ensures { result ≡ self.now.number }
    {
        self.number
    }

    /// How many numbers it received; 2^64 - 1 where they are more. Takes no memory.
    pub fn taken(&self) -> u64
        ensures { result ≡ min (received_by self.now.ends.items) (2 ^ 64 - 1) }
    {
        self.taken
    }

    /// How often its thread rested; 2^64 - 1 where that is more. Takes no memory.
    pub fn rested(&self) -> u64
        ensures { result ≡ min (parker_view self.now.own).taken (2 ^ 64 - 1) }
    {
        self.rested
    }
}
