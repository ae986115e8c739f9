//! The end of a way at one loop.
use crate::parking::ParkPass;
use crate::queue::QueuePass;
use crate::start_rule::StartSeat;

/// The right of one way to the queue of one loop, to unpark that loop, and to look whether its own
/// thread runs it.
#[derive(Drop)]
pub(crate) struct End {
    /// The loop.
    pub(crate) number: u32,
    pub(crate) pass: QueuePass,
    pub(crate) wake: ParkPass,
    pub(crate) sight: StartSeat,
}
