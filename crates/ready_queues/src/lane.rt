//! The queue of one loop, and what calls and unparks it.
use crate::call::Call;
use crate::parking::Unparker;
use crate::queue::Queue;
use crate::start_word::StartWord;

/// What is there of one loop for all threads. `started` says whether the loop's own thread runs it;
/// `call` is made after each push into the queue.
#[derive(Drop)]
pub(crate) struct Lane {
    pub(crate) queue: Queue,
    pub(crate) unparker: Unparker,
    pub(crate) started: StartWord,
    pub(crate) call: Call,
}
