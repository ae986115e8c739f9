//! How statuses, io areas and events are packed into words. None of these calls takes memory.
ghost use Rattle.std.specs.Prelude.{◌≡◌, ℕ, ◌<◌, ◌≤◌, ◌^◌};
ghost use Rattle.pw_lists.specs.Limits.{dummy_node};
ghost use Rattle.pw_graph.specs.Words.{status_word_of, status_in, cycle_in, IsStatusWord, io_word_of, io_status_in, io_id_in};
ghost use Rattle.pw_graph.specs.EventWords.{event_kind, event_node, event_cycle, event_late, event_word_of, event_in, IsEventWord};

use crate::event::Event;

/// The number in an io area that names no block, `SPA_ID_INVALID`.
pub const NO_BLOCK: u32 = 0xffff_ffff;

/// The word of a status, from 0 to 3, of a cycle.
pub fn status_word(status: u32, cycle: u32) -> u64
    requires { status ≤ 3 }
    ensures word { result ≡ status_word_of status cycle }
    ensures status { status_in result ≡ status }
    ensures cycle { cycle_in result ≡ cycle }
    ensures packed { IsStatusWord result }
{
    u64::from(status) + 4 * u64::from(cycle)
}

/// The status of a status word.
pub fn status_of(word: u64) -> u32
    requires { IsStatusWord word }
    ensures { result ≡ status_in word }
{
    (word % 4) as u32
}

/// The cycle of a status word.
pub fn cycle_of(word: u64) -> u32
    requires { IsStatusWord word }
    ensures { result ≡ cycle_in word }
{
    (word / 4) as u32
}

/// The word of an io area: a status and the number of a block.
pub fn io_word(status: u32, id: u32) -> u64
    ensures word { result ≡ io_word_of status id }
    ensures status { io_status_in result ≡ status }
    ensures id { io_id_in result ≡ id }
{
    u64::from(status) + 0x1_0000_0000 * u64::from(id)
}

/// The status of an io word.
pub fn io_status_of(word: u64) -> u32
    ensures { result ≡ io_status_in word }
{
    (word % 0x1_0000_0000) as u32
}

/// The number of the block of an io word.
pub fn io_id_of(word: u64) -> u32
    ensures { result ≡ io_id_in word }
{
    (word / 0x1_0000_0000) as u32
}

// The parts of an event: the number of its kind, its node or 0, its cycle.
fn parts_of(event: &Event) -> (u64, u32, u32)
    ensures { (result.0 ≡ event_kind event.now) × (result.1 ≡ event_node event.now)
        × (result.2 ≡ event_cycle event.now) }
{
    match event {
        Event::Begin { cycle } => (0, 0, *cycle),
        Event::Start { cycle, node } => (1, *node, *cycle),
        Event::Finish { cycle, node } => (2, *node, *cycle),
        Event::Tick { cycle, .. } => (3, 0, *cycle),
        Event::End { cycle } => (4, 0, *cycle),
    }
}

/// The word of an event, without the late set of a Tick. The node is at most 63.
pub fn event_word(event: &Event) -> u64
    requires { event_node event.now ≤ dummy_node }
    ensures word { result ≡ event_word_of event.now }
    ensures read { event_in result (event_late event.now) ≡ event.now }
{
    let (kind, node, cycle) = parts_of(event);
    kind + 1 + 8 * u64::from(node) + 512 * u64::from(cycle)
}

/// The event of an event word, with the late set where it is a Tick.
pub fn event_of(word: u64, late: u64) -> Event
    requires { IsEventWord word }
    ensures { result ≡ event_in word late }
{
    let cycle = (word / 512) as u32;
    let node = (word / 8 % 64) as u32;
    match word % 8 {
        1 => Event::Begin { cycle },
        2 => Event::Start { cycle, node },
        3 => Event::Finish { cycle, node },
        4 => Event::Tick { cycle, late },
        _ => Event::End { cycle },
    }
}
