//! How many cycles always fit below the limit of events, in words.
ghost use Rattle.std.specs.Prelude.{◌≡◌, ◌+◌, ◌<◌, ◌^◌, ◌++◌, map, string_bytes, option_copied, OnOk};
ghost use Rattle.fault_messages.specs.CycleRoom.{nodes_made, counted, room_for, is_events, room_text};
ghost use Rattle.fault_messages.specs.CycleRoom.{room_said, room_part};
ghost use Rattle.fault_messages.specs.Places.{lines_before};

use crate::makers::is_maker;
use crate::places::word_at;
use pw_lists::{Memory, Text, Which, append_decimal, next_piece};

/// The events of a plan, at most.
const EVENTS_LIMIT: u64 = 4_194_304;

// The count after this line.
fn counted(line: &[u8], count: u32) -> u32
    requires { count + 1 < 2 ^ 32 }
    ensures { result ≡ counted line.now count }
{
    if is_maker(line) { count + 1 } else { count }
}

// How many nodes the lines before the one of this number make, counted from 1.
#[tactic(auto, using(crate::proofs::RoomLemmas::last_made))]
fn nodes_made(script: &[u8], number: u32) -> u32
    ensures { result ≡ nodes_made (lines_before script.now number) }
{
    let mut rest = script;
    let mut count: u32 = 0;
    for _ in 1..number {
        let (line, after) = next_piece(rest, b'\n');
        count = counted(line, count);
        match after {
            None => return count,
            Some(more) => rest = more,
        }
    }
    count
}

// How many cycles fit where so many nodes may be active.
fn room_for(nodes: u32) -> u64
    ensures { result ≡ room_for nodes }
{
    EVENTS_LIMIT / (5 + 2 * u64::from(nodes))
}

fn is_events(which: Which) -> bool
    ensures { result ≡ is_events which }
{
    matches!(which, Which::Events)
}

#[tactic(auto, unfolding(crate::specs::CycleRoom::room_text))]
fn put_room_text(text: &mut Text, cycles: u64) -> Result<(), Memory>
    ensures { OnOk result (text.new ≡ text.old ++ room_text cycles) }
{
    text.extend(b"; up to ")?;
    append_decimal(text, cycles)?;
    text.extend(b" cycles in all fit here, whatever is linked")
}

// What still fits at the line of this number.
fn put_room_said(
    text: &mut Text,
    words: &[String],
    which: Which,
    script: &[u8],
    number: u32,
) -> Result<(), Memory>
    ensures { OnOk result (text.new ≡ text.old
        ++ room_said (map string_bytes words.now) which (lines_before script.now number)) }
{
    if is_events(which) && word_at(words, 0) != b"groups".as_slice() {
        put_room_text(text, room_for(nodes_made(script, number)))
    } else {
        Ok(())
    }
}

/// What still fits at the line of this number, where that passes the limit of events and is at
/// hand. Cost: one look at each byte before the line.
pub fn put_room(
    text: &mut Text,
    words: &[String],
    which: Which,
    line: Option<&[u8]>,
    script: &[u8],
    number: u32,
) -> Result<(), Memory>
    ensures { OnOk result (text.new ≡ text.old
        ++ room_part (map string_bytes words.now) which (option_copied line.entry)
        (lines_before script.now number)) }
{
    match line {
        None => Ok(()),
        Some(_line) => put_room_said(text, words, which, script, number),
    }
}
