//! The event that the words of a line name.
ghost use Rattle.std.specs.Prelude.{◌≡◌, ℕ, ◌<◌, ◌≤◌, ◌^◌, [], length, decimal, IfSome, Some};
ghost use Rattle.pw_lists.specs.Limits.{nodes_limit};
ghost use Rattle.std.specs.Option.{option_map_or};
ghost use Rattle.std.specs.List.{slice_split};
ghost use Rattle.cycle_trace.specs.TraceReading.{is_space, NumbersFit};
ghost use Rattle.cycle_trace.specs.working.EventWords.{node_said, one_node_said, late_said, alone, event_said};

use pw_graph::{DUMMY, Event};
use pw_lists::{Text, next_piece, place_of_name};

/// The number that a word is in plain decimal. What it answers for other words is not stated.
pub(crate) fn number_said(word: &[u8]) -> Option<u32>
    ensures { (n : ℕ) → n < 2 ^ 32 → word.now ≡ decimal n → result ≡ Some n }
{
    match str::from_utf8(word) {
        Ok(text) => text.parse::<u32>().ok(),
        Err(_fault) => None,
    }
}

/// The node that a word names.
fn node_said(names: &[Text], word: &[u8]) -> Option<u32>
    requires { length names.now ≤ nodes_limit }
    ensures value { result ≡ node_said names.now word.now }
    ensures within { IfSome result (λ n. n < 64) }
{
    if word == b"dummy".as_slice() {
        return Some(DUMMY);
    }
    match place_of_name(names, word) {
        None => None,
        Some(place) => Some(place as u32),
    }
}

/// The node that a text names, if it is one word.
fn one_node_said(names: &[Text], words: Option<&[u8]>) -> Option<u32>
    requires { length names.now ≤ nodes_limit }
    ensures { result ≡ one_node_said names.now
        (option_map_or (λ text. slice_split is_space text.now) words.entry []) }
{
    let Some(text) = words else {
        return None;
    };
    match next_piece(text, b' ') {
        (word, None) => node_said(names, word),
        (_word, Some(_more)) => None,
    }
}

/// The set of the nodes that the words of a text name: bit n is node n.
fn late_said(names: &[Text], words: Option<&[u8]>) -> Option<u64>
    requires { length names.now ≤ nodes_limit }
    ensures { result ≡ late_said names.now
        (option_map_or (λ text. slice_split is_space text.now) words.entry []) 0 }
{
    let mut late: u64 = 0;
    let mut rest = words;
    while let Some(text) = rest {
        let (word, more) = next_piece(text, b' ');
        let Some(node) = node_said(names, word) else {
            return None;
        };
        match late.checked_add(1 << node) {
            Some(larger) => late = larger,
            None => return None,
        }
        rest = more;
    }
    Some(late)
}

/// The event, unless words follow it.
fn alone(event: Event, words: Option<&[u8]>) -> Option<Event>
    ensures { result ≡ alone event
        (option_map_or (λ text. slice_split is_space text.now) words.entry []) }
{
    match words {
        None => Some(event),
        Some(_text) => None,
    }
}

/// The event of a first word, a cycle and the text after that.
pub(crate) fn event_said(
    names: &[Text],
    first: &[u8],
    cycle: u32,
    words: Option<&[u8]>,
) -> Option<Event>
    requires { length names.now ≤ nodes_limit }
    ensures value { result ≡ event_said names.now first.now cycle
        (option_map_or (λ text. slice_split is_space text.now) words.entry []) }
    ensures fits { IfSome result NumbersFit }
{
    if first == b"begin".as_slice() {
        alone(Event::Begin { cycle }, words)
    } else if first == b"end".as_slice() {
        alone(Event::End { cycle }, words)
    } else if first == b"start".as_slice() {
        match one_node_said(names, words) {
            Some(node) => Some(Event::Start { cycle, node }),
            None => None,
        }
    } else if first == b"finish".as_slice() {
        match one_node_said(names, words) {
            Some(node) => Some(Event::Finish { cycle, node }),
            None => None,
        }
    } else if first == b"tick".as_slice() {
        match late_said(names, words) {
            Some(late) => Some(Event::Tick { cycle, late }),
            None => None,
        }
    } else {
        None
    }
}
