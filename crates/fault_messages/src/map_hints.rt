//! What helps where the channels of two ports part, in words.
ghost use Rattle.std.specs.Prelude.{◌≡◌, option_copied};
ghost use Rattle.fault_messages.specs.MapHints.{is_value, is_only, is_side, are_one_two, one_two_hint};
ghost use Rattle.fault_messages.specs.MapHints.{is_map_kind, is_map, is_map_at, output_hint, channel_hint};

use format_filter::Choice;
use pod_codec::Pod;
use pw_graph::{Kind, LinkLine, PlanNode};

// Whether a value is this Int.
fn is_value(n: i32, value: &Pod) -> bool
    ensures { result ≡ is_value n value.now }
{
    match value {
        Pod::Int(m) => n <= *m && *m <= n,
        _ => false,
    }
}

// Whether a choice is this one Int.
fn is_only(n: i32, choice: &Choice) -> bool
    ensures { result ≡ is_only n choice.now }
{
    match choice {
        Choice::Only(value) => is_value(n, value),
        _ => false,
    }
}

// Whether an offer admits this one Int.
fn is_side(n: i32, side: &Option<Choice>) -> bool
    ensures { result ≡ is_side n side.now }
{
    match side {
        None => false,
        Some(choice) => is_only(n, choice),
    }
}

// Whether one offer is of one channel, and the other of two.
fn are_one_two(from: &Option<Choice>, to: &Option<Choice>) -> bool
    ensures { result ≡ are_one_two from.now to.now }
{
    (is_side(1, from) && is_side(2, to)) || (is_side(2, from) && is_side(1, to))
}

/// What makes two channels of one, where the offers are of one and of two.
pub fn one_two_hint(from: &Option<Choice>, to: &Option<Choice>) -> &'static [u8]
    ensures { result.now ≡ one_two_hint from.now to.now }
{
    if are_one_two(from, to) {
        b"; map NAME 1 0,0 makes two channels of one"
    } else {
        b""
    }
}

fn is_map_kind(kind: &Kind) -> bool
    ensures { result ≡ is_map_kind kind.now }
{
    matches!(kind, Kind::Map { .. })
}

// Whether there is a node, and it is a map.
fn is_map(node: Option<&PlanNode>) -> bool
    ensures { result ≡ is_map (option_copied node.entry) }
{
    match node {
        None => false,
        Some(node) => is_map_kind(&node.kind),
    }
}

// The same of the node of this number.
fn is_map_at(nodes: &[PlanNode], number: u32) -> bool
    ensures { result ≡ is_map_at nodes.now number }
{
    is_map(nodes.get(number as usize))
}

// A rule of the output of a map, else these words.
fn output_hint(of_map: bool, others: &'static [u8]) -> &'static [u8]
    ensures { result.now ≡ output_hint of_map others.now }
{
    if of_map {
        b"; the output of a map has a channel for each number of its LIST"
    } else {
        others
    }
}

/// What helps where the channels of a link part: a rule where an end is a map, else these words.
pub fn channel_hint(nodes: &[PlanNode], link: LinkLine, others: &'static [u8]) -> &'static [u8]
    ensures { result.now ≡ channel_hint nodes.now link others.now }
{
    if is_map_at(nodes, link.to.node) {
        b"; the input of a map has as many channels as its CHANNELS says"
    } else {
        output_hint(is_map_at(nodes, link.from.node), others)
    }
}
