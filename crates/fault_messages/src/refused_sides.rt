//! What both sides of a refused link admit, in words.
ghost use Rattle.std.specs.Prelude.{◌≡◌, ◌++◌, option_copied, OnOk};
ghost use Rattle.fault_messages.specs.RefusedSides.{is_entry, entry_of, side_words, number_words, pair_hint};
ghost use Rattle.fault_messages.specs.RefusedSides.{both_said, node_said, sides_said, map_part, sides_part};

use crate::link_ends::put_end_behind;
use crate::map_hints::{channel_hint, one_two_hint};
use format_filter::Choice;
use pw_graph::{LinkLine, PlanNode, PortId};
use pw_lists::{Memory, Text, append_decimal};
use refused_links::{RefusedLink, Sides, put_choice};

/// The keys of the rate and of the channels of a format.
const RATE_KEY: u32 = 65539;

const CHANNELS_KEY: u32 = 65540;

// Whether an entry is of this line and this key.
fn is_entry(number: u32, key: u32, entry: &RefusedLink) -> bool
    ensures { result ≡ is_entry number key entry.now }
{
    entry.line == number && entry.key == key
}

// The entry of a line of the script and of a key, if there is one.
fn entry_of(refused: &[RefusedLink], number: u32, key: u32) -> Option<&RefusedLink>
    ensures { option_copied result ≡ entry_of refused.now number key }
{
    refused.iter().find(|entry| is_entry(number, key, entry))
}

// What an offer admits.
fn put_side(text: &mut Text, side: &Option<Choice>) -> Result<(), Memory>
    ensures { OnOk result (text.new ≡ text.old ++ side_words side.now) }
{
    match side {
        None => text.extend(b"none"),
        Some(choice) => put_choice(text, choice),
    }
}

// What a node has.
fn put_shared(text: &mut Text, shared: Option<u32>) -> Result<(), Memory>
    ensures { OnOk result (text.new ≡ text.old ++ number_words shared) }
{
    match shared {
        None => text.extend(b"none"),
        Some(n) => append_decimal(text, u64::from(n)),
    }
}

// What helps where two offers part.
#[tactic(auto, unfolding(crate::specs::RefusedSides::pair_hint))]
fn pair_hint(
    nodes: &[PlanNode],
    link: LinkLine,
    key: u32,
    from: &Option<Choice>,
    to: &Option<Choice>,
) -> &'static [u8]
    ensures { result.now ≡ pair_hint nodes.now link key from.now to.now }
{
    if key == RATE_KEY {
        b"; no node changes a rate, but sox IN -r RATE OUT does"
    } else if key == CHANNELS_KEY {
        channel_hint(nodes, link, one_two_hint(from, to))
    } else {
        b""
    }
}

// Of two offers, with what helps.
#[tactic(auto, unfolding(crate::specs::RefusedSides::both_said))]
fn put_both_said(
    text: &mut Text,
    from: &Option<Choice>,
    to: &Option<Choice>,
    hint: &[u8],
) -> Result<(), Memory>
    ensures { OnOk result (text.new ≡ text.old ++ both_said from.now to.now hint.now) }
{
    text.extend(b": ")?;
    put_side(text, from)?;
    text.extend(b" and ")?;
    put_side(text, to)?;
    text.extend(hint)
}

// Of a port whose own offer does not admit what its node has.
#[tactic(auto, unfolding(crate::specs::RefusedSides::node_said))]
fn put_node_said(
    text: &mut Text,
    nodes: &[PlanNode],
    port: PortId,
    own: &Option<Choice>,
    shared: Option<u32>,
) -> Result<(), Memory>
    ensures { OnOk result (text.new ≡ text.old ++ node_said nodes.now port own.now shared) }
{
    text.extend(b": ")?;
    put_end_behind(text, nodes, port, b" admits ")?;
    put_side(text, own)?;
    text.extend(b", and its node has ")?;
    put_shared(text, shared)
}

fn put_sides_said(
    text: &mut Text,
    nodes: &[PlanNode],
    link: LinkLine,
    key: u32,
    sides: &Sides,
) -> Result<(), Memory>
    ensures { OnOk result (text.new ≡ text.old ++ sides_said nodes.now link key sides.now) }
{
    match sides {
        Sides::Both { from, to } => {
            put_both_said(text, from, to, pair_hint(nodes, link, key, from, to))
        }
        Sides::Node { port, own, shared } => put_node_said(text, nodes, *port, own, *shared),
    }
}

// What helps where the key is that of the channels.
fn map_part(nodes: &[PlanNode], link: LinkLine, key: u32) -> &'static [u8]
    ensures { result.now ≡ map_part nodes.now link key }
{
    if key == CHANNELS_KEY {
        channel_hint(
            nodes,
            link,
            b"; where one side has one channel and the other two, map NAME 1 0,0 makes two of one",
        )
    } else {
        b""
    }
}

/// What both sides of the link of a line admit at a key, where that is known; else, of channels, a
/// rule.
pub fn put_sides(
    text: &mut Text,
    nodes: &[PlanNode],
    refused: &[RefusedLink],
    number: u32,
    link: LinkLine,
    key: u32,
) -> Result<(), Memory>
    ensures { OnOk result (text.new ≡ text.old
        ++ sides_part nodes.now link key (entry_of refused.now number key)) }
{
    match entry_of(refused, number, key) {
        None => text.extend(map_part(nodes, link, key)),
        Some(entry) => put_sides_said(text, nodes, link, key, &entry.sides),
    }
}
