//! The arguments of a command at the end of a text, each with a space before it. After `Memory` the
//! text has a part.
#![tactic(auto, using(crate::proofs::SpacedLemmas::spaces))]

ghost use Rattle.std.specs.Prelude.{◌≡◌, ◌<◌, ◌++◌, ◌∷◌, [], decimal, length, OnOk};
ghost use Rattle.std.specs.Fmt.{signed_decimal};
ghost use Rattle.graph_script.specs.Kinds.{HasPorts, IsPort};
ghost use Rattle.graph_script.specs.Printing.{node_word, port_word, endpoint_word, list_word, args_of, spaced};
ghost use Rattle.graph_script.specs.Ranges.{HasNodes};

use crate::command::Command;
use crate::node_text::{
    put_map, put_mix2, put_node_gain, put_node_number, put_node_word, put_square,
};
use crate::word_text::{put_endpoint, put_node, put_number, put_port, put_word};
use pw_graph::{Kind, PortId};
use pw_lists::{Memory, Text};

// The output and the input of a link.
fn put_ends(
    text: &mut Text,
    names: &[Text],
    kinds: &[Kind],
    from: PortId,
    to: PortId,
) -> Result<(), Memory>
    requires from_named { from.node < length names.now }
    requires from_there { from.node < length kinds.now }
    requires from { IsPort kinds.now from }
    requires to_named { to.node < length names.now }
    requires to_there { to.node < length kinds.now }
    requires to { IsPort kinds.now to }
    ensures { OnOk result (text.new ≡ text.old
        ++ spaced (endpoint_word names.now kinds.now from
        ∷ endpoint_word names.now kinds.now to ∷ [])) }
{
    put_endpoint(text, names, kinds, from)?;
    put_endpoint(text, names, kinds, to)
}

// A port and a file.
fn put_offer(
    text: &mut Text,
    names: &[Text],
    kinds: &[Kind],
    port: PortId,
    file: &[u8],
) -> Result<(), Memory>
    requires named { port.node < length names.now }
    requires there { port.node < length kinds.now }
    requires port { IsPort kinds.now port }
    ensures { OnOk result (text.new ≡ text.old
        ++ spaced (node_word names.now port.node ∷ port_word kinds.now port ∷ file.now
        ∷ [])) }
{
    put_node(text, names, port.node)?;
    put_port(text, kinds, port)?;
    put_word(text, file)
}

// A port and a number.
fn put_buffers(
    text: &mut Text,
    names: &[Text],
    kinds: &[Kind],
    port: PortId,
    n: u32,
) -> Result<(), Memory>
    requires named { port.node < length names.now }
    requires there { port.node < length kinds.now }
    requires port { IsPort kinds.now port }
    ensures { OnOk result (text.new ≡ text.old
        ++ spaced (node_word names.now port.node ∷ port_word kinds.now port ∷ decimal n
        ∷ [])) }
{
    put_node(text, names, port.node)?;
    put_port(text, kinds, port)?;
    put_number(text, n)
}

/// The arguments of a command, where the nodes have these names and kinds.
#[tactic(auto)]
pub(crate) fn put_args(
    text: &mut Text,
    names: &[Text],
    kinds: &[Kind],
    command: &Command,
) -> Result<(), Memory>
    requires same { length kinds.now ≡ length names.now }
    requires nodes { HasNodes (length names.now) command.now }
    requires ports { HasPorts kinds.now command.now }
    ensures { OnOk result (text.new
        ≡ text.old ++ spaced (args_of names.now kinds.now command.now)) }
{
    match command {
        Command::Quantum { n } => put_number(text, *n),
        Command::Source { node, file } => put_node_word(text, names, *node, file.as_slice()),
        Command::Square {
            node,
            rate,
            channels,
            period,
            amp,
        } => put_square(text, names, *node, *rate, *channels, *period, *amp),
        Command::Gain { node, g } => put_node_gain(text, names, *node, *g),
        Command::Mix2 { node, ga, gb } => put_mix2(text, names, *node, *ga, *gb),
        Command::Delay { node, frames } => put_node_number(text, names, *node, *frames),
        Command::Map {
            node,
            channels,
            list,
        } => put_map(text, names, *node, *channels, list.as_slice()),
        Command::Split { node } => put_node(text, names, *node),
        Command::Sink { node, file } => put_node_word(text, names, *node, file.as_slice()),
        Command::Meter { node } => put_node(text, names, *node),
        Command::Driver { node, priority } => put_node_number(text, names, *node, *priority),
        Command::Loop { node, k } => put_node_number(text, names, *node, *k),
        Command::Offer { port, file } => put_offer(text, names, kinds, *port, file.as_slice()),
        Command::Buffers { port, n } => put_buffers(text, names, kinds, *port, *n),
        Command::Link { from, to } => put_ends(text, names, kinds, *from, *to),
        Command::Unlink { from, to } => put_ends(text, names, kinds, *from, *to),
        Command::On { node } => put_node(text, names, *node),
        Command::Off { node } => put_node(text, names, *node),
        Command::Cycles { n } => put_number(text, *n),
        Command::Drain => Ok(()),
        Command::Async { node } => put_node(text, names, *node),
    }
}
