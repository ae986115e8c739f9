//! One word of a line at the end of a text, with a space before it. After `Memory` the text has a
//! part of it.
#![tactic(auto, using(crate::proofs::SpacedLemmas::spaces))]

ghost use Rattle.std.specs.Prelude.{◌≡◌, ◌<◌, ◌≤◌, ◌++◌, ◌∷◌, [], decimal, length, OnOk};
ghost use Rattle.std.specs.Fmt.{signed_decimal};
ghost use Rattle.pw_graph.specs.KindPorts.{port_count};
ghost use Rattle.graph_script.specs.Kinds.{kind_in};
ghost use Rattle.graph_script.specs.Printing.{node_word, port_word, endpoint_word, list_word, spaced};

use pw_graph::{Kind, PortId};
use pw_lists::{Memory, Text, append_decimal};

/// A word.
pub(crate) fn put_word(text: &mut Text, word: &[u8]) -> Result<(), Memory>
    ensures { OnOk result (text.new ≡ text.old ++ spaced (word.now ∷ [])) }
{
    text.extend(b" ")?;
    text.extend(word)
}

/// The name of a node.
pub(crate) fn put_node(text: &mut Text, names: &[Text], node: u32) -> Result<(), Memory>
    requires { node < length names.now }
    ensures { OnOk result (text.new ≡ text.old ++ spaced (node_word names.now node ∷ [])) }
{
    put_word(text, names[node as usize].as_slice())
}

/// A number.
pub(crate) fn put_number(text: &mut Text, n: u32) -> Result<(), Memory>
    ensures { OnOk result (text.new ≡ text.old ++ spaced (decimal n ∷ [])) }
{
    text.extend(b" ")?;
    append_decimal(text, u64::from(n))
}

/// A number that may have a sign.
pub(crate) fn put_integer(text: &mut Text, n: i32) -> Result<(), Memory>
    ensures { OnOk result (text.new ≡ text.old ++ spaced (signed_decimal n ∷ [])) }
{
    text.extend(b" ")?;
    if n < 0 {
        text.extend(b"-")?;
    }
    append_decimal(text, u64::from(n.unsigned_abs()))
}

/// The name of a port.
pub(crate) fn put_port(text: &mut Text, kinds: &[Kind], port: PortId) -> Result<(), Memory>
    requires there { port.node < length kinds.now }
    requires port { port.port < port_count (kind_in kinds.now port.node) }
    ensures { OnOk result (text.new ≡ text.old ++ spaced (port_word kinds.now port ∷ [])) }
{
    put_word(text, kinds[port.node as usize].port_name(port.port))
}

/// An endpoint: the name of a node, a dot, and the name of a port.
pub(crate) fn put_endpoint(
    text: &mut Text,
    names: &[Text],
    kinds: &[Kind],
    port: PortId,
) -> Result<(), Memory>
    requires there { port.node < length kinds.now }
    requires named { port.node < length names.now }
    requires port { port.port < port_count (kind_in kinds.now port.node) }
    ensures { OnOk result (text.new ≡ text.old
        ++ spaced (endpoint_word names.now kinds.now port ∷ [])) }
{
    put_node(text, names, port.node)?;
    text.extend(b".")?;
    text.extend(kinds[port.node as usize].port_name(port.port))
}

/// A list of channels, parted by commas.
pub(crate) fn put_list(text: &mut Text, list: &[u32]) -> Result<(), Memory>
    ensures { OnOk result (text.new ≡ text.old ++ spaced (list_word list.now ∷ [])) }
{
    text.extend(b" ")?;
    let mut rest = list;
    loop {
        match rest {
            [] => return Ok(()),
            [first, more @ ..] => {
                append_decimal(text, u64::from(*first))?;
                if more.is_empty() {
                    return Ok(());
                }
                text.extend(b",")?;
                rest = more;
            }
        }
    }
}
