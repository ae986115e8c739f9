//! The ends of links, as the text of a run has them: the name of a node, a dot and that of its
//! port.
ghost use Rattle.std.specs.Prelude.{◌≡◌, ◌++◌, codes, option_copied, OnOk};
ghost use Rattle.pw_graph.specs.KindPorts.{port_name};
ghost use Rattle.fault_messages.specs.LinkEnds.{end_of, quoted_end};

use pw_graph::{Kind, PlanNode, PortId};
use pw_lists::{Memory, Text};
use shown_words::put_escaped;

// The name of a port; nothing where the kind has none of this number.
fn port_name(kind: &Kind, port: u32) -> &'static [u8]
    ensures { result.now ≡ port_name kind.now port }
{
    if u64::from(port) < u64::from(kind.inputs()) + u64::from(kind.outputs()) {
        kind.port_name(port)
    } else {
        b""
    }
}

// The port of a node; nothing where there is no node.
fn put_end_of(text: &mut Text, node: Option<&PlanNode>, port: u32) -> Result<(), Memory>
    ensures { OnOk result (text.new ≡ text.old ++ end_of (option_copied node.entry) port) }
{
    match node {
        None => Ok(()),
        Some(node) => {
            put_escaped(text, node.name.as_slice())?;
            text.extend(b".")?;
            text.extend(port_name(&node.kind, port))
        }
    }
}

// The same in quotes.
fn put_in_quotes(text: &mut Text, node: Option<&PlanNode>, port: u32) -> Result<(), Memory>
    ensures { OnOk result (text.new ≡ text.old
        ++ (codes "\"" ++ (end_of (option_copied node.entry) port ++ codes "\""))) }
{
    text.extend(b"\"")?;
    put_end_of(text, node, port)?;
    text.extend(b"\"")
}

// An end in quotes.
#[tactic(auto, unfolding(crate::specs::LinkEnds::quoted_end))]
fn put_quoted_end(text: &mut Text, nodes: &[PlanNode], at: PortId) -> Result<(), Memory>
    ensures { OnOk result (text.new ≡ text.old ++ quoted_end nodes.now at) }
{
    put_in_quotes(text, nodes.get(at.node as usize), at.port)
}

/// An end in quotes, with words after it.
pub fn put_end_behind(
    text: &mut Text,
    nodes: &[PlanNode],
    at: PortId,
    words: &[u8],
) -> Result<(), Memory>
    ensures { OnOk result (text.new ≡ text.old ++ (quoted_end nodes.now at ++ words.now)) }
{
    put_quoted_end(text, nodes, at)?;
    text.extend(words)
}

/// Two ends in quotes, by the plan's nodes, with words after each.
pub fn put_two_ends(
    text: &mut Text,
    nodes: &[PlanNode],
    from: PortId,
    between: &[u8],
    to: PortId,
    behind: &[u8],
) -> Result<(), Memory>
    ensures { OnOk result (text.new ≡ text.old ++ (quoted_end nodes.now from
        ++ (between.now ++ (quoted_end nodes.now to ++ behind.now)))) }
{
    put_end_behind(text, nodes, from, between)?;
    put_end_behind(text, nodes, to, behind)
}
