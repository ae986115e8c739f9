//! The lines that say what each `link` and `unlink` did.
ghost use Rattle.std.specs.Prelude.{◌≡◌, ◌∷◌, ◌++◌, flat_map, All, OnOk};
ghost use Rattle.cycle_trace.specs.Printable.{IsPort, JoinsPorts};
ghost use Rattle.cycle_trace.specs.LinkLines.{link_details, link_line, link_word};
ghost use Rattle.cycle_trace.specs.NodeNames.{endpoint};
ghost use Rattle.cycle_trace.specs.Words.{spaced};

use crate::words::{append_number, append_word, end_line};
use pw_graph::{LineOutcome, LinkLine, PlanNode, PortId};
use pw_lists::{Memory, Text};

/// Appends a space and a port, as `NODE.PORT`.
fn append_endpoint(nodes: &[PlanNode], at: PortId, text: &mut Text) -> Result<(), Memory>
    requires { IsPort nodes.now at }
    ensures { OnOk result (text.new ≡ text.old ++ 32 ∷ endpoint nodes.now at) }
{
    let node = &nodes[at.node as usize];
    append_word(text, node.name.as_slice())?;
    text.extend(b".".as_slice())?;
    text.extend(node.kind.port_name(at.port))
}

/// The first word of a line.
fn first_word(outcome: LineOutcome) -> &'static [u8]
    ensures { result.now ≡ link_word outcome }
{
    match outcome {
        LineOutcome::Linked { .. } => b"link".as_slice(),
        LineOutcome::Gone => b"unlink".as_slice(),
        LineOutcome::NotThere => b"nounlink".as_slice(),
        _ => b"nolink".as_slice(),
    }
}

/// Appends what a line says after its two ports.
fn append_details(outcome: LineOutcome, text: &mut Text) -> Result<(), Memory>
    ensures { OnOk result (text.new ≡ text.old ++ spaced (link_details outcome)) }
{
    match outcome {
        LineOutcome::Linked {
            rate,
            channels,
            buffers,
        } => {
            append_number(text, u64::from(rate))?;
            append_number(text, u64::from(channels))?;
            append_number(text, u64::from(buffers))
        }
        LineOutcome::NoFormat { key } => append_number(text, u64::from(key)),
        LineOutcome::NoBuffers => append_word(text, b"buffers".as_slice()),
        LineOutcome::Looped => append_word(text, b"loop".as_slice()),
        LineOutcome::Twice => append_word(text, b"twice".as_slice()),
        LineOutcome::Gone | LineOutcome::NotThere => Ok(()),
    }
}

/// Appends one line.
fn append_link_line(nodes: &[PlanNode], link: LinkLine, text: &mut Text) -> Result<(), Memory>
    requires { JoinsPorts nodes.now link }
    ensures { OnOk result (text.new ≡ text.old ++ link_line nodes.now link) }
{
    text.extend(first_word(link.outcome))?;
    append_endpoint(nodes, link.from, text)?;
    append_endpoint(nodes, link.to, text)?;
    append_details(link.outcome, text)?;
    end_line(text)
}

/// Appends a line for each.
pub(crate) fn append_link_lines(
    nodes: &[PlanNode],
    links: &[LinkLine],
    text: &mut Text,
) -> Result<(), Memory>
    requires { All (JoinsPorts nodes.now) links.now }
    ensures { OnOk result (text.new ≡ text.old ++ flat_map (link_line nodes.now) links.now) }
{
    for link in links {
        append_link_line(nodes, *link, text)?;
    }
    Ok(())
}
