//! Why links were not made, in words.
ghost use Rattle.std.specs.Prelude.{◌≡◌, ◌++◌, map, string_bytes, OnOk};
ghost use Rattle.fault_messages.specs.LinkNotes.{loop_said, key_cause, is_refused, cause_said, ends_head, refused_said, link_note, link_notes};
ghost use Rattle.fault_messages.specs.working.LinkSteps.{first_note, link_part, links_after, links_behind};

use crate::key_names::put_clash;
use crate::link_ends::put_two_ends;
use crate::note_heads::put_note_head;
use crate::refused_sides::put_sides;
use crate::script_lines::has_ends;
use graph_script::Line;
use pw_graph::{LineOutcome, LinkLine, PlanNode};
use pw_lists::{Memory, Text};
use refused_links::RefusedLink;

// Of a loop.
fn loop_said(link: LinkLine) -> &'static [u8]
    ensures { result.now ≡ loop_said link }
{
    if link.from.node == link.to.node {
        b"a node is not linked to itself"
    } else {
        b"it would close a loop, which only a link of an async node may"
    }
}

// A key under which the formats have nothing in common.
fn put_key_cause(
    text: &mut Text,
    nodes: &[PlanNode],
    refused: &[RefusedLink],
    number: u32,
    link: LinkLine,
    key: u32,
) -> Result<(), Memory>
    ensures { OnOk result (text.new ≡ text.old
        ++ key_cause nodes.now refused.now number link key) }
{
    put_clash(text, key)?;
    put_sides(text, nodes, refused, number, link, key)
}

// Whether the link of a line is not made.
fn is_refused(outcome: LineOutcome) -> bool
    ensures { result ≡ is_refused outcome }
{
    match outcome {
        LineOutcome::Linked { .. } | LineOutcome::Gone | LineOutcome::NotThere => false,
        LineOutcome::NoFormat { .. }
        | LineOutcome::NoBuffers
        | LineOutcome::Looped
        | LineOutcome::Twice => true,
    }
}

// The cause of a link that is not made; nothing of another line.
fn put_cause(
    text: &mut Text,
    nodes: &[PlanNode],
    refused: &[RefusedLink],
    number: u32,
    link: LinkLine,
) -> Result<(), Memory>
    ensures { OnOk result (text.new ≡ text.old
        ++ cause_said nodes.now refused.now number link link.outcome) }
{
    match link.outcome {
        LineOutcome::NoFormat { key } => put_key_cause(text, nodes, refused, number, link, key),
        LineOutcome::NoBuffers => text.extend(b"no number of buffers suits both ports"),
        LineOutcome::Looped => text.extend(loop_said(link)),
        LineOutcome::Twice => text.extend(b"it is there already"),
        LineOutcome::Linked { .. } | LineOutcome::Gone | LineOutcome::NotThere => Ok(()),
    }
}

#[tactic(auto, unfolding(crate::specs::LinkNotes::ends_head))]
fn put_ends_head(text: &mut Text, nodes: &[PlanNode], link: LinkLine) -> Result<(), Memory>
    ensures { OnOk result (text.new ≡ text.old ++ ends_head nodes.now link) }
{
    put_two_ends(text, nodes, link.from, b" to ", link.to, b" is no link: ")
}

// The note on a line of the script, by what it did.
fn put_link_note(
    text: &mut Text,
    words: &[String],
    nodes: &[PlanNode],
    refused: &[RefusedLink],
    number: u32,
    link: LinkLine,
) -> Result<(), Memory>
    ensures { OnOk result (text.new ≡ text.old
        ++ link_note (map string_bytes words.now) nodes.now refused.now number link) }
{
    if !is_refused(link.outcome) {
        return Ok(());
    }
    put_note_head(text, words, number)?;
    put_ends_head(text, nodes, link)?;
    put_cause(text, nodes, refused, number, link)?;
    text.extend(b"\n")
}

// The note on a line of the script, where it has two ends, by the first of what is left.
fn put_link_part(
    text: &mut Text,
    words: &[String],
    nodes: &[PlanNode],
    refused: &[RefusedLink],
    line: &Line,
    links: &[LinkLine],
) -> Result<(), Memory>
    ensures { OnOk result (text.new ≡ text.old
        ++ link_part (map string_bytes words.now) nodes.now refused.now line.now links.now) }
{
    if !has_ends(&line.command) {
        return Ok(());
    }
    match links {
        [] => Ok(()),
        [link, ..] => put_link_note(text, words, nodes, refused, line.line, *link),
    }
}

// What is left after this line.
fn links_behind<'a>(line: &Line, links: &'a [LinkLine]) -> &'a [LinkLine]
    ensures { result.now ≡ links_behind line.now links.now }
{
    if !has_ends(&line.command) {
        return links;
    }
    match links {
        [] => links,
        [_, rest @ ..] => rest,
    }
}

/// Why links of a script were not made, a note for each, by the plan's nodes, by the lines of the
/// script, by what those with two ends did, in their order, and by what both sides of those that
/// found no format admit.
pub fn put_link_notes(
    text: &mut Text,
    words: &[String],
    nodes: &[PlanNode],
    refused: &[RefusedLink],
    lines: &[Line],
    links: &[LinkLine],
) -> Result<(), Memory>
    ensures { OnOk result (text.new ≡ text.old
        ++ link_notes (map string_bytes words.now) nodes.now refused.now lines.now links.now) }
{
    let mut left = links;
    for line in lines {
        put_link_part(text, words, nodes, refused, line, left)?;
        left = links_behind(line, left);
    }
    Ok(())
}
