//! The whole text of a run.
ghost use Rattle.std.specs.Prelude.{◌≡◌, ◌++◌, [], map, flat_map, All, IfOk, OnOk, option_copied, unwrap_or};
ghost use Rattle.cycle_trace.specs.EventLines.{event_line};
ghost use Rattle.cycle_trace.specs.Printable.{IsPrintable, NamesNodes};
ghost use Rattle.cycle_trace.specs.RunText.{run_text_of};

use crate::event_lines::append_event_lines;
use crate::link_lines::append_link_lines;
use crate::result_lines::append_result_lines;
use pw_graph::{Event, Plan, PlanNode};
use pw_lists::{Items, Memory, Text};
use std::alloc::Global;
use wav_files::Outcome;

/// The names of the nodes.
fn names_of(alloc: Global, nodes: &[PlanNode]) -> Result<Items<Text>, Memory>
    ensures { IfOk result (λ names. names ≡ map (λ n. n.name) nodes.now) }
{
    let mut names = Items::new(alloc);
    for node in nodes {
        names.push(node.name.copy(alloc)?)?;
    }
    Ok(names)
}

/// Appends a line for each event of a history, where one is given.
fn append_history(
    alloc: Global,
    nodes: &[PlanNode],
    history: Option<&Items<Event>>,
    text: &mut Text,
) -> Result<(), Memory>
    requires { All (NamesNodes nodes.now) (unwrap_or (option_copied history) []) }
    ensures { OnOk result (text.new ≡ text.old ++ flat_map
        (event_line (map (λ n. n.name) nodes.now)) (unwrap_or (option_copied history.entry) [])) }
{
    match history {
        Some(events) => {
            let names = names_of(alloc, nodes)?;
            append_event_lines(names.as_slice(), events.as_slice(), text)
        }
        None => Ok(()),
    }
}

/// The text of a run: a line for each `link` and `unlink`, in the order of the script; a line for
/// each event of a history, where one is given; and a line for each sink and meter, ascending
/// by number.
///
/// The ports of the plan's lines are there, and so are the nodes of the events, where 63 is the
/// built-in driver.
/// A sink with a rate that has kept no wave counts as one of 0 frames.
pub fn run_text(
    alloc: Global,
    plan: &Plan,
    history: Option<&Items<Event>>,
    outcome: &Outcome,
) -> Result<Text, Memory>
    requires { IsPrintable plan.now (option_copied history) }
    ensures { IfOk result (λ text. text
        ≡ run_text_of plan.now (option_copied history.entry) outcome.now) }
{
    let nodes = plan.nodes.as_slice();
    let mut text = Items::new(alloc);
    append_link_lines(nodes, plan.lines.as_slice(), &mut text)?;
    append_history(alloc, nodes, history, &mut text)?;
    append_result_lines(nodes, outcome, &mut text)?;
    Ok(text)
}
