//! What the run of a plan stores and prints.

ghost use Rattle.std.specs.Prelude.{◌≡◌, map, option_copied, IfOk, OnOk, All};
ghost use Rattle.pw_graph.specs.History.{IsLegalHistory};
ghost use Rattle.graph_script.specs.Kinds.{made_by};
ghost use Rattle.pw_top.specs.working.Playable.{IsPlayable};
ghost use Rattle.pw_top.specs.PlannedWork.{plan_work, if_traced, rendered};
ghost use Rattle.pw_top.specs.RunFound.{IsFoundOfPlan};
ghost use Rattle.pw_top.specs.SinkStores.{makes_sink, sink_line_of, sink_file, sink_store};

use crate::planned::Planned;
use crate::refused::refused_in;
use cycle_trace::run_text;
use graph_script::{Command, Line};
use pw_graph::Event;
use pw_lists::{Items, Memory, Text};
use run_results::{Content, Store, What, Work};
use std::alloc::Global;
use wav_files::{Kept, Outcome};

// Whether a command makes this node as a sink.
fn makes_sink(command: &Command, node: u32) -> bool
    ensures { result ≡ makes_sink node (made_by command.now) }
{
    match command {
        Command::Sink { node: made, .. } => *made == node,
        _ => false,
    }
}

// The line that makes a sink.
fn sink_line_of(lines: &[Line], node: u32) -> Option<&Line>
    ensures { option_copied result ≡ sink_line_of lines.now node }
{
    lines.iter().find(|line| makes_sink(&line.command, node))
}

// The file that a sink names.
fn sink_file(alloc: Global, command: &Command) -> Result<Text, Memory>
    ensures { IfOk result (λ file. file ≡ sink_file command.now) }
{
    match command {
        Command::Sink { file, .. } => file.copy(alloc),
        _ => Ok(Items::new(alloc)),
    }
}

// What is kept, to be stored at the line of its sink.
fn sink_store(alloc: Global, lines: &[Line], kept: Kept) -> Result<Store, Memory>
    ensures { IfOk result (λ store. store ≡ sink_store lines.now kept) }
{
    match sink_line_of(lines, kept.node) {
        Some(line) => {
            let name = sink_file(alloc, &line.command)?;
            Ok(Store {
                place: line.line,
                name,
                content: Content::Wave(kept.wav),
            })
        }
        None => Ok(Store {
            place: 0,
            name: Items::new(alloc),
            content: Content::Wave(kept.wav),
        }),
    }
}

/// All that is kept, in order.
pub fn sink_stores(
    alloc: Global,
    lines: &[Line],
    sinks: Items<Kept>,
) -> Result<Items<Store>, Memory>
    ensures { IfOk result (λ stores. stores ≡ map (sink_store lines.now) sinks) }
{
    let mut stores = Items::new(alloc);
    for kept in sinks.into_vec() {
        stores.push(sink_store(alloc, lines, kept)?)?;
    }
    Ok(stores)
}

// The events, where they are wanted in the text.
fn if_traced(trace: bool, history: &Items<Event>) -> Option<&Items<Event>>
    ensures { option_copied result ≡ if_traced trace history.now }
{
    if trace { Some(history) } else { None }
}

/// The stores and the text of a run: its sinks' files, and with `trace` its events. The script, its
/// plan, the peaks and the refused links are left in `what`.
pub fn plan_work(
    alloc: Global,
    planned: Planned,
    trace: bool,
    history: &Items<Event>,
    outcome: Outcome,
    what: &mut What,
) -> Result<Work, Memory>
    requires planned { IsPlayable planned }
    requires legal { IsLegalHistory (map (λ e. e.shape) planned.plan.epochs) history.now }
    requires outcome { outcome ≡ rendered planned.plan planned.waves }
    ensures work { IfOk result (λ work. work ≡ plan_work planned trace history.now) }
    ensures what { OnOk result (IsFoundOfPlan planned what.new) }
{
    let Planned {
        script,
        ports,
        waves,
        plan,
    } = planned;
    let text = run_text(alloc, &plan, if_traced(trace, history), &outcome)?;
    let Outcome { sinks, peaks, .. } = outcome;
    let stores = sink_stores(alloc, script.lines.as_slice(), sinks)?;
    let refused = refused_in(alloc, &script, ports, &waves, plan.lines.as_slice())?;
    *what = What::Run {
        script,
        plan,
        peaks,
        refused,
    };
    Ok(Work { stores, text })
}
