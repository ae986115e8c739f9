//! A host of its own: it gives the engine a graph as text and samples in memory, and prints the
//! samples that come out. No file is read or written.
//!
//! Copy this crate, and change `SCRIPT`, `VOICES` and what `main` does with the answer. The steps
//! are those of any host: the text becomes a script (`parse`), the script's nodes get ports and its
//! sources waves (`inputs_of`), its lines become a plan (`plan`), and threads run the plan
//! (`run_plan`). docs/HOSTING.md walks through it.
#![tactic(auto)]

mod fault;
#[cfg(test)]
mod tests;
mod voices;

ghost use Rattle.std.specs.Prelude.{◌≡◌, IfOk, map, string_bytes};
ghost use Rattle.pw_graph.specs.SoundPlan.{IsSoundPlan};
ghost use Rattle.cycle_model.specs.Rendering.{rendered_sinks};
ghost use Rattle.cycle_model.specs.WavesFit.{WavesFit};
ghost use Rattle.host_example.specs.SinkLine.{sink_line};
ghost use Rattle.host_example.specs.Voices.{IsPlayed};

use crate::fault::HostFault;
use crate::voices::waves_of;
use graph_plan::plan;
use graph_run::run_plan;
use graph_script::parse;
use pw_graph::Plan;
use pw_lists::{Items, Memory, SCRIPT_BYTES_LIMIT};
use pw_outside::{Gate, Never, Open};
use script_inputs::{Inputs, inputs_of};
use std::alloc::Global;
use std::process::ExitCode;
use std::sync::Wait;
use std::thread::Threads;
use wav_files::{Kept, WavIn};

/// The graph, in the language of docs/FORMATS.md: two voices, the second at half its level, mixed
/// into one sink. The file words of sources and sinks are never opened here.
const SCRIPT: &str = "quantum 4\nsource a a.wav\nsource b b.wav\nmix2 m 256 128\nsink o o.wav\n\
    driver o 1\nloop b 1\nlink a.out m.a\nlink b.out m.b\nlink m.out o.in\ndrain\n";

/// The samples of each source, in the order of the script's lines.
const VOICES: [&[i16]; 2] = [
    &[1000, 2000, 3000, 4000, 5000, 6000],
    &[200, -200, 200, -200, 200, -200],
];

/// Runs a plan by two loops beside the thread that drives. What each sink has kept, ascending by
/// node, is what the cycle function says in one thread, whatever the order of the threads' steps.
fn run_by_two<R: Threads + Wait + Sync, G: Gate + Sync>(
    rt: &R,
    alloc: Global,
    plan: &Plan,
    waves: &Items<WavIn>,
    gate: &G,
) -> Result<Items<Kept>, Memory>
    requires sound { IsSoundPlan plan.now }
    requires fit { WavesFit plan.now waves.now }
    ensures { IfOk result (λ sinks. sinks ≡ rendered_sinks plan.now waves.now) }
{
    // A ticker says when late nodes are looked for: this host wants none. `false`: each loop has a
    // thread of its own.
    let mut ticker = Never::new();
    let threads = [false, false];
    match run_plan(rt, alloc, plan, waves, 2, &threads, gate, &mut ticker) {
        Ok((outcome, _boards)) => Ok(outcome.sinks),
        Err(Memory) => Err(Memory),
    }
}

/// What the sinks of a script keep, whose sources have these samples in the order of their lines:
/// all steps from text to samples. A script with more sources than voices, or with an `offer` line,
/// is refused; a voice without a source is left out.
fn play<R: Threads + Wait + Sync, G: Gate + Sync>(
    rt: &R,
    alloc: Global,
    text: &str,
    voices: &[&[i16]],
    gate: &G,
) -> Result<Items<Kept>, HostFault>
    ensures { IfOk result (IsPlayed text.now (map (λ v. v.now) voices.now)) }
{
    let bytes = text.as_bytes();
    if (bytes.len() as u64) > SCRIPT_BYTES_LIMIT {
        return Err(HostFault::TooLong);
    }
    let script = parse(alloc, bytes)?;
    let waves = waves_of(alloc, voices)?;
    let formats = Items::new(alloc);
    let Inputs { ports, waves } = inputs_of(alloc, &script, waves, formats.as_slice())?;
    let plan = plan(alloc, &script, &waves, ports)?;
    Ok(run_by_two(rt, alloc, &plan, &waves, gate)?)
}

/// The line of a sink: its number among the script's nodes, and its samples.
fn sink_line(alloc: Global, kept: &Kept) -> Result<String, Memory>
    ensures { IfOk result (λ line. string_bytes line ≡ sink_line kept.now) }
{
    let mut line = format!(in alloc; "node {}:", kept.node)?;
    for sample in kept.wav.samples.as_slice() {
        let word = format!(in alloc; " {sample}")?;
        line.push_str(word.as_str())?;
    }
    Ok(line)
}

/// Prints a line for each sink.
fn print_sinks<R: Print + Alloc<A = Global>>(rt: &R, sinks: &[Kept]) -> Result<(), HostFault> {
    for kept in sinks {
        let line = sink_line(rt.alloc(), kept)?;
        if println!(rt; "{line}").is_err() {
            return Err(HostFault::Output);
        }
    }
    Ok(())
}

fn main(rt: HostRuntime) -> ExitCode {
    // A gate is called as each node begins its work: that of this host lets each pass.
    let gate = Open::new();
    let printed = match play(&rt, rt.alloc(), SCRIPT, VOICES.as_slice(), &gate) {
        Ok(sinks) => print_sinks(&rt, sinks.as_slice()),
        Err(fault) => Err(fault),
    };
    match printed {
        Ok(()) => ExitCode::from(0),
        Err(fault) => {
            let _ = println!(rt; "{fault:?}");
            ExitCode::from(1)
        }
    }
}
