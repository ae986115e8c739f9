//! Sinks and meters that got no frames, in words.
ghost use Rattle.std.specs.Prelude.{◌≡◌, ◌++◌, map, string_bytes, OnOk};
ghost use Rattle.fault_messages.specs.EmptySinks.{no_cycles, is_run, may_cause, empty_cause};
ghost use Rattle.fault_messages.specs.EmptySinks.{empty_sink, still_meter, empty_note, is_still, still_note};

use crate::inactive_nodes::{drain_part, is_ever_active, put_inactive, put_run_cause};
use crate::note_heads::put_note_head;
use crate::places::word_at;
use crate::putting::{put_behind, put_two_quoted};
use crate::script_lines::may_have_cycles;
use graph_script::Script;
use pw_graph::Plan;
use pw_lists::{Memory, Text};

#[tactic(auto, unfolding(crate::specs::EmptySinks::no_cycles))]
fn no_cycles() -> &'static [u8]
    ensures { result.now ≡ no_cycles }
{
    b": the script has no cycles line and no drain line"
}

// Whether the command is `run`.
fn is_run(words: &[String]) -> bool
    ensures { result ≡ is_run (map string_bytes words.now) }
{
    word_at(words, 0) == b"run".as_slice()
}

// Why a node has no frames, where there may be cycles.
fn put_may_cause(
    text: &mut Text,
    words: &[String],
    script: &Script,
    plan: &Plan,
    node: u32,
) -> Result<(), Memory>
    ensures { OnOk result (text.new ≡ text.old
        ++ may_cause (map string_bytes words.now) script.now plan.now node) }
{
    let lines = script.lines.as_slice();
    if is_run(words) {
        let (names, links) = (script.names.as_slice(), plan.lines.as_slice());
        put_run_cause(text, names, lines, links, node, plan.epochs.as_slice())
    } else {
        put_inactive(text, drain_part(lines))
    }
}

// Why a node has no frames.
fn put_empty_cause(
    text: &mut Text,
    words: &[String],
    script: &Script,
    plan: &Plan,
    node: u32,
) -> Result<(), Memory>
    ensures { OnOk result (text.new ≡ text.old
        ++ empty_cause (map string_bytes words.now) script.now plan.now node) }
{
    if may_have_cycles(script.lines.as_slice()) {
        put_may_cause(text, words, script, plan, node)
    } else {
        text.extend(no_cycles())
    }
}

#[tactic(auto, unfolding(crate::specs::EmptySinks::empty_sink))]
fn put_empty_sink(text: &mut Text, name: &[u8], file: &[u8]) -> Result<(), Memory>
    ensures { OnOk result (text.new ≡ text.old ++ empty_sink name.now file.now) }
{
    put_two_quoted(
        text,
        name,
        b" has no frames, so what it writes to ",
        file,
        b" is an empty WAV file",
    )
}

#[tactic(auto, unfolding(crate::specs::EmptySinks::still_meter))]
fn put_still_meter(text: &mut Text, name: &[u8]) -> Result<(), Memory>
    ensures { OnOk result (text.new ≡ text.old ++ still_meter name.now) }
{
    put_behind(text, name, b" got no frames, so its peak is 0")
}

/// The note on a sink that stored no frames, by its samples.
pub fn put_empty_note(
    text: &mut Text,
    words: &[String],
    script: &Script,
    plan: &Plan,
    samples: &[i16],
    number: u32,
    node: u32,
    name: &[u8],
    file: &[u8],
) -> Result<(), Memory>
    ensures { OnOk result (text.new ≡ text.old
        ++ empty_note (map string_bytes words.now) script.now plan.now samples.now number node
        name.now file.now) }
{
    if !samples.is_empty() {
        return Ok(());
    }
    put_note_head(text, words, number)?;
    put_empty_sink(text, name, file)?;
    put_empty_cause(text, words, script, plan, node)?;
    text.extend(b"\n")
}

// Whether a meter certainly got no frames.
fn is_still(words: &[String], script: &Script, plan: &Plan, node: u32) -> bool
    ensures { result ≡ is_still (map string_bytes words.now) script.now plan.now node }
{
    if may_have_cycles(script.lines.as_slice()) {
        is_run(words) && !is_ever_active(plan.epochs.as_slice(), node)
    } else {
        true
    }
}

/// The note on a meter with this peak, where it certainly got no frames.
pub fn put_still_note(
    text: &mut Text,
    words: &[String],
    script: &Script,
    plan: &Plan,
    peak: u32,
    number: u32,
    node: u32,
    name: &[u8],
) -> Result<(), Memory>
    ensures { OnOk result (text.new ≡ text.old
        ++ still_note (map string_bytes words.now) script.now plan.now peak number node
        name.now) }
{
    if peak != 0 || !is_still(words, script, plan, node) {
        return Ok(());
    }
    put_note_head(text, words, number)?;
    put_still_meter(text, name)?;
    put_empty_cause(text, words, script, plan, node)?;
    text.extend(b"\n")
}
