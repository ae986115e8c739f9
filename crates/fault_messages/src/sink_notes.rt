//! Sinks and meters that got no format or no frames, the files of sinks, and samples at a limit, in
//! words.
ghost use Rattle.std.specs.Prelude.{◌≡◌, ◌++◌, map, string_bytes, option_copied, OnOk};
ghost use Rattle.fault_messages.specs.SinkNotes.{file_notes, wave_notes, sink_note, peak_of};
ghost use Rattle.fault_messages.specs.SinkNotes.{meter_note, name_of, sink_part, sink_notes};
ghost use Rattle.fault_messages.specs.SinkWaves.{samples_at};

use crate::clipped_sinks::put_clipped_note;
use crate::empty_sinks::{put_empty_note, put_still_note};
use crate::note_heads::put_note_head;
use crate::sink_files::{put_later_note, put_name_note, put_script_note, put_source_note};
use crate::sink_waves::samples_at;
use crate::unused_nodes::{put_meter_said, put_sink_said};
use graph_script::{Command, Line, Script};
use pw_graph::Plan;
use pw_lists::{Memory, Text};
use run_results::Store;
use wav_files::Peak;

// Of the file of a sink that stored samples: that a later sink writes it too, that a source reads
// it, that it is the script, or what its name is.
fn put_file_notes(
    text: &mut Text,
    words: &[String],
    lines: &[Line],
    stores: &[Store],
    number: u32,
    file: &[u8],
) -> Result<(), Memory>
    ensures { OnOk result (text.new ≡ text.old
        ++ file_notes (map string_bytes words.now) lines.now stores.now number file.now) }
{
    put_later_note(text, words, stores, number, file)?;
    put_source_note(text, words, lines, number, file)?;
    put_script_note(text, words, number, file)?;
    put_name_note(text, words, number, file)
}

// Of the samples that a sink stored: that there are none, or how many are at a limit.
fn put_wave_notes(
    text: &mut Text,
    words: &[String],
    script: &Script,
    plan: &Plan,
    samples: &[i16],
    number: u32,
    node: u32,
    file: &[u8],
) -> Result<(), Memory>
    ensures { OnOk result (text.new ≡ text.old
        ++ wave_notes (map string_bytes words.now) script.now plan.now samples.now number node
        file.now) }
{
    let name = name_of(script, node);
    put_empty_note(text, words, script, plan, samples, number, node, name, file)?;
    put_clipped_note(text, words, samples, number, name)
}

// The notes on a sink, by the samples that it stored, if it did.
fn put_sink_note(
    text: &mut Text,
    words: &[String],
    script: &Script,
    plan: &Plan,
    stores: &[Store],
    number: u32,
    node: u32,
    file: &[u8],
) -> Result<(), Memory>
    ensures { OnOk result (text.new ≡ text.old
        ++ sink_note (map string_bytes words.now) script.now plan.now stores.now
        (samples_at stores.now number) number node file.now) }
{
    match samples_at(stores, number) {
        None => {
            let name = name_of(script, node);
            put_note_head(text, words, number)?;
            put_sink_said(text, script.lines.as_slice(), stores, node, name, file)?;
            text.extend(b"\n")
        }
        Some(samples) => {
            let lines = script.lines.as_slice();
            put_file_notes(text, words, lines, stores, number, file)?;
            put_wave_notes(text, words, script, plan, samples, number, node, file)
        }
    }
}

// The peak of a node, if it has one.
fn peak_of(peaks: &[Peak], node: u32) -> Option<Peak>
    ensures { result ≡ peak_of peaks.now node }
{
    for peak in peaks {
        if peak.node == node {
            return Some(*peak);
        }
    }
    None
}

// The note on a meter, by its peak, if it has one.
fn put_meter_note(
    text: &mut Text,
    words: &[String],
    script: &Script,
    plan: &Plan,
    peak: Option<Peak>,
    number: u32,
    node: u32,
) -> Result<(), Memory>
    ensures { OnOk result (text.new ≡ text.old
        ++ meter_note (map string_bytes words.now) script.now plan.now peak number node) }
{
    let name = name_of(script, node);
    match peak {
        None => {
            put_note_head(text, words, number)?;
            put_meter_said(text, script.lines.as_slice(), node, name)?;
            text.extend(b"\n")
        }
        Some(peak) => put_still_note(text, words, script, plan, peak.value, number, node, name),
    }
}

/// The name of a node; nothing where it has none.
pub fn name_of(script: &Script, node: u32) -> &[u8]
    ensures { result.now ≡ name_of script.now node }
{
    match script.names.as_slice().get(node as usize) {
        None => b"".as_slice(),
        Some(name) => name.as_slice(),
    }
}

// The notes on a line of the script.
fn put_sink_part(
    text: &mut Text,
    words: &[String],
    script: &Script,
    plan: &Plan,
    stores: &[Store],
    peaks: &[Peak],
    line: &Line,
) -> Result<(), Memory>
    ensures { OnOk result (text.new ≡ text.old
        ++ sink_part (map string_bytes words.now) script.now plan.now stores.now peaks.now
        line.now.line line.now.command) }
{
    let number = line.line;
    match &line.command {
        Command::Sink { node, file } => {
            let file = file.as_slice();
            put_sink_note(text, words, script, plan, stores, number, *node, file)
        }
        Command::Meter { node } => {
            let peak = peak_of(peaks, *node);
            put_meter_note(text, words, script, plan, peak, number, *node)
        }
        _ => Ok(()),
    }
}

/// Which sinks and meters of a script had no format at the end or got no frames, which sinks wrote
/// a file that a later one writes too or a source reads, and which have samples at a limit of 16
/// bits: a note for each, by what the run stored, by the peaks of its meters, and by its plan.
/// Cost: for each sink one look at each of its samples, and for each of both one at each line of
/// the script and at each active node of each epoch.
pub fn put_sink_notes(
    text: &mut Text,
    words: &[String],
    script: &Script,
    plan: &Plan,
    stores: &[Store],
    peaks: &[Peak],
) -> Result<(), Memory>
    ensures { OnOk result (text.new ≡ text.old
        ++ sink_notes (map string_bytes words.now) script.now plan.now stores.now peaks.now) }
{
    for line in script.lines.as_slice() {
        put_sink_part(text, words, script, plan, stores, peaks, line)?;
    }
    Ok(())
}
