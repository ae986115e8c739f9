//! The lines that say what each sink and each meter has.
ghost use Rattle.std.specs.Prelude.{◌≡◌, ◌/◌, ◌==◌, [], ◌∷◌, ◌++◌, flat_map, find, length, codes, decimal, option_copied, OnOk};
ghost use Rattle.std.specs.List.{enumerate_from};
ghost use Rattle.cycle_trace.specs.ResultLines.{sink_frames, meter_peak, result_line};
ghost use Rattle.cycle_trace.specs.Words.{line};

use crate::words::{append_number, append_word, end_line};
use pw_graph::{Kind, PlanNode};
use pw_lists::{Memory, Text};
use wav_files::{Kept, Outcome, Peak, Wav};

/// What the node at a place has kept.
fn kept_at(sinks: &[Kept], place: usize) -> Option<&Kept>
    ensures { option_copied result ≡ find (λ k. k.node == place) sinks.now }
{
    sinks.iter().find(|kept| kept.node as usize == place)
}

/// The peak of the node at a place, if it has one.
fn peak_at(peaks: &[Peak], place: usize) -> Option<&Peak>
    ensures { option_copied result ≡ find (λ p. p.node == place) peaks.now }
{
    peaks.iter().find(|peak| peak.node as usize == place)
}

/// The frames of a wave; none where it has no channel.
fn frames_in(wav: &Wav) -> u64
    ensures { result ≡ length wav.now.samples / wav.now.channels }
{
    let count = wav.samples.len() as u64;
    if wav.channels == 0 {
        0
    } else {
        count / u64::from(wav.channels)
    }
}

/// The frames that a sink has kept.
fn frames_kept(outcome: &Outcome, place: usize) -> u64
    ensures { result ≡ sink_frames outcome.now place }
{
    match kept_at(outcome.sinks.as_slice(), place) {
        Some(kept) => frames_in(&kept.wav),
        None => 0,
    }
}

/// The value of a meter.
fn peak_kept(outcome: &Outcome, place: usize) -> u64
    ensures { result ≡ meter_peak outcome.now place }
{
    match peak_at(outcome.peaks.as_slice(), place) {
        Some(peak) => u64::from(peak.value),
        None => 0,
    }
}

/// Appends a line of a word, a name and a number.
fn append_count(word: &[u8], name: &[u8], n: u64, text: &mut Text) -> Result<(), Memory>
    ensures { OnOk result (text.new ≡ text.old ++ line word.now (name.now ∷ decimal n ∷ [])) }
{
    text.extend(word)?;
    append_word(text, name)?;
    append_number(text, n)?;
    end_line(text)
}

/// Appends the line of a sink or a meter without a format.
fn append_unused(name: &[u8], text: &mut Text) -> Result<(), Memory>
    ensures { OnOk result (text.new ≡ text.old ++ line (codes "unused") (name.now ∷ [])) }
{
    text.extend(b"unused".as_slice())?;
    append_word(text, name)?;
    end_line(text)
}

/// Appends the line of a node, if it is a sink or a meter.
fn append_result_line(
    outcome: &Outcome,
    place: usize,
    node: &PlanNode,
    text: &mut Text,
) -> Result<(), Memory>
    ensures { OnOk result (text.new ≡ text.old ++ result_line outcome.now place node.now) }
{
    let name = node.name.as_slice();
    match node.kind {
        Kind::Sink if node.rate == 0 => append_unused(name, text),
        Kind::Sink => append_count(b"wrote".as_slice(), name, frames_kept(outcome, place), text),
        Kind::Meter if node.rate == 0 => append_unused(name, text),
        Kind::Meter => append_count(b"peak".as_slice(), name, peak_kept(outcome, place), text),
        _ => Ok(()),
    }
}

/// Appends the lines of all sinks and meters, ascending by number.
pub(crate) fn append_result_lines(
    nodes: &[PlanNode],
    outcome: &Outcome,
    text: &mut Text,
) -> Result<(), Memory>
    ensures { OnOk result (text.new ≡ text.old ++ flat_map (λ n. result_line outcome.now n.0 n.1)
        (enumerate_from 0 nodes.now)) }
{
    for (place, node) in nodes.iter().enumerate() {
        append_result_line(outcome, place, node, text)?;
    }
    Ok(())
}
