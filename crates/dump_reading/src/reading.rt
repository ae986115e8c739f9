//! A whole text read back.
ghost use Rattle.std.specs.Prelude.{◌≡◌, IfOk};
ghost use Rattle.pw_lists.specs.Limits.{depth_limit};
ghost use Rattle.pod_codec.specs.declared.pod.Pod.{Pod};
ghost use Rattle.pod_codec.specs.DumpText.{dump_text_of};
ghost use Rattle.dump_reading.specs.Answers.{IsAnswer, IsReadBack, IsToldAs};
ghost use Rattle.dump_reading.specs.WellFormed.{IsWellFormed};
ghost use Rattle.dump_reading.specs.Values.{pod_said};

use crate::fault::{DumpFault, DumpWhy, Stop};
use crate::lines::stop_at;
use crate::values::value_said;
use pod_codec::{Pod, dump_text};
use std::alloc::Global;

/// The levels that values may be deep.
const DEPTH: u32 = 16;

// The value of a whole text.
#[tactic(auto, unfolding(crate::specs::Values::pod_said))]
fn pod_said(alloc: Global, text: &[u8]) -> Result<Pod, Stop>
    ensures { IsAnswer (pod_said text.now) (λ pod. pod) result }
{
    match value_said(alloc, text, 0, DEPTH) {
        Err(stop) => Err(stop),
        Ok((pod, rest)) => {
            if rest.is_empty() {
                Ok(pod)
            } else {
                Err(stop_at(rest, DumpWhy::More))
            }
        }
    }
}

// The line, counted from 1, in which the first `bytes` bytes of a text end.
fn line_number(text: &[u8], bytes: usize) -> u64 {
    let front = &text[..bytes.min(text.len())];
    (front.iter().filter(|b| **b == b'\n').count() as u64).saturating_add(1)
}

// The fault of a text whose reading stopped.
fn fault_of(text: &[u8], stop: Stop) -> DumpFault
    ensures { IsToldAs stop result }
{
    match stop {
        Stop::Memory => DumpFault::Memory,
        Stop::Line { left, why } => DumpFault::Line {
            number: line_number(text, text.len().saturating_sub(left)),
            why,
        },
    }
}

// How long the common prefix of two texts is, in bytes.
fn common_len(a: &[u8], b: &[u8]) -> usize {
    a.iter().zip(b).take_while(|(x, y)| x == y).count()
}

// The fault of a text that reads as a value, but is not spelled as it is dumped: the first line
// that is not the same.
fn misspelled(text: &[u8], dumped: &[u8]) -> DumpFault {
    DumpFault::Line {
        number: line_number(text, common_len(text, dumped)),
        why: DumpWhy::Words,
    }
}

/// The value whose dump a text is, or why it is no dump.
///
/// A text is that of `dump_text`, byte for byte: one value a line, two spaces of indent a level,
/// each line ended by a line feed. Its lines are read in order, and the first that cannot be read
/// is reported, with what is wrong with it. Takes memory for the value and for its text, and time
/// linear in the text.
pub fn read_dump(alloc: Global, text: &[u8]) -> Result<Pod, DumpFault>
    ensures found { IfOk result (λ pod. dump_text_of pod ≡ text.now) }

    // What was dumped is read back.
    ensures back { (pod : Pod) → IsWellFormed depth_limit pod → text.now ≡ dump_text_of pod
        → IsReadBack pod result }
{
    match pod_said(alloc, text) {
        Err(stop) => Err(fault_of(text, stop)),
        Ok(pod) => match dump_text(alloc, &pod) {
            Err(_memory) => Err(DumpFault::Memory),
            Ok(dumped) => {
                if dumped.as_slice() == text {
                    Ok(pod)
                } else {
                    Err(misspelled(text, dumped.as_slice()))
                }
            }
        },
    }
}
