//! A list of gains at frames.
ghost use Rattle.std.specs.Prelude.{◌≡◌, ◌+◌, ◌≤◌, ◌⊎◌, All, Ok, Err, IfOk, IfErr};
ghost use Rattle.control_sequence.specs.Automation.{ArePoints};
ghost use Rattle.graph_script.specs.Lexical.{words_of};
ghost use Rattle.pod_text.specs.GainList.{gains_of, last_frame, meaning_of, added};
ghost use Rattle.pod_text.specs.GainAnswer.{IsReadAs, ArePointsTo};
ghost use Rattle.pod_text.specs.declared.fault.ListFault.TheVariants.{Memory};

use crate::fault::ListFault;
use crate::gain_lines::meaning_of;
use control_sequence::{Point, Points};
use pw_lists::{Items, next_piece};
use std::alloc::Global;

// Appends the point that a line says, if it says one; the answer is the frame of the last point.
#[tactic(auto, using(crate::proofs::GainLemmas::point_more))]
fn add_line(
    items: &mut Items<Point>,
    before: u32,
    number: u64,
    line: &[u8],
) -> Result<u32, ListFault>
    requires { ArePointsTo before items.old }
    ensures ok { IfOk result (λ frame. ArePointsTo frame items.new
        × (added items.old number (meaning_of before (words_of line.now)) ≡ Ok items.new)) }
    ensures err { IfErr result (λ fault. (fault ≡ Memory)
        ⊎ (added items.old number (meaning_of before (words_of line.now)) ≡ Err fault)) }
{
    match meaning_of(before, line) {
        Err(why) => Err(ListFault::Line { number, why }),
        Ok(None) => Ok(before),
        Ok(Some(point)) => {
            items.push(point)?;
            Ok(point.offset)
        }
    }
}

/// The points of a list: one a line, as `FRAME GAIN`, or its first line at fault.
///
/// Words are parted by blanks; a line without a word, or whose first begins with `#`, says nothing.
/// A frame is a number from 0 to 4294967295, not below that of the point before it. A gain is a
/// number in 1/256 from -32767 to 32767, or a whole number of decibels from -60 to 42 with `dB`
/// after it, rounded to the nearest 1/256. Of a line the number of its words is looked at first,
/// then its frame, then its gain. Takes memory for the points; one look at each byte for the line's
/// end, and some more at those of its words.
pub fn read_gains(alloc: Global, bytes: &[u8]) -> Result<Points, ListFault>
    ensures read { IsReadAs (gains_of bytes.now) result }
    ensures sound { IfOk result (λ points. ArePoints points.items) }
{
    let mut items = Items::new(alloc);
    let mut rest = bytes;
    let mut number: u64 = 1;
    let mut before = 0;
    'lines: loop {
        let (line, after) = next_piece(rest, b'\n');
        match add_line(&mut items, before, number, line) {
            Err(fault) => return Err(fault),
            Ok(frame) => before = frame,
        }
        match after {
            None => return Ok(Points { items }),
            Some(more) => rest = more,
        }
        number += 1;
    }
}
