//! The line of a status, built in a fixed array.
ghost use Rattle.std.specs.Prelude.{◌≡◌, ℕ, ◌+◌, ◌*◌, ◌-◌, ◌/◌, ◌%◌, ◌^◌, ◌<◌, ◌≤◌, [], ◌∷◌, ◌++◌, length};
ghost use Rattle.std.specs.Prelude.{decimal};
ghost use Rattle.run_results.specs.StatusLine.{numbers_line, line_of, has_line};

use crate::status::{PodWhy, Status};
use graph_script::ScriptWhy;
use std::marker::Model;

/// A short text in an array of its own. Takes no memory.
#[derive(Drop)]
pub struct StatusLine {
    bytes: [u8; 64],
    len: usize,
}

impl Model for StatusLine {
    ghost use Rattle.std.specs.Prelude.{ℕ, List, take, ◌≤◌};

    ghost Value = { List ℕ };

    ghost view = { λ line. take line.len line.bytes };

    ghost invariant = { λ line. line.len ≤ 64 };
}

impl StatusLine {
    fn new() -> StatusLine
        ensures { result ≡ [] }
    {
        StatusLine {
            bytes: [0; 64],
            len: 0,
        }
    }

    fn push(&mut self, byte: u8)
        requires { length self.old < 64 }
        ensures { self.new ≡ self.old ++ byte ∷ [] }
    {
        self.bytes[self.len] = byte;
        self.len += 1;
    }

    /// The text as a slice.
    pub fn as_slice(&self) -> &[u8]
        ensures { result.now ≡ self.now }
    {
        &self.bytes[..self.len]
    }
}

// Appends a text.
fn put_text(line: &mut StatusLine, text: &[u8])
    requires { length line.old + length text.now ≤ 64 }
    ensures { line.new ≡ line.old ++ text.now }
{
    for i in 0..text.len() {
        line.push(text[i]);
    }
}

// Appends a number in plain decimal.
fn put_number(line: &mut StatusLine, n: u32)
    requires { length line.old + length (decimal n) ≤ 64 }
    ensures { line.new ≡ line.old ++ decimal n }
{
    if n < 10 {
        line.push(48 + n as u8);
    } else {
        put_number(line, n / 10);
        line.push(48 + (n % 10) as u8);
    }
}

// Appends a blank and a number.
fn put_part(line: &mut StatusLine, n: u32)
    requires { length line.old + 11 ≤ 64 }
    ensures value { line.new ≡ line.old ++ 32 ∷ decimal n }
    ensures len { length line.new ≤ length line.old + 11 }
{
    line.push(32);
    put_number(line, n);
}

// Appends each number after a blank, and the end of the line.
fn put_numbers(line: &mut StatusLine, numbers: &[u32])
    requires { length line.old + 11 * length numbers.now + 1 ≤ 64 }
    ensures { line.new ≡ line.old ++ numbers_line numbers.now }
{
    match numbers {
        [] => line.push(10),
        [first, rest @ ..] => {
            put_part(line, *first);
            put_numbers(line, rest);
        }
    }
}

// A word and its numbers.
fn line(word: &[u8], numbers: &[u32]) -> StatusLine
    requires word { length word.now ≤ 8 }
    requires numbers { length numbers.now ≤ 4 }
    ensures { result ≡ word.now ++ numbers_line numbers.now }
{
    let mut line = StatusLine::new();
    put_text(&mut line, word);
    put_numbers(&mut line, numbers);
    line
}

fn script_line(at: u32, why: ScriptWhy) -> StatusLine
    ensures { result ≡ line_of (Status.Script at why) }
{
    match why {
        ScriptWhy::TooMany(which) => line(
            b"script".as_slice(),
            [at, u32::from(why.number()), u32::from(which.number())].as_slice(),
        ),
        _ => line(
            b"script".as_slice(),
            [at, u32::from(why.number())].as_slice(),
        ),
    }
}

// The first seven faults of a POD, and a file that goes on after it.
fn pod_line(place: u32, why: PodWhy) -> StatusLine
    ensures { result ≡ line_of (Status.Pod place why) }
{
    let pod = b"pod".as_slice();
    match why {
        PodWhy::Short { offset } => line(pod, [place, 1, offset].as_slice()),
        PodWhy::TypeUnknown { offset, number } => line(pod, [place, 2, offset, number].as_slice()),
        PodWhy::Size { offset } => line(pod, [place, 3, offset].as_slice()),
        PodWhy::Uneven { offset } => line(pod, [place, 4, offset].as_slice()),
        PodWhy::Deep { offset } => line(pod, [place, 5, offset].as_slice()),
        PodWhy::Large { size } => line(pod, [place, 6, size].as_slice()),
        PodWhy::Nul { offset } => line(pod, [place, 7, offset].as_slice()),
        PodWhy::Rest { offset } => line(pod, [place, 8, offset].as_slice()),
        PodWhy::NotObject => line(pod, [place, 11].as_slice()),
        PodWhy::KeyTwice { key } => line(pod, [place, 12, key].as_slice()),
        PodWhy::FlagsChoice { key } => line(pod, [place, 13, key].as_slice()),
        PodWhy::BadRange { key } => line(pod, [place, 14, key].as_slice()),
        PodWhy::BadStep { key } => line(pod, [place, 15, key].as_slice()),
        PodWhy::EmptyChoice { key } => line(pod, [place, 16, key].as_slice()),
        PodWhy::NotFormat => line(pod, [place, 17].as_slice()),
        PodWhy::Clash { key } => line(pod, [place, 18, key].as_slice()),
        PodWhy::NotSequence => line(pod, [place, 19].as_slice()),
        PodWhy::OffsetFalls { index } => line(pod, [place, 20, index].as_slice()),
        PodWhy::NotProps { index } => line(pod, [place, 21, index].as_slice()),
        PodWhy::GainForm { index } => line(pod, [place, 22, index].as_slice()),
    }
}

/// The line of a status; of Ok, nothing.
pub fn status_line(status: Status) -> StatusLine
    ensures { result ≡ line_of status }
{
    match status {
        Status::Ok => StatusLine::new(),
        Status::Usage { word } => line(b"usage".as_slice(), [word].as_slice()),
        Status::Script { line, why } => script_line(line, why),
        Status::Wav { place, why } => line(
            b"wav".as_slice(),
            [place, u32::from(why.number())].as_slice(),
        ),
        Status::Pod { place, why } => pod_line(place, why),
        Status::Absent { place } => line(b"absent".as_slice(), [place].as_slice()),
        Status::ReadFault { place } => line(b"read".as_slice(), [place].as_slice()),
        Status::WriteFault { place } => line(b"write".as_slice(), [place].as_slice()),
        Status::Limit { place, which } => line(
            b"limit".as_slice(),
            [place, u32::from(which.number())].as_slice(),
        ),
        Status::Memory => line(b"memory".as_slice(), [].as_slice()),
    }
}

/// Whether the line of this status is put.
pub fn is_lined(status: Status) -> bool
    ensures { result ≡ has_line status }
{
    match status {
        Status::Ok => false,
        Status::WriteFault { place } => place != 0,
        _ => true,
    }
}
