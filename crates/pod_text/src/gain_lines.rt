//! The lines of a list of gains.
ghost use Rattle.std.specs.Prelude.{◌≡◌, ◌∷◌, IfOk, IfSome};
ghost use Rattle.pw_lists.specs.Samples.{IsGain};
ghost use Rattle.graph_script.specs.Lexical.{words_of};
ghost use Rattle.graph_script.specs.Arguments.{number_of};
ghost use Rattle.pod_text.specs.GainAnswer.{IsBehind};
ghost use Rattle.pod_text.specs.GainList.{gain_said, point_at, point_of_words, meaning_of};

use crate::decibels::decibels_in;
use crate::fault::ListWhy;
use crate::numbers::integer_within;
use control_sequence::Point;
use graph_script::{next_word, number_within};
use pw_lists::GAIN_LIMIT;

// A gain in 1/256, or in decibels.
fn gain_said(word: &[u8]) -> Option<i32>
    ensures said { result ≡ gain_said word.now }
    ensures within { IfSome result IsGain }
{
    match integer_within(word, GAIN_LIMIT) {
        Some(g) => Some(g),
        None => decibels_in(word),
    }
}

// The point of a frame and a gain.
fn point_at(before: u32, frame: &[u8], gain: &[u8]) -> Result<Option<Point>, ListWhy>
    ensures said { result ≡ point_at before (number_of 0 4294967295 frame.now) gain.now }
    ensures behind { IfOk result (λ point. IfSome point (IsBehind before)) }
{
    let Some(offset) = number_within(frame, 0, u32::MAX) else {
        return Err(ListWhy::Frame);
    };
    if offset < before {
        return Err(ListWhy::FrameFalls);
    }
    match gain_said(gain) {
        Some(g) => Ok(Some(Point { offset, g })),
        None => Err(ListWhy::Gain),
    }
}

// The point that two words say, after the first of which this is.
fn point_behind(before: u32, frame: &[u8], rest: &[u8]) -> Result<Option<Point>, ListWhy>
    ensures said { result ≡ point_of_words before (frame.now ∷ words_of rest.now) }
    ensures behind { IfOk result (λ point. IfSome point (IsBehind before)) }
{
    match next_word(rest) {
        None => Err(ListWhy::Words),
        Some((gain, more)) => match next_word(more) {
            None => point_at(before, frame, gain),
            Some(_third) => Err(ListWhy::Words),
        },
    }
}

/// What a line says, where the point before it is at this frame: a point, or nothing where it has
/// no word or its first begins with `#`. Takes no memory.
pub(crate) fn meaning_of(before: u32, line: &[u8]) -> Result<Option<Point>, ListWhy>
    ensures said { result ≡ meaning_of before (words_of line.now) }
    ensures behind { IfOk result (λ point. IfSome point (IsBehind before)) }
{
    match next_word(line) {
        None => Ok(None),
        Some((first, rest)) => match first {
            [b'#', ..] => Ok(None),
            _ => point_behind(before, first, rest),
        },
    }
}
