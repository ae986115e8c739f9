//! The lines of a dump.
ghost use Rattle.std.specs.Prelude.{◌≡◌, ◌≤◌, None, Some, length, MatchResult};
ghost use Rattle.dump_reading.specs.working.Keyed.{numbers_said, keyed_said};
ghost use Rattle.dump_reading.specs.working.Lines.{line_said};

use crate::cutting::{behind_spaces, cut};
use crate::fault::{DumpWhy, Stop};
use crate::numbers::pair_said;

/// The levels of lines, at most: two for each of 16 values, and one for what the last holds.
pub(crate) const MOST_LEVELS: usize = 33;

/// What is wrong with the first line of a text, or with its end where no line is left.
pub(crate) fn stop_at(text: &[u8], why: DumpWhy) -> Stop
    ensures { result ≡ Stop.Line (length text.now) why }
{
    Stop::Line {
        left: text.len(),
        why,
    }
}

// What is wrong with a text that has no line feed.
fn unended(text: &[u8]) -> DumpWhy {
    if text.is_empty() {
        DumpWhy::Missing
    } else {
        DumpWhy::Unended
    }
}

/// The words of the first line, at a level, and the lines after it. Takes no memory.
#[tactic(auto, unfolding(crate::specs::working::Lines::line_said))]
pub(crate) fn line_said(text: &[u8], level: usize) -> Result<(&[u8], &[u8]), DumpWhy>
    requires { level ≤ MOST_LEVELS }
    ensures { MatchResult result (λ c. line_said level text.now ≡ Some (c.0.now, c.1.now))
        (λ why. line_said level text.now ≡ None) }
{
    match cut(text, b'\n') {
        None => Err(unended(text)),
        Some((line, rest)) => match behind_spaces(line, 2 * level) {
            None => Err(DumpWhy::Indent),
            Some(words) => Ok((words, rest)),
        },
    }
}

/// Of words that are wrong: that they are indented too far, or that they are not known.
pub(crate) fn wrong_words(words: &[u8]) -> DumpWhy {
    match words {
        [b' ', ..] => DumpWhy::Indent,
        _ => DumpWhy::Words,
    }
}

// The two numbers after a word.
#[tactic(auto, unfolding(crate::specs::working::Keyed::numbers_said))]
fn numbers_said(word: &[u8], words: &[u8]) -> Option<(u32, u32)>
    ensures { result ≡ numbers_said word.now words.now }
{
    match cut(words, b' ') {
        None => None,
        Some((name, args)) => {
            if name == word {
                pair_said(args, b' ')
            } else {
                None
            }
        }
    }
}

/// The two numbers of a line that begins with a word, and the lines after it.
#[tactic(auto, unfolding(crate::specs::working::Keyed::keyed_said))]
pub(crate) fn keyed_said<'a>(
    word: &[u8],
    text: &'a [u8],
    level: usize,
) -> Result<((u32, u32), &'a [u8]), DumpWhy>
    requires { level ≤ MOST_LEVELS }
    ensures { MatchResult result
        (λ c. keyed_said word.now level text.now ≡ Some (c.0, c.1.now))
        (λ why. keyed_said word.now level text.now ≡ None) }
{
    match line_said(text, level) {
        Err(why) => Err(why),
        Ok((words, rest)) => match numbers_said(word, words) {
            None => Err(wrong_words(words)),
            Some(numbers) => Ok((numbers, rest)),
        },
    }
}
