//! The arguments of a command: how many words there are.
ghost use Rattle.std.specs.Prelude.{◌≡◌};
ghost use Rattle.graph_script.specs.Lexical.{words_of};
ghost use Rattle.graph_script.specs.Checked.{checked_map, no_args, one_arg, two_args, three_args, four_args, five_args};

use crate::fault::ScriptWhy;
use crate::lexing::next_word;

/// No word.
pub(crate) fn no_words(text: &[u8]) -> Result<(), ScriptWhy>
    ensures { result ≡ no_args (words_of text.now) }
{
    match next_word(text) {
        None => Ok(()),
        Some(_more) => Err(ScriptWhy::Arguments),
    }
}

/// The one word of a text.
pub(crate) fn one_word(text: &[u8]) -> Result<&[u8], ScriptWhy>
    ensures { checked_map (λ w. w.now) result ≡ one_arg (words_of text.now) }
{
    match next_word(text) {
        None => Err(ScriptWhy::Arguments),
        Some((word, rest)) => match next_word(rest) {
            None => Ok(word),
            Some(_more) => Err(ScriptWhy::Arguments),
        },
    }
}

/// The two words of a text.
pub(crate) fn two_words(text: &[u8]) -> Result<(&[u8], &[u8]), ScriptWhy>
    ensures { checked_map (λ w. (w.0.now, w.1.now)) result ≡ two_args (words_of text.now) }
{
    match next_word(text) {
        None => Err(ScriptWhy::Arguments),
        Some((first, rest)) => match one_word(rest) {
            Err(why) => Err(why),
            Ok(second) => Ok((first, second)),
        },
    }
}

/// The three words of a text.
pub(crate) fn three_words(text: &[u8]) -> Result<(&[u8], &[u8], &[u8]), ScriptWhy>
    ensures { checked_map (λ w. (w.0.now, w.1.now, w.2.now)) result
        ≡ three_args (words_of text.now) }
{
    match next_word(text) {
        None => Err(ScriptWhy::Arguments),
        Some((first, rest)) => match two_words(rest) {
            Err(why) => Err(why),
            Ok((second, third)) => Ok((first, second, third)),
        },
    }
}

// The four words of a text.
fn four_words(text: &[u8]) -> Result<(&[u8], &[u8], &[u8], &[u8]), ScriptWhy>
    ensures { checked_map (λ w. (w.0.now, w.1.now, w.2.now, w.3.now)) result
        ≡ four_args (words_of text.now) }
{
    match next_word(text) {
        None => Err(ScriptWhy::Arguments),
        Some((first, rest)) => match three_words(rest) {
            Err(why) => Err(why),
            Ok((second, third, fourth)) => Ok((first, second, third, fourth)),
        },
    }
}

/// The five words of a text.
pub(crate) fn five_words(text: &[u8]) -> Result<(&[u8], &[u8], &[u8], &[u8], &[u8]), ScriptWhy>
    ensures { checked_map (λ w. (w.0.now, w.1.now, w.2.now, w.3.now, w.4.now)) result
        ≡ five_args (words_of text.now) }
{
    match next_word(text) {
        None => Err(ScriptWhy::Arguments),
        Some((first, rest)) => match four_words(rest) {
            Err(why) => Err(why),
            Ok((second, third, fourth, fifth)) => Ok((first, second, third, fourth, fifth)),
        },
    }
}
