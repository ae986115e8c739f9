//! The names that are near a word.
ghost use Rattle.std.specs.Prelude.{◌≡◌, ◌++◌, [], ◌∷◌, bytes_eq, map, MatchOption, OnOk};
ghost use Rattle.std.specs.List.{list_any};
ghost use Rattle.word_hints.specs.Guesses.{near, reach, guesses, named, or_said, question};

use crate::nearness::is_near;
use pw_lists::{Memory, Text};

/// The fewest letters of a word to which a name may be two letters away.
const LONG: usize = 6;

// The first name that is at most `k` letters away, and the names after it.
fn next_near<'a>(k: u32, word: &[u8], names: &'a [&'a [u8]]) -> Option<(&'a [u8], &'a [&'a [u8]])>
    ensures { MatchOption result (near k word.now (map (λ n. n.now) names.now) ≡ [])
        (λ cut. near k word.now (map (λ n. n.now) names.now)
        ≡ cut.0.now ∷ near k word.now (map (λ n. n.now) cut.1.now)) }
{
    let mut rest = names;
    loop {
        match rest {
            [] => return None,
            [name, more @ ..] => {
                if is_near(k, word, name) {
                    return Some((name, more));
                }
                rest = more;
            }
        }
    }
}

// Whether a word is one of these names.
fn is_name(word: &[u8], names: &[&[u8]]) -> bool
    ensures { result ≡ list_any (bytes_eq word.now) (map (λ n. n.now) names.now) }
{
    let mut rest = names;
    loop {
        match rest {
            [] => return false,
            [name, more @ ..] => {
                if word == *name {
                    return true;
                }
                rest = more;
            }
        }
    }
}

// How many letters a name may be away.
fn reach(word: &[u8], names: &[&[u8]]) -> u32
    ensures { result ≡ reach word.now (map (λ n. n.now) names.now) }
{
    if word.len() < LONG || next_near(1, word, names).is_some() {
        1
    } else {
        2
    }
}

// A name with bytes in front of it, and words before that.
#[tactic(auto, unfolding(crate::specs::Guesses::named))]
fn put_named(text: &mut Text, words: &[u8], front: &[u8], name: &[u8]) -> Result<(), Memory>
    ensures { OnOk result (text.new ≡ text.old ++ named words.now front.now name.now) }
{
    text.extend(words)?;
    text.extend(front)?;
    text.extend(name)
}

// One more name, if there is one.
fn put_or(text: &mut Text, front: &[u8], k: u32, word: &[u8], names: &[&[u8]]) -> Result<(), Memory>
    ensures { OnOk result (text.new ≡ text.old
        ++ or_said front.now (near k word.now (map (λ n. n.now) names.now))) }
{
    match next_near(k, word, names) {
        None => Ok(()),
        Some((name, _more)) => put_named(text, b" or ", front, name),
    }
}

// The question for a name, and for one more that is at most `k` letters away.
fn put_two(
    text: &mut Text,
    front: &[u8],
    name: &[u8],
    k: u32,
    word: &[u8],
    more: &[&[u8]],
) -> Result<(), Memory>
    ensures { OnOk result (text.new ≡ text.old
        ++ question front.now (name.now ∷ near k word.now (map (λ n. n.now) more.now))) }
{
    put_named(text, b"; did you mean: ", front, name)?;
    put_or(text, front, k, word, more)?;
    text.extend(b"?")?;
    Ok(())
}

// The question for names that are at most `k` letters away.
fn put_near(
    text: &mut Text,
    front: &[u8],
    k: u32,
    word: &[u8],
    names: &[&[u8]],
) -> Result<(), Memory>
    ensures { OnOk result (text.new ≡ text.old
        ++ question front.now (near k word.now (map (λ n. n.now) names.now))) }
{
    match next_near(k, word, names) {
        None => Ok(()),
        Some((name, more)) => put_two(text, front, name, k, word, more),
    }
}

/// Asks behind a sentence for the names that are near a word: those within one letter, where two
/// neighbours that changed places count as one; or, where there are none, those within two letters
/// of a word of at least six. At most the first two are put, each with `front` before it; nothing
/// where the word is a name, or no name is near. Takes memory for the text.
pub fn put_question(
    text: &mut Text,
    front: &[u8],
    word: &[u8],
    names: &[&[u8]],
) -> Result<(), Memory>
    ensures { OnOk result (text.new ≡ text.old
        ++ question front.now (guesses word.now (map (λ n. n.now) names.now))) }
{
    if is_name(word, names) {
        Ok(())
    } else {
        put_near(text, front, reach(word, names), word, names)
    }
}
