//! Quoted words and numbers at the end of a text. After `Memory` the text has a part of it.
ghost use Rattle.std.specs.Prelude.{◌≡◌, ◌++◌, decimal, OnOk};
ghost use Rattle.fault_messages.specs.Places.{quoted};
ghost use Rattle.shown_words.specs.Escaping.{escaped};

use pw_lists::{Memory, Text, append_decimal};
use shown_words::put_escaped;

/// A word in quotes.
#[tactic(auto, unfolding(crate::specs::Places::quoted))]
pub fn put_quoted(text: &mut Text, word: &[u8]) -> Result<(), Memory>
    ensures { OnOk result (text.new ≡ text.old ++ quoted word.now) }
{
    text.extend(b"\"")?;
    put_escaped(text, word)?;
    text.extend(b"\"")
}

/// Words, and others after them.
pub fn put_both(text: &mut Text, words: &[u8], others: &[u8]) -> Result<(), Memory>
    ensures { OnOk result (text.new ≡ text.old ++ (words.now ++ others.now)) }
{
    text.extend(words)?;
    text.extend(others)
}

/// Words between others.
pub fn put_between(
    text: &mut Text,
    before: &[u8],
    words: &[u8],
    behind: &[u8],
) -> Result<(), Memory>
    ensures { OnOk result (text.new ≡ text.old ++ (before.now ++ (words.now ++ behind.now))) }
{
    text.extend(before)?;
    text.extend(words)?;
    text.extend(behind)
}

/// A word in quotes, with words before it.
pub fn put_before(text: &mut Text, words: &[u8], word: &[u8]) -> Result<(), Memory>
    ensures { OnOk result (text.new ≡ text.old ++ (words.now ++ quoted word.now)) }
{
    text.extend(words)?;
    put_quoted(text, word)
}

/// A word in quotes, with words after it.
pub fn put_behind(text: &mut Text, word: &[u8], words: &[u8]) -> Result<(), Memory>
    ensures { OnOk result (text.new ≡ text.old ++ (quoted word.now ++ words.now)) }
{
    put_quoted(text, word)?;
    text.extend(words)
}

/// A number between words.
pub fn put_number(text: &mut Text, before: &[u8], n: u32, behind: &[u8]) -> Result<(), Memory>
    ensures { OnOk result (text.new ≡ text.old ++ (before.now ++ (decimal n ++ behind.now))) }
{
    text.extend(before)?;
    append_decimal(text, u64::from(n))?;
    text.extend(behind)
}

/// Two numbers, with words before each and after them.
pub fn put_two_numbers(
    text: &mut Text,
    before: &[u8],
    first: u64,
    between: &[u8],
    second: u64,
    behind: &[u8],
) -> Result<(), Memory>
    ensures { OnOk result (text.new ≡ text.old
        ++ (before.now ++ (decimal first ++ (between.now ++ (decimal second ++ behind.now))))) }
{
    text.extend(before)?;
    append_decimal(text, first)?;
    text.extend(between)?;
    append_decimal(text, second)?;
    text.extend(behind)
}

/// Two words in quotes, with words between them.
pub fn put_quoted_pair(
    text: &mut Text,
    first: &[u8],
    between: &[u8],
    second: &[u8],
) -> Result<(), Memory>
    ensures { OnOk result (text.new ≡ text.old
        ++ (quoted first.now ++ (between.now ++ quoted second.now))) }
{
    put_behind(text, first, between)?;
    put_quoted(text, second)
}

/// A word in quotes, with words after it, a second word in quotes, and the last words.
pub fn put_two_quoted(
    text: &mut Text,
    first: &[u8],
    between: &[u8],
    second: &[u8],
    behind: &[u8],
) -> Result<(), Memory>
    ensures { OnOk result (text.new ≡ text.old
        ++ (quoted first.now ++ (between.now ++ (quoted second.now ++ behind.now)))) }
{
    put_behind(text, first, between)?;
    put_behind(text, second, behind)
}

/// A word in quotes, with words after it, a word as it is shown, and the last words.
pub fn put_quoted_shown(
    text: &mut Text,
    first: &[u8],
    between: &[u8],
    second: &[u8],
    behind: &[u8],
) -> Result<(), Memory>
    ensures { OnOk result (text.new ≡ text.old
        ++ (quoted first.now ++ (between.now ++ (escaped second.now ++ behind.now)))) }
{
    put_behind(text, first, between)?;
    put_escaped(text, second)?;
    text.extend(behind)
}

/// Two words as they are shown, with words before, between and after them.
pub fn put_shown_pair(
    text: &mut Text,
    before: &[u8],
    first: &[u8],
    between: &[u8],
    second: &[u8],
    behind: &[u8],
) -> Result<(), Memory>
    ensures { OnOk result (text.new ≡ text.old
        ++ (before.now ++ (escaped first.now ++ (between.now ++ (escaped second.now
        ++ behind.now))))) }
{
    text.extend(before)?;
    put_escaped(text, first)?;
    text.extend(between)?;
    put_escaped(text, second)?;
    text.extend(behind)
}

/// Words, a word as it is shown, and a number between words.
pub fn put_shown_number(
    text: &mut Text,
    before: &[u8],
    word: &[u8],
    between: &[u8],
    n: u64,
    behind: &[u8],
) -> Result<(), Memory>
    ensures { OnOk result (text.new ≡ text.old
        ++ (before.now ++ (escaped word.now ++ (between.now ++ (decimal n ++ behind.now))))) }
{
    text.extend(before)?;
    put_escaped(text, word)?;
    text.extend(between)?;
    append_decimal(text, n)?;
    text.extend(behind)
}
