//! Words and numbers at the end of a text.
ghost use Rattle.std.specs.Prelude.{◌≡◌, [], ◌∷◌, ◌++◌, decimal, OnOk};

use pw_lists::{Memory, Text, append_decimal};

/// Appends a space and a word.
pub(crate) fn append_word(text: &mut Text, word: &[u8]) -> Result<(), Memory>
    ensures { OnOk result (text.new ≡ text.old ++ 32 ∷ word.now) }
{
    text.extend(b" ".as_slice())?;
    text.extend(word)
}

/// Appends a space and a number.
pub(crate) fn append_number(text: &mut Text, n: u64) -> Result<(), Memory>
    ensures { OnOk result (text.new ≡ text.old ++ 32 ∷ decimal n) }
{
    text.extend(b" ".as_slice())?;
    append_decimal(text, n)
}

/// Ends a line.
pub(crate) fn end_line(text: &mut Text) -> Result<(), Memory>
    ensures { OnOk result (text.new ≡ text.old ++ 10 ∷ []) }
{
    text.push(b'\n')
}
