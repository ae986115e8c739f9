//! Words, each cut off the beginning of a line.
ghost use Rattle.std.specs.Prelude.{◌≡◌, ◌≤◌, [], ◌∷◌, length, MatchOption};
ghost use Rattle.std.specs.List.{list_all, position_or_len, prefix_len};
ghost use Rattle.graph_script.specs.Lexical.{is_allowed, is_blank, words_of, say_nothing};

fn is_allowed(b: u8) -> bool
    ensures { result ≡ is_allowed b }
{
    matches!(b, b'\t' | b'\n' | b'\r' | b' '..=b'~')
}

fn is_blank(b: u8) -> bool
    ensures { result ≡ is_blank b }
{
    matches!(b, b'\t' | b'\r' | b' ')
}

/// Whether each byte may be in a script.
pub(crate) fn is_plain(line: &[u8]) -> bool
    ensures { result ≡ list_all is_allowed line.now }
{
    line.iter().all(|b| is_allowed(*b))
}

// How many bytes are before the first blank.
fn word_len(text: &[u8]) -> usize
    ensures value { result ≡ position_or_len is_blank text.now }
    ensures within { result ≤ length text.now }
{
    text.iter().take_while(|b| !is_blank(**b)).count()
}

// How many blanks a line begins with.
fn gap_len(text: &[u8]) -> usize
    ensures value { result ≡ prefix_len is_blank text.now }
    ensures within { result ≤ length text.now }
{
    text.iter().take_while(|b| is_blank(**b)).count()
}

/// The first word of a line, if it has one, and what follows that. Takes no memory; cost: one look
/// at each byte up to the word's end.
pub fn next_word(line: &[u8]) -> Option<(&[u8], &[u8])>
    ensures { MatchOption result
        (words_of line.now ≡ [])
        (λ cut. words_of line.now ≡ cut.0.now ∷ words_of cut.1.now) }
{
    let (_gap, rest) = line.split_at(gap_len(line));
    let (word, after) = rest.split_at(word_len(rest));
    if word.is_empty() {
        None
    } else {
        Some((word, after))
    }
}

/// Whether the line has no word, or its first word begins with a number sign.
pub(crate) fn says_nothing(line: &[u8]) -> bool
    ensures { result ≡ say_nothing (words_of line.now) }
{
    match next_word(line) {
        None => true,
        Some((word, _rest)) => matches!(word, [b'#', ..]),
    }
}
