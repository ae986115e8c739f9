//! Pieces of a line.
ghost use Rattle.std.specs.Prelude.{◌≡◌, ◌==◌, ◌≤◌, length, None, Some, MatchOption, option_copied};
ghost use Rattle.std.specs.List.{list_all};
ghost use Rattle.dump_reading.specs.working.Cutting.{front_len, cut_at, behind_spaces};

// How many bytes are before the first mark.
fn front_len(text: &[u8], mark: u8) -> usize
    ensures value { result ≡ front_len mark text.now }
    ensures within { result ≤ length text.now }
{
    text.iter().take_while(|b| **b != mark).count()
}

/// What is before the first mark of a text, and after it; nothing where it has none. Takes no
/// memory.
#[tactic(auto, unfolding(crate::specs::working::Cutting::cut_at))]
pub(crate) fn cut(text: &[u8], mark: u8) -> Option<(&[u8], &[u8])>
    ensures { MatchOption result (cut_at mark text.now ≡ None)
        (λ c. cut_at mark text.now ≡ Some (c.0.now, c.1.now)) }
{
    let (front, rest) = text.split_at(front_len(text, mark));
    match rest {
        [] => None,
        [_mark, after @ ..] => Some((front, after)),
    }
}

fn all_spaces(bytes: &[u8]) -> bool
    ensures { result ≡ list_all (λ b. b == 32) bytes.now }
{
    bytes.iter().all(|b| *b == b' ')
}

/// What is after the first `spaces` spaces of a line; nothing where it has fewer. Takes no
/// memory.
#[tactic(auto, unfolding(crate::specs::working::Cutting::behind_spaces))]
pub(crate) fn behind_spaces(line: &[u8], spaces: usize) -> Option<&[u8]>
    ensures { option_copied result ≡ behind_spaces spaces line.now }
{
    if spaces > line.len() {
        return None;
    }
    let (indent, words) = line.split_at(spaces);
    if all_spaces(indent) {
        Some(words)
    } else {
        None
    }
}
