//! The command that is meant by a word that is no command.
ghost use Rattle.std.specs.Prelude.{◌≡◌};
ghost use Rattle.fault_messages.specs.Nearest.{near_among, nearest, second_choice, other_word, meant};

use graph_script::{Name, names};
use word_hints::is_near;

// The first command that is at most `k` letters away.
fn nearest(k: u32, word: &[u8]) -> Option<Name>
    ensures { result ≡ nearest k word.now }
{
    let mut rest = names();
    loop {
        match rest {
            [] => return None,
            [name, more @ ..] => {
                if is_near(k, word, graph_script::word_of(*name)) {
                    return Some(*name);
                }
                rest = more;
            }
        }
    }
}

// That within two letters, for a word of at least six.
fn second_choice(word: &[u8]) -> Option<Name>
    ensures { result ≡ second_choice word.now }
{
    if word.len() >= 6 {
        nearest(2, word)
    } else {
        None
    }
}

// That which other programs have this word for.
#[tactic(auto, unfolding(crate::specs::Nearest::other_word))]
fn other_word(word: &[u8]) -> Option<Name>
    ensures { result ≡ other_word word.now }
{
    if word == b"connect".as_slice() {
        Some(Name::Link)
    } else if word == b"disconnect".as_slice() {
        Some(Name::Unlink)
    } else if word == b"input".as_slice() {
        Some(Name::Source)
    } else if word == b"output".as_slice() {
        Some(Name::Sink)
    } else if word == b"volume".as_slice() {
        Some(Name::Gain)
    } else if word == b"mixer".as_slice() {
        Some(Name::Mix2)
    } else {
        None
    }
}

/// The command that is meant by a word, if other programs call it so or one is near. Takes no
/// memory.
pub fn meant(word: &[u8]) -> Option<Name>
    ensures { result ≡ meant word.now }
{
    match other_word(word) {
        Some(name) => Some(name),
        None => match nearest(1, word) {
            Some(name) => Some(name),
            None => second_choice(word),
        },
    }
}
