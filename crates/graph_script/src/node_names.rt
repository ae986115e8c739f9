//! Names of nodes, and file words.
ghost use Rattle.std.specs.Prelude.{◌≡◌, ◌≤◌, length, position, bytes_eq};
ghost use Rattle.pw_lists.specs.Limits.{nodes_limit};
ghost use Rattle.std.specs.List.{list_all};
ghost use Rattle.graph_script.specs.Arguments.{is_letter, is_name_byte, is_node_name};
ghost use Rattle.graph_script.specs.Checked.{checked_map, file_arg};

use crate::fault::ScriptWhy;
use crate::limits::{FILE_BYTES_LIMIT, NAME_REST_LIMIT};
use crate::numbers::is_digit;
use pw_lists::{Text, place_of_name};

fn is_letter(b: u8) -> bool
    ensures { result ≡ is_letter b }
{
    matches!(b, b'a'..=b'z')
}

fn is_name_byte(b: u8) -> bool
    ensures { result ≡ is_name_byte b }
{
    is_letter(b) || is_digit(b) || b == b'_'
}

fn all_name_bytes(word: &[u8]) -> bool
    ensures { result ≡ list_all is_name_byte word.now }
{
    word.iter().all(|b| is_name_byte(*b))
}

/// Whether the word has the form of a node's name.
pub(crate) fn is_node_name(word: &[u8]) -> bool
    ensures { result ≡ is_node_name word.now }
{
    match word {
        [] => false,
        [first, rest @ ..] => is_letter(*first)
            && rest.len() <= NAME_REST_LIMIT
            && all_name_bytes(rest),
    }
}

/// The word, which may name a file.
pub(crate) fn file_word(word: &[u8]) -> Result<&[u8], ScriptWhy>
    ensures { checked_map (λ w. w.now) result ≡ file_arg word.now }
{
    if word.len() <= FILE_BYTES_LIMIT {
        Ok(word)
    } else {
        Err(ScriptWhy::NameForm)
    }
}

/// The place of a name among others.
pub(crate) fn place_of(names: &[Text], name: &[u8]) -> Option<u32>
    requires { length names.now ≤ nodes_limit }
    ensures { result ≡ position (bytes_eq name.now) names.now }
{
    match place_of_name(names, name) {
        None => None,
        Some(place) => Some(place as u32),
    }
}
