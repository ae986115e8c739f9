//! The forms of names and ends, and what they have to be.
ghost use Rattle.std.specs.Prelude.{◌≡◌, ◌≤◌, length};
ghost use Rattle.std.specs.List.{list_all};
ghost use Rattle.graph_script.specs.Lexical.{words_of};
ghost use Rattle.graph_script.specs.Arguments.{is_letter, is_digit, is_name_byte, is_node_name};
ghost use Rattle.fault_messages.specs.NameRules.{is_pair, dot_place, end_name, end_port, has_dot, is_end};
ghost use Rattle.fault_messages.specs.NameRules.{has_one_dot, end_rule};

use crate::lines::word_of;

/// How many bytes may follow the first of a name.
const NAME_REST_LIMIT: usize = 30;

fn is_letter(b: u8) -> bool
    ensures { result ≡ is_letter b }
{
    matches!(b, b'a'..=b'z')
}

fn is_digit(b: u8) -> bool
    ensures { result ≡ is_digit b }
{
    matches!(b, b'0'..=b'9')
}

/// Whether the byte may be in a name.
pub fn is_name_byte(b: u8) -> bool
    ensures { result ≡ is_name_byte b }
{
    is_letter(b) || is_digit(b) || b == b'_'
}

fn all_name_bytes(word: &[u8]) -> bool
    ensures { result ≡ list_all is_name_byte word.now }
{
    word.iter().all(|b| is_name_byte(*b))
}

/// Whether the word has the form of a node's name.
pub fn is_node_name(word: &[u8]) -> bool
    ensures { result ≡ is_node_name word.now }
{
    match word {
        [] => false,
        [first, rest @ ..] => {
            is_letter(*first) && rest.len() <= NAME_REST_LIMIT && all_name_bytes(rest)
        }
    }
}

/// Whether the line has two ends.
pub fn is_pair(line: &[u8]) -> bool
    ensures { result ≡ is_pair (words_of line.now) }
{
    let name = word_of(line, 0);
    name == b"link".as_slice() || name == b"unlink".as_slice()
}

// How many bytes are before the first dot.
fn dot_place(word: &[u8]) -> usize
    ensures value { result ≡ dot_place word.now }
    ensures within { result ≤ length word.now }
{
    word.iter().take_while(|b| **b != b'.').count()
}

/// What is before the first dot of an end.
pub fn end_name(word: &[u8]) -> &[u8]
    ensures { result.now ≡ end_name word.now }
{
    let (name, _rest) = word.split_at(dot_place(word));
    name
}

/// What is after the first dot of an end; nothing where it has none.
pub fn end_port(word: &[u8]) -> &[u8]
    ensures { result.now ≡ end_port word.now }
{
    let (_name, rest) = word.split_at(dot_place(word));
    match rest {
        [] => b"".as_slice(),
        [_, port @ ..] => port,
    }
}

fn has_dot(word: &[u8]) -> bool
    ensures { result ≡ has_dot word.now }
{
    dot_place(word) < word.len()
}

/// Whether the word is a name, one dot and a port.
pub fn is_end(word: &[u8]) -> bool
    ensures { result ≡ is_end word.now }
{
    has_dot(word) && !has_dot(end_port(word)) && is_node_name(end_name(word))
}

fn has_one_dot(word: &[u8]) -> bool
    ensures { result ≡ has_one_dot word.now }
{
    has_dot(word) && !has_dot(end_port(word))
}

/// What an end has to be: of one with one dot the name is at fault.
pub fn end_rule(word: &[u8]) -> &'static [u8]
    ensures { result.now ≡ end_rule word.now }
{
    if has_one_dot(word) {
        b"the name is a lower-case letter and up to 30 of a to z, 0 to 9 and _"
    } else {
        b"an end is NODE.PORT"
    }
}
