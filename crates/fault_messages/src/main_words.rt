//! The commands and the options that are meant by words of the command line.
ghost use Rattle.std.specs.Prelude.{◌≡◌, option_copied};
ghost use Rattle.std.specs.List.{list_all, list_any};
ghost use Rattle.graph_script.specs.Arguments.{is_dot};
ghost use Rattle.fault_messages.specs.MainWords.{main_near, second_main, main_meant, option_near, option_meant};
ghost use Rattle.fault_messages.specs.MainWords.{wanted, has_value, is_option, has_both, is_path_byte, is_script_path};

use crate::lines::begins;
use crate::name_rules::is_name_byte;
use word_hints::is_near;

/// The most bytes of a path that a command is given with.
const PATH_LIMIT: usize = 200;

// The first command at most `k` letters away.
#[tactic(auto, unfolding(crate::specs::MainWords::main_near))]
fn main_near(k: u32, word: &[u8]) -> Option<&'static [u8]>
    ensures { option_copied result ≡ main_near k word.now }
{
    if is_near(k, word, b"run") {
        Some(b"run".as_slice())
    } else if is_near(k, word, b"dump") {
        Some(b"dump".as_slice())
    } else if is_near(k, word, b"filter") {
        Some(b"filter".as_slice())
    } else if is_near(k, word, b"automate") {
        Some(b"automate".as_slice())
    } else if is_near(k, word, b"check") {
        Some(b"check".as_slice())
    } else if is_near(k, word, b"soak") {
        Some(b"soak".as_slice())
    } else if is_near(k, word, b"groups") {
        Some(b"groups".as_slice())
    } else {
        None
    }
}

// That within two letters, for a word of at least six.
fn second_main(word: &[u8]) -> Option<&'static [u8]>
    ensures { option_copied result ≡ second_main word.now }
{
    if word.len() >= 6 {
        main_near(2, word)
    } else {
        None
    }
}

/// The command that is meant by the first word, if one is near. Takes no memory.
pub fn main_meant(word: &[u8]) -> Option<&'static [u8]>
    ensures { option_copied result ≡ main_meant word.now }
{
    match main_near(1, word) {
        Some(name) => Some(name),
        None => second_main(word),
    }
}

// The first option at most `k` letters away.
#[tactic(auto, unfolding(crate::specs::MainWords::option_near))]
fn option_near(k: u32, word: &[u8]) -> Option<&'static [u8]>
    ensures { option_copied result ≡ option_near k word.now }
{
    if is_near(k, word, b"--loops") {
        Some(b"--loops".as_slice())
    } else if is_near(k, word, b"--ticks") {
        Some(b"--ticks".as_slice())
    } else if is_near(k, word, b"--trace") {
        Some(b"--trace".as_slice())
    } else if is_near(k, word, b"--steal") {
        Some(b"--steal".as_slice())
    } else {
        None
    }
}

/// The option that is meant by a word, if one is near. Takes no memory.
pub fn option_meant(word: &[u8]) -> Option<&'static [u8]>
    ensures { option_copied result ≡ option_meant word.now }
{
    match option_near(1, word) {
        Some(name) => Some(name),
        None => option_near(2, word),
    }
}

/// How many words come after a command other than `run`.
pub fn wanted(name: &[u8]) -> u32
    ensures { result ≡ wanted name.now }
{
    if name == b"filter".as_slice() || name == b"automate".as_slice() {
        3
    } else if name == b"check".as_slice() {
        2
    } else {
        1
    }
}

fn has_value(word: &[u8]) -> bool
    ensures { result ≡ has_value word.now }
{
    word == b"--loops".as_slice() || word == b"--ticks".as_slice()
}

/// Whether the word is an option.
pub fn is_option(word: &[u8]) -> bool
    ensures { result ≡ is_option word.now }
{
    has_value(word) || word == b"--trace".as_slice() || word == b"--steal".as_slice()
}

/// Whether the word is an option with its value.
pub fn has_both(word: &[u8]) -> bool
    ensures { result ≡ has_both word.now }
{
    begins(word, b"--loops=") || begins(word, b"--ticks=")
}

fn has_dot(word: &[u8]) -> bool
    ensures { result ≡ list_any is_dot word.now }
{
    word.iter().any(|b| *b == b'.')
}

fn is_path_byte(b: u8) -> bool
    ensures { result ≡ is_path_byte b }
{
    is_name_byte(b) || matches!(b, b'A'..=b'Z' | b'-'..=b'/')
}

fn all_path_bytes(word: &[u8]) -> bool
    ensures { result ≡ list_all is_path_byte word.now }
{
    word.iter().all(|b| is_path_byte(*b))
}

/// Whether the word may be the path of a script: short, of plain letters, with a dot.
#[tactic(auto, unfolding(crate::specs::MainWords::is_script_path))]
pub fn is_script_path(word: &[u8]) -> bool
    ensures { result ≡ is_script_path word.now }
{
    has_dot(word) && all_path_bytes(word) && word.len() <= PATH_LIMIT && !begins(word, b"-")
}
