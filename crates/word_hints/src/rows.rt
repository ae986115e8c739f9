//! Words beside what is asked of them, and names beside their hints.

use crate::{put_question, shell_hint};
use pw_lists::{Items, Memory};
use std::alloc::Global;
use std::test::Fail;

// Whether this is asked of a word, after what a text has already.
fn is_asked(alloc: Global, word: &[u8], asked: &[u8]) -> Result<bool, Memory> {
    let names = [
        b"id".as_slice(),
        b"int".as_slice(),
        b"long".as_slice(),
        b"string".as_slice(),
        b"struct".as_slice(),
    ];
    let mut text = Items::from_slice(alloc, b"no".as_slice())?;
    put_question(&mut text, b"a ", word, &names)?;
    let mut wanted = Items::from_slice(alloc, b"no".as_slice())?;
    wanted.extend(asked)?;
    Ok(text.as_slice() == wanted.as_slice())
}

/// Words, and what is asked of them.
const WORDS: [(&[u8], &[u8]); 10] = [
    (b"", b""),
    (b"id", b""),
    (b"lngo2", b""),
    (b"lnog", b"; did you mean: a long?"),
    (b"ind", b"; did you mean: a id or a int?"),
    (b"strin", b"; did you mean: a string?"),
    (b"strict", b"; did you mean: a struct?"),
    (b"strong", b"; did you mean: a string?"),
    (b"strang", b"; did you mean: a string?"),
    (b"longer", b"; did you mean: a long?"),
];

#[test]
fn a_word_asks_for_the_names_that_are_near(rt: HostRuntime) -> Result<(), Fail> {
    for (word, asked) in WORDS {
        assert!(rt; is_asked(rt.alloc(), word, asked)?);
    }
    Ok(())
}

#[test]
fn a_sign_of_the_shell_is_a_part_of_a_name(rt: HostRuntime) {
    let quotes = b"; quotes are a part of the name".as_slice();
    let home = b"; ~ is a part of the name, no folder".as_slice();
    let value = b"; $ is a part of the name, no value stands for it".as_slice();
    let rows = [
        (b"a.wav".as_slice(), b"".as_slice()),
        (b"'a.wav'", quotes),
        (b"\"a$", quotes),
        (b"~/it's", quotes),
        (b"~/$a", home),
        (b"a~", b""),
        (b"$HOME/a", value),
    ];
    for (name, hint) in rows {
        assert!(rt; shell_hint(name) == hint);
    }
}
