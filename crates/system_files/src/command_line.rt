//! The words of the command line.

use crate::unread::Unread;
use pw_lists::Items;
use std::alloc::Global;
use std::env::FillError;
use std::io::ErrorKind;
use std::rt::Env;
use std::{env, str};

/// The words after the program's own name, or why they could not be read.
pub fn read_words<R: Env + Alloc<A = Global>>(rt: &R) -> Result<Items<String>, Unread> {
    let mut words = Items::new(rt.alloc());
    match env::args(rt) {
        Ok(all) => {
            for word in all.skip(1) {
                if words.push(word).is_err() {
                    return Err(Unread::Memory);
                }
            }
            Ok(words)
        }
        Err(error) => {
            if error.kind() == ErrorKind::OutOfMemory {
                return Err(Unread::Memory);
            }
            match first_without_text(rt) {
                Some(word) => Err(Unread::NoText { word }),
                None => Err(Unread::Memory),
            }
        }
    }
}

/// The words after the program's own name, or the number to end with: 1 where one is no text, 9
/// where there is no memory for them.
pub fn words_of<R: Env + Alloc<A = Global>>(rt: &R) -> Result<Items<String>, u8> {
    match read_words(rt) {
        Ok(words) => Ok(words),
        Err(unread) => Err(unread.number()),
    }
}

// The longest word that Linux gives a program, with the byte after it.
const LONGEST_WORD: usize = 131_072;

// Whether the word of this number is no text; None where there is no such word.
fn is_without_text<R: Env>(rt: &R, number: u32, room: &mut [u8]) -> Option<bool> {
    match rt.arg(number as usize, room) {
        Ok(len) => Some(str::from_utf8(&room[..len]).is_err()),
        Err(FillError::TooLong) => Some(false),
        Err(FillError::NotPresent) => None,
    }
}

/// The first word that is no text in UTF-8; the program's own name is word 0. None where all are
/// text, and where there is no memory to read them.
pub fn first_without_text<R: Env + Alloc<A = Global>>(rt: &R) -> Option<u32> {
    let Ok(mut room) = Items::filled(rt.alloc(), LONGEST_WORD, 0) else {
        return None;
    };
    for number in 0..u32::MAX {
        match is_without_text(rt, number, room.as_mut_slice()) {
            None => return None,
            Some(true) => return Some(number),
            Some(false) => {}
        }
    }
    None
}

#[cfg(test)]
mod tests {
    use super::*;
    use crate::in_memory::MemWords;
    use std::test::Fail;

    // Of words, the first being the program's own name: how many are after it, or why they could
    // not be read.
    fn told(alloc: Global, words: &[&[u8]]) -> Result<usize, Unread> {
        let rt = (MemWords { words }, alloc);
        match read_words(&rt) {
            Ok(read) => Ok(read.len()),
            Err(unread) => Err(unread),
        }
    }

    // A refusal of a word.
    fn no_text(word: u32) -> Result<usize, Unread> {
        Err(Unread::NoText { word })
    }

    #[test]
    fn the_first_word_that_is_no_text_is_named(rt: HostRuntime) -> Result<(), Fail> {
        let (name, run, bad) = (
            b"pipegraph".as_slice(),
            b"run".as_slice(),
            b"\xff".as_slice(),
        );
        assert!(rt; told(rt.alloc(), &[name, run, run]) == Ok(2));
        assert!(rt; told(rt.alloc(), &[name, bad, run]) == no_text(1));
        assert!(rt; told(rt.alloc(), &[name, run, run, bad, bad]) == no_text(3));
        // The program's own name.
        assert!(rt; told(rt.alloc(), &[bad, run]) == no_text(0));
        assert!(rt; told(rt.alloc(), &[bad, run, bad]) == no_text(0));
        Ok(())
    }

    #[test]
    fn words_that_are_no_text_end_with_1(rt: HostRuntime) -> Result<(), Fail> {
        let rt_of_words = (
            MemWords {
                words: &[b"pipegraph".as_slice(), b"\xff".as_slice()],
            },
            rt.alloc(),
        );
        assert!(rt; matches!(words_of(&rt_of_words), Err(1)));
        assert_eq!(rt; Unread::Memory.number(), 9);
        let name = b"pipegraph".as_slice();
        let said = Unread::NoText { word: 12 }.message(rt.alloc(), name)?;
        assert!(rt; said.as_slice() == b"pipegraph: word 12 is not text in UTF-8\n".as_slice());
        let said = Unread::Memory.message(rt.alloc(), name)?;
        assert!(rt; said.as_slice() == b"pipegraph: no memory was left\n".as_slice());
        Ok(())
    }
}
