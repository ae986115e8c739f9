//! Words of a command line that could not be read.
ghost use Rattle.std.specs.Prelude.{◌≡◌, ◌++◌, decimal, IfOk, OnOk};
ghost use Rattle.system_files.specs.Unread.{unread_number, unread_text, unread_message};

use pw_lists::{Items, Memory, Text, append_decimal};
use std::alloc::Global;

/// Why words could not be read.
#[derive(Clone, Copy, PartialEq, Eq, Drop)]
pub enum Unread {
    /// This word is the first that is no text in UTF-8; the program's own name is word 0.
    NoText { word: u32 },
    /// There was no memory for them.
    Memory,
}

// A number in plain decimal between two texts.
fn put_number(text: &mut Text, before: &[u8], n: u32, behind: &[u8]) -> Result<(), Memory>
    ensures { OnOk result (text.new ≡ text.old ++ (before.now ++ (decimal n ++ behind.now))) }
{
    text.extend(before)?;
    append_decimal(text, u64::from(n))?;
    text.extend(behind)
}

// What is wrong with them, after the name of a program.
fn put_text(text: &mut Text, unread: Unread) -> Result<(), Memory>
    ensures { OnOk result (text.new ≡ text.old ++ unread_text unread) }
{
    match unread {
        Unread::NoText { word } => put_number(text, b": word ", word, b" is not text in UTF-8\n"),
        Unread::Memory => text.extend(b": no memory was left\n"),
    }
}

impl Unread {
    /// The number that a program ends with: 1 or 9.
    pub fn number(self) -> u8
        ensures { result ≡ unread_number self }
    {
        match self {
            Unread::NoText { .. } => 1,
            Unread::Memory => 9,
        }
    }

    /// The sentence for people, of a program of this name.
    pub fn message(self, alloc: Global, program: &[u8]) -> Result<Text, Memory>
        ensures { IfOk result (λ text. text ≡ unread_message program.now self) }
    {
        let mut text = Items::from_slice(alloc, program)?;
        put_text(&mut text, self)?;
        Ok(text)
    }
}
