//! How a command line ended.

use crate::asking::Asked;
use pw_outside::FileFail;
use pw_top::{Found, Status};

/// A run that was made: its status and what it found, and the files and the output after it.
#[derive(Drop)]
pub(crate) struct Run<F, O> {
    pub status: Status,
    pub found: Found,
    pub files: F,
    pub out: O,
}

/// The status of a command line, the number that the program ends with, the files, the output and
/// the ticker after it, and what the put of its sentence answered: `Memory` where memory was short
/// for it.
#[derive(Drop)]
pub struct Ended<F, O> {
    pub status: Status,
    pub code: u8,
    pub files: F,
    pub out: O,
    pub ticker: Asked,
    pub said: Result<(), FileFail>,
}

/// The same of words that may not have been read, so that there is no status.
#[derive(Drop)]
pub struct Exit<F, O> {
    pub code: u8,
    pub files: F,
    pub out: O,
    pub ticker: Asked,
    pub said: Result<(), FileFail>,
}
