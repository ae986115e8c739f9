//! The end of a program.

use pw_outside::FileFail;

/// The number that a program ends with, the files and the output after it, what it left beside
/// them, and what the put of its sentence answered: `Memory` where memory was short for it.
#[derive(Drop)]
pub struct Exit<F, O, L> {
    pub code: u8,
    pub files: F,
    pub out: O,
    pub left: L,
    pub said: Result<(), FileFail>,
}
