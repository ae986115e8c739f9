//! The file that is read.
ghost use Rattle.std.specs.Prelude.{◌≡◌, codes, IfOk};
ghost use Rattle.pod_text.specs.Loading.{input_name};

use crate::words::is_dash;
use pw_lists::{Items, Memory, Text};
use std::alloc::Global;

/// The bytes of what is read, at most.
pub(crate) const SOURCE_BYTES: u64 = 33_554_432;

/// The word of a command line that names what is read.
pub(crate) const INPUT: u32 = 1;

// The name of standard input among the files.
fn standard_input() -> &'static [u8]
    ensures { result.now ≡ codes "/dev/stdin" }
{
    b"/dev/stdin".as_slice()
}

/// The name that a word has among the files.
pub(crate) fn name_of(alloc: Global, word: &Text) -> Result<Text, Memory>
    ensures { IfOk result (λ name. name ≡ input_name word.now) }
{
    if is_dash(word.as_slice()) {
        Items::from_slice(alloc, standard_input())
    } else {
        word.copy(alloc)
    }
}
