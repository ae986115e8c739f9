//! A sink keeps its whole stream, in room that was made once.
ghost use Rattle.std.specs.Prelude.{◌≡◌, ◌+◌, ◌*◌, ◌≤◌, ◌++◌, length, [], IfOk};

use pw_lists::{Items, Memory};
use std::alloc::Global;
use std::marker::Model;
use std::mem;

/// The stream so far, and room for the rest of it.
#[derive(Drop)]
pub(crate) struct SinkState {
    stream: Vec<i16>,
}

impl Model for SinkState {
    ghost use Rattle.std.specs.Prelude.{ℤ, ◌-◌, vec_len, vec_capacity};
    ghost use Rattle.std.specs.Coded.{coded_ℤ};
    ghost use Rattle.pw_lists.specs.Listed.{Listed, listed_code};

    ghost Value = { Listed ℤ };

    ghost coded = { listed_code coded_ℤ };

    ghost view = { λ s. record {
      list = s.stream.items;
      spare = vec_capacity s.stream - vec_len s.stream;
    } };
}

impl SinkState {
    /// An empty stream with room for `frames` frames.
    pub(crate) fn new(alloc: Global, frames: u64, channels: u32) -> Result<SinkState, Memory>
        ensures list { IfOk result (λ s. s.list ≡ []) }
        ensures spare { IfOk result (λ s. frames * channels ≤ s.spare) }
    {
        let Some(samples) = (frames as usize).checked_mul(channels as usize) else {
            return Err(Memory);
        };
        let mut stream = Vec::new(alloc);
        match stream.reserve_exact(samples) {
            Ok(()) => Ok(SinkState { stream }),
            Err(_refused) => Err(Memory),
        }
    }

    /// The stream so far.
    pub(crate) fn stream(&self) -> &[i16]
        ensures { result.now ≡ self.now.list }
    {
        self.stream.as_slice()
    }

    /// Moves the stream out, and leaves no sample, and no room. Takes no memory.
    pub(crate) fn take_stream(&mut self, alloc: Global) -> Items<i16>
        ensures taken { result ≡ self.old.list }
        ensures list { self.new.list ≡ [] }
    {
        Items::from_vec(mem::replace(&mut self.stream, Vec::new(alloc)))
    }

    /// Appends the input, for which there is room. Takes no memory.
    #[inline(never)]
    pub(crate) fn process(&mut self, a: &[i16])
        requires { length a.now ≤ self.old.spare }
        ensures list { self.new.list ≡ self.old.list ++ a.now }
        ensures spare { self.old.spare ≤ self.new.spare + length a.now }
    {
        match self.stream.extend_from_slice(a) {
            Ok(()) => (),
            Err(_refused) => unreachable!(),
        }
    }
}
