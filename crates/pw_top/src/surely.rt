//! The top call over objects in memory that never fail.
ghost use Rattle.std.specs.Prelude.{◌≤◌, map, string_bytes};
ghost use Rattle.pw_outside.specs.InMemory.{sure_names, sure_given};
ghost use Rattle.pw_top.specs.Headline.{reported};
ghost use Rattle.pw_top.specs.Surely.{IsToldSurely};

use crate::top::{Report, run_words};
use pw_outside::{Gate, SureFiles, SureSink, Ticker};
use std::alloc::Global;
use std::sync::Wait;
use std::thread::Threads;

/// `run_words` over files and an output in memory that never fail: all that an expected answer says
/// is done; or memory was short, and then the first of its stores are, each whole, and a prefix of
/// its text was put. No premise on faults is needed. It may wait for the loops.
pub fn run_surely<R: Threads + Wait + Sync, G: Gate + Sync, K: Ticker>(
    rt: &R,
    alloc: Global,
    words: &[String],
    files: &mut SureFiles,
    out: &mut SureSink,
    gate: &G,
    ticker: &mut K,
) -> Report
    ensures told { IsToldSurely (map string_bytes words.now)
        (sure_names files.old) (sure_names files.new) (sure_given out.old) (sure_given out.new)
        (reported result (K.ticks ticker.old) (K.ticks ticker.new)) result.status }
    ensures later { K.ticks ticker.old ≤ K.ticks ticker.new }
{
    run_words(rt, alloc, words, files, out, gate, ticker)
}
