//! The stores and the text of an accepted command, and the line of any other end.
ghost use Rattle.std.specs.Prelude.{◌≡◌, ◌≤◌, [], IfOk, All};
ghost use Rattle.pw_outside.specs.Files.{IsStored};
ghost use Rattle.pw_outside.specs.Causes.{HasCause};
ghost use Rattle.wav_files.specs.WavWriting.{IsWave, wav_bytes};
ghost use Rattle.command_frame.specs.Stores.{bytes_of};
ghost use Rattle.command_frame.specs.Outside.{outside};
ghost use Rattle.command_frame.specs.Delivery.{StoresDone, TextDone, TextEnds};
ghost use Rattle.command_frame.specs.Ending.{CanBeWritten, IsStorable};
ghost use Rattle.command_frame.specs.Finishing.{Finished, CanBeDelivered, StoresNothing};

use crate::ending::Ending;
use crate::work::{Content, Store, Work};
use pw_lists::{Items, Memory, Text};
use pw_outside::{FileFail, Files, Sink};
use std::alloc::Global;
use wav_files::{Wav, write_wav};

// The bytes of a wave that is to be stored.
fn written(alloc: Global, wav: &Wav) -> Result<Items<u8>, Memory>
    requires { IsWave wav.now }
    ensures { IfOk result (λ bytes. bytes ≡ wav_bytes wav.now) }
{
    let mut bytes = Items::new(alloc);
    match write_wav(alloc, wav, &mut bytes) {
        Ok(()) => Ok(bytes),
        Err(memory) => Err(memory),
    }
}

// Makes one store.
fn store_one<F: Files>(
    alloc: Global,
    files: &mut F,
    name: &Text,
    content: &Content,
) -> Result<(), FileFail>
    requires { CanBeWritten content.now }
    ensures held { IsStored name.now (bytes_of content.now) (F.held files.old)
        (F.held files.new) result }
    ensures later { F.store_faults files.old ≤ F.store_faults files.new }
    ensures cause { HasCause (F.store_faults files.old) (F.store_faults files.new) result }
    ensures loads { F.load_faults files.new ≡ F.load_faults files.old }
{
    match content {
        Content::Bytes(whole) => files.store(alloc, name, whole.as_slice()),
        Content::Wave(wav) => match written(alloc, wav) {
            Ok(bytes) => files.store(alloc, name, bytes.as_slice()),
            Err(_memory) => Err(FileFail::Memory),
        },
    }
}

// Makes the stores in order, up to one that fails.
fn store_all<S: Ending, F: Files>(alloc: Global, files: &mut F, stores: &[Store]) -> Result<(), S>
    requires { All (IsStorable S.statuses) stores.now }
    ensures done { StoresDone S.statuses stores.now (F.store_faults files.old)
        (F.store_faults files.new) (F.held files.old) (F.held files.new) result }
    ensures later { F.store_faults files.old ≤ F.store_faults files.new }
    ensures loads { F.load_faults files.new ≡ F.load_faults files.old }
    ensures none { stores.now ≡ [] → files.new ≡ files.old }
{
    for i in 0..stores.len() {
        let store = &stores[i];
        match store_one(alloc, files, &store.name, &store.content) {
            Ok(()) => {}
            Err(FileFail::Failed) => return Err(S::store_fault(store.place)),
            Err(FileFail::Memory) => return Err(S::memory()),
        }
    }
    Ok(())
}

// Puts the text; of an empty one, nothing.
fn put_text<O: Sink>(alloc: Global, out: &mut O, text: &[u8]) -> Result<(), FileFail>
    ensures done { TextDone text.now (O.faults out.old) (O.faults out.new) (O.given out.old)
        (O.given out.new) result }
    ensures later { O.faults out.old ≤ O.faults out.new }
{
    if text.is_empty() {
        return Ok(());
    }
    out.put(alloc, text)
}

// Puts the text of accepted work, and where memory was short for it the line of that.
fn end_text<S: Ending, O: Sink>(alloc: Global, out: &mut O, text: &[u8]) -> S
    ensures ends { TextEnds S.statuses text.now (O.faults out.old) (O.faults out.new)
        (O.given out.old) (O.given out.new) result }
    ensures later { O.faults out.old ≤ O.faults out.new }
{
    match put_text(alloc, out, text) {
        Ok(()) => S::done(),
        Err(FileFail::Failed) => S::put_fault(),
        Err(FileFail::Memory) => {
            let memory: S = S::memory();
            memory.put_line(alloc, out)
        }
    }
}

/// Makes the stores of what was prepared in order, then puts its text, or puts the line of a
/// status. What was prepared stays with the caller.
///
/// Nothing is stored after a failed store, and nothing is put after a failed put. Lack of memory is
/// the status where it ended the stores or the text, or where it kept a line from being put. Where
/// there are no stores, the files are as before. Takes memory for the file of a wave that is
/// stored.
pub fn finish<S: Ending, F: Files, O: Sink>(
    alloc: Global,
    files: &mut F,
    out: &mut O,
    made: &Result<Work, S>,
) -> S
    requires { CanBeDelivered S.statuses made.now }
    ensures finished { Finished S.statuses made.now (outside F.Files O.Sink files.old out.old)
        (outside F.Files O.Sink files.new out.new) result }
    ensures later { F.store_faults files.old ≤ F.store_faults files.new }
    ensures later_put { O.faults out.old ≤ O.faults out.new }
    ensures loads { F.load_faults files.new ≡ F.load_faults files.old }
    ensures none { StoresNothing made.now → files.new ≡ files.old }
{
    match made {
        Err(status) => status.put_line(alloc, out),
        Ok(work) => match store_all::<S, F>(alloc, files, work.stores.as_slice()) {
            Err(status) => status.put_line(alloc, out),
            Ok(()) => end_text(alloc, out, work.text.as_slice()),
        },
    }
}
