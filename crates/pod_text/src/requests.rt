//! The requests of the program, up to what is to be stored or put.
ghost use Rattle.std.specs.Prelude.{◌≡◌, ◌-◌, [], Ok, Err, OnOk, slice_index_or};
ghost use Rattle.command_frame.specs.Ending.{CommandCause, IsDeliverable};
ghost use Rattle.command_frame.specs.Preparing.{LoadsOnly, Tells};
ghost use Rattle.format_filter.specs.CommonFormat.{IsSoundFormat};
ghost use Rattle.graph_script.specs.Lexical.{lines_of};
ghost use Rattle.pod_text.specs.Answers.{IsRefusedBy, IsMadeWork, IsFormatWork, IsHelpWork, IsVersionWork, IsMakeAnswer};
ghost use Rattle.pod_text.specs.DumpMaking.{IsMadePod};
ghost use Rattle.pod_text.specs.Statuses.{statuses};

use crate::delivering::{goes_to, put_work};
use crate::loading::{INPUT, SOURCE_BYTES, name_of};
use crate::making::{format_pod, made_pod};
use crate::sentences::{usage_text, version_text};
use crate::showing::line_at;
use crate::source::Source;
use crate::status::Status;
use crate::words::{Request, read_words};
use command_frame::{Misread, Program, Work, load_step};
use format_filter::Format;
use pw_lists::{Items, Memory, Text};
use pw_outside::Files;
use std::alloc::Global;

/// The program, with the line of what was read that its status names.
#[derive(Drop)]
pub(crate) struct Pods {
    pub line: Text,
}

// The commands in words, put.
fn help_work(alloc: Global) -> Result<Work, Status>
    ensures work { IsHelpWork result }
    ensures cause { CommandCause statuses (IsDeliverable statuses) 0 0 result }
{
    match Items::from_slice(alloc, usage_text()) {
        Ok(text) => Ok(put_work(alloc, text)),
        Err(_memory) => Err(Status::Memory),
    }
}

// The version, put.
fn version_work(alloc: Global) -> Result<Work, Status>
    ensures work { IsVersionWork result }
    ensures cause { CommandCause statuses (IsDeliverable statuses) 0 0 result }
{
    match Items::from_slice(alloc, version_text()) {
        Ok(text) => Ok(put_work(alloc, text)),
        Err(_memory) => Err(Status::Memory),
    }
}

// The object of a format, delivered.
fn format_work(alloc: Global, to: Text, format: &Format) -> Result<Work, Status>
    requires { IsSoundFormat format.now }
    ensures work { IsFormatWork format.now to result }
    ensures cause { CommandCause statuses (IsDeliverable statuses) 0 0 result }
{
    match format_pod(alloc, format) {
        Err(status) => Err(status),
        Ok(bytes) => match goes_to(alloc, to, 1, bytes) {
            Ok(work) => Ok(work),
            Err(_memory) => Err(Status::Memory),
        },
    }
}

impl Pods {
    // Keeps a line of what was read, by its number.
    fn keep_line(&mut self, alloc: Global, read: &[u8], number: u64) -> Result<(), Memory>
        ensures { OnOk result (self.new.line ≡ slice_index_or (lines_of read.now) (number - 1) []) }
    {
        self.line = Items::from_slice(alloc, line_at(read, number))?;
        Ok(())
    }

    // What was read is refused, with the line at fault.
    #[tactic(auto, using(crate::proofs::AnswerLemmas::memory_free))]
    fn refusal(&mut self, alloc: Global, source: Source, read: &[u8], status: Status) -> Status
        requires { IsMadePod source read.now (Err status) }
        ensures { IsRefusedBy source read.now result self.new.line }
    {
        match status {
            Status::List { line: number, .. } => match self.keep_line(alloc, read, number) {
                Ok(()) => status,
                Err(_memory) => Status::Memory,
            },
            Status::Text { line: number, .. } => match self.keep_line(alloc, read, number) {
                Ok(()) => status,
                Err(_memory) => Status::Memory,
            },
            _ => status,
        }
    }

    // The POD of what was read, delivered.
    #[tactic(auto, using(crate::proofs::AnswerLemmas::memory_free))]
    fn made_work(
        &mut self,
        alloc: Global,
        source: Source,
        read: &[u8],
        to: Text,
    ) -> Result<Work, Status>
        ensures work { IsMadeWork source to self.new.line read.now result }
        ensures cause { CommandCause statuses (IsDeliverable statuses) 0 0 result }
    {
        match made_pod(alloc, source, read) {
            Err(status) => Err(self.refusal(alloc, source, read, status)),
            Ok(bytes) => match goes_to(alloc, to, 2, bytes) {
                Ok(work) => Ok(work),
                Err(_memory) => Err(Status::Memory),
            },
        }
    }

    // The POD of the file that a word names, delivered.
    fn make<F: Files>(
        &mut self,
        alloc: Global,
        files: &mut F,
        source: Source,
        from: &Text,
        to: Text,
    ) -> Result<Work, Status>
        ensures files { LoadsOnly (F.held files.old) (F.held files.new) (F.load_faults files.old)
            (F.load_faults files.new) (F.store_faults files.old) (F.store_faults files.new) }
        ensures told { Tells statuses (F.held files.old)
            (IsMakeAnswer source from.now to self.new.line) result }
        ensures cause { CommandCause statuses (IsDeliverable statuses)
            (F.load_faults files.old) (F.load_faults files.new) result }
    {
        let Ok(name) = name_of(alloc, from) else {
            return Err(Status::Memory);
        };
        let long = Status::Limit { place: INPUT };
        match load_step(alloc, files, INPUT, &name, SOURCE_BYTES, long) {
            Err(status) => Err(status),
            Ok(read) => self.made_work(alloc, source, read.as_slice(), to),
        }
    }
}

impl Program<Status, Request> for Pods {
    ghost use Rattle.pod_text.specs.Answers.{IsAnswerTo};
    ghost use Rattle.pod_text.specs.Words.{request_of, HasSoundFormat};

    ghost asks = { request_of };

    ghost is_sound = { HasSoundFormat };

    ghost answers = { λ old new request names a. IsAnswerTo new.line request names a };

    ghost delivers = { λ work. Unit {0} };

    fn read(alloc: Global, words: &[String]) -> Result<Request, Misread> {
        read_words(alloc, words)
    }

    fn prepare<F: Files>(
        &mut self,
        alloc: Global,
        request: Request,
        files: &mut F,
    ) -> Result<Work, Status> {
        match request {
            Request::Help => help_work(alloc),
            Request::Version => version_work(alloc),
            Request::Format { to, format } => format_work(alloc, to, &format),
            Request::Make { source, from, to } => self.make(alloc, files, source, &from, to),
        }
    }
}
