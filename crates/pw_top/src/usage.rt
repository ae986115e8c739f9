//! The words of a command line.
ghost use Rattle.std.specs.Prelude.{◌≡◌, ℕ, ◌<◌, map, string_bytes, length, IfOk, Ok};
ghost use Rattle.command_frame.specs.Words.{IsAsked, is_file_word, then_file, then_nothing};
ghost use Rattle.pw_top.specs.Words.{one_file, two_files, three_files};
ghost use Rattle.pw_top.specs.Usage.{run_with, run_of, dump_of, filter_of, automate_of, check_of};
ghost use Rattle.pw_top.specs.Usage.{soak_of, groups_of, command_of, ticks_in, HasFewLoops};
ghost use Rattle.pw_top.specs.Options.{HasFew};

use crate::commands::automate::AutomateFile;
use crate::commands::check_traces::CheckTrace;
use crate::commands::dump::DumpFile;
use crate::commands::filter_files::FilterFiles;
use crate::commands::groups::Grouping;
use crate::commands::run::Running;
use crate::commands::soak::Soaking;
use crate::options::{Options, read_options};
use crate::playing::Crew;
use command_frame::Misread;
use graph_script::number_within;
use pw_lists::{Items, Text};
use std::alloc::Global;

/// What a command line asks for.
#[derive(Drop)]
pub enum CommandLine {
    Run(Running),
    Dump(DumpFile),
    Filter(FilterFiles),
    Automate(AutomateFile),
    Check(CheckTrace),
    Soak(Soaking),
    Groups(Grouping),
}

/// Two words that name files.
#[derive(Drop)]
struct FilePair {
    first: Text,
    second: Text,
}

/// Three words that name files.
#[derive(Drop)]
struct FileWords {
    first: Text,
    second: Text,
    third: Text,
}

fn is_file_word(word: &String) -> bool
    ensures { result ≡ is_file_word (string_bytes word.now) }
{
    let bytes = word.as_bytes();
    match bytes {
        [] => false,
        [first, ..] => *first != b'-' && bytes.len() <= 255,
    }
}

// A word as a name of a file.
fn name_of(alloc: Global, word: &String) -> Result<Text, Misread>
    ensures { IsAsked (Ok (string_bytes word.now)) result }
{
    match Items::from_slice(alloc, word.as_bytes()) {
        Ok(name) => Ok(name),
        Err(_memory) => Err(Misread::Memory),
    }
}

// The one file after a command.
#[tactic(auto, unfolding(crate::specs::Words::one_file))]
fn one_file(alloc: Global, rest: &[String]) -> Result<Text, Misread>
    ensures { IsAsked (one_file (map string_bytes rest.now)) result }
{
    match rest {
        [] => Err(Misread::Word(1)),
        [file, more @ ..] => {
            if !is_file_word(file) {
                return Err(Misread::Word(1));
            }
            if !more.is_empty() {
                return Err(Misread::Word(2));
            }
            name_of(alloc, file)
        }
    }
}

// Three words as the names of files.
fn names_of(alloc: Global, a: &String, b: &String, c: &String) -> Result<FileWords, Misread>
    ensures { IsAsked (Ok (record {
      first = string_bytes a.now;
      second = string_bytes b.now;
      third = string_bytes c.now;
    })) result }
{
    match (name_of(alloc, a), name_of(alloc, b), name_of(alloc, c)) {
        (Ok(first), Ok(second), Ok(third)) => Ok(FileWords {
            first,
            second,
            third,
        }),
        _ => Err(Misread::Memory),
    }
}

// The third file, and nothing after it.
fn third_file(alloc: Global, a: &String, b: &String, rest: &[String]) -> Result<FileWords, Misread>
    ensures { IsAsked (then_file 3 (map string_bytes rest.now)
        (λ c rest. then_nothing 4 rest (record
        { first = string_bytes a.now; second = string_bytes b.now; third = c }))) result }
{
    match rest {
        [] => Err(Misread::Word(3)),
        [c, more @ ..] => {
            if !is_file_word(c) {
                return Err(Misread::Word(3));
            }
            if !more.is_empty() {
                return Err(Misread::Word(4));
            }
            names_of(alloc, a, b, c)
        }
    }
}

// The second file and what is after it.
fn second_file(alloc: Global, a: &String, rest: &[String]) -> Result<FileWords, Misread>
    ensures { IsAsked (then_file 2 (map string_bytes rest.now)
        (λ b outs. then_file 3 outs (λ c rest. then_nothing 4 rest
        (record { first = string_bytes a.now; second = b; third = c })))) result }
{
    match rest {
        [] => Err(Misread::Word(2)),
        [b, outs @ ..] => {
            if is_file_word(b) {
                third_file(alloc, a, b, outs)
            } else {
                Err(Misread::Word(2))
            }
        }
    }
}

// The three files after a command.
#[tactic(auto, unfolding(crate::specs::Words::three_files))]
fn three_files(alloc: Global, rest: &[String]) -> Result<FileWords, Misread>
    ensures { IsAsked (three_files (map string_bytes rest.now)) result }
{
    match rest {
        [] => Err(Misread::Word(1)),
        [a, bs @ ..] => {
            if is_file_word(a) {
                second_file(alloc, a, bs)
            } else {
                Err(Misread::Word(1))
            }
        }
    }
}

// Two words as the names of files.
fn pair_of(alloc: Global, a: &String, b: &String) -> Result<FilePair, Misread>
    ensures { IsAsked (Ok (record {
      first = string_bytes a.now;
      second = string_bytes b.now;
    })) result }
{
    match (name_of(alloc, a), name_of(alloc, b)) {
        (Ok(first), Ok(second)) => Ok(FilePair { first, second }),
        _ => Err(Misread::Memory),
    }
}

// The second of two files, and nothing after it.
fn last_file(alloc: Global, a: &String, rest: &[String]) -> Result<FilePair, Misread>
    ensures { IsAsked (then_file 2 (map string_bytes rest.now)
        (λ b rest. then_nothing 3 rest (record
        { first = string_bytes a.now; second = b }))) result }
{
    match rest {
        [] => Err(Misread::Word(2)),
        [b, more @ ..] => {
            if !is_file_word(b) {
                Err(Misread::Word(2))
            } else if more.is_empty() {
                pair_of(alloc, a, b)
            } else {
                Err(Misread::Word(3))
            }
        }
    }
}

// The two files after a command.
#[tactic(auto, unfolding(crate::specs::Words::two_files))]
fn two_files(alloc: Global, rest: &[String]) -> Result<FilePair, Misread>
    ensures { IsAsked (two_files (map string_bytes rest.now)) result }
{
    match rest {
        [] => Err(Misread::Word(1)),
        [a, bs @ ..] => {
            if is_file_word(a) {
                last_file(alloc, a, bs)
            } else {
                Err(Misread::Word(1))
            }
        }
    }
}

// A script and its options: one loop and no ticks where nothing is said of them.
fn run_with(alloc: Global, script: &String, options: Options) -> Result<CommandLine, Misread>
    requires few { HasFew options }
    ensures read { IsAsked (run_with (string_bytes script.now) (Ok options)) result }
    ensures few { IfOk result HasFewLoops }
{
    match Items::from_slice(alloc, script.as_bytes()) {
        Err(_memory) => Err(Misread::Memory),
        Ok(script) => Ok(CommandLine::Run(Running {
            script,
            crew: Crew {
                loops: options.loops.unwrap_or(1),
                steal: options.steal,
            },
            ticks: options.ticks.unwrap_or(0),
            trace: options.trace,
        })),
    }
}

// `run SCRIPT` with its options, after its first word.
#[tactic(auto, unfolding(crate::specs::Usage::run_of))]
fn read_run(alloc: Global, rest: &[String]) -> Result<CommandLine, Misread>
    ensures read { IsAsked (run_of (map string_bytes rest.now)) result }
    ensures few { IfOk result HasFewLoops }
{
    match rest {
        [] => Err(Misread::Word(1)),
        [script, more @ ..] => {
            if !is_file_word(script) {
                return Err(Misread::Word(1));
            }
            match read_options(more) {
                Err(word) => Err(Misread::Word(word)),
                Ok(options) => run_with(alloc, script, options),
            }
        }
    }
}

// `dump FILE`, after its first word.
fn read_dump(alloc: Global, rest: &[String]) -> Result<CommandLine, Misread>
    ensures { IsAsked (dump_of (one_file (map string_bytes rest.now))) result }
{
    match one_file(alloc, rest) {
        Ok(file) => Ok(CommandLine::Dump(DumpFile { file })),
        Err(misread) => Err(misread),
    }
}

// `filter A B OUT`, after its first word.
fn read_filter(alloc: Global, rest: &[String]) -> Result<CommandLine, Misread>
    ensures { IsAsked (filter_of (three_files (map string_bytes rest.now))) result }
{
    match three_files(alloc, rest) {
        Ok(
            FileWords {
                first,
                second,
                third,
            },
        ) => Ok(CommandLine::Filter(FilterFiles {
            a: first,
            b: second,
            out: third,
        })),
        Err(misread) => Err(misread),
    }
}

// `automate IN SEQ OUT`, after its first word.
fn read_automate(alloc: Global, rest: &[String]) -> Result<CommandLine, Misread>
    ensures { IsAsked (automate_of (three_files (map string_bytes rest.now))) result }
{
    match three_files(alloc, rest) {
        Ok(
            FileWords {
                first,
                second,
                third,
            },
        ) => Ok(CommandLine::Automate(AutomateFile {
            input: first,
            seq: second,
            out: third,
        })),
        Err(misread) => Err(misread),
    }
}

// `check SCRIPT TRACE`, after its first word.
fn read_check(alloc: Global, rest: &[String]) -> Result<CommandLine, Misread>
    ensures { IsAsked (check_of (two_files (map string_bytes rest.now))) result }
{
    match two_files(alloc, rest) {
        Ok(FilePair { first, second }) => Ok(CommandLine::Check(CheckTrace {
            script: first,
            trace: second,
        })),
        Err(misread) => Err(misread),
    }
}

// `soak NUMBER`, after its first word. Takes no memory.
#[tactic(auto, unfolding(crate::specs::Usage::soak_of))]
fn read_soak(rest: &[String]) -> Result<CommandLine, Misread>
    ensures read { IsAsked (soak_of (map string_bytes rest.now)) result }
    ensures few { IfOk result HasFewLoops }
{
    match rest {
        [] => Err(Misread::Word(1)),
        [word, more @ ..] => match number_within(word.as_bytes(), 0, u32::MAX) {
            None => Err(Misread::Word(1)),
            Some(number) => {
                if more.is_empty() {
                    Ok(CommandLine::Soak(Soaking { number }))
                } else {
                    Err(Misread::Word(2))
                }
            }
        },
    }
}

// `groups SCRIPT`, after its first word.
fn read_groups(alloc: Global, rest: &[String]) -> Result<CommandLine, Misread>
    ensures read { IsAsked (groups_of (one_file (map string_bytes rest.now))) result }
    ensures few { IfOk result HasFewLoops }
{
    match one_file(alloc, rest) {
        Ok(script) => Ok(CommandLine::Groups(Grouping { script })),
        Err(misread) => Err(misread),
    }
}

/// What the words ask for, or the first word at fault.
#[tactic(auto, unfolding(crate::specs::Usage::command_of))]
pub fn read_words(alloc: Global, words: &[String]) -> Result<CommandLine, Misread>
    ensures read { IsAsked (command_of (map string_bytes words.now)) result }
    ensures few { IfOk result HasFewLoops }
{
    match words {
        [] => Err(Misread::Word(0)),
        [name, rest @ ..] => {
            if name.as_bytes() == b"run".as_slice() {
                read_run(alloc, rest)
            } else if name.as_bytes() == b"dump".as_slice() {
                read_dump(alloc, rest)
            } else if name.as_bytes() == b"filter".as_slice() {
                read_filter(alloc, rest)
            } else if name.as_bytes() == b"automate".as_slice() {
                read_automate(alloc, rest)
            } else if name.as_bytes() == b"check".as_slice() {
                read_check(alloc, rest)
            } else if name.as_bytes() == b"soak".as_slice() {
                read_soak(rest)
            } else if name.as_bytes() == b"groups".as_slice() {
                read_groups(alloc, rest)
            } else {
                Err(Misread::Word(0))
            }
        }
    }
}

// The same after the word `run`.
#[tactic(auto, unfolding(crate::specs::Usage::run_of))]
fn ticks_behind(rest: &[String]) -> u32
    ensures { result ≡ ticks_in (run_of (map string_bytes rest.now)) }
{
    match rest {
        [] => 0,
        [script, more @ ..] => {
            if !is_file_word(script) {
                return 0;
            }
            match read_options(more) {
                Err(_) => 0,
                Ok(options) => options.ticks.unwrap_or(0),
            }
        }
    }
}

/// The number of asks from one late check of a run to the next, 1 to 1,000,000, where the words are
/// in the grammar and name it; else 0. Takes no memory.
#[tactic(auto, unfolding(crate::specs::Usage::command_of))]
pub fn ticks_of(words: &[String]) -> u32
    ensures { result ≡ ticks_in (command_of (map string_bytes words.now)) }
{
    match words {
        [] => 0,
        [name, rest @ ..] => {
            if name.as_bytes() == b"run".as_slice() {
                ticks_behind(rest)
            } else {
                0
            }
        }
    }
}
