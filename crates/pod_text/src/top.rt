//! The whole program: what words ask for, done, and a sentence where it is refused.
ghost use Rattle.std.specs.Prelude.{◌≡◌, map, string_bytes, IfOk};
ghost use Rattle.command_frame.specs.FaultCauses.{Caused, IsUsage};
ghost use Rattle.command_frame.specs.Outside.{outside};
ghost use Rattle.pod_text.specs.Reports.{said_of, IsReported};
ghost use Rattle.pod_text.specs.Statuses.{statuses};
ghost use Rattle.pod_text.specs.Words.{request_of};

use crate::requests::Pods;
use crate::sentences::sentence;
use crate::status::Status;
use command_frame::run;
use pw_lists::{Items, Memory, Text};
use pw_outside::{Files, Sink};
use std::alloc::Global;
use system_files::{FileWhy, TellsWhy};

/// What a call did: how it ended, and a sentence for people, or that memory was short for it. It is
/// empty where all was done, and nowhere else.
#[derive(Drop)]
pub struct Report {
    pub status: Status,
    pub sentence: Result<Text, Memory>,
}

// The sentence of how a call ended; none where all was done.
fn explained(
    alloc: Global,
    words: &[String],
    status: Status,
    line: &[u8],
    reason: Option<FileWhy>,
) -> Result<Text, Memory>
    ensures { IfOk result (λ text. text
        ≡ said_of status (map string_bytes words.now) line.now reason) }
{
    match status {
        Status::Ok => Ok(Items::new(alloc)),
        _ => sentence(alloc, &status, words, line, reason),
    }
}

/// Makes the POD that the words of a command line ask for, and delivers it.
///
/// The words are those after the program's own name: `gains LIST OUT` makes the control sequence
/// of a list of gains, `pod TEXT OUT` the value whose dump a text is, `format OUT rate VALUES
/// channels VALUES [mandatory KEY]` the object of an offer, `--help` puts the commands, and
/// `--version` the version. Where a file is meant, `-` is standard input, which is loaded as
/// `/dev/stdin`, or standard output. What is read is loaded once. Where the words or what is read
/// are refused, nothing is stored and nothing put. The sentence has the reason that the files tell
/// of a load or a store that failed. Takes memory for what is read, for the value and for the bytes.
pub fn make_pod<F: Files + TellsWhy, O: Sink>(
    alloc: Global,
    words: &[String],
    files: &mut F,
    out: &mut O,
) -> Report
    // The answer to the words, which files, output and status follow where the files report what
    // they hold; and the sentence of the status.
    ensures told { IsReported (map string_bytes words.now)
        (outside F.Files O.Sink files.old out.old) (outside F.Files O.Sink files.new out.new)
        (F.why files.new) result }

    // Each fault has its cause outside, and Usage in the words, whether the files are reported or
    // not.
    ensures cause { Caused statuses (outside F.Files O.Sink files.old out.old)
        (outside F.Files O.Sink files.new out.new) result.status }
    ensures usage { IsUsage statuses (request_of (map string_bytes words.now)) result.status }
{
    let mut pods = Pods {
        line: Items::new(alloc),
    };
    let status = run(&mut pods, alloc, words, files, out);
    let sentence = explained(alloc, words, status, pods.line.as_slice(), files.why());
    Report { status, sentence }
}
