//! What the program does, over any files and output.

use pod_text::{Report, make_pod};
use program_exit::{Done, Utility};
use pw_lists::{Memory, Text};
use pw_outside::{Files, Sink};
use std::alloc::Global;
use system_files::{TellsWhy, Unread};

/// The program. It leaves nothing beside its files and its output.
#[derive(Drop)]
pub(crate) struct Pods;

impl Utility for Pods {
    ghost use Rattle.std.specs.Prelude.{codes};
    ghost use Rattle.system_files.specs.Unread.{unread_message};
    ghost use Rattle.pw_pods.specs.Exit.{HasMade};

    type Left = ();

    ghost can_run = { λ _. Unit {0} };

    ghost has_done = { λ words before now why left code sentence. HasMade words before now why code sentence };

    ghost refusal = { unread_message (codes "pipegraph-pods") };

    fn run<F: Files + TellsWhy, O: Sink>(
        &self,
        alloc: Global,
        words: &[String],
        mut files: F,
        mut out: O,
    ) -> Done<F, O, ()> {
        let Report { status, sentence } = make_pod(alloc, words, &mut files, &mut out);
        Done {
            code: status.number(),
            files,
            out,
            left: (),
            sentence,
        }
    }

    fn refuse(alloc: Global, unread: Unread) -> (Result<Text, Memory>, ()) {
        (unread.message(alloc, b"pipegraph-pods"), ())
    }
}
