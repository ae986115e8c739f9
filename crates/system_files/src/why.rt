//! Why the system refused a load or a store, where it is one of a few reasons.
ghost use Rattle.std.specs.Prelude.{◌≡◌};
ghost use Rattle.std.specs.IoError.{error_kind};
ghost use Rattle.pw_outside.specs.declared.files.FileFail.TheVariants as F;
ghost use Rattle.system_files.specs.Reasons.{why_said};
ghost use Rattle.system_files.specs.working.FileWhys.{why_of};

use pw_outside::{FileFail, MemFiles, SureFiles};
use std::io;
use std::io::ErrorKind;

/// Why a load or a store failed.
#[derive(Clone, Copy, Debug, PartialEq, Eq, Drop)]
pub enum FileWhy {
    /// What its path has before the last slash is no folder, or is not there.
    NoFolder,
    /// It is a folder.
    Folder,
    /// The system does not allow it.
    Permission,
    /// No room is left where it would be.
    Full,
}

/// The reason in words, behind a sentence that says what failed; nothing where it is not known.
pub fn why_words(why: Option<FileWhy>) -> &'static [u8]
    ensures { result.now ≡ why_said why }
{
    match why {
        None => b"",
        Some(FileWhy::NoFolder) => b": there is no such folder, or it can have no such file",
        Some(FileWhy::Folder) => b": it is a folder",
        Some(FileWhy::Permission) => b": the system does not permit it",
        Some(FileWhy::Full) => b": no room is left",
    }
}

/// Files that say why their last load or store failed.
pub trait TellsWhy {
    ghost use Rattle.std.specs.Prelude.{Option};
    ghost use Rattle.system_files.specs.declared.why.FileWhy.{FileWhy};

    ghost why: { Self → Option FileWhy };

    /// Why the last load or store failed; `None` where it did not, or for another reason.
    fn why(&self) -> Option<FileWhy>
        ensures { result ≡ why self.now };
}

impl TellsWhy for MemFiles {
    ghost use Rattle.std.specs.Prelude.{None};

    ghost why = { λ _. None };

    fn why(&self) -> Option<FileWhy> {
        None
    }
}

impl TellsWhy for SureFiles {
    ghost use Rattle.std.specs.Prelude.{None};

    ghost why = { λ _. None };

    fn why(&self) -> Option<FileWhy> {
        None
    }
}

// The reason that an error of this kind is.
fn why_of(kind: ErrorKind) -> Option<FileWhy>
    ensures { result ≡ why_of kind }
{
    match kind {
        ErrorKind::NotFound | ErrorKind::NotADirectory => Some(FileWhy::NoFolder),
        ErrorKind::IsADirectory => Some(FileWhy::Folder),
        ErrorKind::PermissionDenied => Some(FileWhy::Permission),
        ErrorKind::StorageFull => Some(FileWhy::Full),
        _ => None,
    }
}

/// What a call answers that failed with an error, whose reason is left in `why`.
pub(crate) fn failed(error: io::Error, why: &mut Option<FileWhy>) -> FileFail
    ensures fail { result ≡ F.Failed }
    ensures why { why.new ≡ why_of (error_kind error) }
{
    *why = why_of(error.kind());
    FileFail::Failed
}
