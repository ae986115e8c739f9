//! A disk: what opens files and makes them anew.
ghost use Rattle.std.specs.Prelude.{◌≡◌, IsSome};
ghost use Rattle.pw_outside.specs.Files.{Held, names_in};
ghost use Rattle.system_files.specs.Disks.{IsOpened, IsMade, IsGivenBack};

use std::fs::OpenFile;
use std::io::{Read, Write};
use std::{fs, io, rt};

/// Files by path. Contracts see what is held, where the disk reports it: of a file that is written,
/// from the moment on that it is given back.
pub trait Disk {
    type Source: Read + OpenFile + Drop;

    type Target: Write + Drop;

    ghost use Rattle.pw_outside.specs.Files.{Held};

    ghost held: { Self → Held };

    /// The file of this path, to be read. `NotFound` is said only of a file that is not there.
    fn open(&mut self, path: &str) -> io::Result<Self::Source>
        ensures held { held self.new ≡ held self.old }
        ensures told { IsSome (held self.old)
            → IsOpened Self.Source.remaining (names_in (held self.old) path.now) result };

    /// The file of this path, made anew, to be written and given back.
    fn create(&mut self, path: &str) -> io::Result<Self::Target>
        ensures held { held self.new ≡ held self.old }
        ensures told { IsSome (held self.old) → IsMade Self.Target.contents result };

    /// Takes the file of this path back.
    fn give_back(&mut self, path: &str, file: Self::Target)
        ensures { IsGivenBack path.now (Self.Target.contents file) (held self.old)
            (held self.new) };
}

/// The system's files, relative to the folder that the program runs in. They report nothing of what
/// they hold.
#[derive(Drop)]
pub struct SystemDisk<'a, R> {
    rt: &'a R,
}

impl<'a, R> SystemDisk<'a, R> {
    /// Takes no memory.
    pub fn new(rt: &'a R) -> SystemDisk<'a, R> {
        SystemDisk { rt }
    }
}

impl<'a, R: rt::Files> Disk for SystemDisk<'a, R> {
    ghost use Rattle.std.specs.Prelude.{None};

    type Source = R::File;

    type Target = R::File;

    ghost held = { λ _. None };

    fn open(&mut self, path: &str) -> io::Result<R::File> {
        fs::open(self.rt, path)
    }

    fn create(&mut self, path: &str) -> io::Result<R::File> {
        fs::create(self.rt, path)
    }

    fn give_back(&mut self, _path: &str, _file: R::File) {}
}
