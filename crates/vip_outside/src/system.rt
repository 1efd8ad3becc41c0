ghost use Rattle.std.specs.Prelude.{◌<◌, List, Option, None, length};
ghost use Rattle.std.specs.Io.{ReadsAtMost};
ghost use Rattle.vip_outside.specs.Files.{Read};
ghost use Rattle.vip_outside.specs.System.{Opens, Reads};

use std::io::{self, Read};
use std::{fs, rt};

/// A system that opens files by name and reads what it opened.
pub trait System {
    /// A file that was opened.
    type File: Drop;

    /// What was opened so far, in order, each with what was read of it, where that is told.
    ghost log: { Self → Option (List Read) } = { λ _. None };

    /// Opens the file of this name.
    fn open(&mut self, name: &str) -> io::Result<Self::File>
        ensures log { Opens name.now (log self.old) (log self.new) result };

    /// Reads some of the bytes that the file that was opened last has left, none only where it has none.
    fn read(&mut self, file: &mut Self::File, block: &mut [u8]) -> io::Result<usize>
        requires room { 0 < length block.now }
        ensures bound { ReadsAtMost result block.new }
        ensures log { Reads block.new (log self.old) (log self.new) result };
}

/// The system that a runtime is of. It tells nothing.
#[derive(Drop)]
pub struct Host<R: rt::Files> {
    runtime: R,
}

impl<R: rt::Files> Host<R> {
    /// The system of a runtime.
    pub fn new(runtime: R) -> Host<R> {
        Host { runtime }
    }
}

impl<R: rt::Files> System for Host<R> {
    type File = R::File;

    fn open(&mut self, name: &str) -> io::Result<R::File> {
        fs::open(&self.runtime, name)
    }

    fn read(&mut self, file: &mut R::File, block: &mut [u8]) -> io::Result<usize> {
        file.read(block)
    }
}

impl<S: System> System for &mut S {
    type File = S::File;

    ghost log = { λ s. S.log s.now };

    fn open(&mut self, name: &str) -> io::Result<S::File> {
        System::open(&mut **self, name)
    }

    fn read(&mut self, file: &mut S::File, block: &mut [u8]) -> io::Result<usize> {
        System::read(&mut **self, file, block)
    }
}
