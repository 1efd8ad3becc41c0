ghost use Rattle.std.specs.Prelude.{◌≡◌, ◌<◌, length, IfErr};
ghost use Rattle.std.specs.Io.{ReadsAtMost};
ghost use Rattle.vip_outside.specs.Files.{ReadAnswers};
ghost use Rattle.vip_outside.specs.RealFiles.{meaning_of, IsNotAbsent, SystemAnswers};
ghost use Rattle.vip_outside.specs.System.{Opens, Reads};

use crate::files::{Files, Loaded, ReadFail};
use crate::system::System;
use std::alloc::Global;
use std::io::{Error, ErrorKind};
use std::marker::Model;

/// The most bytes of one read of the system.
const BLOCK: usize = 4096;

/// The files of a system, named as the system names them. They tell no map, so an absent file is a
/// fault; of the reads they tell what the system tells.
///
/// Clauses see them as a `SystemFiles`: the count of faults, and the reads that were made so far.
#[derive(Drop)]
pub struct RealFiles<S: System> {
    system: S,
    faults: u64,
}

impl<S: System> Model for RealFiles<S> {
    ghost use Rattle.vip_outside.specs.RealFiles.{SystemFiles};

    ghost Value = { SystemFiles };

    ghost view = { λ s. record { faults = s.faults; reads = S.log s.system } };
}

impl<S: System> RealFiles<S> {
    /// The files that a system opens, with no fault.
    pub fn new(system: S) -> RealFiles<S>
        ensures unused { result ≡ record { faults = 0; reads = S.log system } }
    {
        RealFiles { system, faults: 0 }
    }
}

/// What an error of the system is to a read: want of memory, or a fault.
fn read_fail(error: Error) -> ReadFail
    ensures { IsNotAbsent result }
{
    if error.kind() == ErrorKind::OutOfMemory {
        ReadFail::NoMemory
    } else {
        ReadFail::Failed
    }
}

/// Opens the file of this name.
fn open_named<S: System>(system: &mut S, name: &str) -> Result<S::File, ReadFail>
    ensures log { Opens name.now (S.log system.old) (S.log system.new) result }
    ensures err { IfErr result IsNotAbsent }
{
    match system.open(name) {
        Ok(file) => Ok(file),
        Err(error) => Err(read_fail(error)),
    }
}

/// Reads some of the bytes that the file that was opened last has left, none only where it has none.
fn read_some<S: System>(
    system: &mut S,
    file: &mut S::File,
    block: &mut [u8],
) -> Result<usize, ReadFail>
    requires room { 0 < length block.now }
    ensures bound { ReadsAtMost result block.new }
    ensures log { Reads block.new (S.log system.old) (S.log system.new) result }
    ensures err { IfErr result IsNotAbsent }
{
    match system.read(file, block) {
        Ok(count) => Ok(count),
        Err(error) => Err(read_fail(error)),
    }
}

/// Opens the file of this name and reads its first `most` bytes, and one more to see whether it has
/// more. Each read takes at least one byte or is the last, and any error of the system ends it.
fn read_start<S: System>(
    alloc: Global,
    system: &mut S,
    name: &str,
    most: usize,
) -> Result<Loaded, ReadFail>
    ensures { SystemAnswers name.now most (S.log system.old) (S.log system.new) result }
{
    let mut file = open_named(system, name)?;
    let mut bytes = Vec::new(alloc);
    let mut block = [0u8; BLOCK];
    loop {
        let room = most - bytes.len();
        let wanted = room.min(BLOCK - 1) + 1;
        let count = read_some(system, &mut file, &mut block[..wanted])?;
        bytes.extend_from_slice(&block[..count.min(room)])?;
        if count == 0 || room < count {
            let more = room < count;
            return Ok(Loaded { bytes, more });
        }
    }
}

impl<S: System> Files for RealFiles<S> {
    ghost meaning = { meaning_of };

    /// A file that can't be opened and any error while it is read are faults, but for want of memory.
    /// The system opens the file of this name, once, and no other.
    fn read(&mut self, alloc: Global, name: &str, most: usize) -> Result<Loaded, ReadFail>
        ensures answer { ReadAnswers name.now most (meaning_of self.old) (meaning_of self.new) result }
        ensures system { SystemAnswers name.now most self.old.reads self.new.reads result }
    {
        let answer = read_start(alloc, &mut self.system, name, most);
        if matches!(&answer, Err(ReadFail::Failed)) {
            self.faults = self.faults.saturating_add(1);
        }
        answer
    }
}
