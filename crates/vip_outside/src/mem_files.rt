ghost use Rattle.std.specs.Prelude.{◌≡◌, ◌≤◌, length, IfOk, OnOk, OnErr, option_map};
ghost use Rattle.std.specs.FinMap as finite;
ghost use Rattle.vip_outside.specs.Files.{IsStartOf, ReadAnswers};
ghost use Rattle.vip_outside.specs.Kept.{seen_answer};
ghost use Rattle.vip_outside.specs.MemFiles.{FilesInMemory, meaning_of, no_files, is_named, kept_of, with_kept, FailsWhereNamed, AfterRead};

use crate::MOST_NAMED;
use crate::files::{Files, Loaded, ReadFail};
use crate::kept::{Answer, Kept};
use arrayvec::ArrayVec;
use std::alloc::{AllocError, Global};
use std::collections::BTreeMap;
use std::marker::Model;

/// Files in memory. They tell their map, and calls of `read` can be named that fail.
///
/// Clauses see them as a `FilesInMemory`: the map, the named calls, and what was counted so far.
#[derive(Drop)]
pub struct MemFiles {
    alloc: Global,
    files: BTreeMap<String, Vec<u8>>,
    named: ArrayVec<u32, MOST_NAMED>,
    calls: u64,
    faults: u64,
    reads: Vec<Kept>,
}

impl Model for MemFiles {
    ghost use Rattle.std.specs.Prelude.{map};
    ghost use Rattle.vip_outside.specs.MemFiles.{FilesInMemory, files_code};

    ghost Value = { FilesInMemory };

    ghost coded = { files_code };

    ghost use Rattle.vip_outside.specs.FileTree.{map_of};
    ghost use Rattle.vip_outside.specs.Kept.{seen_read};

    ghost view = { λ s. record { files = map_of s.files; named = s.named.items; calls = s.calls; faults = s.faults; reads = map seen_read s.reads.items } };
}

impl MemFiles {
    /// No files, no call named, nothing counted.
    pub fn new(alloc: Global) -> Result<MemFiles, AllocError>
        ensures empty { IfOk result (λ files. files ≡ no_files) }
    {
        Ok(MemFiles {
            alloc,
            files: BTreeMap::new(alloc),
            named: ArrayVec::new(),
            calls: 0,
            faults: 0,
            reads: Vec::new(alloc),
        })
    }

    /// Adds a file, in place of one of the same name. Where no memory is found it changes nothing.
    pub fn add(&mut self, name: &str, bytes: &[u8]) -> Result<(), AllocError>
        ensures ok { OnOk result (self.new ≡ record self.old { files = finite.insert self.old.files name.now bytes.now }) }
        ensures err { OnErr result (self.new ≡ self.old) }
    {
        let name = String::from_str(self.alloc, name)?;
        let bytes = Vec::from_slice(self.alloc, bytes)?;
        self.files.insert(name, bytes)?;
        Ok(())
    }

    /// Names the calls of `read` that fail, at most 8, counted from 0 over all calls so far. They
    /// take the place of those named before. It takes no memory.
    pub fn fail_at(&mut self, calls: &[u32])
        requires few { length calls.now ≤ MOST_NAMED }
        ensures named { self.new ≡ record self.old { named = calls.now } }
    {
        self.named.clear();
        self.named.try_extend_from_slice(calls).unwrap();
    }

    /// Whether the next read is named to fail.
    fn is_named(&self) -> bool
        ensures { result ≡ is_named self.now }
    {
        let named = self.named.as_slice();
        for call in named {
            if u64::from(*call) == self.calls {
                return true;
            }
        }
        false
    }

    /// The bytes of the file of this name.
    fn get(&self, name: &str) -> Option<&[u8]>
        ensures { option_map (λ file. file.now) result ≡ finite.get self.now.files name.now }
    {
        let file = self.files.get(name)?;
        Some(file.as_slice())
    }

    /// Keeps a read. Where no memory is found it changes nothing.
    fn keep(&mut self, name: &str, answer: Answer) -> Result<(), AllocError>
        ensures ok { OnOk result (self.new ≡ with_kept self.old name.now (seen_answer answer)) }
        ensures err { OnErr result (self.new ≡ self.old) }
    {
        let name = String::from_str(self.alloc, name)?;
        self.reads.push(Kept { name, answer })?;
        Ok(())
    }
}

/// The first `most` bytes of a file.
fn start_of(alloc: Global, file: &[u8], most: usize) -> Result<Loaded, AllocError>
    ensures { IfOk result (IsStartOf file.now most) }
{
    let start = &file[..most.min(file.len())];
    let bytes = Vec::from_slice(alloc, start)?;
    Ok(Loaded {
        bytes,
        more: most < file.len(),
    })
}

/// What is kept of a file: all of it, or one byte more than `most`.
fn kept_of(alloc: Global, file: &[u8], most: usize) -> Result<Answer, AllocError>
    ensures { IfOk result (λ answer. seen_answer answer ≡ kept_of most file.now) }
{
    if most < file.len() {
        let start = Vec::from_slice(alloc, &file[..most + 1])?;
        return Ok(Answer::Start(start));
    }
    let whole = Vec::from_slice(alloc, file)?;
    Ok(Answer::Whole(whole))
}

impl Files for MemFiles {
    ghost meaning = { meaning_of };

    /// A read fails exactly where its call is named, but for want of memory. Each call counts,
    /// whatever it answers.
    fn read(&mut self, alloc: Global, name: &str, most: usize) -> Result<Loaded, ReadFail>
        ensures answer { ReadAnswers name.now most (meaning_of self.old) (meaning_of self.new) result }
        ensures named { FailsWhereNamed (is_named self.old) result }
        ensures after { AfterRead self.old name.now most result self.new }
    {
        let named = self.is_named();
        self.calls = self.calls.saturating_add(1);
        if named {
            self.keep(name, Answer::Faulted)?;
            self.faults = self.faults.saturating_add(1);
            return Err(ReadFail::Failed);
        }
        let Some(file) = self.get(name) else {
            self.keep(name, Answer::Lacked)?;
            return Err(ReadFail::Absent);
        };
        let kept = kept_of(self.alloc, file, most)?;
        let loaded = start_of(alloc, file, most)?;
        self.keep(name, kept)?;
        Ok(loaded)
    }
}
