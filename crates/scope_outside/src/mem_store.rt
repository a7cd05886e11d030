// The store of tests: a map in memory, and the calls that are to fail.
ghost use Rattle.std.specs.Prelude.{◌≡◌, ◌≢◌, ℕ, List, [], ◌∷◌, ◌++◌, OnOk, OnErr, IfOk};
ghost use Rattle.std.specs.Option.{option_map};
ghost use Rattle.std.specs.List.{Contains};
ghost use Rattle.scope_outside.specs.Answers.{AfterRead, AfterWrite, with_file};
ghost use Rattle.scope_outside.specs.State.{OnFiles};
ghost use Rattle.scope_outside.specs.Memory.{mem_state, mem_told, new_memory, next_call};
ghost use Rattle.std.specs.FinMap as map;

use crate::file_map::FileMap;
use crate::trouble::Trouble;
use crate::{ReadAnswer, Store, WriteAnswer};
use scope_value::Cell;
use std::alloc::{AllocError, Global};

/// A map, and two lists of call numbers that are to fail, reads and writes. The first read has number 1, and so has the first write.
///
/// A listed read of a name that isn't in the map answers `Missing` all the same. A failed write leaves the map as it was.
#[derive(Drop)]
pub struct MemStore {
    alloc: Global,
    files: FileMap,
    failing_reads: Vec<u64>,
    failing_writes: Vec<u64>,
    reads: u64,
    writes: u64,
    trouble: Trouble,
}

impl MemStore {
    /// An empty map, and no call that is to fail.
    pub fn new(alloc: Global) -> MemStore
        ensures { mem_state result ≡ new_memory }
    {
        MemStore {
            alloc,
            files: FileMap::new(alloc),
            failing_reads: Vec::new(alloc),
            failing_writes: Vec::new(alloc),
            reads: 0,
            writes: 0,
            trouble: Trouble::new(),
        }
    }

    /// Puts the bytes under the name. It is no write of the store: it has no number and can't be one that is to fail.
    /// An error is want of memory alone, and then nothing has changed.
    pub fn put(&mut self, name: &[u8], bytes: &[u8]) -> Result<(), AllocError>
        ensures ok { OnOk result (mem_told self.new ≡ record (mem_told self.old) { files = with_file (mem_told self.old).files name.now bytes.now }) }
        ensures err { OnErr result (mem_told self.new ≡ mem_told self.old) }
        ensures plan { mem_state self.new ≡ record (mem_state self.old) { told = mem_told self.new } }
    {
        let name = Cell::from_slice(self.alloc, name)?;
        let bytes = Cell::from_slice(self.alloc, bytes)?;
        self.files.insert(name, bytes)?;
        Ok(())
    }

    /// The read of this number, counted from 1, is to fail. An error is want of memory alone, and then nothing has changed.
    pub fn fail_read(&mut self, call: u64) -> Result<(), AllocError>
        ensures ok { OnOk result (mem_state self.new ≡ record (mem_state self.old) { failing_reads = (mem_state self.old).failing_reads ++ call ∷ [] }) }
        ensures err { OnErr result (mem_state self.new ≡ mem_state self.old) }
    {
        self.failing_reads.push(call)?;
        Ok(())
    }

    /// The write of this number, counted from 1, is to fail. An error is want of memory alone, and then nothing has changed.
    pub fn fail_write(&mut self, call: u64) -> Result<(), AllocError>
        ensures ok { OnOk result (mem_state self.new ≡ record (mem_state self.old) { failing_writes = (mem_state self.old).failing_writes ++ call ∷ [] }) }
        ensures err { OnErr result (mem_state self.new ≡ mem_state self.old) }
    {
        self.failing_writes.push(call)?;
        Ok(())
    }

    /// The bytes under the name, where there are some. It is no read of the store. An error is want of memory alone.
    pub fn get(&self, name: &[u8]) -> Result<Option<&[u8]>, AllocError>
        ensures { IfOk result (λ content. OnFiles (mem_told self.now) (λ files. option_map (λ bytes. bytes.now) content ≡ map.get files name.now)) }
    {
        let name = Cell::from_slice(self.alloc, name)?;
        match self.files.get(&name) {
            Some(content) => Ok(Some(content.as_slice())),
            None => Ok(None),
        }
    }
}

impl Store for MemStore {
    ghost use Rattle.scope_outside.specs.Memory as memory;

    ghost told = { memory.mem_told };

    fn read(&mut self, name: &[u8], out: &mut Vec<u8>) -> ReadAnswer
        ensures told { (more : List ℕ) × (out.new.items ≡ out.old.items ++ more) × AfterRead result name.now more (mem_told self.old) (mem_told self.new) }
        ensures counts { mem_state self.new ≡ record (mem_state self.old) { told = mem_told self.new; reads = next_call (mem_state self.old).reads } }
        ensures only_listed { result ≡ ReadAnswer.Failed → Contains (mem_state self.old).failing_reads (next_call (mem_state self.old).reads) }
        ensures all_listed { Contains (mem_state self.old).failing_reads (next_call (mem_state self.old).reads) → result ≢ ReadAnswer.Done }
    {
        self.reads = self.reads.saturating_add(1);
        let Ok(name) = Cell::from_slice(self.alloc, name) else {
            return ReadAnswer::NoMemory;
        };
        let Some(content) = self.files.get(&name) else {
            self.trouble.note_miss(name);
            return ReadAnswer::Missing;
        };
        if self.failing_reads.contains(&self.reads) {
            self.trouble.note_fault(name, false);
            return ReadAnswer::Failed;
        }
        match out.extend_from_slice(content.as_slice()) {
            Ok(()) => ReadAnswer::Done,
            Err(_) => ReadAnswer::NoMemory,
        }
    }

    fn write(&mut self, name: &[u8], bytes: &[u8]) -> WriteAnswer
        ensures told { AfterWrite result name.now bytes.now (mem_told self.old) (mem_told self.new) }
        ensures counts { mem_state self.new ≡ record (mem_state self.old) { told = mem_told self.new; writes = next_call (mem_state self.old).writes } }
        ensures only_listed { result ≡ WriteAnswer.Failed → Contains (mem_state self.old).failing_writes (next_call (mem_state self.old).writes) }
        ensures all_listed { Contains (mem_state self.old).failing_writes (next_call (mem_state self.old).writes) → result ≢ WriteAnswer.Done }
    {
        self.writes = self.writes.saturating_add(1);
        let Ok(name) = Cell::from_slice(self.alloc, name) else {
            return WriteAnswer::NoMemory;
        };
        let Ok(content) = Cell::from_slice(self.alloc, bytes) else {
            return WriteAnswer::NoMemory;
        };
        if self.failing_writes.contains(&self.writes) {
            self.trouble.note_fault(name, true);
            return WriteAnswer::Failed;
        }
        match self.files.insert(name, content) {
            Ok(()) => WriteAnswer::Done,
            Err(_) => WriteAnswer::NoMemory,
        }
    }
}
