// The store in memory that never fails.
ghost use Rattle.std.specs.Prelude.{◌≡◌, ◌≢◌, ℕ, List, ◌++◌, Some, OnOk, OnErr, IfOk};
ghost use Rattle.std.specs.Option.{option_map};
ghost use Rattle.std.specs.FinMap as map;
ghost use Rattle.scope_outside.specs.State.{OnFiles, untroubled};
ghost use Rattle.scope_outside.specs.Answers.{AfterRead, AfterWrite, with_file};
ghost use Rattle.scope_outside.specs.NoFail.{no_fail_told};

use crate::file_map::FileMap;
use crate::trouble::raised;
use crate::{ReadAnswer, Store, WriteAnswer};
use scope_value::Cell;
use std::alloc::{AllocError, Global};

/// A map in memory, whose reads and writes never fail: its count of faults is the constant 0.
#[derive(Drop)]
pub struct NoFailStore {
    alloc: Global,
    files: FileMap,
    misses: u64,
    latest_miss: Option<Cell>,
}

impl NoFailStore {
    /// An empty map.
    pub fn new(alloc: Global) -> NoFailStore
        ensures { no_fail_told result ≡ untroubled (Some map.empty) }
    {
        NoFailStore {
            alloc,
            files: FileMap::new(alloc),
            misses: 0,
            latest_miss: None,
        }
    }

    /// Puts the bytes under the name. An error is want of memory alone, and then nothing has changed.
    pub fn put(&mut self, name: &[u8], bytes: &[u8]) -> Result<(), AllocError>
        ensures ok { OnOk result (no_fail_told self.new ≡ record (no_fail_told self.old) { files = with_file (no_fail_told self.old).files name.now bytes.now }) }
        ensures err { OnErr result (no_fail_told self.new ≡ no_fail_told self.old) }
    {
        let name = Cell::from_slice(self.alloc, name)?;
        let bytes = Cell::from_slice(self.alloc, bytes)?;
        self.files.insert(name, bytes)?;
        Ok(())
    }

    /// The bytes under the name, where there are some. It counts as no read. An error is want of memory alone.
    pub fn get(&self, name: &[u8]) -> Result<Option<&[u8]>, AllocError>
        ensures { IfOk result (λ content. OnFiles (no_fail_told self.now) (λ files. option_map (λ bytes. bytes.now) content ≡ map.get files name.now)) }
    {
        let name = Cell::from_slice(self.alloc, name)?;
        match self.files.get(&name) {
            Some(content) => Ok(Some(content.as_slice())),
            None => Ok(None),
        }
    }
}

impl Store for NoFailStore {
    ghost use Rattle.scope_outside.specs.NoFail as no_fail;

    ghost told = { no_fail.no_fail_told };

    fn read(&mut self, name: &[u8], out: &mut Vec<u8>) -> ReadAnswer
        ensures told { (more : List ℕ) × (out.new.items ≡ out.old.items ++ more) × AfterRead result name.now more (no_fail_told self.old) (no_fail_told self.new) }
        ensures never_fails { result ≢ ReadAnswer.Failed }
    {
        let Ok(name) = Cell::from_slice(self.alloc, name) else {
            return ReadAnswer::NoMemory;
        };
        let Some(content) = self.files.get(&name) else {
            self.misses = raised(self.misses);
            self.latest_miss = Some(name);
            return ReadAnswer::Missing;
        };
        match out.extend_from_slice(content.as_slice()) {
            Ok(()) => ReadAnswer::Done,
            Err(_) => ReadAnswer::NoMemory,
        }
    }

    fn write(&mut self, name: &[u8], bytes: &[u8]) -> WriteAnswer
        ensures told { AfterWrite result name.now bytes.now (no_fail_told self.old) (no_fail_told self.new) }
        ensures never_fails { result ≢ WriteAnswer.Failed }
    {
        match self.put(name, bytes) {
            Ok(()) => WriteAnswer::Done,
            Err(_) => WriteAnswer::NoMemory,
        }
    }
}
