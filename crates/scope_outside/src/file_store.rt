// The store of the program itself: files of the operating system. This is the trusted edge, since no clause can say what a file holds.
ghost use Rattle.std.specs.Prelude.{◌≡◌, ◌++◌, ◌⊎◌, ℕ, List, None, IsUtf8};
ghost use Rattle.scope_outside.specs.Answers.{AfterRead, AfterWrite};
ghost use Rattle.scope_outside.specs.State.{untroubled};
ghost use Rattle.scope_outside.specs.File.{file_told};

use crate::trouble::Trouble;
use crate::whole_file::{read_file, write_file};
use crate::{ReadAnswer, Store, WriteAnswer};
use scope_value::Cell;
use std::alloc::Global;
use std::rt::Files;

/// The files of a runtime, with names as paths. It tells its counts and its latest trouble alone, and no content.
///
/// A name that isn't UTF-8 fails, and so does a file of more than 2^32 bytes, and a write of which the system takes nothing.
/// A file that isn't there is missing at a read, and made at a write, which cuts off what an older file held.
#[derive(Drop)]
pub struct FileStore<'a, R> {
    alloc: Global,
    runtime: &'a R,
    trouble: Trouble,
}

impl<'a, R: Files> FileStore<'a, R> {
    /// The files that the runtime reaches. No call has failed yet.
    pub fn new(alloc: Global, runtime: &'a R) -> FileStore<'a, R>
        ensures { file_told result ≡ untroubled None }
    {
        FileStore {
            alloc,
            runtime,
            trouble: Trouble::new(),
        }
    }
}

impl<'a, R: Files> Store for FileStore<'a, R> {
    ghost use Rattle.scope_outside.specs.File as file;

    ghost told = { file.file_told };

    // The name is kept before a file is touched, so that want of memory for it leaves everything as it was.
    fn read(&mut self, name: &[u8], out: &mut Vec<u8>) -> ReadAnswer
        ensures told { (more : List ℕ) × (out.new.items ≡ out.old.items ++ more) × AfterRead result name.now more (file_told self.old) (file_told self.new) }
        ensures text_alone { ¬ (IsUtf8 name.now) → (result ≡ ReadAnswer.Failed) ⊎ (result ≡ ReadAnswer.NoMemory) }
    {
        let Ok(kept_name) = Cell::from_slice(self.alloc, name) else {
            return ReadAnswer::NoMemory;
        };
        let answer = read_file(self.runtime, name, out);
        match answer {
            ReadAnswer::Missing => self.trouble.note_miss(kept_name),
            ReadAnswer::Failed => self.trouble.note_fault(kept_name, false),
            ReadAnswer::Done | ReadAnswer::NoMemory => {}
        }
        answer
    }

    fn write(&mut self, name: &[u8], bytes: &[u8]) -> WriteAnswer
        ensures told { AfterWrite result name.now bytes.now (file_told self.old) (file_told self.new) }
        ensures text_alone { ¬ (IsUtf8 name.now) → (result ≡ WriteAnswer.Failed) ⊎ (result ≡ WriteAnswer.NoMemory) }
    {
        let Ok(kept_name) = Cell::from_slice(self.alloc, name) else {
            return WriteAnswer::NoMemory;
        };
        let answer = write_file(self.runtime, name, bytes);
        match answer {
            WriteAnswer::Failed => self.trouble.note_fault(kept_name, true),
            WriteAnswer::Done | WriteAnswer::NoMemory => {}
        }
        answer
    }
}

#[cfg(test)]
mod tests {
    use super::FileStore;
    use crate::latest::Latest;
    use crate::{ReadAnswer, Store, WriteAnswer};
    use std::fs;
    use std::test::Fail;

    const NAME: &[u8] = b"scope_outside_test";

    const LARGE: &str = "scope_outside_test_large";

    #[test]
    fn files_are_written_and_read_back(rt: HostRuntime) -> Result<(), Fail> {
        let alloc = rt.alloc();
        let large = fs::File::create(&rt, LARGE)?;
        large.set_len((1 << 32) + 1)?;
        let mut store = FileStore::new(alloc, &rt);
        assert_eq!(rt;
            store.write(NAME, b"longer than what follows"),
            WriteAnswer::Done
        );
        assert_eq!(rt; store.write(NAME, b"a\n\0\xff"), WriteAnswer::Done);
        let mut out = Vec::from_slice(alloc, b"kept,")?;
        assert_eq!(rt; store.read(NAME, &mut out), ReadAnswer::Done);
        assert!(rt; out.as_slice() == b"kept,a\n\0\xff".as_slice());
        fs::remove_file(&rt, "scope_outside_test")?;
        assert_eq!(rt; store.read(NAME, &mut out), ReadAnswer::Missing);
        for name in [b"\xff".as_slice(), b".".as_slice(), LARGE.as_bytes()] {
            assert_eq!(rt; store.read(name, &mut out), ReadAnswer::Failed);
        }
        fs::remove_file(&rt, LARGE)?;
        assert!(rt; out.as_slice() == b"kept,a\n\0\xff".as_slice());
        for name in [b"\xff".as_slice(), b".".as_slice()] {
            assert_eq!(rt; store.write(name, b"bytes"), WriteAnswer::Failed);
        }
        assert_eq!(rt; (store.trouble.misses, store.trouble.faults), (1, 5));
        let latest = store.trouble.latest.as_ref();
        assert!(rt;
            latest.is_some_and(|call: &Latest| call.name.as_slice() == b".".as_slice()
                && call.wrote)
        );
        Ok(())
    }
}
