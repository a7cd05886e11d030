// One case: its lines are taken in one after the other, and then it is run.
use itoa::Buffer;
use scope_app::{Status, scope_main, status_line, status_number};
use scope_outside::MemStore;
use std::alloc::{AllocError, Global};
use user_ops::OpSet;

// A case as far as its lines were taken in: its title, its files, the file whose lines are being read, and the names that are to be shown.
#[derive(Drop)]
pub struct Case {
    title: Vec<u8>,
    store: MemStore,
    name: Vec<u8>,
    text: Vec<u8>,
    shown: Vec<Vec<u8>>,
}

fn rest_of(alloc: Global, line: &[u8]) -> Result<Vec<u8>, AllocError> {
    let mut rest = Vec::new(alloc);
    for byte in line.iter().skip(2) {
        if *byte != b'\n' {
            rest.push(*byte)?;
        }
    }
    Ok(rest)
}

impl Case {
    pub fn new(alloc: Global) -> Case {
        Case {
            title: Vec::new(alloc),
            store: MemStore::new(alloc),
            name: Vec::new(alloc),
            text: Vec::new(alloc),
            shown: Vec::new(alloc),
        }
    }

    // Puts the file whose lines were read.
    fn end_file(&mut self) -> Result<(), AllocError> {
        if !self.name.is_empty() {
            self.store.put(self.name.as_slice(), self.text.as_slice())?;
        }
        self.name.clear();
        self.text.clear();
        Ok(())
    }

    /// Takes in a line.
    pub fn take(&mut self, alloc: Global, line: &[u8]) -> Result<(), AllocError> {
        if line.starts_with(b"# ") {
            self.title = rest_of(alloc, line)?;
        } else if line.starts_with(b"@ ") {
            self.end_file()?;
            self.name = rest_of(alloc, line)?;
        } else if line.starts_with(b"> ") {
            self.end_file()?;
            let name = rest_of(alloc, line)?;
            self.shown.push(name)?;
        } else {
            self.text.extend_from_slice(line)?;
        }
        Ok(())
    }

    /// Runs the script, if there is a case, and prints the status and what stands under the names that are to be shown.
    pub fn run(
        &mut self,
        alloc: Global,
        ops: &OpSet,
        printed: &mut Vec<u8>,
    ) -> Result<(), AllocError> {
        if self.title.is_empty() {
            return Ok(());
        }
        self.end_file()?;
        let words = words_of(alloc, self.store.get(b"z")?.is_some())?;
        let status = scope_main(alloc, words.as_slice(), &mut self.store, ops);
        printed.extend_from_slice(b"# ")?;
        printed.extend_from_slice(self.title.as_slice())?;
        print_status(&status, printed)?;
        for name in self.shown.iter() {
            print_file(&self.store, name.as_slice(), printed)?;
        }
        Ok(())
    }
}

fn words_of(alloc: Global, has_sizes: bool) -> Result<Vec<String>, AllocError> {
    let mut words = Vec::new(alloc);
    for word in ["scope", "run", "s"] {
        words.push(String::from_str(alloc, word)?)?;
    }
    if has_sizes {
        words.push(String::from_str(alloc, "--sizes=z")?)?;
    }
    Ok(words)
}

fn print_status(status: &Status, printed: &mut Vec<u8>) -> Result<(), AllocError> {
    let mut number = Buffer::new();
    printed.extend_from_slice(b"\n= ")?;
    printed.extend_from_slice(number.format(u64::from(status_number(status))).as_bytes())?;
    if let Status::Done = status {
        printed.push(b'\n')?;
        return Ok(());
    }
    printed.push(b' ')?;
    status_line(status, printed)?;
    printed.push(b'\n')?;
    Ok(())
}

fn print_file(store: &MemStore, name: &[u8], printed: &mut Vec<u8>) -> Result<(), AllocError> {
    printed.extend_from_slice(b"> ")?;
    printed.extend_from_slice(name)?;
    match store.get(name)? {
        Some(bytes) => {
            printed.push(b'\n')?;
            printed.extend_from_slice(bytes)
        }
        None => printed.extend_from_slice(b" -\n"),
    }
}
