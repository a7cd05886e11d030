//! The program `scope`: hands the process's words, its files and its operators to the top call, says how that ended, and ends with
//! its number.
#![tactic(auto)]

use scope_app::{Status, scope_main, status_line, status_number};
use scope_ops::{Uses, with_operators};
use scope_outside::{FileStore, Store};
use std::alloc::{AllocError, Global};
use std::env;
use std::io::{self, Write};
use std::process::ExitCode;
use std::rt::{Env, Files};
use user_ops::OpSet;

// The top call, to be made with the operators, and how it ended.
#[derive(Drop)]
struct Call<'a, S> {
    words: &'a [String],
    store: S,
    status: Status,
}

impl<'a, S: Store> Uses for Call<'a, S> {
    fn use_operators(&mut self, alloc: Global, ops: &OpSet) {
        self.status = scope_main(alloc, self.words, &mut self.store, ops);
    }
}

fn main(rt: HostRuntime) -> ExitCode {
    let alloc = rt.alloc();
    let status = run(&rt, alloc).unwrap_or(Status::NoMemory);
    let mut line = Vec::new(alloc);
    // Where memory for the line is refused, or standard error can't be written, the number alone tells how the call ended.
    if status_line(&status, &mut line).is_ok() && !line.is_empty() && line.push(b'\n').is_ok() {
        let _ = rt.stderr().write_all(line.as_slice());
    }
    ExitCode::from(exit_code(&status))
}

// Makes the top call over the process's words and files.
fn run<R: Env + Files + AllocGlobal>(rt: &R, alloc: Global) -> Result<Status, AllocError> {
    let words = words_of(rt, alloc)?;
    let mut call = Call {
        words: words.as_slice(),
        store: FileStore::new(alloc, rt),
        status: Status::NoMemory,
    };
    with_operators(alloc, &mut call)?;
    Ok(call.status)
}

// The word, or `scope` in place of the first one, which is the program's own name.
fn word_at(alloc: Global, at: usize, word: String) -> Result<String, AllocError> {
    if at > 0 {
        return Ok(word);
    }
    drop(word);
    String::from_str(alloc, "scope")
}

// Adds the word at its place.
fn put_word(
    alloc: Global,
    at: usize,
    word: String,
    words: &mut Vec<String>,
) -> Result<(), AllocError> {
    let word = word_at(alloc, at, word)?;
    words.push(word)?;
    Ok(())
}

// The process's words, with `scope` in place of the program's own name; none where a word isn't UTF-8, which no reading takes.
fn words_of<R: Env + AllocGlobal>(rt: &R, alloc: Global) -> Result<Vec<String>, AllocError> {
    let mut words = Vec::new(alloc);
    match env::args(rt) {
        Ok(args) => {
            for (at, word) in args.enumerate() {
                put_word(alloc, at, word, &mut words)?;
            }
            Ok(words)
        }
        Err(error) if error.kind() == io::ErrorKind::OutOfMemory => Err(AllocError),
        Err(_) => Ok(words),
    }
}

fn exit_code(status: &Status) -> u8 {
    u8::try_from(status_number(status)).unwrap_or(u8::MAX)
}
