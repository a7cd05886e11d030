//! Runs each script of a file of cases over a store of its own in memory, with the operators of the program, and prints how the call
//! ended and what it wrote.
//!
//! A case begins with `# ` and its title. Behind that stands each of its files, `@ ` and the name and then the file's lines, and at last
//! each name whose bytes are to be shown, `> ` and the name. The script is the file `s`, and the file of sizes, if there is one, `z`.
#![tactic(auto)]

mod case;

use bstr::ByteSlice;
use case::Case;
use scope_ops::{Uses, with_operators};
use scope_outside::{FileStore, ReadAnswer, Store};
use std::alloc::{AllocError, Global};
use std::env;
use std::io::Write;
use std::process::ExitCode;
use std::rt::{Env, Files};
use user_ops::OpSet;

// The text of the cases, what is printed of them, and whether memory lasted.
#[derive(Drop)]
struct Cases<'a> {
    text: &'a [u8],
    printed: Vec<u8>,
    is_done: bool,
}

impl<'a> Uses for Cases<'a> {
    fn use_operators(&mut self, alloc: Global, ops: &OpSet) {
        self.is_done = run_all(alloc, self.text, ops, &mut self.printed).is_ok();
    }
}

fn main(rt: HostRuntime) -> ExitCode {
    let alloc = rt.alloc();
    match printed(&rt, alloc) {
        Ok(bytes) => {
            let _ = rt.stdout().write_all(bytes.as_slice());
            ExitCode::SUCCESS
        }
        Err(AllocError) => ExitCode::FAILURE,
    }
}

// What is printed of the cases in the file that the first word names; nothing where it can't be read.
fn printed<R: Env + Files + AllocGlobal>(rt: &R, alloc: Global) -> Result<Vec<u8>, AllocError> {
    let text = text_of(rt, alloc)?;
    let mut cases = Cases {
        text: text.as_slice(),
        printed: Vec::new(alloc),
        is_done: false,
    };
    with_operators(alloc, &mut cases)?;
    let Cases {
        printed,
        is_done,
        ..
    } = cases;
    if is_done {
        Ok(printed)
    } else {
        Err(AllocError)
    }
}

fn text_of<R: Env + Files + AllocGlobal>(rt: &R, alloc: Global) -> Result<Vec<u8>, AllocError> {
    let mut text = Vec::new(alloc);
    let Ok(args) = env::args(rt) else {
        return Ok(text);
    };
    for (at, word) in args.enumerate() {
        if at == 1 {
            let mut store = FileStore::new(alloc, rt);
            if let ReadAnswer::NoMemory = store.read(word.as_bytes(), &mut text) {
                return Err(AllocError);
            }
        }
    }
    Ok(text)
}

// Takes in one line after the other, and runs a case where the next one begins, and the last one at the end.
fn run_all(
    alloc: Global,
    text: &[u8],
    ops: &OpSet,
    printed: &mut Vec<u8>,
) -> Result<(), AllocError> {
    let mut case = Case::new(alloc);
    for line in text.lines_with_terminator() {
        if line.starts_with(b"# ") {
            case.run(alloc, ops, printed)?;
            case = Case::new(alloc);
        }
        case.take(alloc, line)?;
    }
    case.run(alloc, ops, printed)
}
