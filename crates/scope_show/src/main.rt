//! The program `scope_show`: prints how a script is understood, as text.
//!
//! `scope_show bound SCRIPT` prints the Dag that binding gives, and `scope_show normal SCRIPT` its normal form. What ends the reading or the
//! binding of a script ends the program with the line and the number of `scope run`; other words end it with the number 2, and a failing
//! standard output with 12.
#![tactic(auto)]

ghost use Rattle.logical_dag.specs.Scripts.{IsBindable};

use dag_text::write_dag;
use logical_dag::Dag;
use normal_form::normalise;
use scope_app::{Status, read_dag, status_line, status_number};
use scope_ops::{Uses, with_operators};
use scope_outside::{FileStore, Store};
use std::alloc::{AllocError, Global};
use std::env;
use std::io::{self, Write};
use std::process::ExitCode;
use std::rt::{Env, Files};
use user_ops::OpSet;

// What is to be shown of which script, and what comes of it: what is printed, or how that ended.
#[derive(Drop)]
struct Show<'a, S> {
    is_normal: bool,
    script: &'a [u8],
    store: S,
    shown: Result<Vec<u8>, Status>,
}

impl<'a, S: Store> Uses for Show<'a, S> {
    fn use_operators(&mut self, alloc: Global, ops: &OpSet) {
        self.shown = shown(alloc, self.is_normal, self.script, &mut self.store, ops);
    }
}

fn main(rt: HostRuntime) -> ExitCode {
    let alloc = rt.alloc();
    match answer(&rt, alloc).unwrap_or(Some(Err(Status::NoMemory))) {
        Some(Ok(text)) => match rt.stdout().write_all(text.as_slice()) {
            Ok(()) => ExitCode::SUCCESS,
            Err(_) => {
                let _ = rt
                    .stderr()
                    .write_all(b"scope_show: cannot write to standard output\n");
                ExitCode::from(12)
            }
        },
        Some(Err(status)) => {
            let mut line = Vec::new(alloc);
            if status_line(&status, &mut line).is_ok() && line.push(b'\n').is_ok() {
                let _ = rt.stderr().write_all(line.as_slice());
            }
            ExitCode::from(exit_code(&status))
        }
        None => {
            let _ = rt
                .stderr()
                .write_all(b"scope_show: usage: scope_show bound/normal SCRIPT\n");
            ExitCode::from(2)
        }
    }
}

fn exit_code(status: &Status) -> u8 {
    u8::try_from(status_number(status)).unwrap_or(u8::MAX)
}

// What the words ask for, or None where they ask for nothing.
fn answer<R: Env + Files + AllocGlobal>(
    rt: &R,
    alloc: Global,
) -> Result<Option<Result<Vec<u8>, Status>>, AllocError> {
    let words = words_of(rt, alloc)?;
    match words.as_slice() {
        [_, view, script] if view.as_str() == "bound" || view.as_str() == "normal" => {
            let mut show = Show {
                is_normal: view.as_str() == "normal",
                script: script.as_bytes(),
                store: FileStore::new(alloc, rt),
                shown: Err(Status::NoMemory),
            };
            with_operators(alloc, &mut show)?;
            let Show { shown, .. } = show;
            Ok(Some(shown))
        }
        _ => Ok(None),
    }
}

fn shown<S: Store>(
    alloc: Global,
    is_normal: bool,
    script: &[u8],
    store: &mut S,
    ops: &OpSet,
) -> Result<Vec<u8>, Status> {
    let dag = read_dag(alloc, script, store, ops)?;
    text_of(alloc, is_normal, dag).map_err(|_| Status::NoMemory)
}

fn text_of(alloc: Global, is_normal: bool, dag: Dag) -> Result<Vec<u8>, AllocError>
    requires { IsBindable dag }
{
    let dag = if is_normal {
        normalise(alloc, dag)?
    } else {
        dag
    };
    let mut text = Vec::new(alloc);
    write_dag(alloc, &dag, &mut text)?;
    Ok(text)
}

// The process's words; none where a word isn't UTF-8.
fn words_of<R: Env + AllocGlobal>(rt: &R, alloc: Global) -> Result<Vec<String>, AllocError> {
    let mut words = Vec::new(alloc);
    match env::args(rt) {
        Ok(args) => {
            for word in args {
                words.push(word)?;
            }
            Ok(words)
        }
        Err(error) if error.kind() == io::ErrorKind::OutOfMemory => Err(AllocError),
        Err(_) => Ok(words),
    }
}
