// The top call: what the words ask for, done over a store.
ghost use Rattle.std.specs.Prelude.{◌≡◌, ℕ, List, Option, map};
ghost use Rattle.std.specs.String.{string_bytes};
ghost use Rattle.scope_words.specs.Views.{text_of};
ghost use Rattle.script_binder.specs.Binding.{IsReady};
ghost use Rattle.scope_app.specs.Ends.{Ended, OnScript, ScriptEnded};
ghost use Rattle.scope_app.specs.Stages.{AreShown, AreBuilt};

use crate::binding::dag_of_name;
use crate::normal::{is_stored, normal_dag};
use crate::running::run_sized;
use crate::sizes::sizes_of_run;
use crate::status::Status;
use logical_dag::Dag;
use scope_outside::Store;
use std::alloc::{AllocError, Global};
use user_ops::{OpSet, Tells};

/// Does what the words ask for: runs the script that they name over the store with the operators.
///
/// The script is read and bound first, then the file of sizes is read, if the words name one, and then the parts of the streams that the
/// script reads, in turn. The outputs are written last, in turn, once all their texts are made. So nothing is written unless all was read.
pub fn scope_main<S: Store>(alloc: Global, words: &[String], store: &mut S, ops: &OpSet) -> Status
    ensures { Ended (map string_bytes words.now) (⟦<OpSet as Tells>⟧.tells ops.now) (S.told store.old) (S.told store.new) result }
{
    match scope_words::read(alloc, words) {
        Ok(Some(reading)) => run_script(
            alloc,
            reading.script.as_bytes(),
            reading.sizes,
            store,
            ops,
        ),
        Ok(None) => Status::NotBuilt,
        Err(AllocError) => Status::NoMemory,
    }
}

// Reads the script of this name and runs it.
fn run_script<S: Store>(
    alloc: Global,
    name: &[u8],
    sizes: Option<&str>,
    store: &mut S,
    ops: &OpSet,
) -> Status
    ensures { ScriptEnded (⟦<OpSet as Tells>⟧.tells ops.now) name.now (text_of sizes.entry) (S.told store.old) (S.told store.new) result }
{
    match dag_of_name(alloc, name, store, ops) {
        Ok(dag) => run_dag(alloc, dag, sizes, store, ops),
        Err(status) => status,
    }
}

// Runs a Dag that a script binds to.
fn run_dag<S: Store>(
    alloc: Global,
    dag: Dag,
    sizes: Option<&str>,
    store: &mut S,
    ops: &OpSet,
) -> Status
    requires { IsReady (⟦<OpSet as Tells>⟧.tells ops.now) dag }
    ensures { (script : List ℕ)
        → OnScript (⟦<OpSet as Tells>⟧.tells ops.now) (S.told store.old) script (text_of sizes.entry) (AreShown dag)
        → ScriptEnded (⟦<OpSet as Tells>⟧.tells ops.now) script (text_of sizes.entry) (S.told store.old) (S.told store.new) result }
{
    if is_stored(&dag) {
        drop(dag);
        return Status::NotBuilt;
    }
    match normal_dag(alloc, dag) {
        Ok(dag) => run_built(alloc, &dag, sizes, store, ops),
        Err(AllocError) => Status::NoMemory,
    }
}

// Runs a Dag of which nothing is stored.
fn run_built<S: Store>(
    alloc: Global,
    dag: &Dag,
    file: Option<&str>,
    store: &mut S,
    ops: &OpSet,
) -> Status
    requires { IsReady (⟦<OpSet as Tells>⟧.tells ops.now) dag.now }
    ensures { (script : List ℕ)
        → OnScript (⟦<OpSet as Tells>⟧.tells ops.now) (S.told store.old) script (text_of file.entry) (AreBuilt dag.now)
        → ScriptEnded (⟦<OpSet as Tells>⟧.tells ops.now) script (text_of file.entry) (S.told store.old) (S.told store.new) result }
{
    match sizes_of_run(alloc, file, store) {
        Ok(sizes) => run_sized(alloc, dag, &sizes, store, ops),
        Err(status) => status,
    }
}
