// A Dag that runs: the parts of its streams are read, its rows are computed, and their texts are written.
ghost use Rattle.std.specs.Prelude.{◌≡◌, ℕ, List, Option, IfOk};
ghost use Rattle.logical_trees.specs.Rows.{Bag};
ghost use Rattle.size_model.specs.Answers.{parts_of};
ghost use Rattle.scope_streams.specs.Ends.{bags_of, named_texts};
ghost use Rattle.script_binder.specs.Binding.{IsReady};
ghost use Rattle.scope_app.specs.Ends.{OnScript, ScriptEnded};
ghost use Rattle.scope_app.specs.Stages.{AreSized, AreScanned, AreTexts, write_status};

use crate::binding::read_status;
use crate::laws::meanings_law;
use crate::status::Status;
use logical_dag::Dag;
use plain_runner::plain_rows;
use scope_outside::Store;
use scope_streams::{WriteStop, output_texts, read_scans, write_texts};
use scope_value::Row;
use size_model::Sizes;
use std::alloc::{AllocError, Global};
use user_ops::{OpSet, Tells};

// The status of a call whose writes ended so.
fn write_status(end: Result<(), WriteStop>) -> Status
    ensures { result ≡ write_status end }
{
    match end {
        Ok(()) => Status::Done,
        Err(WriteStop::NoMemory) => Status::NoMemory,
        Err(WriteStop::Failed(name)) => Status::WriteFault(name),
    }
}

// The texts of the outputs, where the scans have these rows.
fn texts_of(
    alloc: Global,
    dag: &Dag,
    ops: &OpSet,
    scans: &[Vec<Row>],
) -> Result<Vec<Vec<u8>>, AllocError>
    requires { IsReady (⟦<OpSet as Tells>⟧.tells ops.now) dag.now }
    ensures { IfOk result (λ texts. AreTexts (⟦<OpSet as Tells>⟧.tells ops.now) dag.now (bags_of scans.now) (named_texts dag.now.outputs texts.items)) }
{
    let rows = plain_rows(alloc, dag, ops, scans)?;
    output_texts(alloc, dag.outputs.as_slice(), rows.as_slice())
}

// Writes the texts of the outputs of a script whose scans have these rows.
fn write_outputs<S: Store>(dag: &Dag, ops: &OpSet, texts: &[Vec<u8>], store: &mut S) -> Status
    ensures { (script : List ℕ) (sizes : Option (List ℕ)) (bags : List Bag)
        → OnScript (⟦<OpSet as Tells>⟧.tells ops.now) (S.told store.old) script sizes (AreScanned dag.now bags)
        → AreTexts (⟦<OpSet as Tells>⟧.tells ops.now) dag.now bags (named_texts dag.now.outputs texts.now)
        → ScriptEnded (⟦<OpSet as Tells>⟧.tells ops.now) script sizes (S.told store.old) (S.told store.new) result }
{
    meanings_law(ops);
    write_status(write_texts(store, dag.outputs.as_slice(), texts))
}

// Runs the Dag, where its scans have these rows.
fn run_scanned<S: Store>(
    alloc: Global,
    dag: &Dag,
    scans: &[Vec<Row>],
    store: &mut S,
    ops: &OpSet,
) -> Status
    requires { IsReady (⟦<OpSet as Tells>⟧.tells ops.now) dag.now }
    ensures { (script : List ℕ) (sizes : Option (List ℕ))
        → OnScript (⟦<OpSet as Tells>⟧.tells ops.now) (S.told store.old) script sizes (AreScanned dag.now (bags_of scans.now))
        → ScriptEnded (⟦<OpSet as Tells>⟧.tells ops.now) script sizes (S.told store.old) (S.told store.new) result }
{
    match texts_of(alloc, dag, ops, scans) {
        Ok(texts) => write_outputs(dag, ops, texts.as_slice(), store),
        Err(AllocError) => Status::NoMemory,
    }
}

/// Runs a Dag that is ready, of a script whose streams have these sizes.
pub(crate) fn run_sized<S: Store>(
    alloc: Global,
    dag: &Dag,
    sizes: &Sizes,
    store: &mut S,
    ops: &OpSet,
) -> Status
    requires { IsReady (⟦<OpSet as Tells>⟧.tells ops.now) dag.now }
    ensures { (script : List ℕ) (file : Option (List ℕ))
        → OnScript (⟦<OpSet as Tells>⟧.tells ops.now) (S.told store.old) script file (AreSized dag.now (parts_of sizes.now))
        → ScriptEnded (⟦<OpSet as Tells>⟧.tells ops.now) script file (S.told store.old) (S.told store.new) result }
{
    match read_scans(alloc, store, ops, sizes, dag.scans.as_slice()) {
        Ok(scans) => run_scanned(alloc, dag, scans.as_slice(), store, ops),
        Err(stop) => read_status(stop),
    }
}
