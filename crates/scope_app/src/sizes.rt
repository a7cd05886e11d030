// The sizes of the streams.
ghost use Rattle.std.specs.Prelude.{◌≡◌, ℕ, List, Option, IfOk, IfErr};
ghost use Rattle.scope_words.specs.Views.{text_of};
ghost use Rattle.row_codec.specs.Records.{records_of};
ghost use Rattle.size_model.specs.Answers.{Reads, parts_of};
ghost use Rattle.scope_app.specs.Ends.{OnScript, ScriptEnded};
ghost use Rattle.scope_app.specs.Stages.{AreBuilt, AreSized, EndsSizes};
ghost use Rattle.logical_dag.specs.declared.dag.Dag.{Dag};
ghost use Rattle.user_ops.specs.Told.{Operators};

use crate::binding::read_status;
use crate::status::Status;
use scope_outside::Store;
use scope_streams::read_file;
use size_model::{Sizes, read_sizes};
use std::alloc::{AllocError, Global};

// The sizes that the bytes of a file declare.
fn sizes_of(alloc: Global, bytes: &[u8]) -> Result<Sizes, Status>
    ensures ok { IfOk result (Reads (records_of 44 bytes.now)) }
    ensures err { IfErr result (EndsSizes bytes.now) }
{
    match read_sizes(alloc, bytes) {
        Ok(Ok(sizes)) => Ok(sizes),
        Ok(Err(fault)) => Err(Status::SizesFault(fault)),
        Err(AllocError) => Err(Status::NoMemory),
    }
}

// The sizes that the file of this name declares.
fn sizes_in<S: Store>(alloc: Global, file: &[u8], store: &mut S) -> Result<Sizes, Status>
    ensures ok { IfOk result (λ sizes. (S.told store.new ≡ S.told store.old) × ((ops : Operators) (script : List ℕ) (dag : Dag)
        → OnScript ops (S.told store.old) script (Some file.now) (AreBuilt dag)
        → OnScript ops (S.told store.old) script (Some file.now) (AreSized dag (parts_of sizes)))) }
    ensures err { IfErr result (λ status. (ops : Operators) (script : List ℕ) (dag : Dag)
        → OnScript ops (S.told store.old) script (Some file.now) (AreBuilt dag)
        → ScriptEnded ops script (Some file.now) (S.told store.old) (S.told store.new) status) }
{
    match read_file(alloc, store, file) {
        Ok(bytes) => sizes_of(alloc, bytes.as_slice()),
        Err(stop) => Err(read_status(stop)),
    }
}

/// The sizes that the file of this name declares, if there is one, of a script that runs; else those that nothing declares.
pub(crate) fn sizes_of_run<S: Store>(
    alloc: Global,
    file: Option<&str>,
    store: &mut S,
) -> Result<Sizes, Status>
    ensures ok { IfOk result (λ sizes. (S.told store.new ≡ S.told store.old) × ((ops : Operators) (script : List ℕ) (dag : Dag)
        → OnScript ops (S.told store.old) script (text_of file.entry) (AreBuilt dag)
        → OnScript ops (S.told store.old) script (text_of file.entry) (AreSized dag (parts_of sizes)))) }
    ensures err { IfErr result (λ status. (ops : Operators) (script : List ℕ) (dag : Dag)
        → OnScript ops (S.told store.old) script (text_of file.entry) (AreBuilt dag)
        → ScriptEnded ops script (text_of file.entry) (S.told store.old) (S.told store.new) status) }
{
    match file {
        Some(file) => sizes_in(alloc, file.as_bytes(), store),
        None => Ok(Sizes::new(alloc)),
    }
}
