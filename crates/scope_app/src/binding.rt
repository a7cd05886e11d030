// From the name of a script to its Dag.
ghost use Rattle.std.specs.Prelude.{◌≡◌, ℕ, List, Option, None, IfOk, IfErr};
ghost use Rattle.scope_outside.specs.State.{StoreState};
ghost use Rattle.user_ops.specs.Told.{Operators};
ghost use Rattle.script_binder.specs.Binding.{IsReady};
ghost use Rattle.scope_app.specs.Ends.{ScriptEnded};
ghost use Rattle.scope_app.specs.ScriptText.{IsScriptText};
ghost use Rattle.scope_app.specs.Shown.{IsDagOf};
ghost use Rattle.scope_app.specs.Stages.{BindsText, EndsText, read_status};

use crate::status::{ScriptPlace, Status};
use logical_dag::Dag;
use scope_lexer::lex;
use scope_outside::Store;
use scope_streams::{ReadStop, read_file};
use scope_syntax::{Script, parse};
use script_binder::bind;
use std::alloc::{AllocError, Global};
use user_ops::{OpSet, Tells};

/// The status of a call that ended at a read.
pub(crate) fn read_status(stop: ReadStop) -> Status
    ensures { result ≡ read_status stop }
{
    match stop {
        ReadStop::NoMemory => Status::NoMemory,
        ReadStop::Failed(name) => Status::ReadFault(name),
        ReadStop::Missing(name) => Status::NoStream(name),
        ReadStop::Refused { name, part, at } => Status::RowFault { name, part, at },
    }
}

// The script that the bytes spell.
fn script_of(alloc: Global, bytes: &[u8]) -> Result<Script, Status>
    ensures ok { IfOk result (IsScriptText bytes.now) }
    ensures err { IfErr result (λ status. (ops : Operators) → EndsText ops bytes.now status) }
{
    let Ok(text) = std::str::from_utf8(bytes) else {
        return Err(Status::NotText);
    };
    let tokens = match lex(alloc, text) {
        Ok(Ok(tokens)) => tokens,
        Ok(Err(fault)) => return Err(Status::ScriptFault(ScriptPlace::Lex(fault))),
        Err(AllocError) => return Err(Status::NoMemory),
    };
    match parse(alloc, text, tokens.as_slice()) {
        Ok(Ok(script)) => Ok(script),
        Ok(Err(fault)) => Err(Status::ScriptFault(ScriptPlace::Syntax(fault))),
        Err(AllocError) => Err(Status::NoMemory),
    }
}

// The Dag of a script that the bytes spell.
fn bound(alloc: Global, script: &Script, bytes: &[u8], ops: &OpSet) -> Result<Dag, Status>
    requires { IsScriptText bytes.now script.now }
    ensures ok { IfOk result (BindsText (⟦<OpSet as Tells>⟧.tells ops.now) bytes.now) }
    ensures ready { IfOk result (IsReady (⟦<OpSet as Tells>⟧.tells ops.now)) }
    ensures err { IfErr result (EndsText (⟦<OpSet as Tells>⟧.tells ops.now) bytes.now) }
{
    match bind(alloc, script, ops) {
        Ok(Ok(dag)) => Ok(dag),
        Ok(Err(fault)) => Err(Status::BindFault(fault)),
        Err(AllocError) => Err(Status::NoMemory),
    }
}

// The Dag of the bytes of a script.
fn dag_of_text(alloc: Global, bytes: &[u8], ops: &OpSet) -> Result<Dag, Status>
    ensures ok { IfOk result (BindsText (⟦<OpSet as Tells>⟧.tells ops.now) bytes.now) }
    ensures ready { IfOk result (IsReady (⟦<OpSet as Tells>⟧.tells ops.now)) }
    ensures err { IfErr result (EndsText (⟦<OpSet as Tells>⟧.tells ops.now) bytes.now) }
{
    match script_of(alloc, bytes) {
        Ok(script) => bound(alloc, &script, bytes, ops),
        Err(status) => Err(status),
    }
}

// The Dag of the script of this name, whatever is said of sizes.
pub(crate) fn dag_of_name<S: Store>(
    alloc: Global,
    name: &[u8],
    store: &mut S,
    ops: &OpSet,
) -> Result<Dag, Status>
    ensures ok { IfOk result (λ dag. (sizes : Option (List ℕ)) → IsDagOf (⟦<OpSet as Tells>⟧.tells ops.now) name.now sizes (S.told store.old) (S.told store.new) dag) }
    ensures ready { IfOk result (IsReady (⟦<OpSet as Tells>⟧.tells ops.now)) }
    ensures err { IfErr result (λ status. (sizes : Option (List ℕ)) → ScriptEnded (⟦<OpSet as Tells>⟧.tells ops.now) name.now sizes (S.told store.old) (S.told store.new) status) }
{
    match read_file(alloc, store, name) {
        Ok(bytes) => dag_of_text(alloc, bytes.as_slice(), ops),
        Err(stop) => Err(read_status(stop)),
    }
}

/// The Dag of the script of this name, as binding gives it, or how a call for it ends. The store is read, and no file changes.
pub fn read_dag<S: Store>(
    alloc: Global,
    name: &[u8],
    store: &mut S,
    ops: &OpSet,
) -> Result<Dag, Status>
    ensures ok { IfOk result (IsDagOf (⟦<OpSet as Tells>⟧.tells ops.now) name.now None (S.told store.old) (S.told store.new)) }
    ensures ready { IfOk result (IsReady (⟦<OpSet as Tells>⟧.tells ops.now)) }
    ensures err { IfErr result (ScriptEnded (⟦<OpSet as Tells>⟧.tells ops.now) name.now None (S.told store.old) (S.told store.new)) }
{
    dag_of_name(alloc, name, store, ops)
}
