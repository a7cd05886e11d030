// A script bound to its Dag.
ghost use Rattle.std.specs.Prelude.{◌≡◌, All, IfOk, Ok};
ghost use Rattle.scope_syntax.specs.Written.{IsRight};
ghost use Rattle.binding_causes.specs.Resolution.{resolution};
ghost use Rattle.script_meaning.specs.Dag.{dag_of};
ghost use Rattle.script_binder.specs.Shown.{Shows};
ghost use Rattle.script_binder.specs.Binding.{BindsTo, IsReady};

use crate::dag::dag_of_resolved;
use binding_causes::{BindFault, resolve};
use binding_laws::laws::{bound_law, there_law};
use logical_dag::Dag;
use placed_trees::Statement;
use script_meaning::laws::bindable_law;
use script_trees::Script;
use std::alloc::{AllocError, Global};
use user_ops::{OpSet, Tells, lawful_law};

// The Dag of the script's statements, which have their names resolved.
fn bound(
    alloc: Global,
    script: &Script,
    ops: &OpSet,
    statements: &[Statement],
) -> Result<Dag, AllocError>
    requires right { All IsRight script.now.statements }
    requires resolved { resolution (⟦<OpSet as Tells>⟧.tells ops.now) script.now ≡ Ok statements.now }
    ensures shows { IfOk result (Shows (dag_of statements.now)) }
    ensures ready { IfOk result (IsReady (⟦<OpSet as Tells>⟧.tells ops.now)) }
{
    lawful_law(ops);
    bound_law();
    there_law();
    bindable_law();
    dag_of_resolved(alloc, statements)
}

/// The Dag of a script that the grammar gives, or the first statement with a cause for which it binds to nothing, and its first cause. The
/// Dag is one that can be run: what its trees name is there, and so are the operators that it calls. An error is want of memory alone.
pub fn bind(
    alloc: Global,
    script: &Script,
    ops: &OpSet,
) -> Result<Result<Dag, BindFault>, AllocError>
    requires { All IsRight script.now.statements }
    ensures exact { IfOk result (BindsTo (⟦<OpSet as Tells>⟧.tells ops.now) script.now) }
    ensures ready { IfOk result (λ r. IfOk r (IsReady (⟦<OpSet as Tells>⟧.tells ops.now))) }
{
    match resolve(alloc, script, ops)? {
        Ok(statements) => Ok(Ok(bound(alloc, script, ops, statements.as_slice())?)),
        Err(fault) => Ok(Err(fault)),
    }
}
