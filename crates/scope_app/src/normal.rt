// The Dag that runs: nothing of it is stored, and its trees are in normal form.
ghost use Rattle.std.specs.Prelude.{◌≡◌, ◌||◌, IfOk, is_some};
ghost use Rattle.std.specs.List.{list_any};
ghost use Rattle.user_ops.specs.Told.{Operators};
ghost use Rattle.logical_dag.specs.Scripts.{IsBindable};
ghost use Rattle.script_meaning.specs.Dag.{ScriptDag};
ghost use Rattle.script_binder.specs.Binding.{IsReady};
ghost use Rattle.script_binder.specs.Shown.{Shows};
ghost use Rattle.scope_app.specs.Stages.{RunsAs};

use binding_laws::laws::there_law;
use logical_dag::{Dag, Output, ScanDecl};
use normal_form::normalise;
use std::alloc::{AllocError, Global};

fn is_scan_stored(scans: &[ScanDecl]) -> bool
    ensures { result ≡ list_any (λ s. is_some s.stored) scans.now }
{
    scans.iter().any(|scan| scan.stored.is_some())
}

fn is_output_stored(outputs: &[Output]) -> bool
    ensures { result ≡ list_any (λ o. is_some o.stored) outputs.now }
{
    outputs.iter().any(|output| output.stored.is_some())
}

/// Whether the Dag has a scan or an output that is declared to be stored.
pub(crate) fn is_stored(dag: &Dag) -> bool
    ensures { result ≡ (list_any (λ s. is_some s.stored) dag.now.scans || list_any (λ o. is_some o.stored) dag.now.outputs) }
{
    is_scan_stored(dag.scans.as_slice()) || is_output_stored(dag.outputs.as_slice())
}

/// The normal form of a Dag that is ready, which is so too and runs as it does. An error is want of memory.
pub(crate) fn normal_dag(alloc: Global, dag: Dag) -> Result<Dag, AllocError>
    requires { IsBindable dag }
    ensures runs { IfOk result (λ normal. (ops : Operators) (d : ScriptDag) → Shows d dag → RunsAs ops d normal) }
    ensures ready { IfOk result (λ normal. (ops : Operators) → IsReady ops dag → IsReady ops normal) }
{
    there_law();
    normalise(alloc, dag)
}
