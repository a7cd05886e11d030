// What the rows of a script's Dag are, from the laws of the crates below. The function does nothing when it runs.
ghost use Rattle.scope_app.specs.Stages.{GivesMeanings};

use user_ops::{OpSet, Tells, lawful_law};

/// Whatever the script, what its Dag gives is what it means, where the combiners of outer joins are what their names say.
pub(crate) fn meanings_law(ops: &OpSet)
    ensures { GivesMeanings (⟦<OpSet as Tells>⟧.tells ops.now) }
{
    lawful_law(ops);
    binding_laws::laws::bound_law();
    binding_laws::laws::told_law();
    script_meaning::laws::one_law();
}
