// What holds of the statements of a script that binds, of its Dag, and of sets of operators.
ghost use Rattle.binding_laws.specs.Laws.{GivesBound, GivesTold, GivesThere, KeepsThere};

use resolution_laws::laws::{causeless_law, limits_law, places_law};

/// The statements of a script that the grammar gives, and that binds, name what is there, are within the limits of the language, number
/// at most 128 columns in a tree, and call operators that are there.
pub fn bound_law()
    ensures { GivesBound }
{
    causeless_law();
    places_law();
    limits_law();
}

/// The outer joins of such a script are called with the numbers of the columns of both sides, and give those columns.
pub fn told_law()
    ensures { GivesTold }
{
    causeless_law();
    script_meaning::laws::told_law();
}

/// The operators that the Dag of such statements calls are there, and so they are where its trees are in normal form.
pub fn there_law()
    ensures dag { GivesThere }
    ensures normal { KeepsThere }
{}
