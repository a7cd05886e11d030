// What holds of the statements of a script that binds.
ghost use Rattle.resolution_laws.specs.Laws.{GivesCauseless};
ghost use Rattle.resolution_laws.specs.LimitLaws.{GivesDistinct, GivesWithin};
ghost use Rattle.resolution_laws.specs.PlaceLaws.{GivesPlaced};

use scope_expr::scope_law;

/// The statements of a script that binds are those that its names resolve to, and none of them has a cause.
pub fn causeless_law()
    ensures { GivesCauseless }
{}

/// The columns that each SELECT of a script that binds sees are told apart by alias and name, where those of each extractor are by name.
pub fn distinct_law()
    ensures { GivesDistinct }
{}

/// The statements of a script that the grammar gives, and that binds, are within the limits of the language, where the fixed columns
/// of each extractor have different names.
pub fn limits_law()
    ensures { GivesWithin }
{
    scope_law();
}
/// The statements of a script that binds name what is there: each input is an earlier result, and each column one of those in sight.
pub fn places_law()
    ensures { GivesPlaced }
{}
