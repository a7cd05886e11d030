// What the normal form keeps, and that it is one.
ghost use Rattle.normal_meaning.specs.Laws.{KeepsBags, GivesNormal, KeepsNormal, KeepsNodes, KeepsWritten, KeepsBounds, KeepsBindable, KeepsScans, KeepsColumns};
ghost use Rattle.normal_meaning.specs.Dags.{KeepsGiven, NormalGivesMeaning, NormalGivesAlone, NormalIsBindable};
ghost use Rattle.normal_meaning.specs.Typed.{KeepsPredicate, JoinsPredicates};
ghost use Rattle.normal_meaning.specs.Examples.{Rules};

/// The same bags stand for an expression and its normal form.
pub fn bags_law()
    ensures { KeepsBags }
{}

/// The normal form is in normal form, and what is in normal form stays.
pub fn form_law()
    ensures normal { GivesNormal }
    ensures stays { KeepsNormal }
{}

/// Only Filters move, and what binding promises of its trees is kept.
pub fn nodes_law()
    ensures same { KeepsNodes }
    ensures written { KeepsWritten }
    ensures columns { KeepsColumns }
    ensures bounds { KeepsBounds }
    ensures bindable { KeepsBindable }
    ensures scans { KeepsScans }
{}

/// A Dag and its normal form give the same rows to the outputs, so that of a script gives what the script means.
pub fn dag_law()
    ensures kept { KeepsGiven }
    ensures means { NormalGivesMeaning }
    ensures alone { NormalGivesAlone }
    ensures bindable { NormalIsBindable }
{}

/// Predicates that sink stay typed, and so do those that are joined.
pub fn typed_law()
    ensures kept { KeepsPredicate }
    ensures joined { JoinsPredicates }
{}

/// Where the conjuncts of some Filters end.
pub fn example_law()
    ensures { Rules }
{}
