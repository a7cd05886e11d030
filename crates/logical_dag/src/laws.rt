// What a Dag means.
ghost use Rattle.logical_dag.specs.DagMeaning.{DagGivesSome, DagGivesOne, GiveSame};

/// A Dag that binding can give gives its outputs some rows, and one result: with an order one list, else one bag. Each tree
/// may be replaced by one with the same columns and bags.
pub fn meaning_law()
    ensures some { DagGivesSome }
    ensures one { DagGivesOne }
    ensures replaced { GiveSame }
{}
