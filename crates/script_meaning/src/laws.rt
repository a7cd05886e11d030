// What the Dag of a script gives.
ghost use Rattle.script_meaning.specs.Laws.{GivesMeaning, GivesOuterJoin, GivesToldJoin, AreToldCalls};
ghost use Rattle.script_meaning.specs.Written.{GivesBindable};
ghost use Rattle.script_meaning.specs.Within.{GivesBounded};
ghost use Rattle.script_meaning.specs.OneMeaning.{GivesOne, GivesSome, GivesMeaningAlone};
ghost use Rattle.script_meaning.specs.Examples.{Rules};

/// The Dag of a script gives what the script means, whatever the operators and the rows of its streams, where the
/// combiners of outer joins give what they should.
pub fn meaning_law()
    ensures { GivesMeaning }
{}

/// A Combine on the equalities of an outer join, with its combiner, gives the outer join.
pub fn outer_law()
    ensures { GivesOuterJoin }
{}

/// Where the operator that is called tells the meaning of a combiner of outer_joins, and the args are the numbers of columns, the
/// Combine gives the outer join: all pairs of rows that agree, and each row without a partner, of a side that is kept, once beside
/// nulls. Null keys agree. So a script's call of it is the call of an outer join.
pub fn told_law()
    ensures join { GivesToldJoin }
    ensures call { AreToldCalls }
{}

/// The Dag of a script that names what is there is one that binding can give.
pub fn bindable_law()
    ensures { GivesBindable }
{}

/// The Dag of a script within the limits of the language is within the bounds of a Dag.
pub fn bounds_law()
    ensures { GivesBounded }
{}

/// A Dag that binding can give gives some rows and one result, and that of a script what the script means alone.
pub fn one_law()
    ensures some { GivesSome }
    ensures one { GivesOne }
    ensures alone { GivesMeaningAlone }
{}

/// Some scripts, their Dags, and an outer join.
pub fn example_law()
    ensures { Rules }
{}
