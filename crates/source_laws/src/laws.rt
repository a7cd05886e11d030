// What the part of a statement takes from the parts of its sources.
ghost use Rattle.source_laws.specs.Laws.{EachStands, EachIsRight, IsOverSources, NamesSources, CountsSources, EachTakes, EachRises};

/// Each statement of a script has its part, by the statements before it; where the script names what is there and is within the limits,
/// so does each of its statements.
pub fn stands_law()
    ensures stands { EachStands }
    ensures right { EachIsRight }
{}

/// The part of a command is its node over the parts of its sources, and what it names is there.
pub fn over_law()
    ensures over { IsOverSources }
    ensures names { NamesSources }
{}

/// What it numbers, scans and refers to are those of its sources and then its own, and its columns ascend.
pub fn takes_law()
    ensures counts { CountsSources }
    ensures takes { EachTakes }
    ensures rises { EachRises }
{}
