// What the groups of a memo have of the space.
ghost use Rattle.rules_space.specs.Laws as law;

/// What the rules reach from a tree of the Dag is in the group of its node.
pub fn represented_law()
    ensures { law.SpaceIsRepresented }
{}

/// The trees in the group of a node of the Dag are what the rules reach from its tree.
pub fn space_law()
    ensures { law.MemoIsSpace }
{}
