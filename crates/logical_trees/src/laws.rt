// What bags that stand for expressions keep, whatever the operators and the rows that they draw on.
ghost use Rattle.logical_trees.specs.Laws.{IsOrderFree, HasOneBag, HasSomeBag, KeepsBelow, KeepsBeside, IsSplitGroupKept, IsSplitTopKept};
ghost use Rattle.logical_trees.specs.Blocks.{IsOwnJoin};
ghost use Rattle.logical_trees.specs.Numbers.{FitsNumber, HasChildren};
ghost use Rattle.logical_trees.specs.RowsOver.{HasRowsOver};

/// What stands for an expression does so in any order, and exactly one bag stands for a whole one.
pub fn bag_law()
    ensures order_free { IsOrderFree }
    ensures one { HasOneBag }
    ensures some { HasSomeBag }
{}

/// A child may be replaced by one with the same bags.
pub fn replacement_law()
    ensures below { KeepsBelow }
    ensures beside { KeepsBeside }
{}

/// A Group and a Top give the same bags in two steps, however the rows are divided between the first steps.
pub fn split_law()
    ensures group { IsSplitGroupKept }
    ensures top { IsSplitTopKept }
{}

/// Each row of a bag that stands for a formed expression has one value for each column, if what comes from outside has.
pub fn rows_law()
    ensures { HasRowsOver }
{}

/// A node has no more nodes than its number says, and at the numbers of its children stand these.
pub fn number_law()
    ensures fits { FitsNumber }
    ensures children { HasChildren }
{}

/// A formed expression is a join of the leaves of its block by the block's pairs.
pub fn block_law()
    ensures { IsOwnJoin }
{}
