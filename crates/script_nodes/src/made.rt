// An expression where it stands, with the columns of its rows.
ghost use Rattle.std.specs.Prelude.{◌≤◌};
ghost use Rattle.column_ranks.specs.Rising.{IsRising};
ghost use Rattle.script_nodes.specs.Rises.{IsRising-prop};

use col_sets::ColId;
use logical_dag::Logical;

/// An expression where it stands: the columns of its rows by place, ascending, and the number behind the last column that it numbers.
#[derive(Drop)]
pub struct Made {
    pub tree: Logical,
    pub cols: Vec<ColId>,
    pub next: u32,
    pub ghost rises: { IsRising 0 cols.items next } by { IsRising-prop 0 cols.items next },
    pub ghost few: { next ≤ 128 },
}
