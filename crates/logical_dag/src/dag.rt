// A whole script as expressions.
ghost use Rattle.std.specs.Prelude.{map, length};
ghost use Rattle.logical_trees.specs.Tree.{tree_of};
ghost use Rattle.logical_dag.specs.Bounds.{AreBounded};

use col_sets::{KeyCols, KeyOrders};
use logical_trees::Logical;
use scope_value::{Cell, Schema};
use sqlite_items::Items;

/// How a stream is declared to be stored: by the values of the rows in some columns, which tell the part that each row is
/// in, and in which order the rows of each part stand, if in any. It changes nothing of what a script means.
#[derive(Clone, Copy)]
pub struct Stored {
    pub hash: KeyCols,
    pub sorted: Option<KeyOrders>,
}

/// A stream that is read: its name, the place and the args of its extractor, the columns of its rows, and how it is
/// declared to be stored, in the columns of its Scan.
#[derive(Drop)]
pub struct ScanDecl {
    pub stream: Cell,
    pub op: u32,
    pub args: Items<Cell>,
    pub schema: Schema,
    pub stored: Option<Stored>,
}

/// A stream that is written: its name, the byte between its fields, the order of its rows, if it has one, how it is to be
/// stored, in the columns of its expression, and the expression that gives the rows.
#[derive(Drop)]
pub struct Output {
    pub name: Cell,
    pub delimiter: u8,
    pub order: Option<KeyOrders>,
    pub stored: Option<Stored>,
    pub tree: Logical,
}

/// What a script does: the streams that it reads, the results that several consumers share, and what it writes. Binding
/// numbers the scans through the trees in post-order, the shared trees before those of the outputs.
#[derive(Drop)]
pub struct Dag {
    pub scans: Items<ScanDecl>,
    pub shared: Items<Logical>,
    pub outputs: Items<Output>,
    pub ghost bounds: { AreBounded (length scans) (map tree_of shared) (map (λ o. tree_of o.tree) outputs) },
}

/// The parts of a Dag, whose bounds are still to be tested.
#[derive(Drop)]
pub struct DagParts {
    pub scans: Items<ScanDecl>,
    pub shared: Items<Logical>,
    pub outputs: Items<Output>,
}
