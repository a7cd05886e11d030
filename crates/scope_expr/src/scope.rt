// The names that an expression may use, and why one has no type.
ghost use Rattle.scope_expr.specs.Sight.{AreDistinct};

use crate::sight::clashes;
use col_sets::ColId;
use scope_value::{Cell, ColType};
use sqlite_items::Items;
use std::alloc::{AllocError, Global};
use thiserror::Error;

/// A column in sight: the alias of its source, where it has one, its name, number and type.
#[derive(Drop)]
pub struct Entry {
    pub alias: Option<Cell>,
    pub name: Cell,
    pub id: ColId,
    pub kind: ColType,
}

/// The columns in sight, and the column and the type of each aggregate of the SELECT, by its number. Made by [`Scope::new`]
/// and [`Scope::add`], no two columns have one alias and one name.
#[derive(Drop)]
pub struct Scope {
    pub entries: Items<Entry>,
    pub aggs: Items<(ColId, ColType)>,
}

impl Scope {
    ghost use Rattle.std.specs.Prelude.{◌≡◌, [], ◌∷◌, ◌++◌, not, IfOk, OnOk, OnErr, if◌then◌else◌};
    ghost use Rattle.std.specs.List.{list_any};
    ghost use Rattle.scope_expr.specs.Sight as sight;

    /// No columns in sight.
    pub fn new(alloc: Global) -> Scope
        ensures entries { result.entries ≡ [] }
        ensures aggs { result.aggs ≡ [] }
    {
        Scope {
            entries: Items::new(alloc),
            aggs: Items::new(alloc),
        }
    }

    /// Puts the column in sight, and answers whether it could: not where one with its alias and its name is there.
    /// Columns without alias may have one name. An error is want of memory, and leaves the scope as it was.
    pub fn add(&mut self, entry: Entry) -> Result<bool, AllocError>
        ensures added { IfOk result (λ added. added ≡ not (list_any (λ e. sight.clash e entry) self.old.entries)) }
        ensures entries { IfOk result (λ added. self.new.entries ≡ (if added then self.old.entries ++ entry ∷ [] else self.old.entries)) }
        ensures aggs { self.new.aggs ≡ self.old.aggs }
        ensures kept { AreDistinct self.old.entries → AreDistinct self.new.entries }
        ensures err { OnErr result (self.new ≡ self.old) }
    {
        if clashes(self.entries.as_slice(), &entry) {
            return Ok(false);
        }
        self.entries.push(entry)?;
        Ok(true)
    }

    /// Puts the column of the next aggregate in sight. An error is want of memory, and leaves the scope as it was.
    pub fn add_agg(&mut self, id: ColId, kind: ColType) -> Result<(), AllocError>
        ensures ok { OnOk result (self.new.aggs ≡ self.old.aggs ++ (id, kind) ∷ []) }
        ensures entries { self.new.entries ≡ self.old.entries }
        ensures err { OnErr result (self.new ≡ self.old) }
    {
        self.aggs.push((id, kind))?;
        Ok(())
    }
}

/// Why an expression has no type. Of several causes the first of this list is answered.
#[derive(Clone, Copy, Debug, PartialEq, Eq, Error)]
pub enum TypeFault {
    /// A column that is nowhere in sight.
    #[error("unknown column")]
    Unknown,
    /// A column without alias that two entries have.
    #[error("ambiguous column")]
    Ambiguous,
    /// An operand of a type that its operator doesn't take.
    #[error("mismatched types")]
    Mismatch,
}
