// The rows of one group that another doesn't have as often.
ghost use Rattle.std.specs.Prelude.{◌≡◌, ◌++◌, ◌≤◌, ℕ, IfOk, List, OnOk, OnErr};
ghost use Rattle.user_ops.specs.Appends.{AddsSome};
ghost use Rattle.scope_value.specs.declared.value.Value.{Value as Held};
ghost use Rattle.scope_shipped.specs.MultiSetDifference.{multi_set_difference, copies, last_copies};
ghost use Rattle.scope_shipped.specs.RowCounts.{count_in};
ghost use Rattle.scope_shipped.specs.Lawful.{multi_set_difference-lawful};

use crate::row_counts::RowCounts;
use crate::same_types::has_same_types;
use scope_value::{Cell, Row, Schema};
use std::alloc::{AllocError, Global};
use user_ops::Combiner;

/// A combiner that gives the left rows without as many copies of each as right has: of a row's equal copies in left the
/// last ones are given, in left order. It takes no args, and left, right and the output have the same types.
#[derive(Clone, Copy)]
pub struct MultiSetDifference;

// How often each row stands among these.
fn counted(alloc: Global, rows: &[Row]) -> Result<RowCounts, AllocError>
    ensures { IfOk result (λ counts. (row : List Held) → count_in counts.counts row ≡ copies row rows.now) }
{
    let mut counts = RowCounts::new(alloc);
    for row in rows {
        counts.add(row)?;
    }
    Ok(counts)
}

// Adds the left rows that are left over when as many copies of each as right has are taken, the first ones before others.
fn push_difference(
    alloc: Global,
    left: &[Row],
    right: &[Row],
    out: &mut Vec<Row>,
) -> Result<(), AllocError>
    ensures ok { OnOk result (out.new.items ≡ out.old.items ++ last_copies left.now right.now left.now) }
    ensures err { OnErr result (AddsSome out.old.items out.new.items (last_copies left.now right.now left.now)) }
{
    let mut unmatched = counted(alloc, right)?;
    for row in left {
        if !unmatched.take(row) {
            out.push(row.copy()?)?;
        }
    }
    Ok(())
}

impl Combiner for MultiSetDifference {
    ghost told_combiner = { λ _. multi_set_difference };

    ghost combiner_law = { λ _. multi_set_difference-lawful };

    fn accepts(&self, left: &Schema, right: &Schema, output: &Schema, args: &[Cell]) -> bool {
        args.is_empty()
            && (has_same_types(left.as_slice(), right.as_slice())
                && has_same_types(left.as_slice(), output.as_slice()))
    }

    #[tactic(auto, using(crate::proofs::FitRules::fit_rules))]
    fn combine(
        &self,
        alloc: Global,
        _args: &[Cell],
        left: &[Row],
        right: &[Row],
        out: &mut Vec<Row>,
    ) -> Result<(), AllocError> {
        push_difference(alloc, left, right, out)
    }
}
