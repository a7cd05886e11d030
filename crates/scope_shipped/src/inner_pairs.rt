// Each row of one group with each of another.
ghost use Rattle.std.specs.Prelude.{◌≡◌, ◌++◌, flat_map, IfOk, OnOk, OnErr};
ghost use Rattle.user_ops.specs.Appends.{AddsSome};
ghost use Rattle.scope_shipped.specs.InnerPairs.{inner_pairs, pairs_of};
ghost use Rattle.scope_shipped.specs.Lawful.{inner_pairs-lawful};

use crate::same_types::has_types_of_both;
use scope_value::{Cell, Row, Schema, Value};
use std::alloc::{AllocError, Global};
use user_ops::Combiner;

/// A combiner that gives each left row followed by each right row, left order first. It takes no args, and the output's
/// types are left's and then right's.
#[derive(Clone, Copy)]
pub struct InnerPairs;

// Adds copies of the values. An error leaves some of them.
fn push_values(values: &[Value], out: &mut Vec<Value>) -> Result<(), AllocError>
    ensures { OnOk result (out.new.items ≡ out.old.items ++ values.now) }
{
    for value in values {
        out.push(value.copy()?)?;
    }
    Ok(())
}

// The left row's values and then the right row's.
fn pair(alloc: Global, left: &Row, right: &Row) -> Result<Row, AllocError>
    ensures { IfOk result (λ row. row ≡ left.now ++ right.now) }
{
    let mut values = Vec::new(alloc);
    push_values(left.as_slice(), &mut values)?;
    push_values(right.as_slice(), &mut values)?;
    Ok(Row::from_vec(values))
}

// Adds the left row followed by each right row.
fn push_pairs(
    alloc: Global,
    left: &Row,
    right: &[Row],
    out: &mut Vec<Row>,
) -> Result<(), AllocError>
    ensures ok { OnOk result (out.new.items ≡ out.old.items ++ pairs_of right.now left.now) }
    ensures err { OnErr result (AddsSome out.old.items out.new.items (pairs_of right.now left.now)) }
{
    for row in right {
        out.push(pair(alloc, left, row)?)?;
    }
    Ok(())
}

// Adds each left row followed by each right row, left order first.
fn push_each_pair(
    alloc: Global,
    left: &[Row],
    right: &[Row],
    out: &mut Vec<Row>,
) -> Result<(), AllocError>
    ensures ok { OnOk result (out.new.items ≡ out.old.items ++ flat_map (pairs_of right.now) left.now) }
    ensures err { OnErr result (AddsSome out.old.items out.new.items (flat_map (pairs_of right.now) left.now)) }
{
    for row in left {
        push_pairs(alloc, row, right, out)?;
    }
    Ok(())
}

impl Combiner for InnerPairs {
    ghost told_combiner = { λ _. inner_pairs };

    ghost combiner_law = { λ _. inner_pairs-lawful };

    fn accepts(&self, left: &Schema, right: &Schema, output: &Schema, args: &[Cell]) -> bool {
        args.is_empty() && has_types_of_both(left.as_slice(), right.as_slice(), output.as_slice())
    }

    #[tactic(auto, using(crate::proofs::FitRules::fit_rules))]
    fn combine(
        &self,
        alloc: Global,
        _args: &[Cell],
        left: &[Row],
        right: &[Row],
        out: &mut Vec<Row>,
    ) -> Result<(), AllocError> {
        push_each_pair(alloc, left, right, out)
    }
}
