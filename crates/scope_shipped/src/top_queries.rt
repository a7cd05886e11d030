// The first rows of a group.
ghost use Rattle.std.specs.Prelude.{◌≡◌, ◌++◌, unwrap_or, OnOk, OnErr};
ghost use Rattle.user_ops.specs.Appends.{AddsSome};
ghost use Rattle.scope_shipped.specs.TopQueries.{row_count, top_queries};
ghost use Rattle.scope_shipped.specs.Lawful.{top_queries-lawful};

use crate::same_types::has_same_types;
use row_codec::number_under;
use scope_value::{Cell, Row, Schema};
use std::alloc::{AllocError, Global};
use user_ops::Reducer;

/// A reducer that gives the first rows of a group, as many as its one arg says: decimal digits, at most 1000000000. The
/// output has the input's types.
#[derive(Clone, Copy)]
pub struct TopQueries;

// How many rows the args ask for.
fn count_of(args: &[Cell]) -> Option<u64>
    ensures { result ≡ row_count args.now }
{
    match args {
        [count] => number_under(count.as_slice(), 1_000_000_001),
        _ => None,
    }
}

// Adds a copy of each row.
fn push_copies(rows: &[Row], out: &mut Vec<Row>) -> Result<(), AllocError>
    ensures ok { OnOk result (out.new.items ≡ out.old.items ++ rows.now) }
    ensures err { OnErr result (AddsSome out.old.items out.new.items rows.now) }
{
    for row in rows {
        out.push(row.copy()?)?;
    }
    Ok(())
}

impl Reducer for TopQueries {
    ghost told_reducer = { λ _. top_queries };

    ghost reducer_law = { λ _. top_queries-lawful };

    fn accepts(&self, input: &Schema, output: &Schema, args: &[Cell]) -> bool {
        has_same_types(input.as_slice(), output.as_slice()) && count_of(args).is_some()
    }

    #[tactic(auto, using(crate::proofs::FitRules::fit_rules))]
    fn reduce(
        &self,
        _alloc: Global,
        args: &[Cell],
        group: &[Row],
        out: &mut Vec<Row>,
    ) -> Result<(), AllocError> {
        let wanted = count_of(args).unwrap_or(0) as usize;
        if wanted < group.len() {
            push_copies(&group[..wanted], out)
        } else {
            push_copies(group, out)
        }
    }
}
