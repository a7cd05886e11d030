// The sources of a FROM after the first.
ghost use Rattle.std.specs.Prelude.{◌≡◌, [], ◌∷◌, IfOk};
ghost use Rattle.names_in_sight.specs.Inputs.{before_of};
ghost use Rattle.name_resolution.specs.Queries as spec;

use crate::joins::joins_from;
use crate::outer::beside_one;
use names_in_sight::finding::Finds;
use names_in_sight::{Input, inputs};
use placed_trees::Beside;
use scope_value::Schema;
use script_trees::{Joined as RawJoined, Statement};
use sqlite_items::Items;
use std::alloc::{AllocError, Global};

// Further sources behind a first one.
fn inners_from<O: Finds>(
    alloc: Global,
    ops: &O,
    statements: &[Statement],
    headings: &[Schema],
    left: Input,
    sources: &[RawJoined],
) -> Result<Beside, AllocError>
    ensures { IfOk result (λ b. b ≡ Beside.Inners (spec.joins_from (O.tells ops.now) (before_of statements.now headings.now) (left ∷ []) sources.now)) }
{
    let done = inputs::one_input(alloc, left)?;
    let joins = joins_from(alloc, ops, statements, headings, done, sources)?;
    Ok(Beside::Inners(joins))
}

/// The sources after the first. An outer join has exactly two in all, and the grammar has no others: among more each is taken for an
/// inner join. An error is want of memory.
pub(crate) fn beside_of<O: Finds>(
    alloc: Global,
    ops: &O,
    statements: &[Statement],
    headings: &[Schema],
    sources: &[RawJoined],
) -> Result<Beside, AllocError>
    ensures { IfOk result (λ b. b ≡ spec.beside_of (O.tells ops.now) (before_of statements.now headings.now) sources.now) }
{
    match sources {
        [] => Ok(Beside::Inners(Items::new(alloc))),
        [_] => Ok(Beside::Inners(Items::new(alloc))),
        [first, second] => {
            let left = inputs::input_of(alloc, ops, statements, headings, &first.source)?;
            beside_one(alloc, ops, statements, headings, &left, second)
        }
        [first, more @ ..] => {
            let left = inputs::input_of(alloc, ops, statements, headings, &first.source)?;
            inners_from(alloc, ops, statements, headings, left, more)
        }
    }
}
