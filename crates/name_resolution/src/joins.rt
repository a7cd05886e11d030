// Further sources of a FROM, each behind those before it.
ghost use Rattle.std.specs.Prelude.{◌≡◌, [], ◌∷◌, ◌++◌, IfOk, OnOk};
ghost use Rattle.names_in_sight.specs.Inputs.{before_of, input_of};
ghost use Rattle.names_in_sight.specs.Views as views_spec;
ghost use Rattle.name_resolution.specs.Queries as spec;

use crate::sources::resolved_origin;
use names_in_sight::carrying::beside;
use names_in_sight::equalities::{pairs_of, sides_of};
use names_in_sight::finding::Finds;
use names_in_sight::{Input, inputs};
use placed_trees::Joined;
use scope_value::Schema;
use script_trees::{Joined as RawJoined, Statement};
use sqlite_items::Items;
use std::alloc::{AllocError, Global};

// The places of what its ON sets equal, where `done` are the inputs to the left and `input` is what it reads itself.
fn on_of(
    alloc: Global,
    done: &[Input],
    input: &Input,
    joined: &RawJoined,
) -> Result<Items<(u32, u32)>, AllocError>
    ensures { IfOk result (λ on. on ≡ views_spec.pairs_of (views_spec.sides_of done.now input.now) joined.now.on) }
{
    let sides = sides_of(alloc, done, input)?;
    pairs_of(alloc, &sides, joined.on.as_slice())
}

// A further source behind those inputs, which reads this one.
fn joined_with<O: Finds>(
    alloc: Global,
    ops: &O,
    done: &[Input],
    input: &Input,
    joined: &RawJoined,
) -> Result<Joined, AllocError>
    ensures { IfOk result (λ j. j ≡ record {
      source = spec.resolved_origin (O.tells ops.now) joined.now.source.origin;
      on = views_spec.pairs_of (views_spec.sides_of done.now input.now) joined.now.on;
    }) }
{
    let on = on_of(alloc, done, input, joined)?;
    let (on, source) = beside(on, resolved_origin(alloc, ops, &joined.source.origin))?;
    Ok(Joined { source, on })
}

/// The further source, and what is read with it. An error is want of memory.
pub(crate) fn next_joined<O: Finds>(
    alloc: Global,
    ops: &O,
    statements: &[Statement],
    headings: &[Schema],
    done: &[Input],
    joined: &RawJoined,
) -> Result<(Joined, Input), AllocError>
    ensures source { IfOk result (λ j. j.0 ≡ spec.joined_of (O.tells ops.now) (before_of statements.now headings.now) done.now joined.now) }
    ensures input { IfOk result (λ j. j.1 ≡ input_of (O.tells ops.now) (before_of statements.now headings.now) joined.now.source) }
{
    let input = inputs::input_of(alloc, ops, statements, headings, &joined.source)?;
    let joined = joined_with(alloc, ops, done, &input, joined)?;
    Ok((joined, input))
}

// Puts the further source behind those that are done, and what is read with it behind what they read.
fn join_next<O: Finds>(
    alloc: Global,
    ops: &O,
    statements: &[Statement],
    headings: &[Schema],
    joins: &mut Items<Joined>,
    done: &mut Items<Input>,
    joined: &RawJoined,
) -> Result<(), AllocError>
    ensures joins { OnOk result (joins.new ≡ joins.old ++ spec.joined_of (O.tells ops.now) (before_of statements.now headings.now) done.old joined.now ∷ []) }
    ensures done { OnOk result (done.new ≡ done.old ++ input_of (O.tells ops.now) (before_of statements.now headings.now) joined.now.source ∷ []) }
{
    let (join, input) = next_joined(alloc, ops, statements, headings, done.as_slice(), joined)?;
    joins.push(join)?;
    done.push(input)?;
    Ok(())
}

/// Further sources, one after the other, behind those inputs. An error is want of memory.
pub(crate) fn joins_from<O: Finds>(
    alloc: Global,
    ops: &O,
    statements: &[Statement],
    headings: &[Schema],
    mut done: Items<Input>,
    sources: &[RawJoined],
) -> Result<Items<Joined>, AllocError>
    ensures { IfOk result (λ js. js ≡ spec.joins_from (O.tells ops.now) (before_of statements.now headings.now) done sources.now) }
{
    let mut joins = Items::new(alloc);
    for joined in sources {
        join_next(
            alloc, ops, statements, headings, &mut joins, &mut done, joined,
        )?;
    }
    Ok(joins)
}
