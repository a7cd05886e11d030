// A command over its sources.
ghost use Rattle.std.specs.Prelude.{◌≡◌, ℕ, ◌+◌, ◌≤◌, ◌<◌, List, ◌∷◌, length, sum_by, IfOk};
ghost use Rattle.script_meaning.specs.Part.{Part, query_part};
ghost use Rattle.script_nodes.specs.Made.{IsMade, AreMade, from_parts, beside_parts, over_part, over_parts};
ghost use Rattle.script_nodes.specs.Over.{AreJoinsOver, IsBesideOver, beside_width, beside_fresh, IsQueryOver, IsOver, widths_of, fresh, grouping_fresh, next_behind, AreBehind};
ghost use Rattle.script_nodes.specs.Steps.{IsStepOfAll};

use crate::made::Made;
use crate::over_one::{process_over, reduce_over};
use crate::over_two::{combine_over, join_over};
use crate::query::query_over;
use names_in_sight::carrying::beside;
use placed_trees::{Beside, Command, Joined, Query};
use std::alloc::{AllocError, Global};

// The first, and those behind it.
fn first_of(sources: Vec<Made>) -> (Made, Vec<Made>)
    requires { 0 < length sources.items }
    ensures { sources.items ≡ result.0 ∷ result.1.items }
{
    let mut others = sources;
    let first = others.remove(0);
    (first, others)
}

// Joins, from the left.
#[tactic(auto, using(crate::proofs::Sources::joins_done, crate::proofs::Sources::joins_more))]
fn joins_over(
    alloc: Global,
    joins: &[Joined],
    first: Made,
    others: Vec<Made>,
) -> Result<Made, AllocError>
    requires over { AreJoinsOver (length first.cols.items) joins.now (widths_of others.items) }
    requires behind { AreBehind first.next others.items }
    ensures { IfOk result (IsStepOfAll (λ a parts. from_parts a joins.now parts) (length first.cols.items + sum_by (λ m. m) (widths_of others.items)) 0 first others.items) }
{
    match joins {
        [] => {
            drop(others);
            Ok(first)
        }
        [join, more @ ..] => {
            let (second, others) = first_of(others);
            let joined = join_over(alloc, join.on.as_slice(), first, second);
            let (others, joined) = beside(others, joined)?;
            joins_over(alloc, more, joined, others)
        }
    }
}

// The sources of a SELECT, joined.
fn beside_over(
    alloc: Global,
    joins: &Beside,
    first: Made,
    others: Vec<Made>,
) -> Result<Made, AllocError>
    requires over { IsBesideOver (length first.cols.items) joins.now (widths_of others.items) }
    requires behind { AreBehind first.next others.items }
    requires room { next_behind (first ∷ others.items) + beside_fresh joins.now ≤ 128 }
    ensures { IfOk result (IsStepOfAll (λ a parts. beside_parts a joins.now parts) (beside_width (length first.cols.items) joins.now (widths_of others.items)) (beside_fresh joins.now) first others.items) }
{
    match joins {
        Beside::Inners(joins) => joins_over(alloc, joins.as_slice(), first, others),
        Beside::Outer(_, call, join) => {
            let (second, others) = first_of(others);
            drop(others);
            combine_over(alloc, join.on.as_slice(), &None, &None, call, first, second)
        }
    }
}

// A SELECT over its sources.
fn select_over(
    alloc: Global,
    query: &Query,
    first: Made,
    others: Vec<Made>,
) -> Result<Made, AllocError>
    requires joins { IsBesideOver (length first.cols.items) query.now.beside (widths_of others.items) }
    requires over { IsQueryOver (beside_width (length first.cols.items) query.now.beside (widths_of others.items)) query.now }
    requires behind { AreBehind first.next others.items }
    requires room { next_behind (first ∷ others.items) + (beside_fresh query.now.beside + grouping_fresh query.now.group + length query.now.items) ≤ 128 }
    ensures { IfOk result (λ m. (name : ℕ → ℕ) (s c : ℕ) (p : Part) (parts : List Part) → IsMade name s c p first
        → AreMade name (s + length p.scans) (c + p.count) parts others.items → IsMade name s c (query_part query.now (beside_parts p query.now.beside parts)) m) }
{
    let joined = beside_over(alloc, &query.beside, first, others)?;
    query_over(alloc, query, joined)
}

// What stands for a command, over its first source and those behind it.
fn command_over(
    alloc: Global,
    command: &Command,
    first: Made,
    others: Vec<Made>,
) -> Result<Made, AllocError>
    requires over { IsOver command.now (length first.cols.items ∷ widths_of others.items) }
    requires behind { AreBehind first.next others.items }
    requires room { next_behind (first ∷ others.items) + fresh command.now ≤ 128 }
    ensures { IfOk result (λ m. (name : ℕ → ℕ) (s c : ℕ) (p : Part) (parts : List Part) → IsMade name s c p first
        → AreMade name (s + length p.scans) (c + p.count) parts others.items → IsMade name s c (over_part command.now p parts) m) }
{
    match command {
        Command::Extract(_) | Command::Output(_) => {
            drop(others);
            Ok(first)
        }
        Command::Select(query) => select_over(alloc, query, first, others),
        Command::Process(_, call) => {
            drop(others);
            process_over(alloc, call, first)
        }
        Command::Reduce {
            on,
            presort,
            call,
            ..
        } => {
            drop(others);
            reduce_over(alloc, on.as_slice(), presort, call, first)
        }
        Command::Combine {
            left_presort,
            right_presort,
            on,
            call,
            ..
        } => {
            let (second, others) = first_of(others);
            drop(others);
            combine_over(
                alloc,
                on.as_slice(),
                left_presort,
                right_presort,
                call,
                first,
                second,
            )
        }
    }
}

/// What stands for a command, over what stands for its sources, each numbered behind the one before it: an EXTRACT has its stream as
/// its one source, and an OUTPUT its result. An error is want of memory, and lets go of the sources.
pub fn over_sources(
    alloc: Global,
    command: &Command,
    sources: Vec<Made>,
) -> Result<Made, AllocError>
    requires over { IsOver command.now (widths_of sources.items) }
    requires behind { AreBehind 0 sources.items }
    requires room { next_behind sources.items + fresh command.now ≤ 128 }
    ensures { IfOk result (λ m. (name : ℕ → ℕ) (s c : ℕ) (parts : List Part) → AreMade name s c parts sources.items → IsMade name s c (over_parts command.now parts) m) }
{
    let (first, others) = first_of(sources);
    command_over(alloc, command, first, others)
}
