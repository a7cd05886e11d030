// A script with its names resolved, statement by statement.
ghost use Rattle.std.specs.Prelude.{◌≡◌, [], ◌+◌, ◌++◌, IfOk, OnOk};
ghost use Rattle.binding_causes.specs.Limits as limits;
ghost use Rattle.binding_causes.specs.Progress.{place_of, outcome};
ghost use Rattle.binding_causes.specs.Resolution as spec;

use crate::cause::{BindCause, BindFault};
use crate::inputs::{numbers_of, push_mentions};
use crate::ops::Knows;
use crate::progress::Progress;
use script_trees::{Script, Statement};
use sqlite_items::Items;
use std::alloc::{AllocError, Global};
use user_ops::{OpSet, Tells};

// The mentions of results in a statement are added.
fn push_own(
    alloc: Global,
    earlier: &[Statement],
    statement: &Statement,
    mentions: &mut Vec<usize>,
) -> Result<(), AllocError>
    ensures { OnOk result (mentions.new.items ≡ mentions.old.items ++ limits.mentions_in earlier.now statement.now.command) }
{
    let numbers = numbers_of(alloc, earlier, &statement.command)?;
    push_mentions(numbers.as_slice(), mentions)
}

fn mentions(alloc: Global, statements: &[Statement]) -> Result<Vec<usize>, AllocError>
    ensures { IfOk result (λ v. v.items ≡ limits.mentions [] statements.now) }
{
    let mut all = Vec::new(alloc);
    for (at, statement) in statements.iter().enumerate() {
        push_own(alloc, &statements[..at], statement, &mut all)?;
    }
    Ok(all)
}

// The fault of the statement at this place, from 0; an error where its number hasn't 32 bits, as no script in memory has so many.
fn fault_at(at: usize, cause: BindCause) -> Result<BindFault, AllocError>
    ensures { IfOk result (λ f. f ≡ record { statement = at + 1; cause = cause }) }
{
    match u32::try_from(at) {
        Ok(at) if at < u32::MAX => Ok(BindFault {
            statement: at + 1,
            cause,
        }),
        _ => Err(AllocError),
    }
}

// Takes in one statement after the other, up to the first one with a cause.
fn run<O: Knows>(
    alloc: Global,
    ops: &O,
    statements: &[Statement],
    all: &[usize],
    progress: &mut Progress,
) -> Result<Option<BindFault>, AllocError>
    ensures { IfOk result (λ r. outcome r progress.new.done ≡ spec.resolved_from (O.tells ops.now) (place_of all.now [] progress.old) progress.old.done statements.now) }
{
    for (at, statement) in statements.iter().enumerate() {
        if let Some(cause) = progress.step(alloc, ops, &statements[..at], all, statement)? {
            return Ok(Some(fault_at(at, cause)?));
        }
    }
    Ok(None)
}

fn resolve_by<O: Knows>(
    alloc: Global,
    script: &Script,
    ops: &O,
) -> Result<Result<Items<placed_trees::Statement>, BindFault>, AllocError>
    ensures { IfOk result (λ r. r ≡ spec.resolution (O.tells ops.now) script.now) }
{
    let statements = script.statements.as_slice();
    let all = mentions(alloc, statements)?;
    let mut progress = Progress::new(alloc);
    let fault = run(alloc, ops, statements, all.as_slice(), &mut progress)?;
    Ok(progress.ended(fault))
}

/// All statements with their names resolved, or the first statement with a cause and its first cause. An error is want of memory alone.
pub fn resolve(
    alloc: Global,
    script: &Script,
    ops: &OpSet,
) -> Result<Result<Items<placed_trees::Statement>, BindFault>, AllocError>
    ensures { IfOk result (λ r. r ≡ spec.resolution (⟦<OpSet as Tells>⟧.tells ops.now) script.now) }
{
    resolve_by(alloc, script, ops)
}
