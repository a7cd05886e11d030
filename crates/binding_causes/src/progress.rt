// The statements so far.
ghost use Rattle.std.specs.Prelude.{◌≡◌, ◌∷◌, ◌++◌, [], None, IfOk, OnOk};
ghost use Rattle.names_in_sight.specs.Inputs.{before_of};
ghost use Rattle.name_resolution.specs.Resolved as resolved;
ghost use Rattle.binding_causes.specs.Judging as judging;
ghost use Rattle.binding_causes.specs.Limits.{mentions_in};
ghost use Rattle.binding_causes.specs.Progress.{place_of, outcome};
ghost use Rattle.binding_causes.specs.Resolution as spec;

use crate::cause::{BindCause, BindFault};
use crate::earlier::Earlier;
use crate::inputs::{numbers_of, push_mentions};
use crate::judging::{Judged, judge};
use crate::ops::Knows;
use scope_value::Schema;
use script_trees::Statement;
use sqlite_items::Items;
use std::alloc::{AllocError, Global};

/// What is made of the statements so far: of each the columns of its result, how many columns its tree numbers, and itself with its
/// names resolved; and the mentions of results in them.
#[derive(Drop)]
pub(crate) struct Progress {
    pub headings: Items<Schema>,
    pub counts: Vec<usize>,
    pub near: Vec<usize>,
    pub done: Items<placed_trees::Statement>,
}

// The mentions of the statement are added to those before it, and it is judged.
fn judge_next<O: Knows>(
    alloc: Global,
    ops: &O,
    at: &Earlier<'_>,
    near: &mut Vec<usize>,
    statement: &Statement,
) -> Result<Judged, AllocError>
    ensures near { OnOk result (near.new.items ≡ near.old.items ++ mentions_in at.now.statements.now statement.now.command) }
    ensures judged { IfOk result (λ j. let before = before_of at.now.statements.now at.now.headings.now in
        j ≡ judging.judged (O.tells ops.now) at.now.all.now (near.old.items ++ mentions_in at.now.statements.now statement.now.command) before at.now.counts.now statement.now) }
{
    let numbers = numbers_of(alloc, at.statements, &statement.command)?;
    push_mentions(numbers.as_slice(), near)?;
    judge(
        alloc,
        ops,
        at,
        near.as_slice(),
        numbers.as_slice(),
        statement,
    )
}

// The columns of the statement's result, and it with its names resolved.
fn made<O: Knows>(
    alloc: Global,
    ops: &O,
    at: &Earlier<'_>,
    statement: &Statement,
) -> Result<(Schema, placed_trees::Statement), AllocError>
    ensures heading { IfOk result (λ m. m.0 ≡ resolved.heading_of (O.tells ops.now) (before_of at.now.statements.now at.now.headings.now) statement.now.command) }
    ensures resolved { IfOk result (λ m. m.1 ≡ resolved.resolved_statement (O.tells ops.now) (before_of at.now.statements.now at.now.headings.now) statement.now) }
{
    let heading = ops.heading_of(alloc, at, &statement.command)?;
    let resolved = ops.resolved(alloc, at, statement)?;
    Ok((heading, resolved))
}

impl Progress {
    /// No statement yet.
    pub(crate) fn new(alloc: Global) -> Progress
        ensures headings { result.headings ≡ [] }
        ensures done { result.done ≡ [] }
        ensures counts { result.counts.items ≡ [] }
        ensures near { result.near.items ≡ [] }
    {
        Progress {
            headings: Items::new(alloc),
            counts: Vec::new(alloc),
            near: Vec::new(alloc),
            done: Items::new(alloc),
        }
    }

    fn push(
        &mut self,
        heading: Schema,
        count: usize,
        resolved: placed_trees::Statement,
    ) -> Result<(), AllocError>
        ensures headings { OnOk result (self.new.headings ≡ self.old.headings ++ heading ∷ []) }
        ensures counts { OnOk result (self.new.counts.items ≡ self.old.counts.items ++ count ∷ []) }
        ensures near { self.new.near.items ≡ self.old.near.items }
        ensures done { OnOk result (self.new.done ≡ self.old.done ++ resolved ∷ []) }
    {
        self.done.push(resolved)?;
        self.headings.push(heading)?;
        self.counts.push(count)?;
        Ok(())
    }

    fn judge<O: Knows>(
        &mut self,
        alloc: Global,
        ops: &O,
        earlier: &[Statement],
        all: &[usize],
        statement: &Statement,
    ) -> Result<Judged, AllocError>
        ensures near { OnOk result (self.new.near.items ≡ spec.near_of (place_of all.now earlier.now self.old) statement.now) }
        ensures headings { self.new.headings ≡ self.old.headings }
        ensures counts { self.new.counts.items ≡ self.old.counts.items }
        ensures done { self.new.done ≡ self.old.done }
        ensures cause { IfOk result (λ j. j.cause ≡ spec.first_cause (O.tells ops.now) (place_of all.now earlier.now self.old) statement.now) }
        ensures count { IfOk result (λ j. j.count ≡ spec.column_count (O.tells ops.now) (place_of all.now earlier.now self.old) statement.now) }
    {
        let at = Earlier {
            statements: earlier,
            headings: self.headings.as_slice(),
            counts: self.counts.as_slice(),
            all,
        };
        judge_next(alloc, ops, &at, &mut self.near, statement)
    }

    fn make<O: Knows>(
        &mut self,
        alloc: Global,
        ops: &O,
        earlier: &[Statement],
        all: &[usize],
        statement: &Statement,
        count: usize,
    ) -> Result<(), AllocError>
        ensures headings { OnOk result (self.new.headings ≡ self.old.headings ++ resolved.heading_of (O.tells ops.now) (before_of earlier.now self.old.headings) statement.now.command ∷ []) }
        ensures counts { OnOk result (self.new.counts.items ≡ self.old.counts.items ++ count ∷ []) }
        ensures near { self.new.near.items ≡ self.old.near.items }
        ensures done { OnOk result (self.new.done ≡ self.old.done ++ resolved.resolved_statement (O.tells ops.now) (before_of earlier.now self.old.headings) statement.now ∷ []) }
    {
        let at = Earlier {
            statements: earlier,
            headings: self.headings.as_slice(),
            counts: self.counts.as_slice(),
            all,
        };
        let (heading, resolved) = made(alloc, ops, &at, statement)?;
        self.push(heading, count, resolved)
    }

    /// Takes the next statement in, where it has no cause, or answers its first one. `earlier` are the statements so far, and `all` the
    /// mentions in the whole script. An error is want of memory.
    pub(crate) fn step<O: Knows>(
        &mut self,
        alloc: Global,
        ops: &O,
        earlier: &[Statement],
        all: &[usize],
        statement: &Statement,
    ) -> Result<Option<BindCause>, AllocError>
        ensures cause { IfOk result (λ r. r ≡ spec.first_cause (O.tells ops.now) (place_of all.now earlier.now self.old) statement.now) }
        ensures next { IfOk result (λ r. r ≡ None → place_of all.now (earlier.now ++ statement.now ∷ []) self.new ≡ spec.next (O.tells ops.now) (place_of all.now earlier.now self.old) statement.now) }
        ensures done { IfOk result (λ r. r ≡ None → self.new.done ≡ self.old.done ++ resolved.resolved_statement (O.tells ops.now) (before_of earlier.now self.old.headings) statement.now ∷ []) }
    {
        let judged = self.judge(alloc, ops, earlier, all, statement)?;
        if judged.cause.is_none() {
            self.make(alloc, ops, earlier, all, statement, judged.count)?;
        }
        Ok(judged.cause)
    }

    /// What all statements come to, where the first one with a cause has this fault, or none has one.
    pub(crate) fn ended(
        self,
        fault: Option<BindFault>,
    ) -> Result<Items<placed_trees::Statement>, BindFault>
        ensures { result ≡ outcome fault self.done }
    {
        match fault {
            Some(fault) => Err(fault),
            None => Ok(self.done),
        }
    }
}
