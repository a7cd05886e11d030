// The first cause of a statement.
ghost use Rattle.std.specs.Prelude.{◌≡◌, ◌||◌, map, IfOk};
ghost use Rattle.names_in_sight.specs.Inputs.{before_of, input_at};
ghost use Rattle.binding_causes.specs.Judging as judging;
ghost use Rattle.binding_causes.specs.Limits as limits;
ghost use Rattle.binding_causes.specs.Names as names;
ghost use Rattle.binding_causes.specs.Resolution as spec;

use crate::calls::in_inline;
use crate::cause::{BindCause, LimitKind};
use crate::counts::shared_among;
use crate::earlier::Earlier;
use crate::found::Found;
use crate::inputs::is_one_missing;
use crate::names::{declares_twice, has_double_alias, is_taken};
use crate::ops::Knows;
use crate::seen::{Seen, seen_in};
use crate::streams::is_written_before;
use script_trees::{Command, Statement};
use std::alloc::{AllocError, Global};

const MAX_STATEMENTS: usize = 64;

const MAX_COLUMNS: usize = 128;

const MAX_INPUTS: usize = 5;

const MAX_SHARED: usize = 4;

/// The tests of a statement that its causes go by.
#[derive(Clone, Copy)]
pub(crate) struct Tests {
    pub found: Found,
    pub has_unknown_name: bool,
    pub is_duplicate: bool,
    pub is_star_double: bool,
    pub is_top_alone: bool,
    pub has_many_statements: bool,
    pub has_many_columns: bool,
    pub has_many_inputs: bool,
    pub has_many_shared: bool,
}

#[tactic(auto, unfolding(crate::specs::Resolution::first_true))]
fn first_true(causes: &[(bool, BindCause)]) -> Option<BindCause>
    ensures { result ≡ spec.first_true causes.now }
{
    for cause in causes {
        if cause.0 {
            return Some(cause.1);
        }
    }
    None
}

fn is_ambiguous(t: &Tests) -> bool
    ensures { result ≡ (t.now.is_star_double || t.now.found.is_ambiguous) }
{
    t.is_star_double || t.found.is_ambiguous
}

fn pick(t: &Tests) -> Option<BindCause>
    ensures { result ≡ spec.first_true (judging.causes_by t.now) }
{
    first_true(&[
        (t.has_unknown_name, BindCause::UnknownName),
        (t.is_duplicate, BindCause::DuplicateName),
        (t.found.is_missing, BindCause::UnknownOperator),
        (t.found.is_unknown, BindCause::UnknownColumn),
        (is_ambiguous(t), BindCause::AmbiguousColumn),
        (t.found.is_mismatched, BindCause::TypeMismatch),
        (t.found.is_refused, BindCause::SchemaRefused),
        (t.is_top_alone, BindCause::TopWithoutOrder),
        (
            t.has_many_statements,
            BindCause::Limit(LimitKind::Statements),
        ),
        (t.has_many_columns, BindCause::Limit(LimitKind::Columns)),
        (t.has_many_inputs, BindCause::Limit(LimitKind::Joins)),
        (t.found.has_many_keys, BindCause::Limit(LimitKind::Keys)),
        (t.has_many_shared, BindCause::Limit(LimitKind::Shared)),
        (t.found.has_many_args, BindCause::Limit(LimitKind::Args)),
    ])
}

fn is_top_alone(command: &Command) -> bool
    ensures { result ≡ spec.is_top_alone command.now }
{
    match command {
        Command::Select(select) => select.top.is_some() && select.order.is_none(),
        _ => false,
    }
}

fn has_many_inputs(command: &Command) -> bool
    ensures { result ≡ limits.has_many_inputs command.now }
{
    match command {
        Command::Select(select) => MAX_INPUTS < select.sources.len(),
        _ => false,
    }
}

// Whether a name that the statement gives is there already; `is_twice` says so of its lists of keys.
fn is_duplicate(
    alloc: Global,
    earlier: &[Statement],
    statement: &Statement,
    is_twice: bool,
) -> Result<bool, AllocError>
    ensures { IfOk result (λ b. let c = statement.now.command in
        b ≡ (names.is_taken earlier.now statement.now.name
        || (names.has_double_alias c || (names.declares_twice c || (is_twice || names.is_written_before earlier.now c))))) }
{
    let has_alias_twice = has_double_alias(alloc, &statement.command)?;
    Ok(
        is_taken(earlier, &statement.name)
            || has_alias_twice
            || declares_twice(&statement.command)
            || is_twice
            || is_written_before(earlier, &statement.command),
    )
}

// What is seen of the command, the calls of extractors in place included.
fn seen_whole<O: Knows>(
    alloc: Global,
    ops: &O,
    at: &Earlier<'_>,
    command: &Command,
) -> Result<Seen, AllocError>
    ensures { IfOk result (λ s. let before = before_of at.now.statements.now at.now.headings.now in
        s ≡ judging.seen_whole (O.tells ops.now) at.now.all.now before at.now.counts.now command.now) }
{
    let seen = seen_in(alloc, ops, at, command)?;
    let inline = in_inline(alloc, ops, command)?;
    Ok(Seen {
        found: seen.found.or(inline),
        ..seen
    })
}

/// The first cause of a statement, if it has one, and how many columns its tree numbers.
#[derive(Clone, Copy)]
pub(crate) struct Judged {
    pub cause: Option<BindCause>,
    pub count: usize,
}

/// Judges a statement. `near` are the mentions of results up to it, and `numbers` its own inputs' results. An error is want of memory.
pub(crate) fn judge<O: Knows>(
    alloc: Global,
    ops: &O,
    at: &Earlier<'_>,
    near: &[usize],
    numbers: &[Option<usize>],
    statement: &Statement,
) -> Result<Judged, AllocError>
    requires { numbers.now ≡ map (input_at at.now.statements.now) (names.inputs statement.now.command) }
    ensures { IfOk result (λ j. let before = before_of at.now.statements.now at.now.headings.now in
        j ≡ judging.judged (O.tells ops.now) at.now.all.now near.now before at.now.counts.now statement.now) }
{
    let seen = seen_whole(alloc, ops, at, &statement.command)?;
    let is_duplicate = is_duplicate(alloc, at.statements, statement, seen.found.is_twice)?;
    let tests = Tests {
        found: seen.found,
        has_unknown_name: is_one_missing(numbers),
        is_duplicate,
        is_star_double: seen.is_star_double,
        is_top_alone: is_top_alone(&statement.command),
        has_many_statements: MAX_STATEMENTS - 1 < at.statements.len(),
        has_many_columns: MAX_COLUMNS < seen.count,
        has_many_inputs: has_many_inputs(&statement.command),
        has_many_shared: MAX_SHARED < shared_among(near, at.statements.len()),
    };
    Ok(Judged {
        cause: pick(&tests),
        count: seen.count,
    })
}
