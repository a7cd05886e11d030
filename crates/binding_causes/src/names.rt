// Names of results, aliases, items and declared columns that stand twice.
ghost use Rattle.std.specs.Prelude.{◌≡◌, ◌++◌, flat_map, IfOk, OnOk};
ghost use Rattle.std.specs.Str.{bytes_eq};
ghost use Rattle.binding_causes.specs.Columns as spec_columns;
ghost use Rattle.binding_causes.specs.Columns.{repeats};
ghost use Rattle.binding_causes.specs.Names as spec;

use crate::repeats::has_double_name;
use names_in_sight::{alias_of, input_at};
use scope_expr::Scope;
use scope_value::Cell;
use script_trees::{Command, Items, Joined, Source, Statement};
use sqlite_items::Items as Sequence;
use std::alloc::{AllocError, Global};

/// Whether the name of a result is that of an earlier one.
pub(crate) fn is_taken(earlier: &[Statement], name: &Option<Cell>) -> bool
    ensures { result ≡ spec.is_taken earlier.now name.now }
{
    match name {
        Some(name) => input_at(earlier, Some(name)).is_some(),
        None => false,
    }
}

fn push_alias(source: &Source, names: &mut Sequence<Cell>) -> Result<(), AllocError>
    ensures { OnOk result (names.new ≡ names.old ++ spec.aliases source.now) }
{
    if let Some(alias) = alias_of(source) {
        names.push(alias.copy()?)?;
    }
    Ok(())
}

fn aliases_of(alloc: Global, sources: &[Joined]) -> Result<Sequence<Cell>, AllocError>
    ensures { IfOk result (λ names. names ≡ flat_map (λ j. spec.aliases j.source) sources.now) }
{
    let mut names = Sequence::new(alloc);
    for joined in sources {
        push_alias(&joined.source, &mut names)?;
    }
    Ok(names)
}

fn aliases_of_both(
    alloc: Global,
    left: &Source,
    right: &Source,
) -> Result<Sequence<Cell>, AllocError>
    ensures { IfOk result (λ names. names ≡ spec.aliases left.now ++ spec.aliases right.now) }
{
    let mut names = Sequence::new(alloc);
    push_alias(left, &mut names)?;
    push_alias(right, &mut names)?;
    Ok(names)
}

fn has_double(names: &[Cell]) -> bool
    ensures { result ≡ repeats bytes_eq names.now }
{
    has_double_name(names)
}

/// Whether two sources have one alias. An error is want of memory.
pub(crate) fn has_double_alias(alloc: Global, command: &Command) -> Result<bool, AllocError>
    ensures { IfOk result (λ b. b ≡ spec.has_double_alias command.now) }
{
    match command {
        Command::Select(select) => {
            let names = aliases_of(alloc, select.sources.as_slice())?;
            Ok(has_double(names.as_slice()))
        }
        Command::Combine { left, right, .. } => {
            let names = aliases_of_both(alloc, left, right)?;
            Ok(has_double(names.as_slice()))
        }
        _ => Ok(false),
    }
}

fn has_double_item(items: &Items) -> bool
    ensures { result ≡ spec.has_double_item items.now }
{
    match items {
        Items::All => false,
        Items::Listed(items) => has_double_name(items.as_slice()),
    }
}

/// Whether two items or two declared columns have one name.
pub(crate) fn declares_twice(command: &Command) -> bool
    ensures { result ≡ spec.declares_twice command.now }
{
    match command {
        Command::Select(select) => has_double_item(&select.items),
        Command::Extract { cols, .. }
        | Command::Process { cols, .. }
        | Command::Reduce { cols, .. }
        | Command::Combine { cols, .. } => has_double_name(cols.as_slice()),
        Command::Output { .. } => false,
    }
}

/// Whether `*` stands for two columns of one name.
pub(crate) fn is_star_double(names: &Scope, items: &Items) -> bool
    ensures { result ≡ spec_columns.is_star_double names.now items.now }
{
    match items {
        Items::All => has_double_name(names.entries.as_slice()),
        Items::Listed(_) => false,
    }
}
