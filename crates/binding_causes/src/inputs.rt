// The results that a command reads, by the numbers of their statements.
ghost use Rattle.std.specs.Prelude.{◌≡◌, [], ◌∷◌, ◌++◌, not, map, flat_map, is_some, None, IfOk, OnOk};
ghost use Rattle.std.specs.List.{list_any};
ghost use Rattle.names_in_sight.specs.Inputs as resolved;
ghost use Rattle.binding_causes.specs.Limits as limits;
ghost use Rattle.binding_causes.specs.Names as spec;

use names_in_sight::input_at;
use scope_value::Cell;
use script_trees::{Command, Joined, Origin, Source, Statement};
use sqlite_items::Items;
use std::alloc::{AllocError, Global};

// The omitted input.
fn omitted(alloc: Global, earlier: &[Statement]) -> Result<Items<Option<usize>>, AllocError>
    ensures { IfOk result (λ v. v ≡ map (resolved.input_at earlier.now) (spec.source_inputs None)) }
{
    let mut numbers = Items::new(alloc);
    numbers.push(input_at(earlier, None))?;
    Ok(numbers)
}

fn push_origin(
    earlier: &[Statement],
    origin: &Origin,
    numbers: &mut Items<Option<usize>>,
) -> Result<(), AllocError>
    ensures { OnOk result (numbers.new ≡ numbers.old ++ map (resolved.input_at earlier.now) (spec.origin_inputs origin.now)) }
{
    if let Origin::Named(name) = origin {
        numbers.push(input_at(earlier, Some(name)))?;
    }
    Ok(())
}

fn of_each_source(
    alloc: Global,
    earlier: &[Statement],
    sources: &[Joined],
) -> Result<Items<Option<usize>>, AllocError>
    ensures { IfOk result (λ v. v ≡ map (resolved.input_at earlier.now) (flat_map (λ j. spec.origin_inputs j.source.origin) sources.now)) }
{
    let mut numbers = Items::new(alloc);
    for joined in sources {
        push_origin(earlier, &joined.source.origin, &mut numbers)?;
    }
    Ok(numbers)
}

fn of_from(
    alloc: Global,
    earlier: &[Statement],
    sources: &[Joined],
) -> Result<Items<Option<usize>>, AllocError>
    ensures { IfOk result (λ v. v ≡ map (resolved.input_at earlier.now) (spec.from_inputs sources.now)) }
{
    match sources {
        [] => omitted(alloc, earlier),
        [_, ..] => of_each_source(alloc, earlier, sources),
    }
}

fn of_source(
    alloc: Global,
    earlier: &[Statement],
    source: &Option<Source>,
) -> Result<Items<Option<usize>>, AllocError>
    ensures { IfOk result (λ v. v ≡ map (resolved.input_at earlier.now) (spec.source_inputs source.now)) }
{
    match source {
        None => omitted(alloc, earlier),
        Some(source) => {
            let mut numbers = Items::new(alloc);
            push_origin(earlier, &source.origin, &mut numbers)?;
            Ok(numbers)
        }
    }
}

fn of_both(
    alloc: Global,
    earlier: &[Statement],
    left: &Origin,
    right: &Origin,
) -> Result<Items<Option<usize>>, AllocError>
    ensures { IfOk result (λ v. v ≡ map (resolved.input_at earlier.now) (spec.origin_inputs left.now ++ spec.origin_inputs right.now)) }
{
    let mut numbers = Items::new(alloc);
    push_origin(earlier, left, &mut numbers)?;
    push_origin(earlier, right, &mut numbers)?;
    Ok(numbers)
}

fn of_output(
    alloc: Global,
    earlier: &[Statement],
    source: &Option<Cell>,
) -> Result<Items<Option<usize>>, AllocError>
    ensures { IfOk result (λ v. v ≡ map (resolved.input_at earlier.now) (source.now ∷ [])) }
{
    let mut numbers = Items::new(alloc);
    numbers.push(input_at(earlier, source.as_ref()))?;
    Ok(numbers)
}

/// The number of the statement that each input is the result of, None where there is none. An error is want of memory.
pub(crate) fn numbers_of(
    alloc: Global,
    earlier: &[Statement],
    command: &Command,
) -> Result<Items<Option<usize>>, AllocError>
    ensures { IfOk result (λ v. v ≡ map (resolved.input_at earlier.now) (spec.inputs command.now)) }
{
    match command {
        Command::Extract { .. } => Ok(Items::new(alloc)),
        Command::Select(select) => of_from(alloc, earlier, select.sources.as_slice()),
        Command::Process { source, .. } => of_source(alloc, earlier, source),
        Command::Reduce { source, .. } => of_source(alloc, earlier, source),
        Command::Combine { left, right, .. } => of_both(
            alloc,
            earlier,
            &left.origin,
            &right.origin,
        ),
        Command::Output { source, .. } => of_output(alloc, earlier, source),
    }
}

/// Whether one of the inputs isn't there.
pub(crate) fn is_one_missing(numbers: &[Option<usize>]) -> bool
    ensures { result ≡ list_any (λ n. not (is_some n)) numbers.now }
{
    numbers.iter().any(|n| n.is_none())
}

fn push_number(number: Option<usize>, mentions: &mut Vec<usize>) -> Result<(), AllocError>
    ensures { OnOk result (mentions.new.items ≡ mentions.old.items ++ limits.one_or_none number) }
{
    if let Some(number) = number {
        mentions.push(number)?;
    }
    Ok(())
}

/// Adds the numbers of the inputs that are there. An error is want of memory, and leaves some of them.
pub(crate) fn push_mentions(
    numbers: &[Option<usize>],
    mentions: &mut Vec<usize>,
) -> Result<(), AllocError>
    ensures { OnOk result (mentions.new.items ≡ mentions.old.items ++ flat_map limits.one_or_none numbers.now) }
{
    for number in numbers {
        push_number(*number, mentions)?;
    }
    Ok(())
}
