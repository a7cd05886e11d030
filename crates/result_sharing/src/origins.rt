// The sources of a command, from the left.
ghost use Rattle.std.specs.Prelude.{◌≡◌, [], ◌∷◌, ◌++◌, map, IfOk, OnOk};
ghost use Rattle.result_sharing.specs.Origins.{source_of, beside_of, sources_of, source_now};

use crate::finding::input_at;
use crate::origin::Origin;
use placed_trees::{Beside, Command, Joined, Query, Source, Statement};
use std::alloc::{AllocError, Global};

fn origin_of<'a>(earlier: &[Statement], source: &'a Source) -> Origin<'a>
    ensures { source_now result ≡ source_of earlier.now source.now }
{
    match source {
        Source::FromResult(name) => Origin::Result(input_at(earlier, name.as_ref())),
        Source::FromStream(stream) => Origin::Stream(stream),
    }
}

fn one<'a>(alloc: Global, origin: Origin<'a>) -> Result<Vec<Origin<'a>>, AllocError>
    ensures { IfOk result (λ v. map source_now v.items ≡ source_now origin.entry ∷ []) }
{
    let mut origins = Vec::new(alloc);
    origins.push(origin)?;
    Ok(origins)
}

fn two<'a>(
    alloc: Global,
    left: Origin<'a>,
    right: Origin<'a>,
) -> Result<Vec<Origin<'a>>, AllocError>
    ensures { IfOk result (λ v. map source_now v.items ≡ source_now left.entry ∷ source_now right.entry ∷ []) }
{
    let mut origins = Vec::new(alloc);
    origins.push(left)?;
    origins.push(right)?;
    Ok(origins)
}

// The first source of a SELECT, and those that are joined to it.
fn with_joined<'a>(
    alloc: Global,
    earlier: &[Statement],
    source: &'a Source,
    joins: &'a [Joined],
) -> Result<Vec<Origin<'a>>, AllocError>
    ensures { IfOk result (λ v. map source_now v.items ≡ source_of earlier.now source.now ∷ map (λ j. source_of earlier.now j.source) joins.now) }
{
    let mut origins = one(alloc, origin_of(earlier, source))?;
    for join in joins {
        origins.push(origin_of(earlier, &join.source))?;
    }
    Ok(origins)
}

fn of_query<'a>(
    alloc: Global,
    earlier: &[Statement],
    query: &'a Query,
) -> Result<Vec<Origin<'a>>, AllocError>
    ensures { IfOk result (λ v. map source_now v.items ≡ source_of earlier.now query.now.source ∷ beside_of earlier.now query.now.beside) }
{
    match &query.beside {
        Beside::Inners(joins) => with_joined(alloc, earlier, &query.source, joins.as_slice()),
        Beside::Outer(_, _, join) => two(
            alloc,
            origin_of(earlier, &query.source),
            origin_of(earlier, &join.source),
        ),
    }
}

/// The sources of a command that stands after these statements, from the left: an EXTRACT has its stream as its one source, and an
/// OUTPUT its result. An error is want of memory.
pub fn origins_of<'a>(
    alloc: Global,
    earlier: &[Statement],
    command: &'a Command,
) -> Result<Vec<Origin<'a>>, AllocError>
    ensures { IfOk result (λ v. map source_now v.items ≡ sources_of earlier.now command.now) }
{
    match command {
        Command::Extract(stream) => one(alloc, Origin::Stream(stream)),
        Command::Select(query) => of_query(alloc, earlier, query),
        Command::Process(source, _) => one(alloc, origin_of(earlier, source)),
        Command::Reduce { source, .. } => one(alloc, origin_of(earlier, source)),
        Command::Combine { left, right, .. } => two(
            alloc,
            origin_of(earlier, left),
            origin_of(earlier, right),
        ),
        Command::Output(written) => one(
            alloc,
            Origin::Result(input_at(earlier, written.source.as_ref())),
        ),
    }
}
