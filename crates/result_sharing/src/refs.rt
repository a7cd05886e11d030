// Which shared results each result refers to, itself or through results that stand in it.
ghost use Rattle.std.specs.Prelude.{◌≡◌, [], ◌++◌, List, map, flat_map, take, IfOk, OnOk};
ghost use Rattle.script_meaning.specs.Bound as bound;
ghost use Rattle.script_meaning.specs.Bound.{parts_of};
ghost use Rattle.script_meaning.specs.Part.{Part};
ghost use Rattle.result_sharing.specs.Origins.{sources_of, source_now};
ghost use Rattle.result_sharing.specs.Steps.{result_refs, origin_refs};

use crate::origin::Origin;
use crate::origins::origins_of;
use crate::places::is_shared;
use placed_trees::Statement;
use source_laws::laws::{stands_law, takes_law};
use sqlite_items::Items;
use std::alloc::{AllocError, Global};

fn push_all(more: &[usize], refs: &mut Items<usize>) -> Result<(), AllocError>
    ensures { OnOk result (refs.new ≡ refs.old ++ more.now) }
{
    for k in more {
        refs.push(*k)?;
    }
    Ok(())
}

// A shared result itself is added, and for another those that it refers to. `all` has each mention, `known` what each earlier result
// refers to.
fn push_result(
    all: &[usize],
    known: &[Items<usize>],
    number: usize,
    refs: &mut Items<usize>,
) -> Result<(), AllocError>
    ensures { OnOk result (refs.new ≡ refs.old ++ result_refs all.now known.now number) }
{
    match known.get(number) {
        None => Ok(()),
        Some(inside) => {
            if is_shared(all, number) {
                refs.push(number)
            } else {
                push_all(inside.as_slice(), refs)
            }
        }
    }
}

fn push_origin(
    all: &[usize],
    known: &[Items<usize>],
    origin: Origin,
    refs: &mut Items<usize>,
) -> Result<(), AllocError>
    ensures { OnOk result (refs.new ≡ refs.old ++ origin_refs all.now known.now (source_now origin.entry)) }
{
    match origin {
        Origin::Result(Some(number)) => push_result(all, known, number, refs),
        _ => Ok(()),
    }
}

fn refs_in(
    alloc: Global,
    all: &[usize],
    known: &[Items<usize>],
    origins: &[Origin],
) -> Result<Items<usize>, AllocError>
    ensures { IfOk result (λ v. v ≡ flat_map (origin_refs all.now known.now) (map source_now origins.now)) }
{
    let mut refs = Items::new(alloc);
    for origin in origins {
        push_origin(all, known, *origin, &mut refs)?;
    }
    Ok(refs)
}

// What the result of a statement refers to.
fn refs_of(
    alloc: Global,
    all: &[usize],
    known: &[Items<usize>],
    earlier: &[Statement],
    statement: &Statement,
) -> Result<Items<usize>, AllocError>
    ensures { IfOk result (λ v. v ≡ flat_map (origin_refs all.now known.now) (sources_of earlier.now statement.now.command)) }
{
    let origins = origins_of(alloc, earlier, &statement.command)?;
    refs_in(alloc, all, known, origins.as_slice())
}

/// Which shared results the result of each statement refers to, by their numbers. An error is want of memory.
pub(crate) fn all_refs(
    alloc: Global,
    script: &[Statement],
    all: &[usize],
) -> Result<Vec<Items<usize>>, AllocError>
    requires { all.now ≡ bound.mentions [] script.now }
    ensures { IfOk result (λ v. v.items ≡ map (λ (p : Part). p.refs) (parts_of script.now)) }
{
    stands_law();
    takes_law();
    let mut known = Vec::new(alloc);
    for (at, statement) in script.iter().enumerate() {
        let refs = refs_of(alloc, all, known.as_slice(), &script[..at], statement)?;
        known.push(refs)?;
    }
    Ok(known)
}
