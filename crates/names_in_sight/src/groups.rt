// What a SELECT is grouped by, and what its items see.
ghost use Rattle.std.specs.Prelude.{◌≡◌, ◌+◌, [], ◌++◌, flat_map, option_map, IfOk, OnOk};
ghost use Rattle.std.specs.Option.{option_map_or};
ghost use Rattle.col_sets.specs.Sets.{has};
ghost use Rattle.scope_expr.specs.Names.{bound};
ghost use Rattle.names_in_sight.specs.Views as spec;
ghost use Rattle.names_in_sight.specs.Sight.{named_by};

use crate::copies::copied_name;
use placed_trees::Grouping;
use scope_expr::{Entry, Expr, Scope, agg_kind, bind, is_named};
use scope_value::ColType;
use script_trees::{AggKind, RawAgg, RawExpr, RawRef, Select};
use sqlite_items::Items;
use std::alloc::{AllocError, Global};

fn is_grouped(select: &Select) -> bool
    ensures { result ≡ spec.is_grouped select.now }
{
    select.group.is_some() || select.aggs.len() != 0
}

/// The expression, where one is written, with its columns by place. An error is want of memory.
pub fn bound_opt(
    alloc: Global,
    names: &Scope,
    e: &Option<RawExpr>,
) -> Result<Option<Expr>, AllocError>
    ensures { IfOk result (λ b. b ≡ option_map (bound names.now) e.now) }
{
    match e {
        Some(e) => Ok(Some(bind(alloc, names, e)?)),
        None => Ok(None),
    }
}

// Adds the places of all columns that the reference names.
fn add_named(out: &mut Items<u32>, names: &Scope, r: &RawRef) -> Result<(), AllocError>
    ensures { OnOk result (out.new ≡ out.old ++ named_by names.now r.now) }
{
    for entry in names.entries.as_slice() {
        if is_named(r, entry) {
            out.push(entry.id)?;
        }
    }
    Ok(())
}

// The places of all columns that the references name.
fn all_named(alloc: Global, names: &Scope, refs: &[RawRef]) -> Result<Items<u32>, AllocError>
    ensures { IfOk result (λ written. written ≡ flat_map (named_by names.now) refs.now) }
{
    let mut written = Items::new(alloc);
    for r in refs {
        add_named(&mut written, names, r)?;
    }
    Ok(written)
}

// The same, where GROUP BY is written.
fn written_of(
    alloc: Global,
    names: &Scope,
    group: &Option<Items<RawRef>>,
) -> Result<Items<u32>, AllocError>
    ensures { IfOk result (λ written. written ≡ option_map_or (flat_map (named_by names.now)) group.now []) }
{
    match group {
        Some(refs) => all_named(alloc, names, refs.as_slice()),
        None => Ok(Items::new(alloc)),
    }
}

// The aggregates, with the columns of their arguments by place.
fn aggs_of(
    alloc: Global,
    names: &Scope,
    aggs: &[RawAgg],
) -> Result<Items<(AggKind, Option<Expr>)>, AllocError>
    ensures { IfOk result (λ all. all ≡ spec.aggs_of names.now aggs.now) }
{
    let mut all = Items::new(alloc);
    for agg in aggs {
        let arg = bound_opt(alloc, names, &agg.arg)?;
        all.push((agg.kind, arg))?;
    }
    Ok(all)
}

/// What the SELECT is grouped by, if it is grouped: the columns of GROUP BY, where an ambiguous name stands for all that it names, and
/// the aggregates. An error is want of memory.
pub fn grouping_of(
    alloc: Global,
    names: &Scope,
    select: &Select,
) -> Result<Option<Grouping>, AllocError>
    ensures { IfOk result (λ grouping. grouping ≡ spec.grouping_of names.now select.now) }
{
    if is_grouped(select) {
        let written = written_of(alloc, names, &select.group)?;
        let aggs = aggs_of(alloc, names, select.aggs.as_slice())?;
        Ok(Some(Grouping { written, aggs }))
    } else {
        Ok(None)
    }
}

fn agg_type(agg: &(AggKind, Option<Expr>)) -> ColType
    ensures { result ≡ spec.agg_type agg.now }
{
    match &agg.1 {
        Some(arg) => agg_kind(agg.0, arg),
        None => ColType::Long,
    }
}

// The number so many places behind another.
fn number_behind(at: usize, behind: usize) -> Result<u32, AllocError>
    ensures { IfOk result (λ id. id ≡ at + behind) }
{
    match at.checked_add(behind) {
        Some(place) => match u32::try_from(place) {
            Ok(id) => Ok(id),
            Err(_) => Err(AllocError),
        },
        None => Err(AllocError),
    }
}

/// The columns of the aggregates, numbered from this one on. An error is want of memory.
pub fn agg_columns(
    alloc: Global,
    at: usize,
    aggs: &[(AggKind, Option<Expr>)],
) -> Result<Items<(u32, ColType)>, AllocError>
    ensures { IfOk result (λ columns. columns ≡ spec.agg_columns at aggs.now) }
{
    let mut columns = Items::new(alloc);
    for agg in aggs {
        let id = number_behind(at, columns.len())?;
        columns.push((id, agg_type(agg)))?;
    }
    Ok(columns)
}

fn is_written(written: &[u32], id: u32) -> bool
    ensures { result ≡ has written.now id }
{
    written.contains(&id)
}

// The column with this number.
fn numbered(entry: &Entry, at: usize) -> Result<Entry, AllocError>
    ensures { IfOk result (λ e. e ≡ record { alias = entry.now.alias; name = entry.now.name; id = at; kind = entry.now.kind }) }
{
    let id = number_behind(0, at)?;
    Ok(Entry {
        alias: copied_name(&entry.alias)?,
        name: entry.name.copy()?,
        id,
        kind: entry.kind,
    })
}

/// The columns of GROUP BY in the order of the sources, numbered from 0. An error is want of memory.
pub fn group_entries(
    alloc: Global,
    names: &Scope,
    written: &[u32],
) -> Result<Items<Entry>, AllocError>
    ensures { IfOk result (λ entries. entries ≡ spec.group_entries names.now written.now) }
{
    let mut entries = Items::new(alloc);
    for entry in names.entries.as_slice() {
        if is_written(written, entry.id) {
            let column = numbered(entry, entries.len())?;
            entries.push(column)?;
        }
    }
    Ok(entries)
}
