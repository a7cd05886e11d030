// The columns of inputs, as names see them.
ghost use Rattle.std.specs.Prelude.{◌≡◌, [], ◌∷◌, ◌++◌, length, map, option_map, IfOk, OnOk};
ghost use Rattle.names_in_sight.specs.Sight as spec;

use crate::copies::copied_name;
use crate::input::Input;
use col_sets::Dir;
use scope_expr::{Entry, Scope, column_of};
use scope_value::{Cell, Column};
use script_trees::{RawKey, RawRef};
use sqlite_items::Items;
use std::alloc::{AllocError, Global};

// The column as names see it at this place.
fn entry_at(alias: &Option<Cell>, at: usize, column: &Column) -> Result<Entry, AllocError>
    ensures { IfOk result (λ e. e ≡ record { alias = alias.now; name = column.now.name; id = at; kind = column.now.kind }) }
{
    match u32::try_from(at) {
        Ok(id) => Ok(Entry {
            alias: copied_name(alias)?,
            name: column.name.copy()?,
            id,
            kind: column.kind,
        }),
        Err(_) => Err(AllocError),
    }
}

// Puts the columns of an input in sight behind those that are there.
fn see(
    entries: &mut Items<Entry>,
    alias: &Option<Cell>,
    columns: &[Column],
) -> Result<(), AllocError>
    ensures { OnOk result (entries.new ≡ entries.old ++ spec.seen_from alias.now (length entries.old) columns.now) }
{
    for column in columns {
        let entry = entry_at(alias, entries.len(), column)?;
        entries.push(entry)?;
    }
    Ok(())
}

/// The columns of inputs, one after the other, by place, each under the alias of its input. An error is want of memory.
pub fn sight_of(alloc: Global, inputs: &[Input]) -> Result<Scope, AllocError>
    ensures { IfOk result (λ names. names ≡ spec.sight_of inputs.now) }
{
    let mut entries = Items::new(alloc);
    for input in inputs {
        see(&mut entries, &input.alias, input.columns.as_slice())?;
    }
    Ok(Scope {
        entries,
        aggs: Items::new(alloc),
    })
}

/// The columns of inputs, and behind them those of one more. An error is want of memory.
pub fn sight_beyond(alloc: Global, done: &[Input], input: &Input) -> Result<Scope, AllocError>
    ensures { IfOk result (λ names. names ≡ spec.sight_of (done.now ++ input.now ∷ [])) }
{
    let mut names = sight_of(alloc, done)?;
    see(&mut names.entries, &input.alias, input.columns.as_slice())?;
    Ok(names)
}

/// Columns by place, under no alias. An error is want of memory.
pub fn sight_of_columns(alloc: Global, columns: &[Column]) -> Result<Scope, AllocError>
    ensures { IfOk result (λ names. names ≡ spec.sight_of_columns columns.now) }
{
    let mut entries = Items::new(alloc);
    see(&mut entries, &None, columns)?;
    Ok(Scope {
        entries,
        aggs: Items::new(alloc),
    })
}

/// The place of the first column that a reference names, and 0 where it names none. A Scope has at most some hundreds of columns: they
/// are gone through one after the other.
pub fn place_of(names: &Scope, r: &RawRef) -> u32
    ensures { result ≡ spec.place_of names.now r.now }
{
    match column_of(names, r) {
        Some(entry) => entry.id,
        None => 0,
    }
}

/// The places of columns. An error is want of memory.
pub fn places_of(alloc: Global, names: &Scope, refs: &[RawRef]) -> Result<Items<u32>, AllocError>
    ensures { IfOk result (λ places. places ≡ map (spec.place_of names.now) refs.now) }
{
    let mut places = Items::new(alloc);
    for r in refs {
        places.push(place_of(names, r))?;
    }
    Ok(places)
}

fn dir_of(down: bool) -> Dir
    ensures { result ≡ spec.dir_of down }
{
    if down { Dir::Down } else { Dir::Up }
}

/// The places of the columns to sort by, and whether each goes up or down. An error is want of memory.
pub fn keys_of(
    alloc: Global,
    names: &Scope,
    keys: &[RawKey],
) -> Result<Items<(u32, Dir)>, AllocError>
    ensures { IfOk result (λ ks. ks ≡ spec.keys_of names.now keys.now) }
{
    let mut places = Items::new(alloc);
    for key in keys {
        places.push((place_of(names, &key.column), dir_of(key.down)))?;
    }
    Ok(places)
}

/// The same, where keys are written. An error is want of memory.
pub fn keys_of_opt(
    alloc: Global,
    names: &Scope,
    keys: &Option<Items<RawKey>>,
) -> Result<Option<Items<(u32, Dir)>>, AllocError>
    ensures { IfOk result (λ ks. ks ≡ option_map (spec.keys_of names.now) keys.now) }
{
    match keys {
        Some(keys) => Ok(Some(keys_of(alloc, names, keys.as_slice())?)),
        None => Ok(None),
    }
}
