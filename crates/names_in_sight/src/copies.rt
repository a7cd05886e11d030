// Copies of what a script's trees hold.
ghost use Rattle.std.specs.Prelude.{◌≡◌, IfOk, option_copied};

use scope_value::{Cell, Column, Schema};
use sqlite_items::Items;
use std::alloc::{AllocError, Global};

/// The name, in memory of its own.
pub fn copied_name(name: &Option<Cell>) -> Result<Option<Cell>, AllocError>
    ensures { IfOk result (λ copy. copy ≡ name.now) }
{
    match name {
        Some(name) => Ok(Some(name.copy()?)),
        None => Ok(None),
    }
}

/// The name that is lent, in memory of its own.
pub fn owned_name(name: Option<&Cell>) -> Result<Option<Cell>, AllocError>
    ensures { IfOk result (λ copy. copy ≡ option_copied name.entry) }
{
    match name {
        Some(name) => Ok(Some(name.copy()?)),
        None => Ok(None),
    }
}

/// The byte strings, in memory of their own.
pub fn copied_cells(alloc: Global, cells: &[Cell]) -> Result<Items<Cell>, AllocError>
    ensures { IfOk result (λ copy. copy ≡ cells.now) }
{
    let mut copy = Items::new(alloc);
    for cell in cells {
        copy.push(cell.copy()?)?;
    }
    Ok(copy)
}

/// The columns, in memory of their own.
pub fn copied_columns(alloc: Global, columns: &[Column]) -> Result<Schema, AllocError>
    ensures { IfOk result (λ copy. copy ≡ columns.now) }
{
    let mut copy = Schema::new(alloc);
    for column in columns {
        copy.push(column.copy()?)?;
    }
    Ok(copy)
}
