// The columns that a row has, with their types.
ghost use Rattle.std.specs.Prelude.{◌≡◌, [], ◌∷◌, ◌++◌, length, IfOk, OnOk, OnErr, slice_get};
ghost use Rattle.std.specs.Option.{option_copied};

use crate::cell::Cell;
use std::alloc::{AllocError, Global};
use std::marker::Model;

/// The type of a column: 32-bit and 64-bit signed numbers, byte strings and truth values. Every column may hold null.
#[derive(Debug, Clone, Copy, PartialEq, Eq)]
pub enum ColType {
    Int,
    Long,
    Text,
    Bool,
}

/// A named column.
#[derive(Debug, Drop, Clone)]
pub struct Column {
    pub name: Cell,
    pub kind: ColType,
}

impl Column {
    /// The same column, in memory of its own.
    pub fn copy(&self) -> Result<Column, AllocError>
        ensures { IfOk result (λ c. c ≡ self.now) }
    {
        self.clone()
    }
}

/// The columns of a row set, in the order of its rows' values. Contracts see it as the list of them.
#[derive(Debug, Drop, Clone)]
pub struct Schema {
    columns: Vec<Column>,
}

impl Model for Schema {
    ghost use Rattle.std.specs.Prelude.{List};
    ghost use Rattle.scope_value.specs.declared.schema.Column.{Column};

    ghost Value = { List Column };

    ghost view = { λ s. s.columns.items };
}

impl Schema {
    /// No columns.
    pub fn new(alloc: Global) -> Schema
        ensures { result ≡ [] }
    {
        Schema {
            columns: Vec::new(alloc),
        }
    }

    /// The columns of a vector, which is moved.
    pub fn from_vec(columns: Vec<Column>) -> Schema
        ensures { result ≡ columns.items }
    {
        Schema { columns }
    }

    /// Adds a column at the end. An error is want of memory, and leaves the schema as it was.
    pub fn push(&mut self, column: Column) -> Result<(), AllocError>
        ensures ok { OnOk result (self.new ≡ self.old ++ column ∷ []) }
        ensures err { OnErr result (self.new ≡ self.old) }
    {
        self.columns.push(column)?;
        Ok(())
    }

    /// The columns.
    pub fn as_slice(&self) -> &[Column]
        ensures { result.now ≡ self.now }
    {
        self.columns.as_slice()
    }

    /// How many columns there are.
    pub fn len(&self) -> usize
        ensures { result ≡ length self.now }
    {
        self.columns.len()
    }

    /// The column at a place, counted from 0.
    pub fn get(&self, at: usize) -> Option<&Column>
        ensures { option_copied result ≡ slice_get self.now at }
    {
        self.columns.get(at)
    }

    /// The same columns, in memory of their own.
    pub fn copy(&self) -> Result<Schema, AllocError>
        ensures { IfOk result (λ s. s ≡ self.now) }
    {
        self.clone()
    }
}
