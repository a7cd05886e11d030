// The sizes that a file declares, found by a hash of the names.
ghost use Rattle.std.specs.Prelude.{◌≡◌, ℕ, List, true, cond, Some, None, IfOk, OnOk};
ghost use Rattle.std.specs.Str.{bytes_eq};
ghost use Rattle.std.specs.Vec.{vec_items};
ghost use Rattle.size_model.specs.Declarations.{told, stream as told_stream, column as told_column};
ghost use Rattle.size_model.specs.Answers as spec;
ghost use Rattle.size_model.specs.Answers.{Adds, Answers, under};

use crate::declaration::{Declaration, StreamSize};
use std::alloc::{AllocError, Global};
use std::collections::HashMap;

/// The rows of a stream that isn't declared.
const DEFAULT_ROWS: u64 = 1000;

/// Its parts.
const DEFAULT_PARTS: u32 = 1;

/// The distinct values of a column that isn't declared.
const DEFAULT_DISTINCT: u64 = 100;

/// The declared sizes of streams and of their columns, by name. Names are compared byte for byte.
#[derive(Drop)]
pub struct Sizes {
    pub(crate) streams: HashMap<Vec<u8>, StreamSize>,
    pub(crate) columns: HashMap<Vec<u8>, HashMap<Vec<u8>, u64>>,
}

/// Puts a value under a name. An error is want of memory.
fn put<V: Drop>(
    alloc: Global,
    table: &mut HashMap<Vec<u8>, V>,
    name: &[u8],
    value: V,
) -> Result<(), AllocError>
    ensures { OnOk result ((n : List ℕ) → under vec_items table.new n ≡ cond (bytes_eq name.now n) (Some value) (under vec_items table.old n)) }
{
    let key = Vec::from_slice(alloc, name)?;
    table.insert(key, value)?;
    Ok(())
}

impl Sizes {
    /// Sizes that nothing declares.
    pub fn new(alloc: Global) -> Sizes
        ensures streams { (name : List ℕ) → spec.stream_of result name ≡ None }
        ensures columns { (name col : List ℕ) → spec.column_of result name col ≡ None }
    {
        Sizes {
            streams: HashMap::new(alloc),
            columns: HashMap::new(alloc),
        }
    }

    /// The rows of a stream: those that are declared, or 1000.
    pub fn rows(&self, name: &[u8]) -> u64
        ensures { result ≡ spec.rows_of self.now name.now }
    {
        match self.stream(name) {
            Some(size) => size.rows,
            None => DEFAULT_ROWS,
        }
    }

    /// The parts of a stream: those that are declared, or 1.
    pub fn parts(&self, name: &[u8]) -> u32
        ensures { result ≡ spec.parts_of self.now name.now }
    {
        match self.stream(name) {
            Some(size) => size.parts,
            None => DEFAULT_PARTS,
        }
    }

    /// How many distinct values a column of a stream has: those that are declared, or 100.
    pub fn distinct(&self, name: &[u8], column: &[u8]) -> u64
        ensures { result ≡ spec.distinct_of self.now name.now column.now }
    {
        match self.column(name, column) {
            Some(distinct) => distinct,
            None => DEFAULT_DISTINCT,
        }
    }

    fn stream(&self, name: &[u8]) -> Option<StreamSize>
        ensures { result ≡ spec.stream_of self.now name.now }
    {
        self.streams.get(name).copied()
    }

    fn column(&self, name: &[u8], column: &[u8]) -> Option<u64>
        ensures { result ≡ spec.column_of self.now name.now column.now }
    {
        self.columns.get(name)?.get(column).copied()
    }

    /// Adds a declaration, if nothing is declared of the same stream or column yet, and says whether it did. An error is
    /// want of memory.
    pub(crate) fn declare(
        &mut self,
        alloc: Global,
        declaration: Declaration<'_>,
    ) -> Result<bool, AllocError>
        ensures taken { IfOk result (λ taken. taken ≡ spec.is_free (told declaration.entry) self.old) }
        ensures adds { IfOk result (λ taken. taken ≡ true → Adds (told declaration.entry) self.old self.new) }
    {
        match declaration {
            Declaration::Stream { name, size } => self.declare_stream(alloc, name, size),
            Declaration::Column {
                name,
                column,
                distinct,
            } => self.declare_column(alloc, name, column, distinct),
        }
    }

    fn declare_stream(
        &mut self,
        alloc: Global,
        name: &[u8],
        size: StreamSize,
    ) -> Result<bool, AllocError>
        ensures taken { IfOk result (λ taken. taken ≡ spec.is_free (told_stream name.now size) self.old) }
        ensures adds { IfOk result (λ taken. taken ≡ true → Adds (told_stream name.now size) self.old self.new) }
    {
        let free = self.stream(name).is_none();
        if free {
            put(alloc, &mut self.streams, name, size)?;
        }
        Ok(free)
    }

    fn declare_column(
        &mut self,
        alloc: Global,
        name: &[u8],
        column: &[u8],
        distinct: u64,
    ) -> Result<bool, AllocError>
        ensures taken { IfOk result (λ taken. taken ≡ spec.is_free (told_column name.now column.now distinct) self.old) }
        ensures adds { IfOk result (λ taken. taken ≡ true → Adds (told_column name.now column.now distinct) self.old self.new) }
    {
        let free = self.column(name, column).is_none();
        if free {
            self.add_column(alloc, name, column, distinct)?;
        }
        Ok(free)
    }

    fn add_column(
        &mut self,
        alloc: Global,
        name: &[u8],
        column: &[u8],
        distinct: u64,
    ) -> Result<(), AllocError>
        ensures { OnOk result (Adds (told_column name.now column.now distinct) self.old self.new) }
    {
        match self.columns.get_mut(name) {
            Some(columns) => put(alloc, columns, column, distinct),
            None => {
                let mut columns = HashMap::new(alloc);
                put(alloc, &mut columns, column, distinct)?;
                put(alloc, &mut self.columns, name, columns)
            }
        }
    }
}
