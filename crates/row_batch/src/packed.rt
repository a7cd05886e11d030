// Values one behind another in one byte vector, each found by where it ends.
ghost use Rattle.std.specs.Prelude.{◌≡◌, ◌<◌, ◌≤◌, [], ◌∷◌, ◌++◌, OnOk, OnErr, length, get_or, map};
ghost use Rattle.std.specs.Int.{w64, w128};
ghost use Rattle.std.specs.List.{slice_range};
ghost use Rattle.scope_value.specs.Lent.{held};
ghost use Rattle.scope_value.specs.declared.value.Value.TheVariants as value;
ghost use Rattle.row_batch.specs.Codes.{value_of, number_of};
ghost use Rattle.row_batch.specs.Rows.{IsLonger};

use scope_value::{Value, ValueRef};
use std::alloc::{AllocError, Global};
use std::marker::Model;

/// A list of values. What an error leaves is the list as it was, with what was added before memory was refused.
#[derive(Drop)]
pub struct Packed {
    bytes: Vec<u8>,
    ends: Vec<usize>,
}

impl Model for Packed {
    ghost use Rattle.std.specs.Prelude.{List, length};
    ghost use Rattle.scope_value.specs.declared.value.Value.{Value as Held};
    ghost use Rattle.row_batch.specs.Codes.{unpacked};
    ghost use Rattle.row_batch.specs.Pieces.{AreEnds};

    ghost Value = { List Held };

    ghost view = { λ s. unpacked s.bytes.items s.ends.items };

    ghost invariant = { λ s. AreEnds 0 s.ends.items (length s.bytes.items) };
}

impl Packed {
    pub fn new(alloc: Global) -> Packed
        ensures { result ≡ [] }
    {
        Packed {
            bytes: Vec::new(alloc),
            ends: Vec::new(alloc),
        }
    }

    pub fn len(&self) -> usize
        ensures { result ≡ length self.now }
    {
        self.ends.as_slice().len()
    }

    /// Adds a value at the end.
    pub fn push(&mut self, value: ValueRef) -> Result<(), AllocError>
        ensures ok { OnOk result (self.new ≡ self.old ++ held value.entry ∷ []) }
        ensures err { OnErr result (self.new ≡ self.old) }
    {
        match value {
            ValueRef::Null => self.push_piece(&[], &[]),
            ValueRef::Bool(false) => self.push_piece(&[1], &[]),
            ValueRef::Bool(true) => self.push_piece(&[2], &[]),
            ValueRef::Int(n) => self.push_piece(&[3], &n.to_le_bytes()),
            ValueRef::Bytes(bytes) => self.push_piece(&[4], bytes),
            ValueRef::Wide(n) => self.push_piece(&[5], &n.to_le_bytes()),
        }
    }

    /// Adds the values of a row at the end.
    pub fn push_row(&mut self, row: &[Value]) -> Result<(), AllocError>
        ensures ok { OnOk result (self.new ≡ self.old ++ row.now) }
        ensures err { OnErr result (IsLonger self.old self.new) }
    {
        for value in row {
            self.push(value.lend())?;
        }
        Ok(())
    }

    /// Adds lent values at the end.
    pub fn push_lent(&mut self, row: &[ValueRef]) -> Result<(), AllocError>
        ensures ok { OnOk result (self.new ≡ self.old ++ map held row.now) }
        ensures err { OnErr result (IsLonger self.old self.new) }
    {
        for value in row {
            self.push(*value)?;
        }
        Ok(())
    }

    pub fn clear(&mut self)
        ensures { self.new ≡ [] }
    {
        self.bytes.clear();
        self.ends.clear();
    }

    /// The bytes of the value at a place, none past the end.
    pub fn piece(&self, at: usize) -> &[u8]
        ensures { value_of result.now ≡ get_or self.now at value.Null }
    {
        let ends = self.ends.as_slice();
        if at < ends.len() {
            part(self.bytes.as_slice(), start_at(ends, at), ends[at])
        } else {
            &[]
        }
    }

    /// Adds the value with these bytes, one part behind the other.
    pub fn push_piece(&mut self, mark: &[u8], bytes: &[u8]) -> Result<(), AllocError>
        ensures ok { OnOk result (self.new ≡ self.old ++ value_of (mark.now ++ bytes.now) ∷ []) }
        ensures err { OnErr result (self.new ≡ self.old) }
    {
        let before = self.bytes.len();
        append(&mut self.bytes, mark, bytes)?;
        let end = self.bytes.as_slice().len();
        match self.ends.push(end) {
            Ok(()) => Ok(()),
            Err(_) => {
                self.bytes.truncate(before);
                Err(AllocError)
            }
        }
    }
}

// Where the piece at a place begins: at the end of the one before it.
fn start_at(ends: &[usize], at: usize) -> usize
    requires { at < length ends.now }
    ensures { result ≡ get_or (0 ∷ ends.now) at 0 }
{
    if at == 0 { 0 } else { ends[at - 1] }
}

fn part(bytes: &[u8], from: usize, to: usize) -> &[u8]
    requires up { from ≤ to }
    requires within { to ≤ length bytes.now }
    ensures { result.now ≡ slice_range bytes.now from to }
{
    &bytes[from..to]
}

// Both at the end, or nothing.
fn append(out: &mut Vec<u8>, first: &[u8], second: &[u8]) -> Result<(), AllocError>
    ensures ok { OnOk result (out.new.items ≡ out.old.items ++ (first.now ++ second.now)) }
    ensures err { OnErr result (out.new.items ≡ out.old.items) }
{
    let before = out.len();
    out.extend_from_slice(first)?;
    if out.extend_from_slice(second).is_err() {
        out.truncate(before);
        return Err(AllocError);
    }
    Ok(())
}

/// The value with these bytes.
pub fn value_in(piece: &[u8]) -> ValueRef<'_>
    ensures { held result ≡ value_of piece.now }
{
    match piece {
        [] => ValueRef::Null,
        [1, ..] => ValueRef::Bool(false),
        [2, ..] => ValueRef::Bool(true),
        [3, bytes @ ..] => ValueRef::Int(number_in(bytes)),
        [4, bytes @ ..] => ValueRef::Bytes(bytes),
        [_, bytes @ ..] => ValueRef::Wide(wide_in(bytes)),
    }
}

fn number_in(bytes: &[u8]) -> i64
    ensures { result ≡ number_of w64 bytes.now }
{
    match bytes.as_array::<8>() {
        Some(bytes) => i64::from_le_bytes(*bytes),
        None => 0,
    }
}

fn wide_in(bytes: &[u8]) -> i128
    ensures { result ≡ number_of w128 bytes.now }
{
    match bytes.as_array::<16>() {
        Some(bytes) => i128::from_le_bytes(*bytes),
        None => 0,
    }
}
