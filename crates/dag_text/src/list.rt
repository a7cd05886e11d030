// Lists of like things, with a byte between each two.
ghost use Rattle.std.specs.Prelude.{◌≡◌, ℕ, List, ◌∷◌, ◌++◌, map, OnOk, decimal};
ghost use Rattle.std.specs.List.{join_with_byte};
ghost use Rattle.dag_text.specs.Pieces as spec;

use crate::piece::{write_number, write_quoted};
use col_sets::{ColId, ColSet, Dir, KeyOrders};
use scope_value::{Cell, ColType, Column};
use std::alloc::AllocError;

/// What can stand in a list.
pub(crate) trait Piece {
    ghost text: { Self → List ℕ };

    /// Writes it.
    fn write(&self, out: &mut Vec<u8>) -> Result<(), AllocError>
        ensures { OnOk result (out.new.items ≡ out.old.items ++ text self.now) };
}

// Writes one of the later pieces, behind what parts it from the one before.
fn write_next<T: Piece>(piece: &T, between: u8, out: &mut Vec<u8>) -> Result<(), AllocError>
    ensures { OnOk result (out.new.items ≡ out.old.items ++ between ∷ T.text piece.now) }
{
    out.push(between)?;
    piece.write(out)
}

/// Writes the pieces with the byte between each two.
pub(crate) fn write_joined<T: Piece>(
    pieces: &[T],
    between: u8,
    out: &mut Vec<u8>,
) -> Result<(), AllocError>
    ensures { OnOk result (out.new.items ≡ out.old.items ++ join_with_byte between (map T.text pieces.now)) }
{
    let Some((first, rest)) = pieces.split_first() else {
        return Ok(());
    };
    first.write(out)?;
    for piece in rest {
        write_next(piece, between, out)?;
    }
    Ok(())
}

/// The same, and `-` where there are none.
pub(crate) fn write_listed<T: Piece>(
    pieces: &[T],
    between: u8,
    out: &mut Vec<u8>,
) -> Result<(), AllocError>
    ensures { OnOk result (out.new.items ≡ out.old.items ++ spec.listed between (map T.text pieces.now)) }
{
    if pieces.is_empty() {
        return out.extend_from_slice(b"-");
    }
    write_joined(pieces, between, out)
}

impl Piece for u32 {
    ghost text = { decimal };

    fn write(&self, out: &mut Vec<u8>) -> Result<(), AllocError> {
        write_number(u64::from(*self), out)
    }
}

impl Piece for u64 {
    ghost text = { decimal };

    fn write(&self, out: &mut Vec<u8>) -> Result<(), AllocError> {
        write_number(*self, out)
    }
}

impl Piece for Cell {
    ghost text = { spec.quoted };

    fn write(&self, out: &mut Vec<u8>) -> Result<(), AllocError> {
        write_quoted(self.as_slice(), out)
    }
}

// Writes the sign of a direction.
fn write_sign(dir: Dir, out: &mut Vec<u8>) -> Result<(), AllocError>
    ensures { OnOk result (out.new.items ≡ out.old.items ++ spec.sign_text dir) }
{
    match dir {
        Dir::Up => out.extend_from_slice(b"+"),
        Dir::Down => out.extend_from_slice(b"-"),
    }
}

impl Piece for (ColId, Dir) {
    ghost text = { spec.key_text };

    fn write(&self, out: &mut Vec<u8>) -> Result<(), AllocError> {
        let (col, dir) = *self;
        write_number(u64::from(col), out)?;
        write_sign(dir, out)
    }
}

impl Piece for (ColId, ColId) {
    ghost text = { spec.pair_text };

    fn write(&self, out: &mut Vec<u8>) -> Result<(), AllocError> {
        let (a, b) = *self;
        write_number(u64::from(a), out)?;
        out.extend_from_slice(b"=")?;
        write_number(u64::from(b), out)
    }
}

// Writes the word of a type.
fn write_type(kind: ColType, out: &mut Vec<u8>) -> Result<(), AllocError>
    ensures { OnOk result (out.new.items ≡ out.old.items ++ spec.type_text kind) }
{
    match kind {
        ColType::Int => out.extend_from_slice(b"int"),
        ColType::Long => out.extend_from_slice(b"long"),
        ColType::Text => out.extend_from_slice(b"string"),
        ColType::Bool => out.extend_from_slice(b"bool"),
    }
}

impl Piece for Column {
    ghost text = { spec.column_text };

    fn write(&self, out: &mut Vec<u8>) -> Result<(), AllocError> {
        out.extend_from_slice(self.name.as_slice())?;
        out.extend_from_slice(b":")?;
        write_type(self.kind, out)
    }
}

/// Writes the columns of a set, ascending, behind a word.
pub(crate) fn write_columns(word: &[u8], cols: ColSet, out: &mut Vec<u8>) -> Result<(), AllocError>
    ensures { OnOk result (out.new.items ≡ out.old.items ++ (word.now ++ spec.columns_text cols)) }
{
    out.extend_from_slice(word)?;
    write_listed(cols.members().as_slice(), b'.', out)
}

/// Writes an order.
pub(crate) fn write_order(order: &KeyOrders, out: &mut Vec<u8>) -> Result<(), AllocError>
    ensures { OnOk result (out.new.items ≡ out.old.items ++ spec.order_text order.now) }
{
    write_listed(order.keys().as_slice(), b'.', out)
}

/// Writes an order behind a word, and `-` where there is none.
pub(crate) fn write_presort(
    word: &[u8],
    order: Option<KeyOrders>,
    out: &mut Vec<u8>,
) -> Result<(), AllocError>
    ensures { OnOk result (out.new.items ≡ out.old.items ++ (word.now ++ spec.presort_text order)) }
{
    out.extend_from_slice(word)?;
    match order {
        Some(order) => write_order(&order, out),
        None => out.extend_from_slice(b"-"),
    }
}

/// Writes the place and the args of an operator, behind a word.
pub(crate) fn write_called(
    word: &[u8],
    op: u32,
    args: &[Cell],
    out: &mut Vec<u8>,
) -> Result<(), AllocError>
    ensures { OnOk result (out.new.items ≡ out.old.items ++ (word.now ++ spec.called_text op args.now)) }
{
    out.extend_from_slice(word)?;
    write_number(u64::from(op), out)?;
    out.extend_from_slice(b" args ")?;
    write_listed(args, b',', out)
}
