// The names that the columns of a node's child have above the node.
ghost use Rattle.std.specs.Prelude.{◌≡◌, ℕ, ◌<◌, Option, slice_get, position};
ghost use Rattle.logical_dag.specs.Facts.{is_column, ref_name, item_name, key_name};
ghost use Rattle.logical_dag.specs.Known.{name_of};

use col_sets::{ColId, ColSet, MAX_COLUMNS};
use scope_expr::Expr;

/// Of each column its name, where it has one.
#[derive(Clone, Copy)]
pub struct Names {
    pub of: [Option<ColId>; MAX_COLUMNS],
}

/// The column at a place of a set, counted from 0.
pub fn column_at(cols: ColSet, place: usize) -> Option<ColId>
    ensures { result ≡ slice_get cols place }
{
    if place >= cols.count() as usize {
        return None;
    }
    for c in 0..MAX_COLUMNS as ColId {
        if cols.has(c) && cols.rank(c) as usize == place {
            return Some(c);
        }
    }
    None
}

// The name of a column of a shared result in a Ref.
fn ref_name(shared: ColSet, cols: ColSet, c: ColId) -> Option<ColId>
    ensures { result ≡ ref_name shared cols c }
{
    if shared.has(c) {
        column_at(cols, shared.rank(c) as usize)
    } else {
        None
    }
}

// Whether the item is the plain column.
fn is_column(item: &Expr, c: ColId) -> bool
    ensures { result ≡ is_column c item.now }
{
    match item {
        Expr::Col(d, _) => c == *d,
        _ => false,
    }
}

/// The first place of an item that is the plain column.
pub fn place_of(items: &[Expr], c: ColId) -> Option<usize>
    ensures { result ≡ position (is_column c) items.now }
{
    items.iter().position(|e| is_column(e, c))
}

// The name of a column above a projection: that of the first item that is the column.
fn item_name(items: &[Expr], cols: ColSet, c: ColId) -> Option<ColId>
    ensures { result ≡ item_name items.now cols c }
{
    match place_of(items, c) {
        Some(place) => column_at(cols, place),
        None => None,
    }
}

/// The names of a shared result's columns in a Ref.
pub fn ref_names(shared: ColSet, cols: ColSet) -> Names
    ensures { (c : ℕ) → c < 128 → name_of result c ≡ ref_name shared cols c }
{
    let mut of = [None; MAX_COLUMNS];
    for c in 0..MAX_COLUMNS as ColId {
        of[c as usize] = ref_name(shared, cols, c);
    }
    Names { of }
}

/// The names of columns above a projection.
pub fn item_names(items: &[Expr], cols: ColSet) -> Names
    ensures { (c : ℕ) → c < 128 → name_of result c ≡ item_name items.now cols c }
{
    let mut of = [None; MAX_COLUMNS];
    for c in 0..MAX_COLUMNS as ColId {
        of[c as usize] = item_name(items, cols, c);
    }
    Names { of }
}

/// The columns of a key, each under its own name.
pub fn key_names(keys: ColSet) -> Names
    ensures { (c : ℕ) → c < 128 → name_of result c ≡ key_name keys c }
{
    let mut of = [None; MAX_COLUMNS];
    for c in 0..MAX_COLUMNS as ColId {
        of[c as usize] = if keys.has(c) { Some(c) } else { None };
    }
    Names { of }
}
