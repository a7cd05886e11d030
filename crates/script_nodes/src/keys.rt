// Keys and orders by place, in columns.
ghost use Rattle.std.specs.Prelude.{◌≡◌, ℕ, ◌≤◌, map, option_map, length, get_or, All};
ghost use Rattle.col_sets.specs.Keys.{IsBelow};
ghost use Rattle.script_meaning.specs.Part.{order_at, listed};
ghost use Rattle.script_meaning.specs.Placed.{ArePlaces, IsOrderBelow, IsPresortBelow};
ghost use Rattle.script_meaning.specs.Within.{IsFew, IsOrderFew};
ghost use Rattle.script_nodes.specs.Over.{IsOnOver};
ghost use Rattle.script_nodes.specs.Steps.{column_at};

use arrayvec::ArrayVec;
use col_sets::{ColId, Dir, KeyCols, KeyOrders};
use sqlite_items::Items;

/// The columns at these places, as a key.
#[tactic(auto, using(crate::proofs::Places::place_there, crate::proofs::Places::is_key))]
pub(crate) fn key_in(cols: &[ColId], places: &[u32]) -> KeyCols
    requires few { IsFew (length places.now) }
    requires there { ArePlaces (length cols.now) places.now }
    requires columns { All IsBelow cols.now }
    ensures { result ≡ map (column_at cols.now) places.now }
{
    let mut key: ArrayVec<ColId, 4> = ArrayVec::new();
    for place in places {
        key.push(cols[*place as usize]);
    }
    match KeyCols::from_slice(key.as_slice()) {
        Some(key) => key,
        None => unreachable!(),
    }
}

/// The columns that a GROUP BY lists, as a key, if it lists any.
pub(crate) fn written_in(cols: &[ColId], places: &[u32]) -> Option<KeyCols>
    requires few { length places.now ≤ 4 }
    requires there { ArePlaces (length cols.now) places.now }
    requires columns { All IsBelow cols.now }
    ensures { result ≡ option_map (map (column_at cols.now)) (listed places.now) }
{
    match places {
        [] => None,
        _ => Some(key_in(cols, places)),
    }
}

/// The columns at the places of an order.
#[tactic(auto, using(crate::proofs::Places::order_there, crate::proofs::Places::is_order_key))]
pub(crate) fn orders_in(cols: &[ColId], order: &[(u32, Dir)]) -> KeyOrders
    requires few { IsFew (length order.now) }
    requires there { IsOrderBelow (length cols.now) order.now }
    requires columns { All IsBelow cols.now }
    ensures { result ≡ map (λ k. (column_at cols.now k.0, k.1)) order.now }
{
    let mut keys: ArrayVec<(ColId, Dir), 4> = ArrayVec::new();
    for (place, dir) in order {
        keys.push((cols[*place as usize], *dir));
    }
    match KeyOrders::from_slice(keys.as_slice()) {
        Some(keys) => keys,
        None => unreachable!(),
    }
}

/// An ORDER BY by place, in the columns at these places. It has one to four keys, each at a place that is there.
pub fn order_in(cols: &[ColId], order: &Option<Items<(u32, Dir)>>) -> Option<KeyOrders>
    requires few { IsOrderFew order.now }
    requires there { IsPresortBelow (length cols.now) order.now }
    requires columns { All IsBelow cols.now }
    ensures { result ≡ order_at (λ p. get_or cols.now p 128) order.now }
{
    match order {
        Some(order) => Some(orders_in(cols, order.as_slice())),
        None => None,
    }
}

/// Pairs of places, each with one on the left and one on the right, in columns.
#[tactic(auto, using(crate::proofs::Places::left_there, crate::proofs::Places::right_there))]
pub(crate) fn pairs_in(
    left: &[ColId],
    right: &[ColId],
    on: &[(u32, u32)],
) -> ArrayVec<(ColId, ColId), 4>
    requires { IsOnOver (length left.now) (length right.now) on.now }
    ensures { result.items ≡ map (λ p. (column_at left.now p.0, column_at right.now p.1)) on.now }
{
    let mut pairs = ArrayVec::new();
    for (a, b) in on {
        pairs.push((left[*a as usize], right[*b as usize]));
    }
    pairs
}
