//! Worked sets, keys and orders.
use col_sets::{ColId, ColSet, Dir, KeyCols, KeyOrders, is_column};
use std::mem::size_of;

// The set has these members, that many of them below 5, and 5 or not.
fn is_set(cols: &[ColId], members: &[ColId], rank: u32, there: bool) -> bool {
    let set = ColSet::of(cols);
    set.members().as_slice() == members
        && set.count() as usize == members.len()
        && set.rank(5) == rank
        && set.rank(u32::MAX) == set.count()
        && set.has(5) == there
}

// Together the two sets have these columns, and the first is within the second or not.
fn join_to(a: &[ColId], b: &[ColId], all: &[ColId], within: bool) -> bool {
    let (a, b, all) = (ColSet::of(a), ColSet::of(b), ColSet::of(all));
    a.union(b) == all && a.within(b) == within && (b == all) == within
}

fn sets_are_lists() -> bool {
    is_set(&[], &[], 0, false)
        && is_set(&[5], &[5], 0, true)
        && is_set(&[4, 5, 6], &[4, 5, 6], 1, true)
        && is_set(&[0, 1, 127, 127], &[0, 1, 127], 2, false)
        && is_set(&[128, 4_000_000_000], &[], 0, false)
        && is_set(
            &[6, 3, 64, 63, 2, 5, 100],
            &[2, 3, 5, 6, 63, 64, 100],
            2,
            true,
        )
}

fn sets_are_joined() -> bool {
    join_to(&[1, 64, 127], &[0, 64], &[127, 64, 1, 0], false)
        && join_to(&[1, 64, 127], &[0, 1, 64, 127], &[0, 1, 64, 127], true)
        && join_to(&[0, 64], &[0, 1, 64, 127], &[0, 1, 64, 127], true)
        && join_to(&[], &[1, 64, 127], &[1, 64, 127], true)
        && join_to(&[0, 1, 64, 127], &[1, 64, 127], &[0, 1, 64, 127], false)
        && join_to(&[0, 64], &[64, 0], &[0, 64], true)
}

#[test]
fn sets_have_their_columns(rt: HostRuntime) {
    assert!(rt; sets_are_lists());
    assert!(rt; sets_are_joined());
    assert!(rt;
        ColSet::one(127) == ColSet::empty().with(127) && ColSet::one(128) == ColSet::empty()
    );
    assert!(rt; is_column(127) && !is_column(128));
}

// A key is made of the list, or not.
fn makes_key(cols: &[ColId], set: &[ColId], made: bool) -> bool {
    match KeyCols::from_slice(cols) {
        Some(key) => made && key.columns().as_slice() == cols && key.set() == ColSet::of(set),
        None => !made,
    }
}

// An order is made of the list, or not.
fn makes_order(order: &[(ColId, Dir)], set: &[ColId], made: bool) -> bool {
    match KeyOrders::from_slice(order) {
        Some(key) => made && key.keys().as_slice() == order && key.set() == ColSet::of(set),
        None => !made,
    }
}

// A key has one to four columns, each below 128.
#[test]
fn keys_hold_one_to_four_columns(rt: HostRuntime) {
    assert!(rt;
        makes_key(&[], &[], false)
            && makes_key(&[7], &[7], true)
            && makes_key(&[7, 3, 7, 127], &[3, 7, 127], true)
            && makes_key(&[7, 3, 7, 0, 9], &[], false)
            && makes_key(&[128], &[], false)
            && makes_key(&[7, 300], &[], false)
    );
    let (up, down) = (Dir::Up, Dir::Down);
    assert!(rt;
        makes_order(&[], &[], false)
            && makes_order(&[(7, down)], &[7], true)
            && makes_order(
                &[(7, down), (3, up), (7, up), (127, up)],
                &[3, 7, 127],
                true
            )
            && makes_order(&[(7, down), (3, up), (7, up), (0, up), (9, up)], &[], false)
            && makes_order(&[(128, down)], &[], false)
            && makes_order(&[(7, up), (300, down)], &[], false)
    );
}

fn key_grows() -> bool {
    let mut key = KeyCols::new(7);
    let grown = key.push(3) && !key.push(128) && key.push(7) && key.push(0) && !key.push(9);
    grown && key.columns().as_slice() == [7, 3, 7, 0].as_slice() && key != KeyCols::new(7)
}

fn order_grows() -> bool {
    let mut order = KeyOrders::new(7, Dir::Down);
    let grown = order.push(3, Dir::Up) && !order.push(128, Dir::Up) && order.push(0, Dir::Down);
    let wanted = [(7, Dir::Down), (3, Dir::Up), (0, Dir::Down)];
    grown && order.keys().as_slice() == wanted.as_slice() && order == order
}

// A fifth column finds no room, nor does one that is none.
#[test]
fn keys_grow_to_four_columns(rt: HostRuntime) {
    assert!(rt; key_grows() && order_grows());
}

#[test]
fn sets_and_keys_are_small(rt: HostRuntime) {
    assert_eq!(rt; size_of::<ColSet>(), 16);
    assert!(rt; size_of::<KeyCols>() <= 8);
    assert!(rt; size_of::<KeyOrders>() <= 12);
}
