//! The tables of schemes and of local actions, each answer worked by hand from the written test.
ghost use Rattle.std.specs.Prelude.{◌<◌};

use super::*;
use col_sets::{ColId, ColSet, Dir, KeyCols, KeyOrders};
use fd_closure::Facts;
use structural_props::{Action, Delivered, Local, NeedScheme, Required, Scheme};

// One question, with its answer.
#[derive(Clone, Copy)]
struct Case<'a> {
    facts: &'a Facts,
    have: Delivered,
    want: Required,
    answer: bool,
}

fn set_of<const N: usize>(cols: [ColId; N]) -> ColSet {
    ColSet::of(&cols)
}

fn key_of(first: ColId, second: ColId) -> KeyCols
    requires { first < 128 }
{
    let mut key = KeyCols::new(first);
    let _room = key.push(second);
    key
}

fn orders_of(first: ColId, second: ColId) -> KeyOrders
    requires { first < 128 }
{
    let mut keys = KeyOrders::new(first, Dir::Down);
    let _room = keys.push(second, Dir::Up);
    keys
}

fn acts<const N: usize>(actions: [Action; N]) -> Local {
    let mut local = Local::new();
    for action in &actions {
        let _room = local.push(*action);
    }
    local
}

fn group<const N: usize>(cols: [ColId; N]) -> Action {
    Action::Group(set_of(cols))
}

fn up(c: ColId) -> Action {
    Action::Order(c, Dir::Up)
}

fn down(c: ColId) -> Action {
    Action::Order(c, Dir::Down)
}

fn together<const N: usize>(cols: [ColId; N]) -> NeedScheme {
    NeedScheme::Together(set_of(cols))
}

fn exact(c: ColId) -> NeedScheme
    requires { c < 128 }
{
    NeedScheme::HashExact(KeyCols::new(c))
}

fn hash(c: ColId) -> Scheme
    requires { c < 128 }
{
    Scheme::Hash(KeyCols::new(c))
}

// A question about schemes alone.
fn dealt(facts: &Facts, have: Scheme, want: NeedScheme, answer: bool) -> Case<'_> {
    let local = Local::new();
    Case {
        facts,
        have: Delivered {
            scheme: have,
            local,
        },
        want: Required {
            scheme: want,
            local,
        },
        answer,
    }
}

// A question about the local actions of one part.
fn ordered(facts: &Facts, have: Local, want: Local, answer: bool) -> Case<'_> {
    Case {
        facts,
        have: Delivered {
            scheme: Scheme::Serial,
            local: have,
        },
        want: Required {
            scheme: NeedScheme::OnePartition,
            local: want,
        },
        answer,
    }
}

// Rows that agree on some columns lie in one part.
fn kept_together<'a>(
    plain: &'a Facts,
    constant: &'a Facts,
    determined: &'a Facts,
    equal: &'a Facts,
) -> [Case<'a>; 10] {
    [
        // A key within the group's columns keeps the group in one part, a wider one may part it.
        dealt(plain, hash(2), together([2, 5]), true),
        dealt(plain, Scheme::Hash(key_of(2, 5)), together([2]), false),
        dealt(constant, Scheme::Hash(key_of(2, 5)), together([2]), true),
        dealt(determined, hash(2), together([1]), true),
        dealt(determined, hash(1), together([2]), false),
        dealt(plain, Scheme::Serial, together([2]), true),
        dealt(plain, Scheme::Any(4), together([2]), false),
        // Of a range only the columns count, whatever their directions.
        dealt(
            plain,
            Scheme::Range(orders_of(2, 3)),
            together([2, 3]),
            true,
        ),
        dealt(plain, Scheme::Range(orders_of(2, 3)), together([3]), false),
        dealt(equal, Scheme::Range(orders_of(2, 3)), together([3]), true),
    ]
}

// Rows lie in the parts of the buckets of a key.
fn hashed_exactly<'a>(
    plain: &'a Facts,
    constants: &'a Facts,
    determined: &'a Facts,
    equal: &'a Facts,
) -> [Case<'a>; 11] {
    [
        // An exact key is the same key, column by column, but for equal columns.
        dealt(plain, hash(2), exact(2), true),
        dealt(plain, hash(3), exact(2), false),
        dealt(equal, hash(3), exact(2), true),
        dealt(determined, hash(2), exact(1), false),
        dealt(constants, hash(5), exact(2), false),
        dealt(plain, Scheme::Hash(key_of(2, 3)), exact(2), false),
        dealt(plain, hash(2), NeedScheme::HashExact(key_of(2, 3)), false),
        dealt(
            plain,
            Scheme::Hash(key_of(2, 3)),
            NeedScheme::HashExact(key_of(3, 2)),
            false,
        ),
        dealt(
            equal,
            Scheme::Hash(key_of(2, 3)),
            NeedScheme::HashExact(key_of(3, 2)),
            true,
        ),
        dealt(plain, Scheme::Serial, exact(2), false),
        dealt(
            plain,
            Scheme::Range(KeyOrders::new(2, Dir::Up)),
            exact(2),
            false,
        ),
    ]
}

// One part, any parts, and copies.
fn parts_and_copies(plain: &Facts) -> [Case<'_>; 13] {
    [
        // Any number of parts is as good as none is asked for, and one part is Serial by name alone.
        dealt(plain, Scheme::Any(4), NeedScheme::None, true),
        dealt(plain, Scheme::Any(1), NeedScheme::OnePartition, false),
        dealt(plain, hash(2), NeedScheme::OnePartition, false),
        dealt(plain, Scheme::Serial, NeedScheme::OnePartition, true),
        // Copies are as good as so many copies, and as nothing else.
        dealt(plain, Scheme::Copies(4), NeedScheme::None, false),
        dealt(plain, Scheme::Copies(4), NeedScheme::Copies(4), true),
        dealt(plain, Scheme::Copies(4), NeedScheme::Copies(2), false),
        dealt(plain, Scheme::Copies(4), NeedScheme::OnePartition, false),
        dealt(plain, Scheme::Copies(4), together([2]), false),
        dealt(plain, Scheme::Copies(4), exact(2), false),
        dealt(plain, Scheme::Any(4), NeedScheme::Copies(4), false),
        dealt(plain, Scheme::Serial, NeedScheme::Copies(2), false),
        dealt(plain, hash(2), NeedScheme::Copies(4), false),
    ]
}

// Actions that group.
fn grouped<'a>(triple: &'a Facts, implied: &'a Facts, fixed: &'a Facts) -> [Case<'a>; 12] {
    [
        // Orders group by their columns, from the left.
        ordered(triple, acts([up(1), up(2)]), acts([group([1, 2])]), true),
        ordered(triple, acts([up(1), up(2)]), acts([group([2])]), false),
        ordered(triple, acts([up(1)]), acts([group([1, 2])]), false),
        ordered(implied, acts([up(1)]), acts([group([1, 2])]), true),
        ordered(fixed, acts([up(1), up(2)]), acts([group([2])]), true),
        ordered(
            triple,
            acts([up(1), down(2), up(3)]),
            acts([group([1, 2]), up(3)]),
            true,
        ),
        ordered(
            triple,
            acts([up(1), up(2), up(3)]),
            acts([group([1, 3])]),
            false,
        ),
        ordered(
            implied,
            acts([up(1), up(2), up(3)]),
            acts([group([1, 3])]),
            true,
        ),
        // A wider group may part a narrower one, and a group orders nothing.
        ordered(triple, acts([group([1, 2])]), acts([group([1])]), false),
        ordered(implied, acts([group([1, 2])]), acts([group([1])]), true),
        ordered(
            triple,
            acts([group([1]), up(2)]),
            acts([group([1, 2])]),
            true,
        ),
        ordered(triple, acts([group([1])]), acts([up(1)]), false),
    ]
}

// Actions that order, and actions that are fixed.
fn in_order<'a>(triple: &'a Facts, same: &'a Facts, fixed: &'a Facts) -> [Case<'a>; 10] {
    [
        // An Order is met by one of the same direction and an equal column.
        ordered(triple, acts([down(2)]), acts([up(2)]), false),
        ordered(triple, acts([up(3)]), acts([up(2)]), false),
        ordered(same, acts([up(3)]), acts([up(2)]), true),
        ordered(triple, acts([up(2), up(1)]), acts([up(1), up(2)]), false),
        ordered(triple, acts([up(1)]), acts([up(1), down(1)]), true),
        // What is fixed is dropped, on either side.
        ordered(fixed, acts([]), acts([down(1)]), true),
        ordered(fixed, acts([up(1), up(2)]), acts([up(2)]), true),
        ordered(triple, acts([]), acts([up(1)]), false),
        ordered(triple, acts([up(1)]), acts([]), true),
        ordered(triple, acts([up(1)]), acts([group([])]), true),
    ]
}

// Rest, on either side.
fn rest<'a>(pair: &'a Facts, triple: &'a Facts) -> [Case<'a>; 9] {
    [
        // Rest is met by Rest, or where all columns are fixed, and groups by all columns.
        ordered(pair, acts([Action::Rest]), acts([group([1, 2])]), true),
        ordered(
            pair,
            acts([Action::Rest]),
            acts([group([1, 2]), down(1)]),
            true,
        ),
        ordered(pair, acts([Action::Rest]), acts([group([1])]), false),
        ordered(pair, acts([Action::Rest]), acts([group([3])]), false),
        ordered(pair, acts([Action::Rest]), acts([up(1)]), false),
        ordered(pair, acts([Action::Rest]), acts([Action::Rest]), true),
        ordered(pair, acts([up(1), up(2)]), acts([Action::Rest]), false),
        ordered(
            pair,
            acts([up(1), up(2)]),
            acts([up(1), up(2), Action::Rest]),
            true,
        ),
        ordered(
            triple,
            acts([up(1), Action::Rest]),
            acts([group([1]), Action::Rest]),
            true,
        ),
    ]
}

// The place of the first case that is answered otherwise.
fn first_wrong(cases: &[Case<'_>]) -> Option<usize> {
    for (i, case) in cases.iter().enumerate() {
        if satisfies(&case.have, &case.want, case.facts) != case.answer {
            return Some(i);
        }
    }
    None
}

#[test]
fn properties_are_matched_as_worked_out(rt: HostRuntime) {
    let plain = Facts::of_columns(set_of([1, 2, 3, 5]));
    let constant = plain.with_constant(5);
    let constants = constant.with_constant(2);
    let determined = plain.with_dependency(set_of([1]), 2);
    let equal = plain.with_equal(2, 3);
    let pair = Facts::of_columns(set_of([1, 2]));
    let triple = Facts::of_columns(set_of([1, 2, 3]));
    let implied = triple.with_dependency(set_of([1]), 2);
    let same = triple.with_equal(2, 3);
    let fixed = triple.with_constant(1);
    let wrong = [
        first_wrong(&kept_together(&plain, &constant, &determined, &equal)),
        first_wrong(&hashed_exactly(&plain, &constants, &determined, &equal)),
        first_wrong(&parts_and_copies(&plain)),
        first_wrong(&grouped(&triple, &implied, &fixed)),
        first_wrong(&in_order(&triple, &same, &fixed)),
        first_wrong(&rest(&pair, &triple)),
    ];
    assert_eq!(rt; wrong, [None; 6]);
}
