//! What a set of columns determines.
ghost use Rattle.std.specs.Prelude.{◌≡◌, ◌<◌};
ghost use Rattle.fd_closure.specs.Closure.{classes_of, forces, grown, closure_of};
ghost use Rattle.fd_closure.specs.Least.{IsLeast, IsLeastLaw};
ghost use Rattle.fd_closure.specs.Hold.{HoldLaw, BagLaw};

use crate::facts::Facts;
use col_sets::{ColId, ColSet, MAX_COLUMNS};

// The classes of the columns of the set.
fn classes_of(facts: &Facts, set: ColSet) -> ColSet
    ensures { result ≡ classes_of facts.now set }
{
    let mut classes = ColSet::empty();
    for c in 0..MAX_COLUMNS as ColId {
        if set.has(c) {
            classes = classes.with(facts.class[c as usize]);
        }
    }
    classes
}

// Whether the set, whose columns have these classes, determines the column in one step.
fn forced(facts: &Facts, set: ColSet, classes: ColSet, c: ColId) -> bool
    requires column { c < 128 }
    requires of_set { classes ≡ classes_of facts.now set }
    ensures { result ≡ forces facts.now set c }
{
    facts.constants.has(c)
        || facts.determined.has(c) && facts.by[c as usize].within(set)
        || classes.has(facts.class[c as usize])
}

// The set with all that it determines in one step.
fn pass(facts: &Facts, set: ColSet) -> ColSet
    ensures { result ≡ grown facts.now set }
{
    let classes = classes_of(facts, set);
    let mut next = ColSet::empty().union(set);
    for c in 0..MAX_COLUMNS as ColId {
        if forced(facts, set, classes, c) {
            next = next.with(c);
        }
    }
    next
}

/// The least set that has the columns `from` and the constants, and is closed under the dependencies and the equal
/// columns: what rows that agree on `from` agree on.
pub fn closure(facts: &Facts, from: ColSet) -> ColSet
    ensures least { IsLeast facts.now from result }
    ensures value { result ≡ closure_of facts.now from }
{
    let mut set = pass(facts, from);
    for _ in 1..MAX_COLUMNS {
        let next = pass(facts, set);
        if next.within(set) {
            return set;
        }
        set = next;
    }
    set
}

/// The steps lead to the least closed set.
pub fn closure_law()
    ensures { IsLeastLaw }
{}

/// Rows of which the facts hold and that agree on a set agree on its closure, and facts that hold of a list of rows
/// hold of it in any order.
pub fn hold_law()
    ensures closure { HoldLaw }
    ensures bag { BagLaw }
{}
