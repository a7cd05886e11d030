// Facts under new names: what is known of rows that are made of others.
ghost use Rattle.std.specs.Prelude.{◌≡◌, ◌<◌, ◌⊎◌, ℕ, List, true, false, Some, MatchOption};
ghost use Rattle.col_sets.specs.Sets.{has};
ghost use Rattle.fd_closure.specs.Known.{equal_of};
ghost use Rattle.logical_dag.specs.Facts.{IsRenamedSet};
ghost use Rattle.logical_dag.specs.Known.{name_of, IsNaming, IsOwn, AreConstants, CarriedConstants, AreDependencies, CarriedDependencies, AddedDependency, AreClasses, CarriedEqualities, IsFirstAlike, IsAlikeBelow, IsEquated, AreCarried, IsDependency, AreApart};

use crate::naming::Names;
use col_sets::{ColId, ColSet, MAX_COLUMNS};
use fd_closure::Facts;

// With the column under its name a constant, if it is one.
fn with_constant_of(from: &Facts, names: &Names, b: ColId, into: Facts) -> Facts
    requires { b < 128 }
    ensures rest { result ≡ record into { constants = result.constants } }
    ensures constants { AreConstants result (λ c. (has into.constants c ≡ true) ⊎ ((has from.now.constants b ≡ true) × (name_of names.now b ≡ Some c))) }
{
    if !from.constants.has(b) {
        return into;
    }
    match names.of[b as usize] {
        Some(c) => into.with_constant(c),
        None => into,
    }
}

// With the constants under their names.
fn with_constants(from: &Facts, names: &Names, into: Facts) -> Facts
    ensures rest { result ≡ record into { constants = result.constants } }
    ensures constants { AreConstants result (CarriedConstants from.now (name_of names.now) into) }
{
    let mut all = into;
    for b in 0..MAX_COLUMNS as ColId {
        all = with_constant_of(from, names, b, all);
    }
    all
}

// The new names of the columns of a set, where each of them has one.
fn renamed_set(names: &Names, set: ColSet) -> Option<ColSet>
    requires { IsNaming (name_of names.now) }
    ensures { MatchOption result
        ((s : List ℕ) → IsRenamedSet (name_of names.now) set s → ⊥)
        (λ s. IsRenamedSet (name_of names.now) set s) }
{
    let mut renamed = ColSet::empty();
    if set.count() == 0 {
        return Some(renamed);
    }
    for c in 0..MAX_COLUMNS as ColId {
        if set.has(c) {
            match names.of[c as usize] {
                Some(d) => renamed = renamed.with(d),
                None => return None,
            }
        }
    }
    Some(renamed)
}

// With the dependency of the column under its name, if it has one and all columns have their names.
fn with_dependency_of(from: &Facts, names: &Names, b: ColId, into: Facts) -> Facts
    requires column { b < 128 }
    requires naming { IsNaming (name_of names.now) }
    requires free { (c : ℕ) → name_of names.now b ≡ Some c → has into.determined c ≡ false }
    ensures rest { result ≡ record into { determined = result.determined; by = result.by } }
    ensures dependencies { AreDependencies result (AddedDependency from.now (name_of names.now) b into) }
{
    if !from.determined.has(b) {
        return into;
    }
    let Some(c) = names.of[b as usize] else {
        return into;
    };
    match renamed_set(names, from.by[b as usize]) {
        Some(set) => into.with_dependency(set, c),
        None => into,
    }
}

// With the dependencies under new names.
fn with_dependencies(from: &Facts, names: &Names, into: Facts) -> Facts
    requires naming { IsNaming (name_of names.now) }
    requires free { (b c : ℕ) → name_of names.now b ≡ Some c → has into.determined c ≡ false }
    ensures rest { result ≡ record into { determined = result.determined; by = result.by } }
    ensures dependencies { AreDependencies result (CarriedDependencies from.now (name_of names.now) into) }
{
    let mut all = into;
    for b in 0..MAX_COLUMNS as ColId {
        all = with_dependency_of(from, names, b, all);
    }
    all
}

// With the dependency that the column has by other facts, if it has one.
fn with_same_dependency(from: &Facts, b: ColId, into: Facts) -> Facts
    requires column { b < 128 }
    requires free { has from.now.determined b ≡ true → has into.determined b ≡ false }
    ensures rest { result ≡ record into { determined = result.determined; by = result.by } }
    ensures dependencies { AreDependencies result (λ s c. IsDependency into s c ⊎ ((c ≡ b) × IsDependency from.now s c)) }
{
    if from.determined.has(b) {
        into.with_dependency(from.by[b as usize], b)
    } else {
        into
    }
}

/// With the dependencies of other facts, where no column has one by both.
pub fn with_same_dependencies(from: &Facts, into: Facts) -> Facts
    requires { AreApart into from.now }
    ensures rest { result ≡ record into { determined = result.determined; by = result.by } }
    ensures dependencies { AreDependencies result (λ s c. IsDependency into s c ⊎ IsDependency from.now s c) }
{
    let mut all = into;
    for b in 0..MAX_COLUMNS as ColId {
        all = with_same_dependency(from, b, all);
    }
    all
}

// Whether the columns are equal by the facts.
fn are_equal(facts: &Facts, c: ColId, d: ColId) -> bool
    ensures { result ≡ equal_of facts.now c d }
{
    (c as usize) < MAX_COLUMNS
        && (d as usize) < MAX_COLUMNS
        && (facts.class[c as usize] as usize) < MAX_COLUMNS
        && facts.class[c as usize] == facts.class[d as usize]
}

// The name of the first column below `b` that is equal to it and has a name.
fn first_alike(from: &Facts, names: &Names, b: ColId) -> Option<ColId>
    requires { b < 128 }
    ensures { MatchOption result (IsFirstAlike from.now (name_of names.now) b) (IsAlikeBelow from.now (name_of names.now) b) }
{
    for a in 0..b {
        if are_equal(from, a, b) {
            if let Some(c) = names.of[a as usize] {
                return Some(c);
            }
        }
    }
    None
}

// With the column under its name equal to the first that is equal to it.
fn with_equal_of(from: &Facts, names: &Names, b: ColId, into: Facts) -> Facts
    requires { b < 128 }
    ensures rest { result ≡ record into { class = result.class } }
    ensures equal { IsEquated from.now (name_of names.now) b into result }
{
    let Some(d) = names.of[b as usize] else {
        return into;
    };
    match first_alike(from, names, b) {
        Some(c) => into.with_equal(c, d),
        None => into,
    }
}

/// With the equalities under new names. Each column looks for the first that is equal to it, so the steps are quadratic in
/// the number of columns, which is at most 128.
pub fn with_equalities(from: &Facts, names: &Names, into: Facts) -> Facts
    requires naming { IsNaming (name_of names.now) }
    requires own { IsOwn into }
    ensures rest { result ≡ record into { class = result.class } }
    ensures classes { AreClasses result (CarriedEqualities from.now (name_of names.now) into) }
{
    let mut all = into;
    for b in 0..MAX_COLUMNS as ColId {
        all = with_equal_of(from, names, b, all);
    }
    all
}

/// The facts of `into`, and those of `from` under new names, where all columns that they speak of have one.
pub fn carried(from: &Facts, names: &Names, into: Facts) -> Facts
    requires naming { IsNaming (name_of names.now) }
    requires free { (b c : ℕ) → name_of names.now b ≡ Some c → has into.determined c ≡ false }
    requires own { IsOwn into }
    ensures { AreCarried from.now (name_of names.now) into result }
{
    let constants = with_constants(from, names, into);
    let dependencies = with_dependencies(from, names, constants);
    with_equalities(from, names, dependencies)
}
