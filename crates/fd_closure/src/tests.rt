//! The closure's worked sets.
use super::*;
use col_sets::{ColId, ColSet};

// The set of the columns.
fn set_of(cols: &[ColId]) -> ColSet {
    let mut set = ColSet::empty();
    for c in cols {
        set = set.with(*c);
    }
    set
}

// Of columns 0 to 8: 2 depends on 1, 2 equals 3, and 5 is constant. Then 6 depends on 3 and 7, and 8 equals 0 through 4.
#[test]
fn closures_follow_dependencies_constants_and_equal_columns(rt: HostRuntime) {
    let columns = set_of(&[0, 1, 2, 3, 4, 5, 6, 7, 8]);
    let worked = Facts::of_columns(columns)
        .with_dependency(set_of(&[1]), 2)
        .with_equal(2, 3)
        .with_constant(5);
    assert_eq!(rt; worked.columns, columns);
    assert_eq!(rt; closure(&worked, set_of(&[1])), set_of(&[1, 2, 3, 5]));
    assert_eq!(rt; closure(&worked, ColSet::empty()), set_of(&[5]));
    let more = worked
        .with_dependency(set_of(&[3, 7]), 6)
        .with_equal(0, 4)
        .with_equal(8, 4);
    let table: [(&[ColId], &[ColId]); 5] = [
        (&[7], &[5, 7]),
        (&[1, 7], &[1, 2, 3, 5, 6, 7]),
        (&[0], &[0, 4, 5, 8]),
        (&[8], &[0, 4, 5, 8]),
        (&[6], &[5, 6]),
    ];
    for (from, wanted) in table {
        assert_eq!(rt; closure(&more, set_of(from)), set_of(wanted));
    }
}
