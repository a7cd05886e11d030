// Worked rows and args of the combiners of outer joins.
use crate::shipped::{FLAG, Named, WORD, cells, rows, schema, written};
use outer_joins::{FullPairs, LeftPairs, RightPairs};
use std::alloc::{AllocError, Global};
use std::test::Fail;
use user_ops::Combiner;

// The rows of both sides at one key, and what each of the three gives for them.
#[derive(Clone, Copy)]
struct Case<'a> {
    left: &'a [u8],
    right: &'a [u8],
    by_left: &'a [u8],
    by_right: &'a [u8],
    by_full: &'a [u8],
}

// Whether the combiner gives these rows, where the rows of each side have two columns.
fn gives(
    alloc: Global,
    op: &dyn Combiner,
    case: Case<'_>,
    want: &[u8],
) -> Result<bool, AllocError> {
    let args = cells(alloc, &[b"2", b"2"])?;
    let left = rows(alloc, case.left)?;
    let right = rows(alloc, case.right)?;
    let mut out = Vec::new(alloc);
    op.combine(
        alloc,
        args.as_slice(),
        left.as_slice(),
        right.as_slice(),
        &mut out,
    )?;
    Ok(written(alloc, out.as_slice())?.as_slice() == want)
}

#[test]
fn outer_joins_give_worked_rows(rt: HostRuntime) -> Result<(), Fail> {
    let alloc = rt.alloc();
    for case in [
        Case {
            left: b"a,1\n",
            right: b"a,9\n",
            by_left: b"a,1,a,9\n",
            by_right: b"a,1,a,9\n",
            by_full: b"a,1,a,9\n",
        },
        Case {
            left: b"b,2\n",
            right: b"",
            by_left: b"b,2,\\N,\\N\n",
            by_right: b"",
            by_full: b"b,2,\\N,\\N\n",
        },
        Case {
            left: b"",
            right: b"c,8\n",
            by_left: b"",
            by_right: b"\\N,\\N,c,8\n",
            by_full: b"\\N,\\N,c,8\n",
        },
        Case {
            left: b"a,1\na,2\n",
            right: b"a,8\na,9\n",
            by_left: b"a,1,a,8\na,1,a,9\na,2,a,8\na,2,a,9\n",
            by_right: b"a,1,a,8\na,1,a,9\na,2,a,8\na,2,a,9\n",
            by_full: b"a,1,a,8\na,1,a,9\na,2,a,8\na,2,a,9\n",
        },
    ] {
        assert!(rt; gives(alloc, &LeftPairs, case, case.by_left)?);
        assert!(rt; gives(alloc, &RightPairs, case, case.by_right)?);
        assert!(rt; gives(alloc, &FullPairs, case, case.by_full)?);
    }
    Ok(())
}

// Whether the combiner takes a word on the left and a flag on the right.
fn takes(
    alloc: Global,
    op: &dyn Combiner,
    args: &[&[u8]],
    output: &[Named],
) -> Result<bool, AllocError> {
    let args = cells(alloc, args)?;
    let left = schema(alloc, &[WORD])?;
    let right = schema(alloc, &[FLAG])?;
    Ok(op.accepts(&left, &right, &schema(alloc, output)?, args.as_slice()))
}

#[test]
fn outer_joins_take_the_numbers_of_columns(rt: HostRuntime) -> Result<(), Fail> {
    let alloc = rt.alloc();
    let both: &[Named] = &[WORD, FLAG];
    let turned: &[Named] = &[FLAG, WORD];
    let cases: [(&[&[u8]], &[Named], bool); 9] = [
        (&[b"1", b"1"], both, true),
        (&[b"1", b"1"], turned, false),
        (&[b"1", b"2"], both, false),
        (&[b"01", b"1"], both, false),
        (&[b"+1", b"1"], both, false),
        (&[b"1", b""], both, false),
        (&[b"1", b"1 "], both, false),
        (&[b"1"], both, false),
        (&[b"1", b"1", b"1"], both, false),
    ];
    for (args, output, want) in cases {
        assert_eq!(rt; takes(alloc, &LeftPairs, args, output)?, want);
        assert_eq!(rt; takes(alloc, &RightPairs, args, output)?, want);
        assert_eq!(rt; takes(alloc, &FullPairs, args, output)?, want);
    }
    Ok(())
}
