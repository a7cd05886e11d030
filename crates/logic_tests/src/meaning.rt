// Small expressions with the rows that come in and those that go out, worked out by hand.
ghost use Rattle.logical_trees.specs.Tree.{tree_of};
ghost use Rattle.logic_tests.specs.Calling.{HasEach, AreCalledFirst};

use crate::nodes::{Shape, expression};
use crate::operators::each_shown;
use logical_dag::Logical;
use plain_meaning::plain_bag;
use scope_value::{Cell, Row, Value};
use std::alloc::{AllocError, Global};
use std::test::Fail;
use user_ops::{OpSet, Tells};

// A value as the tables write it: `_` is null, digits are a number, digits behind `w` a partial sum, other text a string.
fn value_of(alloc: Global, text: &str) -> Result<Value, AllocError> {
    if text == "_" {
        return Ok(Value::Null);
    }
    if let Ok(number) = text.parse::<i64>() {
        return Ok(Value::Int(number));
    }
    if let Some(digits) = text.strip_prefix('w') {
        if let Ok(number) = digits.parse::<i64>() {
            return Ok(Value::Wide(i128::from(number)));
        }
    }
    Ok(Value::Bytes(Cell::from_slice(alloc, text.as_bytes())?))
}

// Rows as the tables write them, parted by `|`, their values by `,`; no rows for the empty text.
fn rows_of(alloc: Global, text: &str) -> Result<Vec<Row>, AllocError> {
    let mut rows = Vec::new(alloc);
    if text.is_empty() {
        return Ok(rows);
    }
    for line in text.split('|') {
        let mut row = Row::new(alloc);
        for field in line.split(',') {
            row.push(value_of(alloc, field)?)?;
        }
        rows.push(row)?;
    }
    Ok(rows)
}

// The rows of each scan, parted by `;`.
fn bags_of(alloc: Global, text: &str) -> Result<Vec<Vec<Row>>, AllocError> {
    let mut bags = Vec::new(alloc);
    for scan in text.split(';') {
        bags.push(rows_of(alloc, scan)?)?;
    }
    Ok(bags)
}

// The rows of the table; none where a node has not its children.
fn wanted_rows(alloc: Global, wanted: Option<&str>) -> Result<Option<Vec<Row>>, AllocError> {
    match wanted {
        Some(text) => Ok(Some(rows_of(alloc, text)?)),
        None => Ok(None),
    }
}

fn are_same(a: &Option<Vec<Row>>, b: &Option<Vec<Row>>) -> bool {
    match (a, b) {
        (Some(a), Some(b)) => a.as_slice() == b.as_slice(),
        (None, None) => true,
        _ => false,
    }
}

// Whether the expression gives these rows over these scans, which stand for its shared results too.
fn is_given(
    alloc: Global,
    ops: &OpSet,
    tree: &Logical,
    scans: &[Vec<Row>],
    wanted: Option<&str>,
) -> Result<bool, AllocError>
    requires each { HasEach (⟦<OpSet as Tells>⟧.tells ops.now) }
    requires called { AreCalledFirst (tree_of tree.now) }
{
    let rows = plain_bag(alloc, tree, ops, scans, scans)?;
    Ok(are_same(&rows, &wanted_rows(alloc, wanted)?))
}

// The same of the expression of that shape.
fn shape_gives(
    alloc: Global,
    ops: &OpSet,
    shape: Shape,
    scans: &[Vec<Row>],
    wanted: Option<&str>,
) -> Result<bool, AllocError>
    requires { HasEach (⟦<OpSet as Tells>⟧.tells ops.now) }
{
    let tree = expression(alloc, shape)?;
    let given = is_given(alloc, ops, &tree, scans, wanted);
    drop(tree);
    given
}

fn gives(
    alloc: Global,
    ops: &OpSet,
    shape: Shape,
    scans: &str,
    wanted: Option<&str>,
) -> Result<bool, AllocError>
    requires { HasEach (⟦<OpSet as Tells>⟧.tells ops.now) }
{
    let bags = bags_of(alloc, scans)?;
    shape_gives(alloc, ops, shape, bags.as_slice(), wanted)
}

// The first row of the table that isn't so.
fn first_wrong(alloc: Global, ops: &OpSet) -> Result<Option<usize>, AllocError>
    requires { HasEach (⟦<OpSet as Tells>⟧.tells ops.now) }
{
    let table = [
        // The rows of the second shared result, and no rows of one that isn't there.
        (Shape::Shared, "1;a,1|_,2", "a,1|_,2"),
        (Shape::Shared, "1", ""),
        // Null is not above 1.
        (Shape::AboveOne, "1|_|5|2", "5|2"),
        (Shape::TwoItems, "1,a|_,b", "2,a|_,b"),
        // Null agrees with null, and each pair that agrees counts.
        (
            Shape::Joined,
            "_,1|a,2|b,3;9,a|8,_|7,a",
            "_,1,8,_|a,2,9,a|a,2,7,a",
        ),
        // Null is a key like any other, and no rows have no keys.
        (
            Shape::Grouped,
            "a,4|_,2|a,_|_,-3|b,_",
            "a,2,4,4|_,2,-1,-3|b,1,_,_",
        ),
        (Shape::Grouped, "", ""),
    ];
    for (at, (shape, scans, wanted)) in table.iter().enumerate() {
        if !gives(alloc, ops, *shape, scans, Some(wanted))? {
            return Ok(Some(at));
        }
    }
    Ok(None)
}

// The same of steps and of operators that are called.
fn first_wrong_step(alloc: Global, ops: &OpSet) -> Result<Option<usize>, AllocError>
    requires { HasEach (⟦<OpSet as Tells>⟧.tells ops.now) }
{
    let table = [
        // Each row is a part of its own.
        (Shape::Partial, "a,1|b,_|a,2", "a,1,w1,1|b,1,_,_|a,1,w2,2"),
        // The partial rows of `a,1|b,_` and of `a,2|a,_|b,_` finish to the groups of all five rows. The sum of key b is
        // null, and its group is there all the same.
        (
            Shape::Finished,
            "a,1,w1,1|b,1,_,_|a,2,w2,2|b,1,_,_",
            "a,3,3,1|b,2,_,_",
        ),
        // A processor sees each row on its own.
        (Shape::Processed, "b,1|a,_|b,1", "b,1|a,_|b,1"),
        // A reducer sees the rows of each key by column 1 downwards, and then by all columns.
        (
            Shape::Reduced,
            "a,1,z|b,9,q|a,2,y|_,0,p|a,2,x",
            "a,2,x|a,2,y|a,1,z|b,9,q|_,0,p",
        ),
        // Keys of one side alone have their call of the combiner too, with no rows on the other side.
        (
            Shape::Combined,
            "a,1|_,5|a,2;c,3|a,9|_,8|c,1",
            "a,2|a,1|_,5|c,1|c,3",
        ),
    ];
    for (at, (shape, scans, wanted)) in table.iter().enumerate() {
        if !gives(alloc, ops, *shape, scans, Some(wanted))? {
            return Ok(Some(at));
        }
    }
    Ok(None)
}

// The first rows that aren't so of both tables, and whether a Join of one child stands for no bag.
fn all_rows(alloc: Global, ops: &OpSet) -> Result<(Option<usize>, Option<usize>, bool), AllocError>
    requires { HasEach (⟦<OpSet as Tells>⟧.tells ops.now) }
{
    Ok((
        first_wrong(alloc, ops)?,
        first_wrong_step(alloc, ops)?,
        gives(alloc, ops, Shape::JoinOfOne, "1", None)?,
    ))
}

#[test]
fn expressions_give_their_rows(rt: HostRuntime) -> Result<(), Fail> {
    let ops = each_shown(&rt, rt.alloc())?;
    let rows = all_rows(rt.alloc(), &ops);
    drop(ops);
    assert_eq!(rt; rows?, (None, None, true));
    Ok(())
}

// Whether the whole and the steps give these rows.
fn both_give(
    alloc: Global,
    ops: &OpSet,
    whole: Shape,
    steps: Shape,
    rows: &str,
    wanted: &str,
) -> Result<bool, AllocError>
    requires { HasEach (⟦<OpSet as Tells>⟧.tells ops.now) }
{
    Ok(
        gives(alloc, ops, whole, rows, Some(wanted))?
            && gives(alloc, ops, steps, rows, Some(wanted))?,
    )
}

// The first row of the table of which the whole or the steps aren't so.
fn first_apart(alloc: Global, ops: &OpSet) -> Result<Option<usize>, AllocError>
    requires { HasEach (⟦<OpSet as Tells>⟧.tells ops.now) }
{
    let table = [
        // Five rows, a sum that has 64 bits in the end, and one that has not.
        (
            Shape::Grouped,
            Shape::GroupedInSteps,
            "a,1|b,_|a,2|a,_|b,_",
            "a,3,3,1|b,2,_,_",
        ),
        (
            Shape::Grouped,
            Shape::GroupedInSteps,
            "a,9223372036854775807|a,1|a,-1",
            "a,3,9223372036854775807,-1",
        ),
        (
            Shape::Grouped,
            Shape::GroupedInSteps,
            "a,9223372036854775807|a,1",
            "a,2,_,1",
        ),
        // Rows that tie in the column go by all values.
        (Shape::Top, Shape::TopInSteps, "x,3|y,5|a,5|b,5", "a,5|b,5"),
    ];
    for (at, (whole, steps, rows, wanted)) in table.iter().enumerate() {
        if !both_give(alloc, ops, *whole, *steps, rows, wanted)? {
            return Ok(Some(at));
        }
    }
    Ok(None)
}

// The same of all aggregates without keys.
fn first_apart_count(alloc: Global, ops: &OpSet) -> Result<Option<usize>, AllocError>
    requires { HasEach (⟦<OpSet as Tells>⟧.tells ops.now) }
{
    let table = [
        // There is one row, also of no rows and of nulls alone. A sum of more than 64 bits is null, and what is on the way
        // to a sum doesn't count.
        ("", "0,0,0,_,_,_,0"),
        ("_|_", "2,0,0,_,_,_,0"),
        ("3|_|-5|4", "4,3,2,2,-5,4,0"),
        ("9223372036854775807|1", "2,2,2,_,1,9223372036854775807,0"),
        (
            "9223372036854775807|1|-1",
            "3,3,2,9223372036854775807,-1,9223372036854775807,0",
        ),
    ];
    for (at, (rows, wanted)) in table.iter().enumerate() {
        if !both_give(
            alloc,
            ops,
            Shape::Counted,
            Shape::CountedInSteps,
            rows,
            wanted,
        )? {
            return Ok(Some(at));
        }
    }
    Ok(None)
}

// The first rows of both tables that aren't so.
fn all_apart(alloc: Global, ops: &OpSet) -> Result<(Option<usize>, Option<usize>), AllocError>
    requires { HasEach (⟦<OpSet as Tells>⟧.tells ops.now) }
{
    Ok((first_apart(alloc, ops)?, first_apart_count(alloc, ops)?))
}

// Whole and in two steps.
#[test]
fn two_steps_give_the_rows_of_one(rt: HostRuntime) -> Result<(), Fail> {
    let ops = each_shown(&rt, rt.alloc())?;
    let rows = all_apart(rt.alloc(), &ops);
    drop(ops);
    assert_eq!(rt; rows?, (None, None));
    Ok(())
}
