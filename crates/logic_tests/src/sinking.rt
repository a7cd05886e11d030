// Where the conjuncts of Filters end, worked out by hand.
use crate::making::{column, number, on_pair, over, pair, scan, set_of};
use crate::scripts::{Script, dag_of};
use crate::texts::is_text_of;
use arrayvec::ArrayVec;
use col_sets::{ColId, ColSet, Dir, KeyOrders};
use dag_text::{write_dag, write_tree};
use logical_dag::{Agg, CallArgs, GroupArgs, LogicOp, Logical, TopArgs};
use normal_form::{normal_tree, normalise};
use scope_expr::{AggKind, Expr, PairOp};
use scope_value::{Schema, Value};
use sqlite_items::{Boxed, Items};
use std::alloc::{AllocError, Global};
use std::test::Fail;

// A number of the table.
fn number_of(text: &str) -> ColId {
    text.parse::<ColId>().unwrap_or(ColId::MAX)
}

// A conjunct as the table writes it: `T` is always so, `1<3` has column 1 below column 3, and `1` has column 1 below 7.
fn test_of(alloc: Global, text: &str) -> Result<Expr, AllocError> {
    if text == "T" {
        return Ok(Expr::Literal(Value::Bool(true)));
    }
    match text.split_once('<') {
        Some((a, b)) => pair(
            alloc,
            PairOp::Lt,
            column(number_of(a)),
            column(number_of(b)),
        ),
        None => pair(alloc, PairOp::Lt, column(number_of(text)), number(7)),
    }
}

// Conjuncts parted by commas, each `&&` being on the left of the next.
fn all_of(alloc: Global, text: &str) -> Result<Expr, AllocError> {
    let mut tests = text.split(',');
    let mut all = test_of(alloc, tests.next().unwrap_or("T"))?;
    for test in tests {
        let more = test_of(alloc, test)?;
        all = pair(alloc, PairOp::And, all, more)?;
    }
    Ok(all)
}

// A conjunct and then those behind the first comma, the `&&` of these being on the right of the other.
fn right_of(alloc: Global, text: &str) -> Result<Expr, AllocError> {
    let (first, rest) = text.split_once(',').unwrap_or((text, "T"));
    let right = all_of(alloc, rest)?;
    let left = test_of(alloc, first)?;
    pair(alloc, PairOp::And, left, right)
}

fn items_of(alloc: Global) -> Result<Items<Expr>, AllocError> {
    let mut items = Items::new(alloc);
    items.push(column(1))?;
    items.push(number(5))?;
    items.push(Expr::Neg(Boxed::new(alloc, number(5))?))?;
    items.push(pair(alloc, PairOp::Add, column(0), column(1))?)?;
    Ok(items)
}

fn counting(alloc: Global, keys: ColSet) -> Result<LogicOp, AllocError> {
    let mut aggs = Items::new(alloc);
    aggs.push(Agg {
        kind: AggKind::Count,
        arg: None,
        id: 4,
    })?;
    Ok(LogicOp::Group(GroupArgs {
        written: None,
        keys,
        aggs,
    }))
}

fn call(alloc: Global) -> CallArgs {
    CallArgs {
        op: 0,
        args: Items::new(alloc),
        cols: set_of(&[4, 5]),
        output: Schema::new(alloc),
    }
}

fn combine(alloc: Global) -> LogicOp {
    let mut on = ArrayVec::new();
    on.push((0, 2));
    LogicOp::Combine {
        call: call(alloc),
        on,
        left: None,
        right: None,
    }
}

fn two_columns(a: ColId, b: ColId) -> ColSet {
    set_of(&[a, b])
}

// A Filter as the table writes it: `where` or, where the last `&&` is on the right of the first, `right` with its conjuncts.
fn filter_of(alloc: Global, text: &str) -> Result<LogicOp, AllocError> {
    match text.split_once(':') {
        Some(("right", tests)) => Ok(LogicOp::Filter(right_of(alloc, tests)?)),
        Some((_, tests)) => Ok(LogicOp::Filter(all_of(alloc, tests)?)),
        None => Ok(LogicOp::Filter(all_of(alloc, "T")?)),
    }
}

// The node that a word of the table stands for. `left` is a scan of columns 0 and 1, `right` one of 2 and 3, and `shared` a shared
// result as 0 and 1; `items` gives column 1, 5, -5 and the sum of columns 0 and 1 as columns 4 to 7; `join` and `combine` go by columns
// 0 and 2, and calls give columns 4 and 5; `keyed` counts by column 1 and `keyless` all rows, as column 4; `top` takes the first three by
// column 0; other words are Filters.
fn op_of(alloc: Global, word: &str) -> Result<LogicOp, AllocError> {
    match word {
        "left" => Ok(LogicOp::Scan {
            scan: 0,
            cols: two_columns(0, 1),
        }),
        "right" => Ok(LogicOp::Scan {
            scan: 1,
            cols: two_columns(2, 3),
        }),
        "shared" => Ok(LogicOp::Ref {
            shared: 0,
            cols: two_columns(0, 1),
        }),
        "items" => Ok(LogicOp::Project {
            items: items_of(alloc)?,
            cols: set_of(&[4, 5, 6, 7]),
        }),
        "join" => Ok(on_pair(0, 2)),
        "combine" => Ok(combine(alloc)),
        "keyed" => counting(alloc, ColSet::empty().with(1)),
        "keyless" => counting(alloc, ColSet::empty()),
        "top" => Ok(LogicOp::Top(TopArgs {
            n: 3,
            order: KeyOrders::new(0, Dir::Up),
        })),
        "process" => Ok(LogicOp::Process(call(alloc))),
        _ => filter_of(alloc, word),
    }
}

// How many of those before it the node stands over.
fn arity(word: &str) -> usize {
    match word {
        "left" | "right" | "shared" => 0,
        "join" | "combine" => 2,
        _ => 1,
    }
}

// Puts the node over the last of those before it that stand over nothing yet.
fn put(alloc: Global, word: &str, done: &mut Vec<Logical>) -> Result<(), AllocError> {
    let op = op_of(alloc, word)?;
    let kept = done.len().saturating_sub(arity(word));
    let kids = Items::from_vec(done.split_off(kept)?);
    done.push(Logical { op, kids })?;
    Ok(())
}

// The expression of these nodes, in post-order.
fn tree_of(alloc: Global, words: &str) -> Result<Logical, AllocError> {
    let mut done = Vec::new(alloc);
    for word in words.split(' ') {
        put(alloc, word, &mut done)?;
    }
    match done.pop() {
        Some(tree) => Ok(tree),
        None => Ok(scan(alloc, 0, ColSet::empty())),
    }
}

fn normal_of(alloc: Global, words: &str) -> Result<Logical, AllocError> {
    normal_tree(alloc, tree_of(alloc, words)?)
}

// Whether the normal form of the expression has this text.
fn ends_so(alloc: Global, words: &str, wanted: &str) -> Result<bool, AllocError> {
    let tree = normal_of(alloc, words)?;
    is_text_of(alloc, &tree, wanted)
}

// The first row of the table that isn't so.
fn first_wrong(alloc: Global) -> Result<Option<usize>, AllocError> {
    let table = [
        // A column of a Join's side goes to it, and one of both stays.
        (
            "left right join where:3,0,1<3",
            "0 scan 0 -> 0.1\n1 filter (#0 < 7) over 0\n2 scan 1 -> 2.3\n3 filter (#3 < 7) over 2\n4 join 0=2 over 1 3\n5 filter (#1 < #3) over 4\n",
        ),
        // What comes down stands after what was there.
        (
            "left where:1 right where:3 join where:0,2",
            "0 scan 0 -> 0.1\n1 filter ((#1 < 7) && (#0 < 7)) over 0\n2 scan 1 -> 2.3\n3 filter ((#3 < 7) && (#2 < 7)) over 2\n4 join 0=2 over 1 3\n",
        ),
        // A conjunct without columns goes to the leftmost leaf.
        (
            "left right join items where:T",
            "0 scan 0 -> 0.1\n1 filter TRUE over 0\n2 scan 1 -> 2.3\n3 join 0=2 over 1 2\n4 project #1,5,-(5),(#0 + #1) -> 4.5.6.7 over 3\n",
        ),
        // To no side of a Combine does anything go.
        (
            "left right combine where:T,4",
            "0 scan 0 -> 0.1\n1 scan 1 -> 2.3\n2 combine 0 args - on 0=2 left - right - -> 4.5 over 0 1\n3 filter (TRUE && (#4 < 7)) over 2\n",
        ),
        // A plain column and a literal take the place of the columns that they give.
        (
            "left items where:4,5",
            "0 scan 0 -> 0.1\n1 filter ((#1 < 7) && (5 < 7)) over 0\n2 project #1,5,-(5),(#0 + #1) -> 4.5.6.7 over 1\n",
        ),
        // A number with a sign is no literal, and neither is a sum, not even beside a plain column.
        (
            "left items where:6,7,4<7",
            "0 scan 0 -> 0.1\n1 project #1,5,-(5),(#0 + #1) -> 4.5.6.7 over 0\n2 filter (((#6 < 7) && (#7 < 7)) && (#4 < #7)) over 1\n",
        ),
        // Below a Group with a key goes what names the key alone.
        (
            "left keyed where:1,4,T",
            "0 scan 0 -> 0.1\n1 filter ((#1 < 7) && TRUE) over 0\n2 group written none keys 1 aggs COUNT(*)=4 over 1\n3 filter (#4 < 7) over 2\n",
        ),
        // It passes a Filter that stays there.
        (
            "left keyed where:4 where:1",
            "0 scan 0 -> 0.1\n1 filter (#1 < 7) over 0\n2 group written none keys 1 aggs COUNT(*)=4 over 1\n3 filter (#4 < 7) over 2\n",
        ),
        // Below a Group without keys nothing goes.
        (
            "left keyless where:T",
            "0 scan 0 -> 0.1\n1 group written none keys - aggs COUNT(*)=4 over 0\n2 filter TRUE over 1\n",
        ),
        // Nor below a Top, or a user operator, and a shared result has nothing below it.
        (
            "left top where:0",
            "0 scan 0 -> 0.1\n1 top 3 by 0+ over 0\n2 filter (#0 < 7) over 1\n",
        ),
        (
            "left process where:T",
            "0 scan 0 -> 0.1\n1 process 0 args - -> 4.5 over 0\n2 filter TRUE over 1\n",
        ),
        (
            "shared where:0",
            "0 ref 0 -> 0.1\n1 filter (#0 < 7) over 0\n",
        ),
        // Filters over one another become one, the lower one's conjuncts first.
        (
            "left where:T,1 where:0,1",
            "0 scan 0 -> 0.1\n1 filter (((TRUE && (#1 < 7)) && (#0 < 7)) && (#1 < 7)) over 0\n",
        ),
        // Conjuncts keep their order, however the `&&` were nested.
        (
            "left right:0,1,T",
            "0 scan 0 -> 0.1\n1 filter (((#0 < 7) && (#1 < 7)) && TRUE) over 0\n",
        ),
    ];
    for (at, (words, wanted)) in table.iter().enumerate() {
        if !ends_so(alloc, words, wanted)? {
            return Ok(Some(at));
        }
    }
    Ok(None)
}

// The counts of a stream's rows have their Filter where it stood.
fn counts_are_so(alloc: Global) -> Result<bool, AllocError> {
    let dag = normalise(alloc, dag_of(alloc, Script::Counts)?)?;
    let mut text = Vec::new(alloc);
    write_dag(alloc, &dag, &mut text)?;
    let wanted =
        "scan 0 \"in\" op 0 args - cols n:long,n:long,n:long,n:long\noutput 0 \"out\" delimiter 44 order -\n0 scan 0 -> 0.1.2.3\n1 filter ((((#0 == #1) && (#1 == #2)) && (#3 == 7)) && (#0 == -(5))) over 0\n2 group written none keys 1 aggs COUNT(*)=4 over 1\n";
    Ok(text.as_slice() == wanted.as_bytes())
}

// The plain column, as another one.
fn renaming(alloc: Global, from: ColId, to: ColId) -> Result<LogicOp, AllocError> {
    let mut items = Items::new(alloc);
    items.push(column(from))?;
    Ok(LogicOp::Project {
        items,
        cols: set_of(&[to]),
    })
}

// The operator, where there is one, over the expression.
fn placed(
    alloc: Global,
    op: Result<LogicOp, AllocError>,
    tree: Logical,
) -> Result<Logical, AllocError> {
    match op {
        Ok(op) => over(alloc, op, tree),
        Err(error) => {
            drop(tree);
            Err(error)
        }
    }
}

// A conjunct over 640 nodes, which are more than a script's expressions can be high.
fn deep(alloc: Global) -> Result<Logical, AllocError> {
    let mut tree = scan(alloc, 0, set_of(&[0]));
    for level in 0..640u32 {
        let op = renaming(alloc, level % 2, (level + 1) % 2);
        tree = placed(alloc, op, tree)?;
    }
    placed(alloc, filter_of(alloc, "where:0"), tree)
}

fn has_text_before(alloc: Global, tree: &Logical, front: &[u8]) -> Result<bool, AllocError> {
    let mut text = Vec::new(alloc);
    write_tree(tree, &mut text)?;
    Ok(text.as_slice().starts_with(front))
}

// The conjunct sinks through all of them.
fn deep_is_so(alloc: Global) -> Result<bool, AllocError> {
    let tree = normal_tree(alloc, deep(alloc)?)?;
    let front = b"0 scan 0 -> 0\n1 filter (#0 < 7) over 0\n2 project #0 -> 1 over 1\n";
    has_text_before(alloc, &tree, front)
}

#[test]
fn conjuncts_sink_as_far_as_they_can(rt: HostRuntime) -> Result<(), Fail> {
    assert_eq!(rt; first_wrong(rt.alloc())?, None);
    assert!(rt; counts_are_so(rt.alloc())?);
    assert!(rt; deep_is_so(rt.alloc())?);
    Ok(())
}
