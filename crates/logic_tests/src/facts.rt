// What is known of the rows of small expressions, worked out by hand.
ghost use Rattle.logical_dag.specs.Scripts.{IsBindable};

use crate::making::columns_in;
use crate::scripts::{Script, dag_of};
use fd_closure::{Facts, closure};
use logical_dag::{Dag, DagFacts, Place, PlacePart, facts_at};
use std::alloc::{AllocError, Global};
use std::test::Fail;

// The tables have a row a line: the tree, the node, the part of it (`whole`, `lower` for its first step, or leaves of its block), and what
// is known of the rows there: their columns, the constants, some columns and those that these force. Lines with `#` say why.

// Counts of rows of four columns: a scan, a Filter over it and a Group by column 1 on top.
const COUNTS: &str = "
# Of a scan nothing is known but its columns.
0 0 whole 0.1.2.3 - - -
0 0 whole 0.1.2.3 - 0 0
0 0 whole 0.1.2.3 - 1 1
0 0 whole 0.1.2.3 - 2 2
0 0 whole 0.1.2.3 - 3 3
0 0 whole 0.1.2.3 - 0.3 0.3
# The Filter's columns 0 to 2 are linked, and its column 3 is constant: a signed number is no constant.
0 1 whole 0.1.2.3 3 - 3
0 1 whole 0.1.2.3 3 0 0.1.2.3
0 1 whole 0.1.2.3 3 1 0.1.2.3
0 1 whole 0.1.2.3 3 2 0.1.2.3
0 1 whole 0.1.2.3 3 3 3
0 1 whole 0.1.2.3 3 0.2 0.1.2.3
# It has no first step.
0 1 lower - - 1 1
# Above the Group the columns that are no key are gone, and the key determines the aggregate.
0 2 whole 1.4 - - -
0 2 whole 1.4 - 1 1.4
0 2 whole 1.4 - 4 4
0 2 whole 1.4 - 1.4 1.4
# Its first step knows of its key alone.
0 2 lower 1.4 - - -
0 2 lower 1.4 - 1 1
0 2 lower 1.4 - 4 4
# There is no node 3 and no tree 1.
0 3 whole - - 1 1
1 0 whole - - 1 1
";

// A Join of three scans, whose columns are 0, then 1 and 2, then 3: node 2 joins the first two, and node 4 these with the third.
const JOINS: &str = "
# The three scans, of which nothing is known.
0 0 whole 0 - 0 0
0 1 whole 1.2 - 1 1
0 1 whole 1.2 - 2 2
0 3 whole 3 - 3 3
# The first Join sets columns 0 and 1 equal, and the second one 1 and 3.
0 2 whole 0.1.2 - - -
0 2 whole 0.1.2 - 0 0.1
0 2 whole 0.1.2 - 1 0.1
0 2 whole 0.1.2 - 2 2
0 4 whole 0.1.2.3 - - -
0 4 whole 0.1.2.3 - 0 0.1.3
0 4 whole 0.1.2.3 - 1 0.1.3
0 4 whole 0.1.2.3 - 2 2
0 4 whole 0.1.2.3 - 3 0.1.3
0 4 whole 0.1.2.3 - 2.3 0.1.2.3
# Of some leaves of a block what is set equal across them counts alone.
0 4 0 0 - 0 0
0 4 1 1.2 - 1 1
0 4 0.1 0.1.2 - 0 0.1
0 4 0.1 0.1.2 - 2 2
0 4 1.2 1.2.3 - 1 1.3
0 4 1.2 1.2.3 - 3 1.3
0 4 0.1.2 0.1.2.3 - 0 0.1.3
0 2 1 1.2 - 1 1
0 2 0.1 0.1.2 - 0 0.1
";

fn word(row: &str, at: usize) -> &str {
    row.split(' ').nth(at).unwrap_or("")
}

fn number(text: &str) -> u32 {
    text.parse::<u32>().unwrap_or(u32::MAX)
}

// The bits of the leaves of these numbers.
fn leaves_in(text: &str) -> u8 {
    let mut leaves = 0u8;
    for word in text.split('.') {
        leaves |= match word {
            "0" => 1,
            "1" => 2,
            "2" => 4,
            _ => 0,
        };
    }
    leaves
}

fn part_in(text: &str) -> PlacePart {
    match text {
        "whole" => PlacePart::Whole,
        "lower" => PlacePart::Lower,
        _ => PlacePart::Leaves(leaves_in(text)),
    }
}

fn place_in(row: &str) -> Place {
    Place {
        tree: number(word(row, 0)),
        node: number(word(row, 1)),
        part: part_in(word(row, 2)),
    }
}

fn are_known(facts: &Facts, row: &str) -> bool {
    facts.columns == columns_in(word(row, 3))
        && facts.constants == columns_in(word(row, 4))
        && closure(facts, columns_in(word(row, 5))) == columns_in(word(row, 6))
}

// The facts at the place, as they are worked out and as they are looked up.
fn is_so(dag: &Dag, facts: &DagFacts, row: &str) -> bool
    requires { IsBindable dag.now }
{
    let place = place_in(row);
    are_known(&facts_at(dag, &place), row) && are_known(&facts.at(&place), row)
}

// How many rows of the table are so, and the line of the first that isn't.
fn checked(dag: &Dag, facts: &DagFacts, table: &str) -> (usize, Option<usize>)
    requires { IsBindable dag.now }
{
    let mut rows = 0usize;
    for (at, row) in table.split('\n').enumerate() {
        if row.is_empty() || row.starts_with('#') {
            continue;
        }
        if !is_so(dag, facts, row) {
            return (rows, Some(at));
        }
        rows = rows.saturating_add(1);
    }
    (rows, None)
}

fn checked_of(
    alloc: Global,
    script: Script,
    table: &str,
) -> Result<(usize, Option<usize>), AllocError> {
    let dag = dag_of(alloc, script)?;
    let facts = DagFacts::new(alloc, &dag)?;
    Ok(checked(&dag, &facts, table))
}

#[test]
fn expressions_have_their_facts(rt: HostRuntime) -> Result<(), Fail> {
    assert_eq!(rt; checked_of(rt.alloc(), Script::Counts, COUNTS)?, (22, None));
    assert_eq!(rt; checked_of(rt.alloc(), Script::Joins, JOINS)?, (23, None));
    Ok(())
}
