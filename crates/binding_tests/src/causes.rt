//! Scripts that bind, and scripts with a cause.

use binding_causes::{BindCause, BindFault, LimitKind, resolve};
use outer_joins::{FullPairs, LeftPairs, RightPairs};
use scope_lexer::lex;
use scope_shipped::{
    InnerPairs, LogExtractor, MultiSetDifference, SplitWords, TextExtractor, TopQueries,
};
use scope_syntax::parse;
use std::alloc::{AllocError, Global};
use std::test::Fail;
use user_ops::OpSet;

// The statements before each row of the tables.
const BEFORE: &str =
    "e = EXTRACT k, v:int, t:bool FROM \"e\" USING TextExtractor; g = EXTRACT k, w:long FROM \"g\" USING TextExtractor; ";

// What is answered of a text: that it is outside the grammar, that it binds, or its fault.
#[derive(Clone, Copy)]
pub(crate) enum Answer {
    Outside,
    Binds,
    Fault(BindFault),
}

pub(crate) fn answer_of(alloc: Global, ops: &OpSet, text: &str) -> Result<Answer, AllocError> {
    let Ok(tokens) = lex(alloc, text)? else {
        return Ok(Answer::Outside);
    };
    let Ok(script) = parse(alloc, text, tokens.as_slice())? else {
        return Ok(Answer::Outside);
    };
    match resolve(alloc, &script, ops)? {
        Ok(_) => Ok(Answer::Binds),
        Err(fault) => Ok(Answer::Fault(fault)),
    }
}

fn answer_behind(alloc: Global, ops: &OpSet, text: &str) -> Result<Answer, AllocError> {
    let mut whole = String::from_str(alloc, BEFORE)?;
    whole.push_str(text)?;
    answer_of(alloc, ops, whole.as_str())
}

// The first of these that doesn't bind, their number where there is none.
fn first_unbound(alloc: Global, ops: &OpSet, rows: &[&str]) -> Result<usize, AllocError> {
    for (at, text) in rows.iter().enumerate() {
        if !matches!(answer_behind(alloc, ops, text)?, Answer::Binds) {
            return Ok(at);
        }
    }
    Ok(rows.len())
}

// The first of these whose answer is another fault or none, their number where there is none.
fn first_wrong(
    alloc: Global,
    ops: &OpSet,
    rows: &[(&str, u32, BindCause)],
) -> Result<usize, AllocError> {
    for (at, (text, statement, cause)) in rows.iter().enumerate() {
        match answer_behind(alloc, ops, text)? {
            Answer::Fault(fault) if fault.statement == *statement && fault.cause == *cause => {}
            _ => return Ok(at),
        }
    }
    Ok(rows.len())
}

// Each of these binds.
const BINDING: [&str; 46] = [
    "",
    "SELECT k",
    ";; ; SELECT k;",
    "SELECT * FROM e",
    "SELECT user FROM \"l\" USING LogExtractor",
    "SELECT m.user AS u FROM \"l\" USING LogExtractor AS m",
    "SELECT k FROM e HAVING k == \"a\"",
    "SELECT k AS q FROM e ORDER BY q",
    "SELECT COUNT(*) AS n FROM e",
    "SELECT k, SUM(v) AS s FROM e GROUP BY k",
    "SELECT * FROM e GROUP BY t, k",
    "SELECT k, v, COUNT(*) AS n FROM e GROUP BY v, k HAVING n > 1 && k == \"a\" ORDER BY n DESC",
    "SELECT k FROM e JOIN g ON e.k == g.k GROUP BY e.k",
    "SELECT e.k, SUM(w) AS s FROM e JOIN g ON e.k == g.k GROUP BY e.k, v",
    "SELECT x.k AS k FROM e AS x JOIN e AS y ON x.k == y.k JOIN g AS z ON z.k == x.k",
    "SELECT x.k AS k FROM e AS x JOIN e AS y ON x.k == y.k AND x.k == y.k",
    "SELECT x.k AS k FROM e AS x JOIN g AS y ON x.v == y.w",
    "SELECT x.k AS k FROM e AS x JOIN e AS y ON x.t == y.t",
    "SELECT w FROM e JOIN g ON v == w",
    "COMBINE e PRESORT k WITH g PRESORT k ON e.k == g.k USING InnerPairs PRODUCE k, v:int, t:bool, q, w:long",
    "COMBINE e WITH g ON g.k == e.k USING InnerPairs PRODUCE k, v:int, t:bool, q, w:long",
    "COMBINE e AS x WITH e AS y ON x.k == y.k USING MultiSetDifference PRODUCE k, v:int, t:bool",
    "REDUCE e PRESORT v DESC ON e.k USING TopQueries(1) PRODUCE k, v:int, t:bool",
    "REDUCE ON k USING TopQueries(1) PRODUCE k, w:long",
    "PROCESS e USING SplitWords PRODUCE word",
    "PROCESS USING SplitWords PRODUCE word",
    "SELECT k FROM e WHERE NULL",
    "SELECT k FROM e WHERE NULL == NULL",
    "SELECT (NULL) AS n FROM e",
    "SELECT MIN(NULL) AS m, MAX(t) AS x, COUNTIF(NULL) AS c, SUM(NULL) AS s FROM e",
    "SELECT TOP 1 k FROM e ORDER BY k",
    "SELECT DISTINCT k, v, t, 1 AS a, 2 AS b FROM e",
    "OUTPUT e TO \"e\"",
    "OUTPUT TO \"o\" USING TabOutputter; OUTPUT g TO \"p\" USING CommaOutputter",
    "OUTPUT e TO \"st\"; OUTPUT g TO \"st.7\"",
    "OUTPUT e TO \"st\" STORED HASH(k); OUTPUT g TO \"st.700\"",
    "OUTPUT e TO \"st\" STORED HASH(k); OUTPUT g TO \"st.x\"",
    "OUTPUT e TO \"st\" STORED HASH(k) SORTED(v DESC, k)",
    "h = EXTRACT a, b:int FROM \"h\" USING TextExtractor(\";\") STORED HASH(b) SORTED(b, a DESC); SELECT a FROM h",
    "SELECT x.k AS k, w FROM e AS x LEFT JOIN g AS y ON x.k == y.k",
    "SELECT x.k AS k, w FROM e AS x RIGHT OUTER JOIN g AS y ON y.k == x.k WHERE v > 1 GROUP BY x.k, w",
    "SELECT x.k AS k, y.k AS q FROM e AS x FULL JOIN e AS y ON x.k == y.k AND x.v == y.v",
    "h = SELECT TOP 2 k, v FROM e ORDER BY v DESC, k; OUTPUT h TO \"o\"; OUTPUT h TO \"p\"",
    "h = SELECT k, v + 1 AS v FROM e; SELECT h.v AS v, e.v AS u FROM h JOIN e ON h.k == e.k",
    "SELECT k AS a, k AS b FROM e",
    "left = SELECT k AS outer, v AS stored FROM e; SELECT outer, stored FROM left",
];

// Each of these has this cause in this statement.
const FAULTS: [(&str, u32, BindCause); 88] = [
    // Sight: a name is its own alias; what is omitted, and a stream in place, has none.
    ("SELECT g.k AS q", 3, BindCause::UnknownColumn),
    (
        "SELECT l.user AS u FROM \"l\" USING LogExtractor",
        3,
        BindCause::UnknownColumn,
    ),
    (
        "SELECT * FROM \"l\" USING LogExtractor JOIN \"m\" USING LogExtractor ON user == user",
        3,
        BindCause::AmbiguousColumn,
    ),
    ("SELECT e.k AS q FROM e AS x", 3, BindCause::UnknownColumn),
    ("SELECT k FROM e ORDER BY e.k", 3, BindCause::UnknownColumn),
    (
        "SELECT k AS q FROM e ORDER BY k",
        3,
        BindCause::UnknownColumn,
    ),
    ("SELECT k FROM e HAVING v > 1", 3, BindCause::UnknownColumn),
    ("SELECT K FROM e", 3, BindCause::UnknownColumn),
    ("SELECT k FROM E", 3, BindCause::UnknownName),
    ("OUTPUT e TO \"o\"; SELECT k", 4, BindCause::UnknownName),
    (
        "OUTPUT e TO \"o\"; OUTPUT TO \"p\"",
        4,
        BindCause::UnknownName,
    ),
    // Groups.
    (
        "SELECT k, COUNT(*) AS n FROM e",
        3,
        BindCause::UnknownColumn,
    ),
    ("SELECT v FROM e GROUP BY k", 3, BindCause::UnknownColumn),
    (
        "SELECT k, COUNT(q) AS n FROM e GROUP BY k",
        3,
        BindCause::UnknownColumn,
    ),
    (
        "SELECT k FROM e JOIN g ON e.k == g.k GROUP BY k",
        3,
        BindCause::AmbiguousColumn,
    ),
    (
        "SELECT g.k AS q FROM e JOIN g ON e.k == g.k GROUP BY k",
        3,
        BindCause::AmbiguousColumn,
    ),
    (
        "SELECT * FROM e JOIN g ON e.k == g.k",
        3,
        BindCause::AmbiguousColumn,
    ),
    (
        "SELECT k FROM e JOIN g ON e.k == g.k",
        3,
        BindCause::AmbiguousColumn,
    ),
    // Equalities: one side in the joined source, one in an earlier one.
    (
        "SELECT x.v AS v FROM e AS x JOIN e AS y ON k == x.k",
        3,
        BindCause::AmbiguousColumn,
    ),
    (
        "SELECT x.k AS k FROM e AS x JOIN g AS z ON x.k == z.k JOIN \"l\" USING LogExtractor AS y ON k == x.k",
        3,
        BindCause::UnknownColumn,
    ),
    (
        "SELECT x.k AS k FROM e AS x JOIN e AS y ON x.k == z.k JOIN g AS z ON x.k == z.k",
        3,
        BindCause::UnknownColumn,
    ),
    (
        "SELECT x.k AS k FROM e AS x JOIN e AS y ON x.k == x.v",
        3,
        BindCause::UnknownColumn,
    ),
    (
        "COMBINE e WITH g ON e.k == e.v USING InnerPairs PRODUCE k, v:int, t:bool, q, w:long",
        3,
        BindCause::UnknownColumn,
    ),
    (
        "COMBINE e WITH g ON k == g.k USING InnerPairs PRODUCE k, v:int, t:bool, q, w:long",
        3,
        BindCause::AmbiguousColumn,
    ),
    (
        "COMBINE e PRESORT w WITH g ON e.k == g.k USING InnerPairs PRODUCE k, v:int, t:bool, q, w:long",
        3,
        BindCause::UnknownColumn,
    ),
    // The first cause of the list, whatever the clause.
    (
        "SELECT k, v + \"a\" AS z FROM e ORDER BY q",
        3,
        BindCause::UnknownColumn,
    ),
    (
        "SELECT x.v AS v FROM e AS x JOIN e AS y ON k == y.k WHERE x.v + \"a\" == 1 ORDER BY q",
        3,
        BindCause::UnknownColumn,
    ),
    (
        "SELECT x.v AS v FROM e AS x JOIN e AS y ON k == y.k WHERE x.v + \"a\" == 1",
        3,
        BindCause::AmbiguousColumn,
    ),
    ("e = SELECT q FROM q", 3, BindCause::UnknownName),
    ("q = SELECT a FROM q", 3, BindCause::UnknownName),
    ("e = SELECT q FROM e", 3, BindCause::DuplicateName),
    (
        "REDUCE e ON q USING Q PRODUCE a",
        3,
        BindCause::UnknownOperator,
    ),
    (
        "REDUCE e ON k, e.k USING Q PRODUCE a",
        3,
        BindCause::DuplicateName,
    ),
    (
        "SELECT TOP 1 k, v + \"a\" AS z FROM e",
        3,
        BindCause::TypeMismatch,
    ),
    ("SELECT TOP 1 k FROM e", 3, BindCause::TopWithoutOrder),
    // Names that stand twice.
    ("e = SELECT k FROM e", 3, BindCause::DuplicateName),
    (
        "SELECT e.k AS k FROM e JOIN e ON e.k == e.k",
        3,
        BindCause::DuplicateName,
    ),
    (
        "SELECT e.k AS k FROM g AS e JOIN e ON e.k == e.k",
        3,
        BindCause::DuplicateName,
    ),
    (
        "COMBINE e WITH e ON e.k == e.k USING InnerPairs PRODUCE k",
        3,
        BindCause::DuplicateName,
    ),
    ("SELECT k, e.k FROM e", 3, BindCause::DuplicateName),
    ("SELECT k, v AS k FROM e", 3, BindCause::DuplicateName),
    (
        "EXTRACT a, b, a FROM \"x\" USING TextExtractor",
        3,
        BindCause::DuplicateName,
    ),
    (
        "PROCESS e USING SplitWords PRODUCE a, a",
        3,
        BindCause::DuplicateName,
    ),
    // Lists of keys name a column once, however it is written.
    (
        "SELECT k FROM e GROUP BY k, e.k",
        3,
        BindCause::DuplicateName,
    ),
    ("SELECT k FROM e GROUP BY q, q", 3, BindCause::UnknownColumn),
    (
        "SELECT COUNT(*) AS n FROM e AS x JOIN e AS y ON x.k == y.k GROUP BY k, k",
        3,
        BindCause::AmbiguousColumn,
    ),
    (
        "SELECT k FROM e ORDER BY k, k DESC",
        3,
        BindCause::DuplicateName,
    ),
    (
        "REDUCE e ON k, e.k USING TopQueries(1) PRODUCE k, v:int, t:bool",
        3,
        BindCause::DuplicateName,
    ),
    (
        "REDUCE e PRESORT v, v DESC ON k USING TopQueries(1) PRODUCE k, v:int, t:bool",
        3,
        BindCause::DuplicateName,
    ),
    (
        "COMBINE e WITH g PRESORT w, g.w ON e.k == g.k USING InnerPairs PRODUCE k",
        3,
        BindCause::DuplicateName,
    ),
    // Streams that are written.
    (
        "OUTPUT e TO \"o\"; OUTPUT g TO \"o\"",
        4,
        BindCause::DuplicateName,
    ),
    (
        "OUTPUT e TO \"o\\t\"; OUTPUT g TO \"o\t\"",
        4,
        BindCause::DuplicateName,
    ),
    (
        "OUTPUT e TO \"st\" STORED HASH(k); OUTPUT g TO \"st.7\"",
        4,
        BindCause::DuplicateName,
    ),
    (
        "OUTPUT g TO \"st.70\"; OUTPUT e TO \"st\" STORED HASH(k)",
        4,
        BindCause::DuplicateName,
    ),
    (
        "OUTPUT e TO \"o\" STORED HASH(k, k)",
        3,
        BindCause::DuplicateName,
    ),
    (
        "OUTPUT e TO \"o\" STORED HASH(k) SORTED(v, v DESC)",
        3,
        BindCause::DuplicateName,
    ),
    (
        "OUTPUT e TO \"o\" STORED HASH(e.k)",
        3,
        BindCause::UnknownColumn,
    ),
    (
        "OUTPUT e TO \"o\" STORED HASH(k) SORTED(w)",
        3,
        BindCause::UnknownColumn,
    ),
    (
        "EXTRACT a FROM \"x\" USING TextExtractor STORED HASH(b)",
        3,
        BindCause::UnknownColumn,
    ),
    // Operators.
    ("OUTPUT e TO \"o\" USING Q", 3, BindCause::UnknownOperator),
    (
        "EXTRACT a FROM \"x\" USING SplitWords",
        3,
        BindCause::UnknownOperator,
    ),
    ("SELECT * FROM \"x\" USING Q", 3, BindCause::UnknownOperator),
    (
        "PROCESS e USING TopQueries(1) PRODUCE a",
        3,
        BindCause::UnknownOperator,
    ),
    (
        "COMBINE e WITH g ON e.k == g.k USING Q PRODUCE a",
        3,
        BindCause::UnknownOperator,
    ),
    (
        "SELECT * FROM \"x\" USING TextExtractor",
        3,
        BindCause::SchemaRefused,
    ),
    (
        "SELECT a FROM \"x\" USING TextExtractor",
        3,
        BindCause::UnknownColumn,
    ),
    (
        "SELECT user FROM \"x\" USING LogExtractor(1)",
        3,
        BindCause::SchemaRefused,
    ),
    (
        "EXTRACT a FROM \"x\" USING LogExtractor",
        3,
        BindCause::SchemaRefused,
    ),
    (
        "PROCESS e USING SplitWords PRODUCE a:int",
        3,
        BindCause::SchemaRefused,
    ),
    (
        "REDUCE e ON k USING TopQueries(1) PRODUCE k, v:long, t:bool",
        3,
        BindCause::SchemaRefused,
    ),
    (
        "h = SELECT k, v + 0 AS v, t FROM e; COMBINE e WITH h ON e.k == h.k USING MultiSetDifference PRODUCE k, v:int, t:bool",
        4,
        BindCause::SchemaRefused,
    ),
    (
        "h = SELECT k, 5 AS v, t FROM e; COMBINE e WITH h ON e.k == h.k USING MultiSetDifference PRODUCE k, v:int, t:bool",
        4,
        BindCause::SchemaRefused,
    ),
    // Types.
    (
        "SELECT x.k AS k FROM e AS x JOIN g AS y ON x.k == y.w",
        3,
        BindCause::TypeMismatch,
    ),
    (
        "SELECT x.k AS k FROM e AS x FULL JOIN g AS y ON x.k == y.w",
        3,
        BindCause::TypeMismatch,
    ),
    (
        "COMBINE e WITH g ON e.t == g.k USING InnerPairs PRODUCE k",
        3,
        BindCause::TypeMismatch,
    ),
    ("SELECT k FROM e WHERE v", 3, BindCause::TypeMismatch),
    (
        "SELECT k FROM e WHERE NOT v == 1",
        3,
        BindCause::TypeMismatch,
    ),
    ("SELECT k FROM e HAVING k", 3, BindCause::TypeMismatch),
    ("SELECT SUM(k) AS s FROM e", 3, BindCause::TypeMismatch),
    ("SELECT COUNTIF(v) AS s FROM e", 3, BindCause::TypeMismatch),
    (
        "SELECT MIN(NULL) + 1 AS m FROM e",
        3,
        BindCause::TypeMismatch,
    ),
    (
        "h = SELECT NULL AS n FROM e; SELECT n + 1 AS m",
        4,
        BindCause::TypeMismatch,
    ),
    // Limits.
    (
        "SELECT a.k AS k FROM e AS a JOIN e AS b ON a.k == b.k JOIN e AS c ON a.k == c.k JOIN e AS d ON a.k == d.k JOIN e AS f ON a.k == f.k JOIN e AS h ON a.k == h.k",
        3,
        BindCause::Limit(LimitKind::Joins),
    ),
    (
        "h = EXTRACT a, b, c, d, f FROM \"h\" USING TextExtractor; SELECT a FROM h GROUP BY a, b, c, d, f",
        4,
        BindCause::Limit(LimitKind::Keys),
    ),
    (
        "h = EXTRACT a, b, c, d, f FROM \"h\" USING TextExtractor; OUTPUT h TO \"o\" STORED HASH(a, b, c, d, f)",
        4,
        BindCause::Limit(LimitKind::Keys),
    ),
    (
        "SELECT x.k AS k FROM e AS x JOIN e AS y ON x.k == y.k AND x.k == y.k AND x.k == y.k AND x.k == y.k AND x.k == y.k",
        3,
        BindCause::Limit(LimitKind::Keys),
    ),
    (
        "a = SELECT k FROM e; b = SELECT k FROM e; c = SELECT k FROM g; d = SELECT k FROM g; SELECT k FROM a; SELECT k FROM a; SELECT k FROM b; SELECT k FROM b; SELECT k FROM c; SELECT k FROM c",
        12,
        BindCause::Limit(LimitKind::Shared),
    ),
    (
        "a = SELECT k FROM e; b = SELECT k FROM e; c = SELECT k FROM g; d = SELECT k FROM g; SELECT k FROM a; SELECT k FROM a; SELECT k FROM b; SELECT k FROM b; SELECT k FROM c; e = SELECT k FROM c",
        12,
        BindCause::DuplicateName,
    ),
];

// Without its combiner an outer join is a call of an operator that isn't there, whatever else is amiss.
fn is_combiner_missed(alloc: Global, ops: &OpSet) -> Result<bool, AllocError> {
    let text = "SELECT x.k AS k FROM e AS x LEFT JOIN g AS y ON x.k == y.q";
    Ok(match answer_behind(alloc, ops, text)? {
        Answer::Fault(fault) => fault.statement == 3 && fault.cause == BindCause::UnknownOperator,
        _ => false,
    })
}

#[test]
fn scripts_bind_or_have_a_cause(rt: HostRuntime) -> Result<(), Fail> {
    let alloc = rt.alloc();
    let mut ops = OpSet::new(alloc);
    let op = Box::new(alloc, LogExtractor)?;
    assert!(rt; ops.put_extractor(alloc, b"LogExtractor", op));
    let op = Box::new(alloc, TextExtractor)?;
    assert!(rt; ops.put_extractor(alloc, b"TextExtractor", op));
    let op = Box::new(alloc, SplitWords)?;
    assert!(rt; ops.put_processor(alloc, b"SplitWords", op));
    let op = Box::new(alloc, TopQueries)?;
    assert!(rt; ops.put_reducer(alloc, b"TopQueries", op));
    let op = Box::new(alloc, MultiSetDifference)?;
    assert!(rt; ops.put_combiner(alloc, b"MultiSetDifference", op));
    let op = Box::new(alloc, InnerPairs)?;
    assert!(rt; ops.put_combiner(alloc, b"InnerPairs", op));
    assert!(rt; is_combiner_missed(alloc, &ops)?);
    let op = Box::new(alloc, LeftPairs)?;
    assert!(rt; ops.put_combiner(alloc, b"LeftPairs", op));
    let op = Box::new(alloc, RightPairs)?;
    assert!(rt; ops.put_combiner(alloc, b"RightPairs", op));
    let op = Box::new(alloc, FullPairs)?;
    assert!(rt; ops.put_combiner(alloc, b"FullPairs", op));
    assert_eq!(rt; first_unbound(alloc, &ops, &BINDING)?, BINDING.len());
    assert_eq!(rt; first_wrong(alloc, &ops, &FAULTS)?, FAULTS.len());
    Ok(())
}
