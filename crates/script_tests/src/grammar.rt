//! Scripts in the grammar, and outside it in one place.

use scope_lexer::lex;
use scope_syntax::laws::spelling_law;
use scope_syntax::parse;
use std::alloc::{AllocError, Global};
use std::test::Fail;

/// The number of the first statement outside the grammar, 0 where there is none, or 99 where a text has no tokens.
fn fault(alloc: Global, text: &str) -> Result<u32, AllocError> {
    match lex(alloc, text)? {
        Err(_) => Ok(99),
        Ok(tokens) => match parse(alloc, text, &tokens)? {
            Ok(_) => Ok(0),
            Err(fault) => Ok(fault.statement),
        },
    }
}

#[test]
fn grammar_tells_scripts(rt: HostRuntime) -> Result<(), Fail> {
    spelling_law();
    let rows = [
        ("", 0),
        (";;;", 0),
        ("EXTRACT a FROM \"s\" USING T", 0),
        (
            "EXTRACT a:int, b:string FROM \"s\" USING T(\"x\", 5, -5);",
            0,
        ),
        ("EXTRACT a FROM \"s\" USING T()", 0),
        ("EXTRACT a:float FROM \"s\" USING T", 1),
        ("EXTRACT a:INT FROM \"s\" USING T", 1),
        ("EXTRACT a FROM s USING T", 1),
        ("EXTRACT a, FROM \"s\" USING T", 1),
        ("EXTRACT a FROM \"s\" USING T(1,)", 1),
        ("EXTRACT a FROM \"s\" USING T(- -1)", 1),
        ("SELECT *", 0),
        ("select * from t", 0),
        ("SELECT a, b.c, (a) AS d FROM t AS u", 0),
        ("SELECT (a) FROM t", 1),
        ("SELECT a + 1 FROM t", 1),
        ("SELECT a + 1 AS b FROM t", 0),
        ("SELECT a b FROM t", 1),
        ("SELECT DISTINCT TOP 3 a FROM t", 0),
        ("SELECT TOP 3 DISTINCT a FROM t", 1),
        ("SELECT a * b + c == d && e || !f AS g", 0),
        ("SELECT a == b == c AS d", 1),
        (
            "SELECT COUNT(*) AS n, sum(a) AS m FROM t GROUP BY b HAVING n > 1 ORDER BY b DESC, n ASC",
            0,
        ),
        ("SELECT COUNT(COUNT(*)) AS n", 1),
        ("SELECT MAX(*) AS n", 1),
        ("SELECT a FROM t WHERE COUNT(*) > 1", 1),
        (
            "SELECT a FROM t JOIN u ON t.a == u.a && t.b == u.b INNER JOIN v ON a == b",
            0,
        ),
        ("SELECT a FROM t INNER u ON a == b", 1),
        ("SELECT a FROM t JOIN u ON a = b", 1),
        ("SELECT select FROM t", 1),
        ("SELECT a FROM t GROUP b", 1),
        ("x = SELECT a; y = PROCESS x USING P PRODUCE c", 0),
        (
            "PROCESS USING P PRODUCE c:long; REDUCE PRESORT a DESC ON b USING R PRODUCE c",
            0,
        ),
        ("REDUCE x USING R PRODUCE c", 1),
        ("COMBINE a WITH b ON a.x == b.x USING C PRODUCE c", 0),
        ("COMBINE a ON a.x == b.x USING C PRODUCE c", 1),
        ("OUTPUT TO \"o\"; OUTPUT x TO \"o\" USING T", 0),
        ("x = OUTPUT TO \"o\"", 1),
        ("SELECT a;; OUTPUT \"o\"", 2),
        ("SELECT a OUTPUT TO \"o\"", 1),
        ("SELECT a; SELECT b; SELECT", 3),
        ("SELECT ((((((((a)))))))) AS b", 0),
        ("SELECT ((((((((a))))))) AS b", 1),
        (
            "SELECT !!!!!!!!!!!!!!!!!!!!!!!!!!!!!!!!!!!!!!!!!!!!!!!!!!!!!!!!!!!!!!!!!!!!!!!!!!!!!!!!!!!!!!!!!!!!!!!!!!!!!!!!!!!!!!!!!!!!!!!!!!!!!!!!!!!!!!!!!!!!!!!!!!!!!!!!!!!!!!!!!!!!!!!!!!!!!!!!!!!!!!!!!!!!!!!!!!!!!!!a AS b FROM t",
            0,
        ),
        (
            "SELECT !!!!!!!!!!!!!!!!!!!!!!!!!!!!!!!!!!!!!!!!!!!!!!!!!!!!!!!!!!!!!!!!!!!!!!!!!!!!!!!!!!!!!!!!!!!!!!!!!!!!!!!!!!!!!!!!!!!!!!!!!!!!!!!!!!!!!!!!!!!!!!!!!!!!!!!!!!!!!!!!!!!!!!!!!!!!!!!!!!!!!!!!!!!!!!!!!!!!!!!!a AS b FROM t",
            1,
        ),
        (
            "SELECT ((((((((((((((((((((((((((((((((((((((((((((((((((((((((((((((((a)))))))))))))))))))))))))))))))))))))))))))))))))))))))))))))))) AS b FROM t",
            0,
        ),
        (
            "SELECT a FROM t WHERE ((((((((((((((((((((((((((((((((((((((((((((((((((((((((((((((((a)))))))))))))))))))))))))))))))))))))))))))))))))))))))))))))))",
            1,
        ),
        ("SELECT a FROM t WHERE NOT a OR b AND c", 0),
        ("SELECT a FROM t WHERE a &&", 1),
        ("SELECT a FROM t WHERE a || || b", 1),
        ("SELECT a FROM t WHERE a < b < c", 1),
        ("SELECT a FROM t WHERE (a < b) == true && c != null", 0),
        (
            "SELECT a FROM t WHERE -a - -b % 3 >= 9223372036854775807",
            0,
        ),
        ("SELECT a FROM t WHERE a.b.c == 1", 1),
        ("SELECT a FROM t ORDER BY a, t.b DESC, c ASC", 0),
        ("SELECT a FROM t ORDER a", 1),
        ("SELECT a FROM t HAVING a", 0),
        ("SELECT a FROM t, u AS v", 1),
        ("SELECT a FROM t AS", 1),
        ("SELECT a AS FROM FROM t", 1),
        ("SELECT COUNT(DISTINCT a) AS n FROM t", 1),
        ("x = EXTRACT a FROM \"s\" USING T; OUTPUT x TO \"o\"", 0),
        ("EXTRACT a FROM \"s\" USING T; x y = SELECT a", 2),
        ("x = = SELECT a", 1),
        ("REDUCE x ON a, b USING R(\"q\", -1) PRODUCE c, d:bool", 0),
        (
            "COMBINE a WITH b PRESORT k ON a.x == b.x USING C PRODUCE c",
            0,
        ),
        // Streams that are stored, and outer joins: one word left out, in the wrong place, or too many.
        ("EXTRACT a FROM \"s\" USING T STORED", 1),
        ("EXTRACT a FROM \"s\" USING T STORED HASH a", 1),
        ("EXTRACT a FROM \"s\" USING T STORED HASH()", 1),
        ("EXTRACT a FROM \"s\" USING T STORED HASH(a DESC)", 1),
        ("EXTRACT a FROM \"s\" USING T STORED HASH(a,)", 1),
        ("EXTRACT a FROM \"s\" USING T STORED HASH(a) SORTED()", 1),
        ("EXTRACT a FROM \"s\" USING T STORED HASH(a) SORTED", 1),
        ("EXTRACT a FROM \"s\" USING T STORED SORTED(a)", 1),
        ("EXTRACT a FROM \"s\" USING T HASH(a)", 1),
        ("EXTRACT a FROM \"s\" STORED HASH(a) USING T", 1),
        (
            "EXTRACT a FROM \"s\" USING T STORED HASH(a) STORED HASH(a)",
            1,
        ),
        ("OUTPUT TO \"o\" STORED HASH(a) USING T", 1),
        ("OUTPUT TO \"o\" STORED HASH(a) SORTED(a) HASH(a)", 1),
        ("OUTPUT TO \"o\" stored(a)", 1),
        ("SELECT a; OUTPUT STORED HASH(a) TO \"o\"", 2),
        ("PROCESS x USING P PRODUCE a STORED HASH(a)", 1),
        ("SELECT * FROM t LEFT JOIN u", 1),
        ("SELECT * FROM t LEFT u ON a == b", 1),
        ("SELECT * FROM t OUTER JOIN u ON a == b", 1),
        ("SELECT * FROM t LEFT INNER JOIN u ON a == b", 1),
        ("SELECT * FROM t INNER LEFT JOIN u ON a == b", 1),
        ("SELECT * FROM t LEFT RIGHT JOIN u ON a == b", 1),
        ("SELECT * FROM t FULL OUTER OUTER JOIN u ON a == b", 1),
        ("SELECT * FROM t LEFT JOIN u ON a == b JOIN v ON b == c", 1),
        (
            "SELECT * FROM t LEFT JOIN u ON a == b LEFT JOIN v ON b == c",
            1,
        ),
        ("SELECT * FROM t JOIN u ON a == b FULL JOIN v ON b == c", 1),
        ("SELECT * LEFT JOIN u ON a == b", 1),
        ("OUTPUT x TO o", 1),
        ("SELECT a FROM t;; ; SELECT", 2),
    ];
    for (text, wanted) in rows.iter() {
        assert_eq!(rt; fault(rt.alloc(), text)?, *wanted);
    }
    Ok(())
}
