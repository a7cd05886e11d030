//! Which tree a script is.

use crate::trees::put_script;
use scope_lexer::lex;
use scope_syntax::parse;
use std::alloc::{AllocError, Global};
use std::test::Fail;

// Appends the tree that a text spells.
fn put_tree(alloc: Global, text: &str, out: &mut Vec<u8>) -> Result<(), AllocError> {
    let Ok(tokens) = lex(alloc, text)? else {
        return Ok(());
    };
    match parse(alloc, text, &tokens)? {
        Ok(script) => put_script(out, &script),
        Err(_) => Ok(()),
    }
}

fn spells(alloc: Global, text: &str, tree: &str) -> Result<bool, AllocError> {
    let mut out = Vec::new(alloc);
    put_tree(alloc, text, &mut out)?;
    Ok(out.as_slice() == tree.as_bytes())
}

// The first script that isn't the tree beside it, counted from 0.
fn first_other(alloc: Global) -> Result<Option<usize>, AllocError> {
    let rows = [
        // Products bind tighter than sums, sums than comparisons, these than AND, and AND than OR; equal ones from the left.
        (
            "SELECT a + b * c AS d FROM t",
            "select (a + (b * c)) as d from t;",
        ),
        (
            "SELECT a - b - c AS d FROM t",
            "select ((a - b) - c) as d from t;",
        ),
        (
            "SELECT a / b % c * d AS e FROM t",
            "select (((a / b) % c) * d) as e from t;",
        ),
        (
            "SELECT (a - (b - c)) AS d FROM t",
            "select (a - (b - c)) as d from t;",
        ),
        (
            "SELECT -a * -1 AS d FROM t",
            "select ((-a) * (-1)) as d from t;",
        ),
        (
            "SELECT * FROM t WHERE a || b && c == d + 1",
            "select * from t where (a or (b and (c == (d + 1))));",
        ),
        (
            "SELECT * FROM t WHERE NOT a == b OR c != null",
            "select * from t where (((!a) == b) or (c != null));",
        ),
        (
            "SELECT * FROM t WHERE !a && b <= TRUE",
            "select * from t where ((!a) and (b <= true));",
        ),
        (
            "SELECT a.b, c FROM t AS a",
            "select a.b as b c as c from t as a;",
        ),
        ("select A as x from T", "select A as x from T;"),
        // Aggregates have numbers from the left.
        (
            "SELECT SUM(a) + COUNT(*) AS n, MIN(b) AS m FROM t",
            "select (#0 + #1) as n #2 as m sum(a) count(*) min(b) from t;",
        ),
        (
            "SELECT k, COUNTIF(a > 1) AS n FROM t GROUP BY k, t.j HAVING n > 1 ORDER BY n DESC, k",
            "select k as k #0 as n countif((a > 1)) from t group k t.j having (n > 1) order -n k;",
        ),
        (
            "SELECT DISTINCT TOP 3 a FROM t",
            "select distinct top 3 a as a from t;",
        ),
        ("SELECT MAX(a.b) AS n", "select #0 as n max(a.b) from last;"),
        // Sources, with the equalities that join each to those before it.
        (
            "SELECT * FROM t JOIN u ON t.a == u.a && b == c INNER JOIN v AS w ON a == w.a",
            "select * from t u on t.a=u.a b=c v as w on a=w.a;",
        ),
        (
            "SELECT a FROM \"s\" USING T(1, -2, \"x\") AS t",
            "select a as a from \"s\" T(\"1\"\"-2\"\"x\") as t;",
        ),
        // The other commands.
        (
            "x = EXTRACT a, b:int, c:long, d:bool, e:string FROM \"in\" USING T",
            "x = extract \"in\" T() [a:string b:int c:long d:bool e:string ];",
        ),
        ("OUTPUT TO \"o\"", "output last to \"o\";"),
        ("OUTPUT x TO \"o\" USING W", "output x to \"o\" using W;"),
        (
            "y = PROCESS x USING P(\"q\") PRODUCE c:int",
            "y = process x P(\"q\") [c:int ];",
        ),
        ("PROCESS USING P PRODUCE c", "process last P() [c:string ];"),
        (
            "REDUCE x PRESORT a DESC, b ASC ON k, x.l USING R(-1) PRODUCE c",
            "reduce x presort -a b on k x.l R(\"-1\") [c:string ];",
        ),
        (
            "REDUCE ON k USING R PRODUCE c",
            "reduce last on k R() [c:string ];",
        ),
        (
            "COMBINE a WITH b PRESORT k ON a.x == b.y && a.z == b.z USING C PRODUCE c, d:int",
            "combine a with b presort k on a.x=b.y a.z=b.z C() [c:string d:int ];",
        ),
        (
            "COMBINE a AS l PRESORT l.k DESC WITH b AS r ON l.x == r.x USING C PRODUCE c",
            "combine a as l presort -l.k with b as r on l.x=r.x C() [c:string ];",
        ),
        // Streams that are stored by hash, and sorted in each part.
        (
            "EXTRACT k, v:int FROM \"in\" USING T STORED HASH(k)",
            "extract \"in\" T() [k:string v:int ] hash k;",
        ),
        (
            "EXTRACT k FROM \"in\" USING T(1) stored Hash (k, e.v) sorted(v DESC, k ASC, e.w)",
            "extract \"in\" T(\"1\") [k:string ] hash k e.v sorted -v k e.w;",
        ),
        (
            "OUTPUT x TO \"o\" STORED HASH(a, b)",
            "output x to \"o\" hash a b;",
        ),
        (
            "OUTPUT TO \"o\" USING W STORED HASH(a) SORTED(a DESC)",
            "output last to \"o\" using W hash a sorted -a;",
        ),
        // Outer joins of two sources.
        (
            "SELECT * FROM t LEFT JOIN u ON t.a == u.a",
            "select * from t left u on t.a=u.a;",
        ),
        (
            "SELECT * FROM t AS x right OUTER JOIN \"s\" USING T AS y ON x.a == y.a AND b == c WHERE d",
            "select * from t as x right \"s\" T() as y on x.a=y.a b=c where d;",
        ),
        (
            "SELECT * FROM t Full outer JOIN u ON a == b ORDER BY a",
            "select * from t full u on a=b order a;",
        ),
        // Their words are names where the grammar doesn't ask for them.
        (
            "left = SELECT stored, hash AS sorted FROM left LEFT JOIN outer AS right ON left.full == right.full",
            "left = select stored as stored hash as sorted from left left outer as right on left.full=right.full;",
        ),
        (
            "SELECT * FROM t LEFT OUTER JOIN outer ON a == b",
            "select * from t left outer on a=b;",
        ),
        (
            "OUTPUT stored TO \"o\" USING STORED STORED HASH(hash) SORTED(sorted)",
            "output stored to \"o\" using STORED hash hash sorted sorted;",
        ),
        (
            "EXTRACT stored FROM \"s\" USING stored Stored Hash(stored)",
            "extract \"s\" stored() [stored:string ] hash stored;",
        ),
        // Statements without anything in them leave no trace.
        (
            ";; SELECT a ;; OUTPUT TO \"o\";",
            "select a as a from last;output last to \"o\";",
        ),
        ("", ""),
        // Numbers up to 64 bits, strings with their bytes.
        (
            "SELECT 9223372036854775807 AS a, \"x y\" AS b, NULL AS c, false AS d FROM t",
            "select 9223372036854775807 as a \"x y\" as b null as c false as d from t;",
        ),
        ("SELECT ((a)) AS b FROM t", "select a as b from t;"),
        ("SELECT a < b AS c FROM t", "select (a < b) as c from t;"),
    ];
    for (at, (text, tree)) in rows.iter().enumerate() {
        if !spells(alloc, text, tree)? {
            return Ok(Some(at));
        }
    }
    Ok(None)
}

#[test]
fn scripts_are_their_trees(rt: HostRuntime) -> Result<(), Fail> {
    assert_eq!(rt; first_other(rt.alloc())?, None);
    Ok(())
}
