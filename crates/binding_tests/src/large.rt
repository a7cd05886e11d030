//! Scripts at the limits of statements and columns.

use crate::causes::{Answer, answer_of};
use binding_causes::{BindCause, BindFault, LimitKind};
use scope_shipped::TextExtractor;
use std::alloc::{AllocError, Global};
use std::test::Fail;
use user_ops::OpSet;

// The piece so many times, and then the last one.
fn repeated(alloc: Global, piece: &str, count: u32, last: &str) -> Result<String, AllocError> {
    let mut text = String::new(alloc);
    for _ in 0..count {
        text.push_str(piece)?;
    }
    text.push_str(last)?;
    Ok(text)
}

// An EXTRACT of so many columns and then this text.
fn wide(alloc: Global, count: u32, last: &str) -> Result<String, AllocError> {
    let mut text = String::from_str(alloc, "e = EXTRACT c")?;
    for at in 1..count {
        text.push_str(", c")?;
        for _ in 0..at {
            text.push_str("x")?;
        }
    }
    text.push_str(" FROM \"e\" USING TextExtractor; ")?;
    text.push_str(last)?;
    Ok(text)
}

fn binds(alloc: Global, ops: &OpSet, text: &String) -> Result<bool, AllocError> {
    Ok(matches!(answer_of(alloc, ops, text.as_str())?, Answer::Binds))
}

fn is_fault(
    alloc: Global,
    ops: &OpSet,
    text: &String,
    statement: u32,
    cause: BindCause,
) -> Result<bool, AllocError> {
    Ok(match answer_of(alloc, ops, text.as_str())? {
        Answer::Fault(fault) => fault == BindFault { statement, cause },
        _ => false,
    })
}

#[test]
fn limits_are_met_exactly(rt: HostRuntime) -> Result<(), Fail> {
    let alloc = rt.alloc();
    let mut ops = OpSet::new(alloc);
    let op = Box::new(alloc, TextExtractor)?;
    assert!(rt; ops.put_extractor(alloc, b"TextExtractor", op));
    let extract = "EXTRACT a FROM \"x\" USING TextExtractor; ";
    let columns = BindCause::Limit(LimitKind::Columns);
    assert!(rt; binds(alloc, &ops, &repeated(alloc, extract, 64, "")?)?);
    assert!(rt;
        is_fault(
            alloc,
            &ops,
            &repeated(alloc, extract, 65, "")?,
            65,
            BindCause::Limit(LimitKind::Statements)
        )?
    );
    // The causes before it are asked of statement 65 first.
    assert!(rt;
        is_fault(
            alloc,
            &ops,
            &repeated(alloc, extract, 64, "OUTPUT zz TO \"o\"")?,
            65,
            BindCause::UnknownName
        )?
    );
    assert!(rt; binds(alloc, &ops, &wide(alloc, 128, "OUTPUT TO \"o\"")?)?);
    assert!(rt; is_fault(alloc, &ops, &wide(alloc, 129, "")?, 1, columns)?);
    // A tree numbers the columns of what stands in it, and those that its items make.
    assert!(rt; binds(alloc, &ops, &wide(alloc, 64, "SELECT *")?)?);
    assert!(rt; is_fault(alloc, &ops, &wide(alloc, 65, "SELECT *")?, 2, columns)?);
    assert!(rt; binds(alloc, &ops, &wide(alloc, 127, "SELECT DISTINCT c")?)?);
    // An outer join numbers the columns of both sides again, also those of a shared result.
    let joined = "SELECT x.c AS a FROM e AS x LEFT JOIN e AS y ON x.c == y.c";
    assert!(rt;
        is_fault(
            alloc,
            &ops,
            &wide(alloc, 32, joined)?,
            2,
            BindCause::UnknownOperator
        )?
    );
    // A second mention makes a result shared, and its columns stand for the whole of its tree.
    let once = "f = SELECT c, cx FROM e; SELECT c FROM f";
    assert!(rt; is_fault(alloc, &ops, &wide(alloc, 126, once)?, 3, columns)?);
    let twice = "f = SELECT c, cx FROM e; SELECT c FROM f; SELECT c FROM f";
    assert!(rt; binds(alloc, &ops, &wide(alloc, 126, twice)?)?);
    Ok(())
}
