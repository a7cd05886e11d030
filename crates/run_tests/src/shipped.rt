// Worked rows of each shipped operator and of one that isn't, and operators in a set.
use crate::first_is_null::FirstIsNull;
use row_codec::{read_part, write_rows};
use scope_shipped::{
    InnerPairs, LogExtractor, MultiSetDifference, SplitWords, TextExtractor, TopQueries,
};
use scope_value::{Cell, ColType, Column, Row, Schema, Value};
use std::alloc::{AllocError, Global};
use std::test::Fail;
use user_ops::{AddFault, Combiner, Extractor, OpSet, Processor, Reducer};

// A column of a schema.
#[derive(Clone, Copy)]
pub(crate) struct Named<'a> {
    name: &'a [u8],
    kind: ColType,
}

pub(crate) const WORD: Named<'static> = Named {
    name: b"word",
    kind: ColType::Text,
};

const TIMES: Named<'static> = Named {
    name: b"times",
    kind: ColType::Int,
};

pub(crate) const FLAG: Named<'static> = Named {
    name: b"flag",
    kind: ColType::Bool,
};

const USER: Named<'static> = Named {
    name: b"user",
    kind: ColType::Text,
};

const CLICKS: Named<'static> = Named {
    name: b"clicks",
    kind: ColType::Int,
};

pub(crate) fn schema(alloc: Global, columns: &[Named]) -> Result<Schema, AllocError> {
    let mut schema = Schema::new(alloc);
    for column in columns {
        let name = Cell::from_slice(alloc, column.name)?;
        schema.push(Column {
            name,
            kind: column.kind,
        })?;
    }
    Ok(schema)
}

pub(crate) fn cells(alloc: Global, texts: &[&[u8]]) -> Result<Vec<Cell>, AllocError> {
    let mut cells = Vec::new(alloc);
    for text in texts {
        cells.push(Cell::from_slice(alloc, text)?)?;
    }
    Ok(cells)
}

// Rows of a word and its times, read from text.
pub(crate) fn rows(alloc: Global, text: &[u8]) -> Result<Vec<Row>, AllocError> {
    match read_part(
        alloc,
        text,
        &TextExtractor,
        &[],
        &schema(alloc, &[WORD, TIMES])?,
    )? {
        Ok(rows) => Ok(rows),
        Err(_) => Ok(Vec::new(alloc)),
    }
}

pub(crate) fn written(alloc: Global, rows: &[Row]) -> Result<Vec<u8>, AllocError> {
    let mut text = Vec::new(alloc);
    write_rows(alloc, rows, b',', &mut text)?;
    Ok(text)
}

// What an operator is given.
#[derive(Clone, Copy)]
enum Call<'a> {
    // Two groups of words and their times.
    Difference(&'a [u8], &'a [u8]),
    Pairs(&'a [u8], &'a [u8]),
    // How many rows of a group of three.
    Top(&'a [u8]),
    // The first value of a row, null where there is none.
    Split(Option<&'a [u8]>),
    IsNull(Option<&'a [u8]>),
    // The output columns, and the fields of a record.
    Log(&'a [Named<'a>], &'a [&'a [u8]]),
    Text(&'a [Named<'a>], &'a [&'a [u8]]),
}

// The rows that are given; none where a record is refused, and one of the values that a refusal left behind.
fn given(alloc: Global, call: Call) -> Result<Vec<Row>, AllocError> {
    match call {
        Call::Difference(left, right) => combined(alloc, &MultiSetDifference, left, right),
        Call::Pairs(left, right) => combined(alloc, &InnerPairs, left, right),
        Call::Top(count) => cut(alloc, count),
        Call::Split(value) => processed(alloc, &SplitWords, value),
        Call::IsNull(value) => processed(alloc, &FirstIsNull, value),
        Call::Log(columns, fields) => extracted(alloc, &LogExtractor, columns, fields),
        Call::Text(columns, fields) => extracted(alloc, &TextExtractor, columns, fields),
    }
}

fn combined(
    alloc: Global,
    op: &dyn Combiner,
    left: &[u8],
    right: &[u8],
) -> Result<Vec<Row>, AllocError> {
    let left = rows(alloc, left)?;
    let right = rows(alloc, right)?;
    let mut out = Vec::new(alloc);
    op.combine(alloc, &[], left.as_slice(), right.as_slice(), &mut out)?;
    Ok(out)
}

fn cut(alloc: Global, count: &[u8]) -> Result<Vec<Row>, AllocError> {
    let args = cells(alloc, &[count])?;
    let group = rows(alloc, b"a,1\nb,2\nc,3\n")?;
    let mut out = Vec::new(alloc);
    TopQueries.reduce(alloc, args.as_slice(), group.as_slice(), &mut out)?;
    Ok(out)
}

fn processed(
    alloc: Global,
    op: &dyn Processor,
    value: Option<&[u8]>,
) -> Result<Vec<Row>, AllocError> {
    let mut row = Row::new(alloc);
    row.push(match value {
        None => Value::Null,
        Some(bytes) => Value::Bytes(Cell::from_slice(alloc, bytes)?),
    })?;
    let mut out = Vec::new(alloc);
    op.process(alloc, &[], &row, &mut out)?;
    Ok(out)
}

fn extracted(
    alloc: Global,
    op: &dyn Extractor,
    columns: &[Named],
    fields: &[&[u8]],
) -> Result<Vec<Row>, AllocError> {
    let columns = schema(alloc, columns)?;
    let fields = cells(alloc, fields)?;
    let mut values = Vec::new(alloc);
    let mut out = Vec::new(alloc);
    if op.extract(alloc, &[], &columns, fields.as_slice(), &mut values)? || !values.is_empty() {
        out.push(Row::from_vec(values))?;
    }
    Ok(out)
}

// The text of the rows that are given: empty where there are none.
fn answers(alloc: Global, call: Call, want: &[u8]) -> Result<bool, AllocError> {
    let rows = given(alloc, call)?;
    Ok(written(alloc, rows.as_slice())?.as_slice() == want)
}

#[test]
fn operators_give_worked_rows(rt: HostRuntime) -> Result<(), Fail> {
    let swapped: &[Named] = &[CLICKS, USER];
    let user: &[Named] = &[USER];
    let counted: &[Named] = &[WORD, TIMES];
    let cases = [
        (
            Call::Difference(b"a,1\na,1\na,1\n", b"a,1\n"),
            b"a,1\na,1\n".as_slice(),
        ),
        (
            Call::Difference(b"a,1\nb,2\na,1\n", b"a,1\n"),
            b"b,2\na,1\n",
        ),
        (
            Call::Difference(b"a,1\nb,2\n", b"b,2\nb,2\nc,3\n"),
            b"a,1\n",
        ),
        (Call::Difference(b"a,\n", b"a,\n"), b""),
        (Call::Difference(b"", b"a,1\n"), b""),
        (
            Call::Pairs(b"a,1\nb,2\n", b"c,3\nd,4\n"),
            b"a,1,c,3\na,1,d,4\nb,2,c,3\nb,2,d,4\n",
        ),
        (Call::Pairs(b"a,1\n", b""), b""),
        (Call::Top(b"0"), b""),
        (Call::Top(b"002"), b"a,1\nb,2\n"),
        (Call::Top(b"1000000000"), b"a,1\nb,2\nc,3\n"),
        (Call::Split(Some(b" a  b ")), b"a\nb\n"),
        (Call::Split(Some(b"a\tb  ")), b"a\tb\n"),
        (Call::Split(None), b""),
        (Call::IsNull(Some(b"a")), b"false\n"),
        (Call::IsNull(None), b"true\n"),
        (Call::Log(swapped, &[b"u", b"q", b"7"]), b"7,u\n"),
        (Call::Log(user, &[b"u", b"q", b"many"]), b"u\n"),
        (Call::Log(swapped, &[b"u", b"q", b"many"]), b""),
        (Call::Log(user, &[b"u", b"q"]), b""),
        (Call::Log(user, &[b"u", b"q", b"1", b"2"]), b""),
        (Call::Text(counted, &[b"a", b"1"]), b"a,1\n"),
        (Call::Text(counted, &[b"a", b"one"]), b""),
    ];
    for (call, want) in cases {
        assert!(rt; answers(rt.alloc(), call, want)?);
    }
    Ok(())
}

// An operator, and the columns that it is asked to take.
#[derive(Clone, Copy)]
enum Asked<'a> {
    Difference(&'a [Named<'a>], &'a [Named<'a>], &'a [Named<'a>]),
    Pairs(&'a [Named<'a>], &'a [Named<'a>], &'a [Named<'a>]),
    Split(&'a [Named<'a>], &'a [Named<'a>]),
    IsNull(&'a [Named<'a>], &'a [Named<'a>]),
    Log(&'a [Named<'a>]),
    // The arg alone, over a word.
    Top(&'a [u8]),
}

fn takes(alloc: Global, asked: Asked) -> Result<bool, AllocError> {
    match asked {
        Asked::Difference(left, right, output) => takes_both(
            alloc,
            &MultiSetDifference,
            left,
            right,
            output,
        ),
        Asked::Pairs(left, right, output) => takes_both(alloc, &InnerPairs, left, right, output),
        Asked::Split(input, output) => takes_rows(alloc, &SplitWords, input, output),
        Asked::IsNull(input, output) => takes_rows(alloc, &FirstIsNull, input, output),
        Asked::Log(output) => Ok(LogExtractor.accepts(&schema(alloc, output)?, &[])),
        Asked::Top(count) => takes_count(alloc, count),
    }
}

fn takes_both(
    alloc: Global,
    op: &dyn Combiner,
    left: &[Named],
    right: &[Named],
    output: &[Named],
) -> Result<bool, AllocError> {
    let left = schema(alloc, left)?;
    let right = schema(alloc, right)?;
    Ok(op.accepts(&left, &right, &schema(alloc, output)?, &[]))
}

fn takes_rows(
    alloc: Global,
    op: &dyn Processor,
    input: &[Named],
    output: &[Named],
) -> Result<bool, AllocError> {
    let input = schema(alloc, input)?;
    Ok(op.accepts(&input, &schema(alloc, output)?, &[]))
}

fn takes_count(alloc: Global, count: &[u8]) -> Result<bool, AllocError> {
    let schema = schema(alloc, &[WORD])?;
    Ok(TopQueries.accepts(&schema, &schema, cells(alloc, &[count])?.as_slice()))
}

#[test]
fn operators_take_schemas_and_args(rt: HostRuntime) -> Result<(), Fail> {
    let word: &[Named] = &[WORD];
    let flag: &[Named] = &[FLAG];
    let both: &[Named] = &[WORD, FLAG];
    for (asked, want) in [
        (Asked::Difference(word, word, word), true),
        (Asked::Difference(word, both, word), false),
        (Asked::Pairs(word, flag, both), true),
        (Asked::Pairs(flag, word, both), false),
        (Asked::Split(&[WORD, TIMES], word), true),
        (Asked::IsNull(word, flag), true),
        (Asked::Top(b"0001000000000"), true),
        (Asked::Top(b"1000000001"), false),
        (Asked::Top(b""), false),
        (Asked::Top(b"-0"), false),
        (Asked::Log(&[CLICKS, USER]), true),
        (Asked::Log(&[USER, WORD]), false),
    ] {
        assert_eq!(rt; takes(rt.alloc(), asked)?, want);
    }
    Ok(())
}

fn takes_delimiter(alloc: Global, byte: &[u8]) -> Result<Option<u8>, AllocError> {
    let args = cells(alloc, &[byte])?;
    let accepted = TextExtractor.accepts(&schema(alloc, &[WORD])?, args.as_slice());
    Ok(accepted.then_some(TextExtractor.delimiter(args.as_slice())))
}

fn fixed_count(alloc: Global, op: &dyn Extractor) -> Result<Option<usize>, AllocError> {
    let mut fixed = Vec::new(alloc);
    let has = op.fixed(alloc, &mut fixed)?;
    Ok(has.then_some(fixed.len()))
}

#[test]
fn extractors_tell_delimiters_and_columns(rt: HostRuntime) -> Result<(), Fail> {
    let alloc = rt.alloc();
    for (arg, delimiter) in [
        (b";".as_slice(), Some(b';')),
        (b"\0".as_slice(), Some(0)),
        (b"\"".as_slice(), None),
        (b"\n".as_slice(), None),
        (b"\x80".as_slice(), None),
        (b"".as_slice(), None),
        (b"ab".as_slice(), None),
    ] {
        assert_eq!(rt; takes_delimiter(alloc, arg)?, delimiter);
    }
    assert_eq!(rt; TextExtractor.delimiter(&[]), b',');
    assert_eq!(rt; LogExtractor.delimiter(&[]), b'\t');
    assert_eq!(rt; fixed_count(alloc, &TextExtractor)?, None);
    assert_eq!(rt; fixed_count(alloc, &LogExtractor)?, Some(3));
    Ok(())
}

// How many rows a reducer gives of a group of two, with the arg 1.
fn given_count(alloc: Global, op: &Box<dyn Reducer>) -> Result<usize, AllocError> {
    let args = cells(alloc, &[b"1"])?;
    let group = rows(alloc, b"a,1\nb,2\n")?;
    let mut out = Vec::new(alloc);
    op.reduce(alloc, args.as_slice(), group.as_slice(), &mut out)?;
    Ok(out.len())
}

// None where the reducer went in; else why it did not, and how many rows it gives as it comes back.
fn refused(
    alloc: Global,
    ops: &mut OpSet,
    op: Box<dyn Reducer>,
) -> Result<Option<(AddFault, usize)>, AllocError> {
    match ops.add_reducer(Cell::from_slice(alloc, b"TopQueries")?, op) {
        Ok(()) => Ok(None),
        Err((op, fault)) => Ok(Some((fault, given_count(alloc, &op)?))),
    }
}

fn place_added(
    alloc: Global,
    ops: &mut OpSet,
    op: Box<dyn Processor>,
) -> Result<Option<usize>, AllocError> {
    match ops.add_processor(Cell::from_slice(alloc, b"FirstIsNull")?, op) {
        Ok(()) => Ok(ops.find_processor(b"FirstIsNull")),
        Err(_) => Ok(None),
    }
}

#[test]
fn a_set_hands_a_second_reducer_back(rt: HostRuntime) -> Result<(), Fail> {
    let alloc = rt.alloc();
    let mut ops = OpSet::new(alloc);
    let op = Box::new(alloc, TopQueries)?;
    assert!(rt; refused(alloc, &mut ops, op)?.is_none());
    let op = Box::new(alloc, TopQueries)?;
    assert!(rt; refused(alloc, &mut ops, op)? == Some((AddFault::Duplicate, 1)));
    assert!(rt; ops.find_reducer(b"TopQueries") == Some(0));
    Ok(())
}

#[test]
fn a_set_takes_an_operator_that_is_not_shipped(rt: HostRuntime) -> Result<(), Fail> {
    let alloc = rt.alloc();
    let mut ops = OpSet::new(alloc);
    let own = Box::new(alloc, FirstIsNull)?;
    assert!(rt; place_added(alloc, &mut ops, own)? == Some(0));
    Ok(())
}
