//! Streams in a store: parts that are read in turn, and outputs that are written in turn.
ghost use Rattle.std.specs.Prelude.{◌≡◌, ◌<◌, IfOk, All, length};

use col_sets::ColSet;
use logical_dag::{LogicOp, Logical, Output, ScanDecl};
use row_codec::write_rows;
use scope_outside::MemStore;
use scope_shipped::TextExtractor;
use scope_streams::{ReadStop, output_texts, read_file, read_scans, write_texts};
use scope_value::{Cell, ColType, Column, Row, Schema, Value};
use size_model::read_sizes;
use sqlite_items::Items;
use std::alloc::{AllocError, Global};
use std::test::Fail;
use user_ops::{OpSet, Tells};

// Files, the number of a read that is to fail, and what reading the streams `a` and `b` comes to: the rows of each, or why it stopped.
#[derive(Clone, Copy)]
struct Case<'a> {
    sizes: &'a [u8],
    files: &'a [(&'a [u8], &'a [u8])],
    failing_read: u64,
    wanted: &'a [u8],
}

// A stream of one column of numbers.
fn numbers(alloc: Global, stream: &[u8]) -> Result<ScanDecl, AllocError>
    ensures { IfOk result (λ d. d.op ≡ 0) }
{
    let mut schema = Schema::new(alloc);
    schema.push(Column {
        name: Cell::from_slice(alloc, b"n")?,
        kind: ColType::Int,
    })?;
    Ok(ScanDecl {
        stream: Cell::from_slice(alloc, stream)?,
        op: 0,
        args: Items::new(alloc),
        schema,
        stored: None,
    })
}

fn both_streams(alloc: Global) -> Result<Vec<ScanDecl>, AllocError>
    ensures { IfOk result (λ scans. All (λ d. d.op ≡ 0) scans.items) }
{
    let mut scans = Vec::new(alloc);
    scans.push(numbers(alloc, b"a")?)?;
    scans.push(numbers(alloc, b"b")?)?;
    Ok(scans)
}

fn store_of(alloc: Global, case: &Case<'_>) -> Result<MemStore, AllocError> {
    let mut store = MemStore::new(alloc);
    for (name, text) in case.files {
        store.put(name, text)?;
    }
    store.fail_read(case.failing_read)?;
    Ok(store)
}

fn put_stop(stop: &ReadStop, out: &mut Vec<u8>) -> Result<(), AllocError> {
    match stop {
        ReadStop::NoMemory => out.extend_from_slice(b"no memory"),
        ReadStop::Failed(name) => {
            out.extend_from_slice(b"failed ")?;
            out.extend_from_slice(name.as_slice())
        }
        ReadStop::Missing(name) => {
            out.extend_from_slice(b"missing ")?;
            out.extend_from_slice(name.as_slice())
        }
        ReadStop::Refused { name, part, at } => {
            out.extend_from_slice(b"refused ")?;
            out.extend_from_slice(name.as_slice())?;
            out.push(if *part == 1 { b'1' } else { b'?' })?;
            out.push(if *at == 2 { b'2' } else { b'?' })?;
            Ok(())
        }
    }
}

// The rows of each scan with a bar behind them, or why they weren't read.
fn put_read(
    alloc: Global,
    read: &Result<Vec<Vec<Row>>, ReadStop>,
    out: &mut Vec<u8>,
) -> Result<(), AllocError> {
    match read {
        Ok(bags) => {
            for rows in bags {
                write_rows(alloc, rows.as_slice(), b',', out)?;
                out.push(b'|')?;
            }
            Ok(())
        }
        Err(stop) => put_stop(stop, out),
    }
}

fn reads_as_wanted(alloc: Global, ops: &OpSet, case: &Case<'_>) -> Result<bool, AllocError>
    requires { 0 < length (⟦<OpSet as Tells>⟧.tells ops.now).extractors }
{
    let Ok(sizes) = read_sizes(alloc, case.sizes)? else {
        return Ok(false);
    };
    let mut store = store_of(alloc, case)?;
    let scans = both_streams(alloc)?;
    let read = read_scans(alloc, &mut store, ops, &sizes, scans.as_slice());
    let mut out = Vec::new(alloc);
    put_read(alloc, &read, &mut out)?;
    Ok(out.as_slice() == case.wanted)
}

const A: &[u8] = b"a";

const B: &[u8] = b"b";

const FIRST: &[u8] = b"a.0";

const SECOND: &[u8] = b"a.1";

// The first case that comes to something else, counted from 0.
fn first_other_reading(alloc: Global, ops: &OpSet) -> Result<Option<usize>, AllocError> {
    if ops.find_extractor(b"TextExtractor").is_none() {
        return Ok(Some(0));
    }
    let two_parts = b"stream,a,9,2\n".as_slice();
    let cases = [
        Case {
            sizes: b"",
            files: &[(A, b"1\n2\n"), (B, b"3\n")],
            failing_read: 0,
            wanted: b"1\n2\n|3\n|",
        },
        // The parts stand behind one another, and what has the stream's own name is none of them.
        Case {
            sizes: two_parts,
            files: &[(A, b"7\n"), (B, b""), (FIRST, b"2\n"), (SECOND, b"1\n")],
            failing_read: 0,
            wanted: b"2\n1\n||",
        },
        Case {
            sizes: two_parts,
            files: &[(A, b"7\n"), (B, b"3\n"), (FIRST, b"2\n")],
            failing_read: 0,
            wanted: b"missing a.1",
        },
        // The first refused record counts, and what comes behind it isn't read.
        Case {
            sizes: two_parts,
            files: &[(FIRST, b"2\n1\n"), (SECOND, b"3\nx\ny\n")],
            failing_read: 0,
            wanted: b"refused a12",
        },
        Case {
            sizes: b"",
            files: &[(A, b"1\n"), (B, b"x\n")],
            failing_read: 2,
            wanted: b"failed b",
        },
    ];
    for (at, case) in cases.iter().enumerate() {
        if !reads_as_wanted(alloc, ops, case)? {
            return Ok(Some(at));
        }
    }
    Ok(None)
}

#[test]
fn parts_are_read_in_turn(rt: HostRuntime) -> Result<(), Fail> {
    let alloc = rt.alloc();
    let mut ops = OpSet::new(alloc);
    let text = Box::new(alloc, TextExtractor)?;
    assert!(rt; ops.put_extractor(alloc, b"TextExtractor", text));
    assert_eq!(rt; first_other_reading(alloc, &ops)?, None);
    Ok(())
}

fn output(alloc: Global, name: &[u8], delimiter: u8) -> Result<Output, AllocError> {
    Ok(Output {
        name: Cell::from_slice(alloc, name)?,
        delimiter,
        order: None,
        stored: None,
        tree: Logical::leaf(
            alloc,
            LogicOp::Scan {
                scan: 0,
                cols: ColSet::empty(),
            },
        ),
    })
}

fn two_outputs(alloc: Global) -> Result<Vec<Output>, AllocError> {
    let mut outputs = Vec::new(alloc);
    outputs.push(output(alloc, b"o", b',')?)?;
    outputs.push(output(alloc, b"p", b';')?)?;
    Ok(outputs)
}

// One row of two numbers.
fn rows(alloc: Global, first: i64, second: i64) -> Result<Vec<Row>, AllocError> {
    let mut values = Vec::new(alloc);
    values.push(Value::Int(first))?;
    values.push(Value::Int(second))?;
    let mut rows = Vec::new(alloc);
    rows.push(Row::from_vec(values))?;
    Ok(rows)
}

fn two_bags(alloc: Global) -> Result<Vec<Vec<Row>>, AllocError> {
    let mut bags = Vec::new(alloc);
    bags.push(rows(alloc, 1, 2)?)?;
    bags.push(rows(alloc, 3, 4)?)?;
    Ok(bags)
}

// Whether the outputs stand, in a store whose write of that number fails: the first `o`, the second `p`.
fn writes(alloc: Global, failing: u64) -> Result<(bool, bool), AllocError> {
    let outputs = two_outputs(alloc)?;
    let bags = two_bags(alloc)?;
    let texts = output_texts(alloc, outputs.as_slice(), bags.as_slice())?;
    let mut store = MemStore::new(alloc);
    store.fail_write(failing)?;
    let all = write_texts(&mut store, outputs.as_slice(), texts.as_slice()).is_ok();
    let first = store.get(b"o")? == Some(b"1,2\n".as_slice());
    let second = match read_file(alloc, &mut store, b"p") {
        Ok(text) => text.as_slice() == b"3;4\n".as_slice(),
        Err(_) => false,
    };
    Ok((first, second && all))
}

#[test]
fn outputs_are_written_in_turn(rt: HostRuntime) -> Result<(), Fail> {
    let alloc = rt.alloc();
    assert_eq!(rt; writes(alloc, 0)?, (true, true));
    assert_eq!(rt; writes(alloc, 1)?, (false, false));
    assert_eq!(rt; writes(alloc, 2)?, (true, false));
    Ok(())
}
