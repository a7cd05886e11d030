// That the calls answer with ample memory, on worked texts and fields.
use crate::one_field::OneField;
use row_codec::{RowFault, read_field, read_part, write_field, write_rows};
use scope_value::{Cell, ColType, Column, Schema, Value};
use std::alloc::{AllocError, Global};
use std::test::Fail;

// A part, read by one column of this type: what its rows are written as, or its fault.
#[derive(Drop)]
struct Case<'a> {
    kind: ColType,
    delimiter: u8,
    text: &'a [u8],
    outcome: Result<&'a [u8], RowFault>,
}

const INT: ColType = ColType::Int;

const LONG: ColType = ColType::Long;

const TEXT: ColType = ColType::Text;

const BOOL: ColType = ColType::Bool;

fn reads<'a>(kind: ColType, text: &'a [u8], written: &'a [u8]) -> Case<'a> {
    Case {
        kind,
        delimiter: b',',
        text,
        outcome: Ok(written),
    }
}

fn refuses<'a>(kind: ColType, text: &'a [u8], at: u64) -> Case<'a> {
    Case {
        kind,
        delimiter: b',',
        text,
        outcome: Err(RowFault { at }),
    }
}

fn by_semicolon<'a>(case: Case<'a>) -> Case<'a> {
    Case {
        delimiter: b';',
        ..case
    }
}

fn one_column(alloc: Global, kind: ColType) -> Result<Schema, AllocError> {
    let mut schema = Schema::new(alloc);
    let name = Cell::from_slice(alloc, b"c".as_slice())?;
    schema.push(Column { name, kind })?;
    Ok(schema)
}

fn answers_as_written(alloc: Global, case: &Case) -> Result<bool, AllocError> {
    let schema = one_column(alloc, case.kind)?;
    let op = OneField {
        delimiter: case.delimiter,
    };
    match read_part(alloc, case.text, &op, &[], &schema)? {
        Ok(rows) => {
            let mut out = Vec::new(alloc);
            write_rows(alloc, rows.as_slice(), b',', &mut out)?;
            Ok(case.outcome == Ok(out.as_slice()))
        }
        Err(fault) => Ok(case.outcome == Err(fault)),
    }
}

#[test]
fn parts_are_read_and_written(rt: HostRuntime) -> Result<(), Fail> {
    let cases = [
        reads(TEXT, b"x\n\n\ny\n", b"x\ny\n"),
        reads(TEXT, b"", b""),
        refuses(TEXT, b"x\n\n\ny,z\n", 2),
        refuses(TEXT, b"x\ny\nz,3\nz,4\n", 3),
        by_semicolon(reads(TEXT, b"x,y\n", b"\"x,y\"\n")),
        by_semicolon(refuses(TEXT, b"x,y\nx;y\n", 2)),
        reads(
            TEXT,
            b"\xEF\xBB\xBF7\n\"a,\"\"b\"\"\n\"\r\n\"\\N\"\n\xFF",
            b"7\n\"a,\"\"b\"\"\n\"\n\\N\n\xFF\n",
        ),
        reads(
            INT,
            b"+7\n-0\n007\n2147483647\n-2147483648\n\\N\n\"\"\n",
            b"7\n0\n7\n2147483647\n-2147483648\n\\N\n\\N\n",
        ),
        refuses(INT, b"-", 1),
        refuses(INT, b"+", 1),
        refuses(INT, b"1.0", 1),
        refuses(INT, b" 7", 1),
        refuses(INT, b"2147483648", 1),
        refuses(INT, b"-2147483649", 1),
        reads(
            LONG,
            b"9223372036854775807\n-9223372036854775808\n",
            b"9223372036854775807\n-9223372036854775808\n",
        ),
        refuses(LONG, b"9223372036854775808", 1),
        refuses(LONG, b"-9223372036854775809", 1),
        reads(
            BOOL,
            b"true\nTrUe\nFALSE\n\\N\n\"\"\n",
            b"true\ntrue\nfalse\n\\N\n\\N\n",
        ),
        refuses(BOOL, b"t", 1),
        refuses(BOOL, b"true ", 1),
    ];
    for case in &cases {
        assert!(rt; answers_as_written(rt.alloc(), case)?);
    }
    Ok(())
}

fn is_empty_text(alloc: Global, field: &[u8]) -> Result<bool, AllocError> {
    let value = read_field(alloc, TEXT, field)?;
    Ok(matches!(&value, Some(Value::Bytes(bytes)) if bytes.is_empty()))
}

fn is_null(alloc: Global, field: &[u8]) -> Result<bool, AllocError> {
    let value = read_field(alloc, TEXT, field)?;
    Ok(matches!(&value, Some(Value::Null)))
}

fn written_after(alloc: Global, before: &[u8], value: &Value) -> Result<Vec<u8>, AllocError> {
    let mut out = Vec::from_slice(alloc, before)?;
    write_field(value, &mut out)?;
    Ok(out)
}

#[test]
fn one_field(rt: HostRuntime) -> Result<(), Fail> {
    let alloc = rt.alloc();
    assert!(rt; is_empty_text(alloc, b"")?);
    assert!(rt; is_null(alloc, b"\\N")?);
    let sum = written_after(alloc, b"sum ", &Value::Wide(-170))?;
    assert_eq!(rt; sum.as_slice(), b"sum -170".as_slice());
    Ok(())
}
