//! Sizes files: their faults, and what they declare.

use itoa::Buffer;
use size_model::laws::reading_law;
use size_model::{Sizes, read_sizes};
use std::alloc::{AllocError, Global};
use std::test::Fail;

// The first record outside the form, 0 where there is none.
fn fault_of(alloc: Global, file: &str) -> Result<u64, AllocError> {
    match read_sizes(alloc, file.as_bytes())? {
        Ok(_) => Ok(0),
        Err(fault) => Ok(fault.at),
    }
}

// The first file whose fault isn't the number beside it, counted from 0.
fn first_other_fault(alloc: Global) -> Result<Option<usize>, AllocError> {
    let rows = [
        ("", 0),
        ("stream,s,1000,8\n", 0),
        ("stream,s,1,1\ncolumn,s,c,1\n", 0),
        // The numbers' bounds.
        ("stream,s,1152921504606846976,64", 0),
        ("stream,s,1152921504606846977,64", 1),
        ("stream,s,1,65", 1),
        ("stream,s,0,1", 1),
        ("stream,s,1,0", 1),
        ("column,s,c,1152921504606846976", 0),
        ("column,s,c,1152921504606846977", 1),
        ("column,s,c,99999999999999999999999999", 1),
        ("column,s,c,0", 1),
        // Digits alone, no zero in front.
        ("stream,s,01,1", 1),
        ("stream,s,1,01", 1),
        ("column,s,c,007", 1),
        ("stream,s,+1,1", 1),
        ("stream,s,-1,1", 1),
        ("stream,s, 1,1", 1),
        ("stream,s,1,1 ", 1),
        ("stream,s,1e3,1", 1),
        ("stream,s,,1", 1),
        // The two forms, of four fields.
        ("Stream,s,1,1", 1),
        ("COLUMN,s,c,1", 1),
        (" stream,s,1,1", 1),
        ("table,s,1,1", 1),
        ("stream,s,1", 1),
        ("stream,s,1,1,1", 1),
        ("column,s,c", 1),
        ("column,s,c,1,", 1),
        ("stream", 1),
        (" ", 1),
        ("stream;s;1;1", 1),
        // A second record of the same stream or column, whatever its numbers.
        ("stream,s,1,1\nstream,s,1,1", 2),
        ("stream,s,1,1\nstream,s,2,3", 2),
        ("stream,s,1,1\nstream,S,1,1", 0),
        ("column,s,c,1\ncolumn,s,c,2", 2),
        ("column,s,c,1\ncolumn,s,d,1\ncolumn,t,c,1\nstream,s,1,1", 0),
        ("stream,s,1,1\nstream,t,1,1\nstream,s,1,1\nx", 3),
        ("stream,s,1,1\nx\nstream,s,1,1", 2),
        // Names may be empty, and hold anything.
        ("stream,,5,1\ncolumn,,,5", 0),
        ("stream,\"s,t\",5,1\nstream,s,5,1", 0),
        // Records end at any line end, quotes are taken off, and empty lines aren't counted.
        ("stream,s,1,1\r\ncolumn,s,c,2\rstream,t,1,1", 0),
        ("\"stream\",\"s\",\"1\",\"1\"", 0),
        ("stream,s,1,1\n\n\r\n\nstream,s,1,1\n", 2),
        // A byte order mark is taken off at the start alone.
        ("\u{feff}stream,s,1,1", 0),
        ("stream,s,1,1\n\u{feff}stream,t,1,1", 2),
    ];
    for (at, (file, fault)) in rows.iter().enumerate() {
        if fault_of(alloc, file)? != *fault {
            return Ok(Some(at));
        }
    }
    Ok(None)
}

fn put_number(out: &mut Vec<u8>, number: u64) -> Result<(), AllocError> {
    out.extend_from_slice(Buffer::new().format(number).as_bytes())
}

// Appends the rows and parts of the stream `s`, and the distinct values of its column `c`.
fn put_answers(out: &mut Vec<u8>, sizes: &Sizes) -> Result<(), AllocError> {
    put_number(out, sizes.rows(b"s".as_slice()))?;
    out.push(b' ')?;
    put_number(out, u64::from(sizes.parts(b"s".as_slice())))?;
    out.push(b' ')?;
    put_number(out, sizes.distinct(b"s".as_slice(), b"c".as_slice()))
}

fn answers(alloc: Global, file: &str, wanted: &str) -> Result<bool, AllocError> {
    let Ok(sizes) = read_sizes(alloc, file.as_bytes())? else {
        return Ok(false);
    };
    let mut out = Vec::new(alloc);
    put_answers(&mut out, &sizes)?;
    Ok(out.as_slice() == wanted.as_bytes())
}

// The first file that doesn't answer what stands beside it, counted from 0.
fn first_other_answer(alloc: Global) -> Result<Option<usize>, AllocError> {
    let rows = [
        // What isn't declared has a default.
        ("", "1000 1 100"),
        ("stream,t,7,3\ncolumn,s,d,9\ncolumn,t,c,8", "1000 1 100"),
        ("stream,S,7,3\ncolumn,S,c,8\ncolumn,s,C,8", "1000 1 100"),
        ("stream,s,7,3", "7 3 100"),
        ("column,s,c,9", "1000 1 9"),
        (
            "column,s,d,4\nstream,s,1152921504606846976,64\ncolumn,s,c,1152921504606846976",
            "1152921504606846976 64 1152921504606846976",
        ),
        (
            "column,t,c,1\ncolumn,s,b,2\ncolumn,s,c,3\ncolumn,s,d,4\nstream,s,5,6\nstream,t,7,8",
            "5 6 3",
        ),
        ("\"stream\",\"s\",\"12\",\"2\"", "12 2 100"),
        ("\u{feff}stream,s,5,2\r\n\r\ncolumn,s,c,6\r", "5 2 6"),
    ];
    for (at, (file, wanted)) in rows.iter().enumerate() {
        if !answers(alloc, file, wanted)? {
            return Ok(Some(at));
        }
    }
    Ok(None)
}

#[test]
fn sizes_are_as_declared(rt: HostRuntime) -> Result<(), Fail> {
    reading_law();
    assert_eq!(rt; first_other_fault(rt.alloc())?, None);
    assert_eq!(rt; first_other_answer(rt.alloc())?, None);
    Ok(())
}
