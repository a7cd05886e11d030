// What is said of a status: its number, and its line on standard error.
ghost use Rattle.std.specs.Prelude.{◌≡◌, ◌++◌, flat_map, OnOk, OnErr};
ghost use Rattle.scope_app.specs.Report.{number_of, line_of, place_line, bind_line, sizes_line, row_line, cause_name, limit_name};
ghost use Rattle.std.specs.Fmt.{decimal};

use crate::status::{ScriptPlace, Status};
use binding_causes::{BindCause, BindFault, LimitKind};
use itoa::Buffer;
use size_model::SizesFault;
use std::alloc::AllocError;

/// The exit number of the program.
pub fn status_number(status: &Status) -> u32
    ensures { result ≡ number_of status.now }
{
    match status {
        Status::Done => 0,
        Status::NoMemory => 1,
        Status::ReadFault(_) => 3,
        Status::NoStream(_) => 4,
        Status::NotText => 5,
        Status::ScriptFault(_) => 6,
        Status::BindFault(_) => 7,
        Status::SizesFault(_) => 8,
        Status::RowFault { .. } => 9,
        Status::WriteFault(_) => 12,
        Status::NotBuilt => 20,
    }
}

/// Appends the status's line, without a line end; nothing where all was done. An error is want of memory, and appends nothing.
pub fn status_line(status: &Status, out: &mut Vec<u8>) -> Result<(), AllocError>
    ensures ok { OnOk result (out.new.items ≡ out.old.items ++ line_of status.now) }
    ensures err { OnErr result (out.new.items ≡ out.old.items) }
{
    match status {
        Status::Done => Ok(()),
        Status::NoMemory => out.extend_from_slice(b"scope: out of memory"),
        Status::ReadFault(name) => append_all(&[b"scope: cannot read ", name.as_slice()], out),
        Status::NoStream(name) => append_all(&[b"scope: no stream ", name.as_slice()], out),
        Status::NotText => out.extend_from_slice(b"scope: script is not UTF-8"),
        Status::ScriptFault(place) => script_line(*place, out),
        Status::BindFault(fault) => bind_line(*fault, out),
        Status::SizesFault(fault) => sizes_line(*fault, out),
        Status::RowFault { name, part, at } => record_line(name.as_slice(), *part, *at, out),
        Status::WriteFault(name) => append_all(&[b"scope: cannot write ", name.as_slice()], out),
        Status::NotBuilt => out.extend_from_slice(b"scope: not built"),
    }
}

// Appends the line of a script outside the language.
fn script_line(place: ScriptPlace, out: &mut Vec<u8>) -> Result<(), AllocError>
    ensures ok { OnOk result (out.new.items ≡ out.old.items ++ place_line place) }
    ensures err { OnErr result (out.new.items ≡ out.old.items) }
{
    let mut number = Buffer::new();
    match place {
        ScriptPlace::Lex(fault) => append_all(
            &[
                b"scope: no token at byte ",
                number.format(u64::from(fault.at)).as_bytes(),
            ],
            out,
        ),
        ScriptPlace::Syntax(fault) => append_all(
            &[
                b"scope: statement ",
                number.format(u64::from(fault.statement)).as_bytes(),
                b" is outside the grammar",
            ],
            out,
        ),
    }
}

// The name of a limit, as a cause.
fn limit_name(kind: LimitKind) -> &'static [u8]
    ensures { result.now ≡ limit_name kind }
{
    match kind {
        LimitKind::Statements => b"Limit(Statements)",
        LimitKind::Columns => b"Limit(Columns)",
        LimitKind::Joins => b"Limit(Joins)",
        LimitKind::Keys => b"Limit(Keys)",
        LimitKind::Shared => b"Limit(Shared)",
        LimitKind::Args => b"Limit(Args)",
    }
}

// The name of a cause.
fn cause_name(cause: BindCause) -> &'static [u8]
    ensures { result.now ≡ cause_name cause }
{
    match cause {
        BindCause::UnknownName => b"UnknownName",
        BindCause::DuplicateName => b"DuplicateName",
        BindCause::UnknownOperator => b"UnknownOperator",
        BindCause::UnknownColumn => b"UnknownColumn",
        BindCause::AmbiguousColumn => b"AmbiguousColumn",
        BindCause::TypeMismatch => b"TypeMismatch",
        BindCause::SchemaRefused => b"SchemaRefused",
        BindCause::TopWithoutOrder => b"TopWithoutOrder",
        BindCause::Limit(kind) => limit_name(kind),
    }
}

// Appends the line of a script that binds to nothing.
fn bind_line(fault: BindFault, out: &mut Vec<u8>) -> Result<(), AllocError>
    ensures ok { OnOk result (out.new.items ≡ out.old.items ++ bind_line fault) }
    ensures err { OnErr result (out.new.items ≡ out.old.items) }
{
    let mut number = Buffer::new();
    append_all(
        &[
            b"scope: statement ",
            number.format(u64::from(fault.statement)).as_bytes(),
            b": ",
            cause_name(fault.cause),
        ],
        out,
    )
}

// Appends the line of a file of sizes that is refused.
fn sizes_line(fault: SizesFault, out: &mut Vec<u8>) -> Result<(), AllocError>
    ensures ok { OnOk result (out.new.items ≡ out.old.items ++ sizes_line fault) }
    ensures err { OnErr result (out.new.items ≡ out.old.items) }
{
    let mut number = Buffer::new();
    append_all(
        &[b"scope: sizes: record ", number.format(fault.at).as_bytes()],
        out,
    )
}

// Appends the line of a refused record.
fn record_line(name: &[u8], part: u32, at: u64, out: &mut Vec<u8>) -> Result<(), AllocError>
    ensures ok { OnOk result (out.new.items ≡ out.old.items ++ row_line name.now part at) }
    ensures err { OnErr result (out.new.items ≡ out.old.items) }
{
    let mut part_number = Buffer::new();
    let mut number = Buffer::new();
    append_all(
        &[
            b"scope: ",
            name,
            b": part ",
            part_number.format(u64::from(part)).as_bytes(),
            b": record ",
            number.format(at).as_bytes(),
        ],
        out,
    )
}

// Appends the pieces one after the other, or nothing where memory is refused.
fn append_all(pieces: &[&[u8]], out: &mut Vec<u8>) -> Result<(), AllocError>
    ensures ok { OnOk result (out.new.items ≡ out.old.items ++ flat_map (λ piece. piece.now) pieces.now) }
    ensures err { OnErr result (out.new.items ≡ out.old.items) }
{
    let held = out.len();
    for piece in pieces {
        if out.extend_from_slice(piece).is_err() {
            out.truncate(held);
            return Err(AllocError);
        }
    }
    Ok(())
}
