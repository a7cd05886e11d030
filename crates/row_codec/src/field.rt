// One field: what it reads as in a column, and how a value is written.
ghost use Rattle.std.specs.Prelude.{◌≡◌, ◌++◌, IfOk, IfSome, OnOk, OnErr};
ghost use Rattle.scope_value.specs.Fits.{Fits};
ghost use Rattle.row_codec.specs.Fields.{field_value, field_text, reads_null, truth};

use crate::number::{int_of, long_of};
use itoa::Buffer;
use scope_value::{Cell, ColType, Value};
use std::alloc::{AllocError, Global};

/// The value that a field reads as in a column of this type, or nothing where the type refuses the field. What is read fits the type.
///
/// Numbers are a sign or none and one or more digits, in the type's range. Truth values are `true` and `false` in any ASCII case. Null is
/// read from `\N`, and from the empty field but in a string column. An error is want of memory alone.
#[tactic(auto, unfolding(crate::specs::Fields::field_value))]
pub fn read_field(alloc: Global, kind: ColType, field: &[u8]) -> Result<Option<Value>, AllocError>
    ensures exact { IfOk result (λ o. o ≡ field_value kind field.now) }
    ensures fits { IfOk result (λ o. IfSome o (λ v. Fits kind v)) }
{
    if is_null(kind, field) {
        return Ok(Some(Value::Null));
    }
    match kind {
        ColType::Int => Ok(int_of(field).map(|number| Value::Int(i64::from(number)))),
        ColType::Long => Ok(long_of(field).map(Value::Int)),
        ColType::Bool => Ok(truth_of(field).map(Value::Bool)),
        ColType::Text => Ok(Some(Value::Bytes(Cell::from_slice(alloc, field)?))),
    }
}

// Whether a field is null in a column of this type.
fn is_null(kind: ColType, field: &[u8]) -> bool
    ensures { result ≡ reads_null kind field.now }
{
    match kind {
        ColType::Text => field == b"\\N".as_slice(),
        _ => field.is_empty() || field == b"\\N".as_slice(),
    }
}

// The truth value that a word in any ASCII case names.
fn truth_of(field: &[u8]) -> Option<bool>
    ensures { result ≡ truth field.now }
{
    if field.eq_ignore_ascii_case(b"true".as_slice()) {
        Some(true)
    } else if field.eq_ignore_ascii_case(b"false".as_slice()) {
        Some(false)
    } else {
        None
    }
}

/// The bytes that a value is written as, which a number lends from the buffer.
pub(crate) fn text_of<'a>(value: &'a Value, buffer: &'a mut Buffer) -> &'a [u8]
    ensures { result.now ≡ field_text value.now }
{
    match value {
        Value::Null => b"\\N".as_slice(),
        Value::Bool(true) => b"true".as_slice(),
        Value::Bool(false) => b"false".as_slice(),
        Value::Int(number) => buffer.format(*number).as_bytes(),
        Value::Bytes(bytes) => bytes.as_slice(),
        Value::Wide(number) => buffer.format(*number).as_bytes(),
    }
}

/// Appends a value as a field, before any quotes: null as `\N`, numbers in decimal with `-` before a negative one, `true` and `false`, and
/// the bytes of a string. An error is want of memory, and appends nothing.
pub fn write_field(value: &Value, out: &mut Vec<u8>) -> Result<(), AllocError>
    ensures ok { OnOk result (out.new.items ≡ out.old.items ++ field_text value.now) }
    ensures err { OnErr result (out.new.items ≡ out.old.items) }
{
    let mut buffer = Buffer::new();
    out.extend_from_slice(text_of(value, &mut buffer))
}
