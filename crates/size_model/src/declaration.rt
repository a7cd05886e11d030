// What one record of a sizes file declares.
ghost use Rattle.std.specs.Prelude.{◌≡◌, ◌≤◌, ◌<◌, ◌^◌, [], IfSome, get_or, length};
ghost use Rattle.std.specs.Option.{option_map};
ghost use Rattle.csv.specs.Records.{fields_of};
ghost use Rattle.size_model.specs.Declarations as spec;
ghost use Rattle.size_model.specs.Declarations.{told};

use csv::ByteRecord;
use row_codec::number_under;

/// The most rows of a stream, and the most distinct values of a column.
const MAX_COUNT: u64 = 1 << 60;

/// The most parts of a stream.
const MAX_PARTS: u64 = 64;

/// The rows and parts of a stream.
#[derive(Clone, Copy)]
pub(crate) struct StreamSize {
    pub(crate) rows: u64,
    pub(crate) parts: u32,
}

/// What a record declares of a stream, or of a column of one.
#[derive(Clone, Copy)]
pub(crate) enum Declaration<'a> {
    Stream {
        name: &'a [u8],
        size: StreamSize,
    },
    Column {
        name: &'a [u8],
        column: &'a [u8],
        distinct: u64,
    },
}

/// What the record declares, if it is of one of the two forms.
#[tactic(auto, using(crate::proofs::RecordLemmas::four_fields, crate::proofs::RecordLemmas::other_fields))]
pub(crate) fn declared(line: &ByteRecord) -> Option<Declaration<'_>>
    ensures { option_map told result ≡ spec.declaration_of (fields_of line.entry.now) }
{
    if line.len() != 4 {
        return None;
    }
    declared_by(
        field(line, 0),
        field(line, 1),
        field(line, 2),
        field(line, 3),
    )
}

/// The field at a place, which the record has.
fn field(line: &ByteRecord, at: usize) -> &[u8]
    requires { at < length (fields_of line.now) }
    ensures { result.now ≡ get_or (fields_of line.entry.now) at [] }
{
    let Some(field) = line.get(at) else {
        unreachable!();
    };
    field
}

fn declared_by<'a>(
    kind: &[u8],
    name: &'a [u8],
    third: &'a [u8],
    fourth: &[u8],
) -> Option<Declaration<'a>>
    ensures { option_map told result ≡ spec.declared_by kind.now name.entry.now third.entry.now fourth.now }
{
    if kind == b"stream".as_slice() {
        stream_record(name, third, fourth)
    } else if kind == b"column".as_slice() {
        column_record(name, third, fourth)
    } else {
        None
    }
}

fn stream_record<'a>(name: &'a [u8], rows: &[u8], parts: &[u8]) -> Option<Declaration<'a>>
    ensures { option_map told result ≡ spec.stream_record name.entry.now (spec.count spec.max_count rows.now) (spec.count spec.max_parts parts.now) }
{
    let rows = count(rows, MAX_COUNT)?;
    let parts = count(parts, MAX_PARTS)? as u32;
    let size = StreamSize { rows, parts };
    Some(Declaration::Stream { name, size })
}

fn column_record<'a>(name: &'a [u8], column: &'a [u8], distinct: &[u8]) -> Option<Declaration<'a>>
    ensures { option_map told result ≡ spec.column_record name.entry.now column.entry.now (spec.count spec.max_count distinct.now) }
{
    let distinct = count(distinct, MAX_COUNT)?;
    Some(Declaration::Column {
        name,
        column,
        distinct,
    })
}

/// The number from 1 to `most` that the digits write, no zero in front.
fn count(text: &[u8], most: u64) -> Option<u64>
    requires { most < 2 ^ 63 }
    ensures exact { result ≡ spec.count most text.now }
    ensures within { IfSome result (λ n. n ≤ most) }
{
    match text {
        [b'0', ..] => None,
        _ => number_under(text, most + 1),
    }
}
