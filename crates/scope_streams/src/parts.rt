// The parts of the stream of a scan, read in turn.
ghost use Rattle.std.specs.Prelude.{◌≡◌, ◌<◌, [], ◌∷◌, IfOk, IfErr, Ok, Some, length};
ghost use Rattle.scope_outside.specs.State.{OnFiles};
ghost use Rattle.row_codec.specs.Rows.{Answers};
ghost use Rattle.scope_streams.specs.Parts as spec;
ghost use Rattle.scope_streams.specs.Parts.{told_rows, part_rows};
ghost use Rattle.scope_streams.specs.Turns.{stream_part, first_parts, AreRead, EndsIn, IsRefusal};

use crate::files::read_file;
use crate::stops::ReadStop;
use itoa::Buffer;
use logical_dag::ScanDecl;
use row_codec::{RowFault, read_part};
use scope_outside::Store;
use scope_value::Row;
use std::alloc::{AllocError, Global};
use user_ops::{Extractor, OpSet, Tells};

// The name in the store of a part of a stream that has so many.
fn part_name(alloc: Global, stream: &[u8], parts: u32, part: u32) -> Result<Vec<u8>, AllocError>
    ensures { IfOk result (λ name. name.items ≡ spec.part_name stream.now parts part) }
{
    let mut name = Vec::from_slice(alloc, stream)?;
    if parts != 1 {
        let mut number = Buffer::new();
        name.extend_from_slice(b".")?;
        name.extend_from_slice(number.format(u64::from(part)).as_bytes())?;
    }
    Ok(name)
}

// The rows of a part's bytes, or the first record that the extractor refuses.
fn rows_of(
    alloc: Global,
    op: &Box<dyn Extractor>,
    scan: &ScanDecl,
    bytes: &[u8],
) -> Result<Result<Vec<Row>, RowFault>, AllocError>
    ensures { IfOk result (λ r. Answers (λ v. v.items) (λ f. f.at) r (told_rows (Some (told_extractor op.now)) scan.now bytes.now)) }
{
    read_part(alloc, bytes, &**op, scan.args.as_slice(), &scan.schema)
}

// The same, with the refusal as a stop.
fn decoded(
    alloc: Global,
    op: &Box<dyn Extractor>,
    scan: &ScanDecl,
    part: u32,
    bytes: &[u8],
) -> Result<Vec<Row>, ReadStop>
    ensures ok { IfOk result (λ rows. told_rows (Some (told_extractor op.now)) scan.now bytes.now ≡ Ok rows.items) }
    ensures err { IfErr result (IsRefusal (Some (told_extractor op.now)) scan.now part bytes.now) }
{
    match rows_of(alloc, op, scan, bytes) {
        Ok(Ok(rows)) => Ok(rows),
        Ok(Err(fault)) => match scan.stream.copy() {
            Ok(name) => Err(ReadStop::Refused {
                name,
                part,
                at: fault.at,
            }),
            Err(AllocError) => Err(ReadStop::NoMemory),
        },
        Err(AllocError) => Err(ReadStop::NoMemory),
    }
}

// The rows of one part.
fn read_one<S: Store>(
    alloc: Global,
    store: &mut S,
    ops: &OpSet,
    scan: &ScanDecl,
    parts: u32,
    part: u32,
) -> Result<Vec<Row>, ReadStop>
    requires { scan.now.op < length (⟦<OpSet as Tells>⟧.tells ops.now).extractors }
    ensures ok { IfOk result (λ rows. (S.told store.new ≡ S.told store.old)
        × OnFiles (S.told store.old) (λ files. part_rows (⟦<OpSet as Tells>⟧.tells ops.now) files (stream_part scan.now parts part) ≡ Ok rows.items)) }
    ensures err { IfErr result (EndsIn (⟦<OpSet as Tells>⟧.tells ops.now) (stream_part scan.now parts part ∷ []) (S.told store.old) (S.told store.new)) }
{
    let Ok(name) = part_name(alloc, scan.stream.as_slice(), parts, part) else {
        return Err(ReadStop::NoMemory);
    };
    match read_file(alloc, store, name.as_slice()) {
        Ok(bytes) => {
            let op = ops.extractor_at(scan.op as usize);
            decoded(alloc, op, scan, part, bytes.as_slice())
        }
        Err(stop) => Err(stop),
    }
}

/// The rows of the parts of a scan, one behind the other, where its stream has so many.
pub(crate) fn read_parts<S: Store>(
    alloc: Global,
    store: &mut S,
    ops: &OpSet,
    scan: &ScanDecl,
    parts: u32,
) -> Result<Vec<Row>, ReadStop>
    requires { scan.now.op < length (⟦<OpSet as Tells>⟧.tells ops.now).extractors }
    ensures ok { IfOk result (λ rows. (S.told store.new ≡ S.told store.old)
        × OnFiles (S.told store.old) (λ files. AreRead (⟦<OpSet as Tells>⟧.tells ops.now) files (first_parts scan.now parts parts) rows.items)) }
    ensures err { IfErr result (EndsIn (⟦<OpSet as Tells>⟧.tells ops.now) (first_parts scan.now parts parts) (S.told store.old) (S.told store.new)) }
{
    let mut rows = Vec::new(alloc);
    for part in 0..parts {
        let mut more = match read_one(alloc, store, ops, scan, parts, part) {
            Ok(more) => more,
            Err(stop) => return Err(stop),
        };
        let Ok(()) = rows.append(&mut more) else {
            return Err(ReadStop::NoMemory);
        };
    }
    Ok(rows)
}
