// What the Dag says of a stream.
ghost use Rattle.std.specs.Prelude.{◌≡◌, ℕ, length, get_or, All, IfOk};
ghost use Rattle.col_sets.specs.Keys.{IsBelow};
ghost use Rattle.script_meaning.specs.Dag.{declared};
ghost use Rattle.script_meaning.specs.Part.{stored_at};
ghost use Rattle.script_meaning.specs.Placed.{IsStoredBelow};
ghost use Rattle.script_meaning.specs.Within.{IsStoredFew};

use crate::keys::{key_in, order_in};
use col_sets::ColId;
use logical_dag::{ScanDecl, Stored};
use names_in_sight::copies::copied_cells;
use placed_trees::{StoredPlaces, Stream};
use std::alloc::{AllocError, Global};

/// How rows are stored, by place, in the columns at these places. Each of its lists has one to four places, and they are there.
pub fn stored_in(cols: &[ColId], stored: &Option<StoredPlaces>) -> Option<Stored>
    requires few { IsStoredFew stored.now }
    requires there { IsStoredBelow (length cols.now) stored.now }
    requires columns { All IsBelow cols.now }
    ensures { result ≡ stored_at (λ p. get_or cols.now p 128) stored.now }
{
    match stored {
        Some(places) => Some(Stored {
            hash: key_in(cols, places.hash.as_slice()),
            sorted: order_in(cols, &places.sorted),
        }),
        None => None,
    }
}

/// The scan of a stream, with its declaration in the columns of its node, which has one for each column of the stream. An error is
/// want of memory.
pub fn declared_scan(alloc: Global, stream: &Stream, cols: &[ColId]) -> Result<ScanDecl, AllocError>
    requires few { IsStoredFew stream.now.stored }
    requires there { IsStoredBelow (length cols.now) stream.now.stored }
    requires columns { All IsBelow cols.now }
    ensures { IfOk result (λ d. d ≡ declared stream.now cols.now) }
{
    let stored = stored_in(cols, &stream.stored);
    let name = stream.name.copy()?;
    let args = copied_cells(alloc, stream.args.as_slice())?;
    let schema = stream.schema.copy()?;
    Ok(ScanDecl {
        stream: name,
        op: stream.op,
        args,
        schema,
        stored,
    })
}
