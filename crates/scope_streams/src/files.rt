// One file of a store.
ghost use Rattle.std.specs.Prelude.{◌≡◌, IfOk, IfErr, Some};
ghost use Rattle.std.specs.FinMap as map;
ghost use Rattle.scope_outside.specs.State.{OnFiles};
ghost use Rattle.scope_streams.specs.Ends.{FileEnds};

use crate::stops::ReadStop;
use scope_outside::{ReadAnswer, Store};
use scope_value::Cell;
use std::alloc::Global;

/// The bytes of a name, or why it wasn't read.
///
/// Where it was read the store is as before. Else no file has changed.
pub fn read_file<S: Store>(alloc: Global, store: &mut S, name: &[u8]) -> Result<Vec<u8>, ReadStop>
    ensures ok { IfOk result (λ v. (S.told store.new ≡ S.told store.old) × OnFiles (S.told store.old) (λ files. map.get files name.now ≡ Some v.items)) }
    ensures err { IfErr result (FileEnds name.now (S.told store.old) (S.told store.new)) }
{
    // The name is copied before the read, so that want of memory for it leaves the store as it was.
    let Ok(kept_name) = Cell::from_slice(alloc, name) else {
        return Err(ReadStop::NoMemory);
    };
    let mut bytes = Vec::new(alloc);
    match store.read(name, &mut bytes) {
        ReadAnswer::Done => Ok(bytes),
        ReadAnswer::Missing => Err(ReadStop::Missing(kept_name)),
        ReadAnswer::Failed => Err(ReadStop::Failed(kept_name)),
        ReadAnswer::NoMemory => Err(ReadStop::NoMemory),
    }
}
