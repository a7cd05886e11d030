// The scans of a script, read in turn.
ghost use Rattle.std.specs.Prelude.{◌≡◌, ◌<◌, IfOk, IfErr, All, length};
ghost use Rattle.scope_outside.specs.State.{OnFiles};
ghost use Rattle.size_model.specs.Answers.{parts_of};
ghost use Rattle.scope_streams.specs.Ends.{ReadEnds, AreScanned, bags_of};

use crate::parts::read_parts;
use crate::stops::ReadStop;
use logical_dag::ScanDecl;
use scope_outside::Store;
use scope_value::Row;
use size_model::Sizes;
use std::alloc::Global;
use user_ops::{OpSet, Tells};

/// The rows of each scan, in the order of the scans: those of its parts, one behind the other. Each part is decoded before the next is read.
///
/// A stream of which the sizes declare one part has its own name in the store, and the parts of another one are NAME.0, NAME.1 and so on.
/// Where all were read the store is as before. Else no file has changed.
pub fn read_scans<S: Store>(
    alloc: Global,
    store: &mut S,
    ops: &OpSet,
    sizes: &Sizes,
    scans: &[ScanDecl],
) -> Result<Vec<Vec<Row>>, ReadStop>
    requires { All (λ d. d.op < length (⟦<OpSet as Tells>⟧.tells ops.now).extractors) scans.now }
    ensures ok { IfOk result (λ bags. (S.told store.new ≡ S.told store.old)
        × OnFiles (S.told store.old) (λ files. AreScanned (⟦<OpSet as Tells>⟧.tells ops.now) (parts_of sizes.now) scans.now files (bags_of bags.items))) }
    ensures err { IfErr result (ReadEnds (⟦<OpSet as Tells>⟧.tells ops.now) (parts_of sizes.now) scans.now (S.told store.old) (S.told store.new)) }
{
    let mut bags = Vec::new(alloc);
    for scan in scans {
        let parts = sizes.parts(scan.stream.as_slice());
        let rows = match read_parts(alloc, store, ops, scan, parts) {
            Ok(rows) => rows,
            Err(stop) => return Err(stop),
        };
        let Ok(()) = bags.push(rows) else {
            return Err(ReadStop::NoMemory);
        };
    }
    Ok(bags)
}
