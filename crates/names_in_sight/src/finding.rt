// Operators found by their names, without their boxes.
ghost use Rattle.std.specs.Prelude.{◌≡◌, [], IfOk};
ghost use Rattle.std.specs.Option.{option_map_or};
ghost use Rattle.names_in_sight.specs.Operators as spec;

use scope_value::Schema;
use std::alloc::{AllocError, Global};
use user_ops::{Extractor, OpSet, Tells};

/// Finds operators by their names. What is proved over this speaks of names and of what operators tell, and of no box.
pub trait Finds: Tells {
    /// The place of the extractor of that name, and the first where it isn't there. An error says that the place has no 32 bits.
    fn extractor_op(&self, name: &[u8]) -> Result<u32, AllocError>
        ensures { IfOk result (λ op. op ≡ spec.op_of (Self.tells self.now).extractor_names name.now) };

    /// The same, of a processor.
    fn processor_op(&self, name: &[u8]) -> Result<u32, AllocError>
        ensures { IfOk result (λ op. op ≡ spec.op_of (Self.tells self.now).processor_names name.now) };

    /// The same, of a reducer.
    fn reducer_op(&self, name: &[u8]) -> Result<u32, AllocError>
        ensures { IfOk result (λ op. op ≡ spec.op_of (Self.tells self.now).reducer_names name.now) };

    /// The same, of a combiner.
    fn combiner_op(&self, name: &[u8]) -> Result<u32, AllocError>
        ensures { IfOk result (λ op. op ≡ spec.op_of (Self.tells self.now).combiner_names name.now) };

    /// The fixed columns of the extractor of that name; none where it has none, or isn't there. An error is want of memory.
    fn columns_inline(&self, alloc: Global, name: &[u8]) -> Result<Schema, AllocError>
        ensures { IfOk result (λ columns. columns ≡ spec.inline_columns (Self.tells self.now) name.now) };
}

impl Finds for OpSet {
    fn extractor_op(&self, name: &[u8]) -> Result<u32, AllocError> {
        op_at(self.find_extractor(name))
    }

    fn processor_op(&self, name: &[u8]) -> Result<u32, AllocError> {
        op_at(self.find_processor(name))
    }

    fn reducer_op(&self, name: &[u8]) -> Result<u32, AllocError> {
        op_at(self.find_reducer(name))
    }

    fn combiner_op(&self, name: &[u8]) -> Result<u32, AllocError> {
        op_at(self.find_combiner(name))
    }

    fn columns_inline(&self, alloc: Global, name: &[u8]) -> Result<Schema, AllocError> {
        match self.find_extractor(name) {
            Some(place) => fixed_of(alloc, self.extractor_at(place)),
            None => Ok(Schema::new(alloc)),
        }
    }
}

// The place that was found, and the first where none was.
fn op_at(found: Option<usize>) -> Result<u32, AllocError>
    ensures { IfOk result (λ op. op ≡ option_map_or (λ p. p) found 0) }
{
    let place = found.unwrap_or(0);
    match u32::try_from(place) {
        Ok(op) => Ok(op),
        Err(_) => Err(AllocError),
    }
}

// The fixed columns of an extractor, and none where it has none.
fn fixed_of(alloc: Global, op: &Box<dyn Extractor>) -> Result<Schema, AllocError>
    ensures { IfOk result (λ columns. columns ≡ option_map_or (λ cs. cs) (told_extractor op.now).fixed_columns []) }
{
    let mut columns = Vec::new(alloc);
    op.fixed(alloc, &mut columns)?;
    Ok(Schema::from_vec(columns))
}
