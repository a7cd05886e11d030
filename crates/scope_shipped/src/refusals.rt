// What an extractor added before it came to a field that it refuses.
ghost use Rattle.std.specs.Prelude.{◌≡◌, false, take, if◌then◌else◌};
ghost use Rattle.std.specs.Result.{result_unwrap_or};

use scope_value::Value;
use std::alloc::AllocError;

/// Takes back what was added after the first `held` values, unless the row was read whole.
pub fn keep_if_taken(
    taken: Result<bool, AllocError>,
    held: usize,
    out: &mut Vec<Value>,
) -> Result<bool, AllocError>
    ensures same { result ≡ taken }
    ensures kept { out.new.items
        ≡ (if result_unwrap_or taken false then out.old.items else take held out.old.items) }
{
    match taken {
        Ok(true) => Ok(true),
        other => {
            out.truncate(held);
            other
        }
    }
}
