// Which values a column takes.
ghost use Rattle.std.specs.Prelude.{◌↔◌, IsTrue, FitsSigned};
ghost use Rattle.std.specs.Int.{w32};
ghost use Rattle.scope_value.specs.Fits.{Fits};

use crate::schema::ColType;
use crate::value::Value;

/// Whether the value is null, or of the type and in its range. A partial sum is of no type.
pub fn fits(value: &Value, kind: ColType) -> bool
    ensures { IsTrue result ↔ Fits kind value.now }
{
    match value {
        Value::Null => true,
        Value::Bool(_) => matches!(kind, ColType::Bool),
        Value::Int(number) => is_number_of(*number, kind),
        Value::Bytes(_) => matches!(kind, ColType::Text),
        Value::Wide(_) => false,
    }
}

// Whether a number is of the type: every number of 64 bits is a `long`.
fn is_number_of(number: i64, kind: ColType) -> bool
    ensures { IsTrue result ↔ Fits kind (Value.Int number) }
{
    match kind {
        ColType::Int => i32::try_from(number).is_ok(),
        ColType::Long => true,
        ColType::Text | ColType::Bool => false,
    }
}
