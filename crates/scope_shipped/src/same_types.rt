// Whether columns have the same types, which most operators ask of the schemas that they take.
ghost use Rattle.std.specs.Prelude.{◌≡◌, ◌++◌};
ghost use Rattle.scope_shipped.specs.SameTypes.{same_type, same_types};

use scope_value::{ColType, Column};

/// Whether the types are one.
pub fn is_same_type(a: ColType, b: ColType) -> bool
    ensures { result ≡ same_type a b }
{
    a == b
}

/// Whether the columns have the same types, place by place.
pub fn has_same_types(a: &[Column], b: &[Column]) -> bool
    ensures { result ≡ same_types a.now b.now }
{
    if a.len() != b.len() {
        return false;
    }
    for at in 0..a.len() {
        if !is_same_type(a[at].kind, b[at].kind) {
            return false;
        }
    }
    true
}

/// Whether the last columns have the types of the first and then those of the second.
pub fn has_types_of_both(first: &[Column], second: &[Column], both: &[Column]) -> bool
    ensures { result ≡ same_types (first.now ++ second.now) both.now }
{
    if both.len() < first.len() {
        return false;
    }
    let (front, back) = both.split_at(first.len());
    has_same_types(first, front) && has_same_types(second, back)
}
