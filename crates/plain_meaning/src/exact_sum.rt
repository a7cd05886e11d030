// Exact sums of values. A sum of partial sums may be beyond the 128 bits that each of them has.
ghost use Rattle.std.specs.Prelude.{◌≡◌, ◌≤ℤ◌, ◌<ℤ◌, ◌+ℤ◌, ◌-ℤ◌, ◌^◌, pos, neg_ℤ};
ghost use Rattle.scope_expr.specs.Value.{in_range};
ghost use Rattle.logical_trees.specs.Rows.{total};
ghost use Rattle.plain_meaning.specs.Sums.{sum_of};
ghost use Rattle.scope_value.specs.Order as order;

use scope_value::Value;

/// The sum `low + turns * 2^128`. A sum of 128 bits has no turns.
#[derive(Clone, Copy)]
pub(crate) struct ExactSum {
    low: i128,
    turns: i128,
}

// A sum below 128 bits, 2^128 more.
fn sum_from_below(a: i128, b: i128) -> i128
    requires { (a +ℤ b) <ℤ neg_ℤ (pos (2 ^ 127)) }
    ensures { result ≡ (a +ℤ b) +ℤ pos (2 ^ 128) }
{
    let a = a - i128::MIN;
    let b = b - i128::MIN;
    a + b
}

// A sum above 128 bits, 2^128 less.
fn sum_from_above(a: i128, b: i128) -> i128
    requires { pos (2 ^ 127) ≤ℤ (a +ℤ b) }
    ensures { result ≡ (a +ℤ b) -ℤ pos (2 ^ 128) }
{
    let a = a + i128::MIN;
    let b = b + i128::MIN;
    a + b
}

impl ExactSum {
    // With one number more. Fewer than 2^64 numbers are ever added, and each makes at most one turn.
    fn plus(self, n: i128) -> ExactSum
        requires low { neg_ℤ (pos (2 ^ 64)) ≤ℤ self.turns }
        requires high { self.turns ≤ℤ pos (2 ^ 64) }
        ensures value { sum_of result ≡ sum_of self +ℤ n }
        ensures falls { self.turns ≤ℤ (result.turns +ℤ pos 1) }
        ensures rises { result.turns ≤ℤ (self.turns +ℤ pos 1) }
    {
        match self.low.checked_add(n) {
            Some(low) => ExactSum {
                low,
                turns: self.turns,
            },
            None if n < 0 => ExactSum {
                low: sum_from_below(self.low, n),
                turns: self.turns - 1,
            },
            None => ExactSum {
                low: sum_from_above(self.low, n),
                turns: self.turns + 1,
            },
        }
    }

    /// The sum, where it has 64 bits.
    pub(crate) fn long(self) -> Option<i64>
        ensures { result ≡ in_range (sum_of self) }
    {
        if self.turns == 0 {
            i64::try_from(self.low).ok()
        } else {
            None
        }
    }
}

/// What a number or a partial sum is, 0 for other values.
pub(crate) fn number(value: &Value) -> i128
    ensures { result ≡ order.number value.now }
{
    match value {
        Value::Int(n) => i128::from(*n),
        Value::Wide(n) => *n,
        _ => 0,
    }
}

/// The sum of the numbers and partial sums among some values.
pub(crate) fn total(values: &[Value]) -> ExactSum
    ensures { sum_of result ≡ total values.now }
{
    let mut sum = ExactSum { low: 0, turns: 0 };
    for value in values {
        sum = sum.plus(number(value));
    }
    sum
}
