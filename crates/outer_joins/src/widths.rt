// The args of a combiner of outer joins: two numbers in decimal digits.
ghost use Rattle.std.specs.Prelude.{◌≡◌};
ghost use Rattle.outer_joins.specs.Widths.{width, widths, are_widths};

use itoa::Buffer;
use scope_value::Cell;

// The number that a text writes as decimal digits without leading zeros.
fn width_in(text: &str) -> Option<usize>
    ensures { result ≡ width text.now }
{
    match text.parse::<usize>() {
        Ok(number) => {
            // A sign and leading zeros are read too, and never written.
            if Buffer::new().format(number) == text {
                Some(number)
            } else {
                None
            }
        }
        Err(_) => None,
    }
}

fn width_of(arg: &[u8]) -> Option<usize>
    ensures { result ≡ width arg.now }
{
    match str::from_utf8(arg) {
        Ok(text) => width_in(text),
        Err(_) => None,
    }
}

/// The two numbers that the args name.
pub(crate) fn widths_of(args: &[Cell]) -> Option<(usize, usize)>
    ensures { result ≡ widths args.now }
{
    match args {
        [left, right] => Some((width_of(left.as_slice())?, width_of(right.as_slice())?)),
        _ => None,
    }
}

/// Whether the args are the numbers of left and right columns.
pub(crate) fn has_widths(args: &[Cell], left: usize, right: usize) -> bool
    ensures { result ≡ are_widths left right (widths args.now) }
{
    match widths_of(args) {
        Some((first, second)) => first == left && second == right,
        None => false,
    }
}
