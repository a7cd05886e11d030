// Streams that are written twice.
ghost use Rattle.std.specs.Prelude.{◌≡◌};
ghost use Rattle.std.specs.List.{list_any, list_all};
ghost use Rattle.binding_causes.specs.Names as spec;

use scope_value::Cell;
use script_trees::{Command, Statement};

fn is_digit(c: u8) -> bool
    ensures { result ≡ spec.is_digit c }
{
    48 <= c && c < 58
}

fn are_digits(bytes: &[u8]) -> bool
    ensures { result ≡ list_all spec.is_digit bytes.now }
{
    bytes.iter().all(|c| is_digit(*c))
}

fn is_part_number(bytes: &[u8]) -> bool
    ensures { result ≡ spec.is_part_number bytes.now }
{
    match bytes {
        [] => false,
        [dot, digits @ ..] => {
            *dot == b'.' && 1 <= digits.len() && digits.len() <= 2 && are_digits(digits)
        }
    }
}

fn is_part_name(name: &Cell, other: &Cell) -> bool
    ensures { result ≡ spec.is_part_name name.now other.now }
{
    let name = name.as_slice();
    let other = other.as_slice();
    let at = name.len().min(other.len());
    &other[..at] == name && is_part_number(&other[at..])
}

fn clash(a: &Cell, is_a_stored: bool, b: &Cell, is_b_stored: bool) -> bool
    ensures { result ≡ spec.clash a.now is_a_stored b.now is_b_stored }
{
    a == b || is_a_stored && is_part_name(a, b) || is_b_stored && is_part_name(b, a)
}

fn clashes_with(stream: &Cell, is_stored: bool, command: &Command) -> bool
    ensures { result ≡ spec.clashes_with stream.now is_stored command.now }
{
    match command {
        Command::Output {
            stream: other,
            stored,
            ..
        } => { clash(other, stored.is_some(), stream, is_stored) }
        _ => false,
    }
}

fn is_one_written(earlier: &[Statement], stream: &Cell, is_stored: bool) -> bool
    ensures { result ≡ list_any (λ s. spec.clashes_with stream.now is_stored s.command) earlier.now }
{
    earlier
        .iter()
        .any(|s| clashes_with(stream, is_stored, &s.command))
}

/// Whether an OUTPUT writes the stream of an earlier one, or a part of a stored one.
pub(crate) fn is_written_before(earlier: &[Statement], command: &Command) -> bool
    ensures { result ≡ spec.is_written_before earlier.now command.now }
{
    match command {
        Command::Output { stream, stored, .. } => is_one_written(earlier, stream, stored.is_some()),
        _ => false,
    }
}
