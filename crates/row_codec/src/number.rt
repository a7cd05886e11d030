// Numbers as fields write them: a sign or none, and decimal digits of any count. std's `parse` reads them.
ghost use Rattle.std.specs.Prelude.{◌≡◌, ◌^◌};
ghost use Rattle.std.specs.Char.{is_ascii_digit};
ghost use Rattle.std.specs.List.{list_all};
ghost use Rattle.row_codec.specs.Numbers.{number_below, signed_number};

fn are_digits(text: &[u8]) -> bool
    ensures { result ≡ list_all is_ascii_digit text.now }
{
    text.iter().all(|byte| byte.is_ascii_digit())
}

// The number that decimal digits write, where it has at most 64 bits.
fn number_of(text: &[u8]) -> Option<u64>
    ensures { result ≡ number_below (2 ^ 64) text.now }
{
    // `parse` would take a plus too.
    if !are_digits(text) {
        return None;
    }
    match str::from_utf8(text) {
        Ok(digits) => digits.parse::<u64>().ok(),
        Err(_) => None,
    }
}

/// The number that decimal digits, of any count and with zeros in front or not, write, where it is below a bound.
pub fn number_under(text: &[u8], bound: u64) -> Option<u64>
    ensures { result ≡ number_below bound text.now }
{
    match number_of(text) {
        Some(n) if n < bound => Some(n),
        _ => None,
    }
}

/// The number that a sign or none, and then digits, write, where it is signed and of 32 bits.
pub(crate) fn int_of(text: &[u8]) -> Option<i32>
    ensures { result ≡ signed_number (2 ^ 31) text.now }
{
    match str::from_utf8(text) {
        Ok(number) => number.parse::<i32>().ok(),
        Err(_) => None,
    }
}

/// The same, where it is of 64 bits.
pub(crate) fn long_of(text: &[u8]) -> Option<i64>
    ensures { result ≡ signed_number (2 ^ 63) text.now }
{
    match str::from_utf8(text) {
        Ok(number) => number.parse::<i64>().ok(),
        Err(_) => None,
    }
}
