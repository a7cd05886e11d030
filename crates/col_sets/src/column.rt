//! The numbers of columns.
ghost use Rattle.std.specs.Prelude.{◌≡◌, nat_lt};

/// The number of a column, which is below [`MAX_COLUMNS`] in every set and key.
pub type ColId = u32;

/// How many columns there may be at most: their numbers are below this.
pub const MAX_COLUMNS: usize = 128;

/// Whether there may be a column of that number.
pub fn is_column(c: ColId) -> bool
    ensures { result ≡ nat_lt c 128 }
{
    (c as usize) < MAX_COLUMNS
}
