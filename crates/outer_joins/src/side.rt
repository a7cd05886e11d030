// Which rows without a partner are kept.
ghost use Rattle.std.specs.Prelude.{◌≡◌};
ghost use Rattle.outer_joins.specs.OuterPairs as spec;

/// Which rows without a partner an outer join keeps: those of the left, those of the right, or both.
#[derive(Clone, Copy)]
pub enum Side {
    Left,
    Right,
    Full,
}

impl Side {
    // Whether left rows are kept also without a partner.
    pub(crate) fn keeps_left(self) -> bool
        ensures { result ≡ spec.keeps_left self }
    {
        matches!(self, Side::Left | Side::Full)
    }

    // Whether right rows are kept also without a partner.
    pub(crate) fn keeps_right(self) -> bool
        ensures { result ≡ spec.keeps_right self }
    {
        matches!(self, Side::Right | Side::Full)
    }
}
