// Which causes lie in what a statement names of columns and of operators.
ghost use Rattle.std.specs.Prelude.{◌≡◌};
ghost use Rattle.binding_causes.specs.Found as spec;

/// Which causes lie in a part of a statement: a list of keys names a column twice; a name is no column in sight; a name is a column of
/// two sources; types don't go together; an operator isn't there; an operator doesn't take what it is handed; a list of keys or an ON
/// is longer than there is room for; a call has more args than that.
#[derive(Clone, Copy)]
pub(crate) struct Found {
    pub is_twice: bool,
    pub is_unknown: bool,
    pub is_ambiguous: bool,
    pub is_mismatched: bool,
    pub is_missing: bool,
    pub is_refused: bool,
    pub has_many_keys: bool,
    pub has_many_args: bool,
}

impl Found {
    /// Nothing.
    pub(crate) fn none() -> Found
        ensures { result ≡ spec.none }
    {
        Found {
            is_twice: false,
            is_unknown: false,
            is_ambiguous: false,
            is_mismatched: false,
            is_missing: false,
            is_refused: false,
            has_many_keys: false,
            has_many_args: false,
        }
    }

    /// Types don't go together, or they do.
    pub(crate) fn mismatch(is_mismatched: bool) -> Found
        ensures { result ≡ record spec.none { is_mismatched = is_mismatched } }
    {
        Found {
            is_mismatched,
            ..Found::none()
        }
    }

    /// What one of both has.
    pub(crate) fn or(self, other: Found) -> Found
        ensures { result ≡ spec.either self other }
    {
        Found {
            is_twice: self.is_twice || other.is_twice,
            is_unknown: self.is_unknown || other.is_unknown,
            is_ambiguous: self.is_ambiguous || other.is_ambiguous,
            is_mismatched: self.is_mismatched || other.is_mismatched,
            is_missing: self.is_missing || other.is_missing,
            is_refused: self.is_refused || other.is_refused,
            has_many_keys: self.has_many_keys || other.has_many_keys,
            has_many_args: self.has_many_args || other.has_many_args,
        }
    }
}
