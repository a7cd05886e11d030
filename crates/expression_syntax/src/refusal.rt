// Why the parser stops.
use std::alloc::AllocError;

/// Why no production was read.
#[derive(Clone, Copy, PartialEq, Eq)]
pub enum Refusal {
    /// Memory ran out.
    Memory,
    /// What is ahead is outside the grammar.
    Grammar,
}

impl From<AllocError> for Refusal {
    ghost use Rattle.std.specs.Prelude.{◌≡◌};
    ghost use Rattle.expression_syntax.specs.declared.refusal.Refusal.TheVariants.{Memory};

    ghost from_gives = { λ _ e. e ≡ Memory };

    fn from(_: AllocError) -> Refusal {
        Refusal::Memory
    }
}
