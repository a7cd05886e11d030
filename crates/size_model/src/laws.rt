// What holds of every file, for the proofs above. The function does nothing when it runs.
ghost use Rattle.std.specs.Prelude.{◌≡◌, ℕ, List};
ghost use Rattle.row_codec.specs.Records.{Record};
ghost use Rattle.size_model.specs.Declarations.{Declaration, Declares, IsFirstFault};

/// Records have one reading: they declare at most one list of declarations, have at most one first record outside the
/// form, and not both.
pub fn reading_law()
    ensures declared { (records : List Record) (a b : List Declaration) → Declares records a → Declares records b → a ≡ b }
    ensures fault { (records : List Record) (m n : ℕ) → IsFirstFault records m → IsFirstFault records n → m ≡ n }
    ensures apart { (records : List Record) (declared : List Declaration) (n : ℕ) → Declares records declared → IsFirstFault records n → ⊥ }
{}
