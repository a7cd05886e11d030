//! What holds of every text, for the proofs above. The functions do nothing when they run.
ghost use Rattle.std.specs.Prelude.{All, List, length, ℕ};
ghost use Rattle.scope_lexer.specs.Laws.{HasNoTwoReadings, HasReading};
ghost use Rattle.scope_lexer.specs.Tokens.{AreInOrder, IsLexed, IsTokenOf};
ghost use Rattle.scope_lexer.specs.declared.token.Token.{Token};

/// Each text has one reading: tokens, or the place at fault.
pub fn one_reading()
    ensures some { (text : List ℕ) → HasReading text }
    ensures one { (text : List ℕ) → HasNoTwoReadings text }
{}

/// The tokens of a text stand in it, one behind another, and each is a token on its own too.
pub fn tokens_stand()
    ensures order { (text : List ℕ) (tokens : List Token) → IsLexed text tokens → AreInOrder 0 (length text) tokens }
    ensures each { (text : List ℕ) (tokens : List Token) → IsLexed text tokens → All (IsTokenOf text) tokens }
{}
