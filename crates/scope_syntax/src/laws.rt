// What holds of every text, for the proofs above. The functions do nothing when they run.
ghost use Rattle.std.specs.Prelude.{◌≡◌, ◌≤◌, ◌^◌, All, List, length, ℕ};
ghost use Rattle.script_trees.specs.declared.script.Script.{Script};
ghost use Rattle.script_trees.specs.declared.script.Statement.{Statement};
ghost use Rattle.expression_syntax.specs.Lexemes.{Lexeme};
ghost use Rattle.scope_syntax.specs.Statements.{IsFirstFault, SpellsScript, SpellsStatement};
ghost use Rattle.scope_syntax.specs.Written.{IsRight, IsWritten};

/// The grammar is unambiguous: lexemes spell at most one statement and at most one script, have at most one first
/// statement outside the grammar, and not both a script and such a statement. There are no more lexemes than aggregates
/// can be numbered; the tokens of a text are fewer.
pub fn spelling_law()
    ensures statement { (ts : List Lexeme) (a b : Statement) → length ts ≤ 2 ^ 32 → SpellsStatement ts a → SpellsStatement ts b → a ≡ b }
    ensures script { (ts : List Lexeme) (a b : Script) → length ts ≤ 2 ^ 32 → SpellsScript ts a → SpellsScript ts b → a ≡ b }
    ensures fault { (ts : List Lexeme) (m n : ℕ) → IsFirstFault ts m → IsFirstFault ts n → m ≡ n }
    ensures apart { (ts : List Lexeme) (s : Script) (n : ℕ) → SpellsScript ts s → IsFirstFault ts n → ⊥ }
{}

/// In a script that `parse` can give, each list that the grammar asks for has something in it, the first source of a
/// SELECT has no equalities and each later one some, and no output is named.
pub fn written_law()
    ensures { (s : Script) → IsWritten s → All IsRight s.statements }
{}
