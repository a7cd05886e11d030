//! Columns by number and by place: what renumbering does to sets, expressions and rows.
//!
//! Definitions and lemmas alone. Where columns keep their ranks under other numbers (`Moved.antt` of scope_expr), expressions, keys and
//! rows read the same values.
#![tactic(auto)]
