//! The tokens of a script.
//!
//! [`lex`] cuts a text into names, keywords, numbers, strings and symbols, or names the first byte at which
//! neither a token nor white space nor a comment begins. The grammar stands in `specs/Begins.antt`, apart from
//! the code, and `specs/Tokens.antt` says what the tokens of a whole text are. [`token_text`], [`is_word`],
//! [`string_value`] and [`number_value`] say what one token's bytes mean, and `laws` holds what is true of every text.
#![tactic(auto)]

mod blank;
mod byte;
pub mod fault;
pub mod kind;
pub mod laws;
pub mod lexing;
pub mod piece;
mod string;
mod symbol;
pub mod token;
pub mod value;
mod word;

pub use fault::LexFault;
pub use kind::TokenKind;
pub use lexing::lex;
pub use token::Token;
pub use value::{number_value, string_value, token_text};
pub use word::is_word;
