//! The grammar of what stands in statements: from tokens to terminals, and from terminals to expressions, columns,
//! sources, operators, items, and lists of them.
//!
//! `specs/Expressions.antt` and `specs/Parts.antt` say which terminals spell which tree, production by production;
//! [`Terminal`] is what the grammar is made of. [`Parser`] has a method for each production.
#![tactic(auto)]

mod expression;
mod input;
mod keyword;
mod level;
mod list;
mod listed;
mod parser;
mod reference;
mod refusal;
mod symbol;
mod tables;
mod terminal;
mod terminals;
mod weak_keyword;

pub use keyword::Keyword;
pub use level::{Level, Place};
pub use list::Element;
pub use parser::{Parser, beside};
pub use refusal::Refusal;
pub use symbol::Symbol;
pub use tables::written_law;
pub use terminal::Terminal;
pub use terminals::{strings, terminals_of};
pub use weak_keyword::WeakKeyword;
