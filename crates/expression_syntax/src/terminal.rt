// What the grammar is made of.
use crate::keyword::Keyword;
use crate::symbol::Symbol;

/// A token without its place. Names keep their bytes, numbers their digits as written and their value, and strings
/// their bytes as written, between the quotes and with the escapes.
#[derive(Clone, Copy)]
pub enum Terminal<'a> {
    Keyword(Keyword),
    Symbol(Symbol),
    Name(&'a [u8]),
    Number(&'a [u8], i64),
    Text(&'a [u8]),
}
