// What a command takes rows from.
use placed_trees::Stream;

/// A source of a command: a stream, or the result of a statement, by its number, where it is there.
#[derive(Clone, Copy)]
pub enum Origin<'a> {
    Stream(&'a Stream),
    Result(Option<usize>),
}
