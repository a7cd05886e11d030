// How a call of the program ended.
use binding_causes::BindFault;
use scope_lexer::LexFault;
use scope_syntax::SyntaxFault;
use scope_value::Cell;
use size_model::SizesFault;

/// Where a script leaves the language.
#[derive(Clone, Copy)]
pub enum ScriptPlace {
    /// The first byte at which nothing begins.
    Lex(LexFault),
    /// The first statement outside the grammar.
    Syntax(SyntaxFault),
}

/// How a call ended, with the name of the stream that it ended at.
#[derive(Drop)]
pub enum Status {
    /// All was done.
    Done,
    /// Memory was refused.
    NoMemory,
    /// The store failed to read the stream.
    ReadFault(Cell),
    /// The store has no such stream.
    NoStream(Cell),
    /// The script is not UTF-8.
    NotText,
    /// The script is outside the language.
    ScriptFault(ScriptPlace),
    /// The script binds to nothing.
    BindFault(BindFault),
    /// A record of the file of sizes is outside its form.
    SizesFault(SizesFault),
    /// The extractor refused a record: the first it refuses, counted from 1, in that part, counted from 0.
    RowFault { name: Cell, part: u32, at: u64 },
    /// The store failed to write the stream.
    WriteFault(Cell),
    /// The words have no reading, or the script declares how a stream is stored, which doesn't run yet.
    NotBuilt,
}
