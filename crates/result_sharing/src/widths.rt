// How many columns results have.
ghost use Rattle.std.specs.Prelude.{◌≡◌, map, length, IfOk};
ghost use Rattle.script_meaning.specs.Bound.{parts_of};
ghost use Rattle.script_meaning.specs.Part.{Part};
ghost use Rattle.result_sharing.specs.Steps.{width_at, width_in};

use crate::finding::input_at;
use placed_trees::{Command, Statement};
use source_laws::laws::stands_law;
use std::alloc::{AllocError, Global};

// The width of an earlier result, and none where it isn't there.
fn earlier_width(widths: &[usize], number: Option<usize>) -> usize
    ensures { result ≡ width_at widths.now number }
{
    match number {
        Some(k) => match widths.get(k) {
            Some(width) => *width,
            None => 0,
        },
        None => 0,
    }
}

// How many columns the result of a command has, after statements of these widths; those of an OUTPUT are those that it writes.
fn width_of(earlier: &[Statement], widths: &[usize], command: &Command) -> usize
    ensures { result ≡ width_in earlier.now widths.now command.now }
{
    match command {
        Command::Extract(stream) => stream.schema.len(),
        Command::Select(query) => query.items.len(),
        Command::Process(_, call) => call.output.len(),
        Command::Reduce { call, .. } => call.output.len(),
        Command::Combine { call, .. } => call.output.len(),
        Command::Output(written) => earlier_width(
            widths,
            input_at(earlier, written.source.as_ref()),
        ),
    }
}

/// How many columns the result of each statement has. An error is want of memory.
pub(crate) fn widths_of(alloc: Global, script: &[Statement]) -> Result<Vec<usize>, AllocError>
    ensures { IfOk result (λ v. v.items ≡ map (λ (p : Part). length p.cols) (parts_of script.now)) }
{
    stands_law();
    let mut widths = Vec::new(alloc);
    for (at, statement) in script.iter().enumerate() {
        let width = width_of(&script[..at], widths.as_slice(), &statement.command);
        widths.push(width)?;
    }
    Ok(widths)
}
