// The reading of the words.
ghost use Rattle.std.specs.Prelude.{◌≡◌, IfOk, map, option_map};
ghost use Rattle.std.specs.String.{string_bytes};
ghost use Rattle.scope_words.specs.Words.{reading_of, reading_of_texts};
ghost use Rattle.scope_words.specs.Views.{text_of, view};
ghost use Rattle.scope_words.specs.Examples.{KnownLines};

use crate::found::found;
use std::alloc::{AllocError, Global};

/// A command line that is taken: the name of the script that is to be run, and of the file of sizes, if one is given.
#[derive(Clone, Copy, Debug)]
pub struct Reading<'a> {
    pub script: &'a str,
    pub sizes: Option<&'a str>,
}

#[tactic(auto, unfolding(crate::specs::Words::reading_of_texts))]
fn from_texts<'a>(
    command: Option<&'a str>,
    script: Option<&'a str>,
    sizes: Option<&'a str>,
) -> Option<Reading<'a>>
    ensures { option_map view result ≡ reading_of_texts (text_of command.entry) (text_of script.entry) (text_of sizes.entry) }
{
    let command = command?;
    let script = script?;
    if command == "run" {
        Some(Reading { script, sizes })
    } else {
        None
    }
}

/// The reading of the words, where they have one. `words[0]` is the program's own name, and isn't looked at. An error is want of memory.
pub fn read<'a>(alloc: Global, words: &'a [String]) -> Result<Option<Reading<'a>>, AllocError>
    ensures { IfOk result (λ o. option_map view o ≡ reading_of (map string_bytes words.entry.now)) }
{
    let Some(matches) = found(alloc, words)? else {
        return Ok(None);
    };
    Ok(from_texts(
        matches.get_str("COMMAND"),
        matches.get_str("SCRIPT"),
        matches.get_str("sizes"),
    ))
}

/// What some command lines read as, and that others have no reading.
pub fn known_lines()
    ensures { KnownLines }
{}
