// What clap finds in the words.
ghost use Rattle.std.specs.Prelude.{◌≡◌, IfNone, IfOk, IfSome, false, map, true};
ghost use Rattle.std.specs.String.{string_bytes};
ghost use Rattle.clap.specs.Words.{app_of, found_of, rows_of, rule_of};
ghost use Rattle.scope_words.specs.Words.{option_rule, rows_of_words, scope_app, takes_words, word_rule};

use clap::error::ErrorKind;
use clap::{Arg, ArgAction, ArgMatches, Command};
use std::alloc::{AllocError, Global};

fn word<'a>(alloc: Global, name: &'a str) -> Arg<'a>
    ensures rule { rule_of result ≡ word_rule name.now }
    ensures local { result.global ≡ false }
{
    Arg::new(alloc, name).required(true).action(ArgAction::Set)
}

fn option<'a>(alloc: Global, name: &'a str) -> Arg<'a>
    ensures rule { rule_of result ≡ option_rule name.now }
    ensures local { result.global ≡ false }
{
    Arg::new(alloc, name).long(name).action(ArgAction::Set)
}

fn scope_command<'a>(alloc: Global) -> Result<Command<'a>, AllocError>
    ensures { IfOk result (λ c. app_of c ≡ scope_app) }
{
    Command::new(alloc, "scope")
        .disable_help_flag(true)
        .disable_version_flag(true)
        .arg(word(alloc, "COMMAND"))?
        .arg(word(alloc, "SCRIPT"))?
        .arg(option(alloc, "sizes"))
}

// What clap finds, where its definition takes the words, and nothing elsewhere.
pub(crate) fn found<'a>(
    alloc: Global,
    words: &'a [String],
) -> Result<Option<ArgMatches<'a>>, AllocError>
    ensures taken { IfOk result (λ o. IfSome o (λ m. (takes_words (map string_bytes words.entry.now) ≡ true)
        × (rows_of (found_of m) ≡ rows_of_words (map string_bytes words.entry.now)))) }
    ensures refused { IfOk result (λ o. IfNone o (takes_words (map string_bytes words.entry.now) ≡ false)) }
{
    let command = scope_command(alloc)?;
    match command.try_get_matches_from(words) {
        Ok(matches) => Ok(Some(matches)),
        Err(error) => match error.kind() {
            ErrorKind::OutOfMemory => Err(AllocError),
            _ => Ok(None),
        },
    }
}
