// Each mention of a result.
ghost use Rattle.std.specs.Prelude.{◌≡◌, [], ◌++◌, map, flat_map, IfOk, OnOk};
ghost use Rattle.script_meaning.specs.Bound as bound;
ghost use Rattle.result_sharing.specs.Origins.{sources_of, mention_of, source_now};

use crate::origin::Origin;
use crate::origins::origins_of;
use placed_trees::Statement;
use std::alloc::{AllocError, Global};

fn push_mention(origin: Origin, mentions: &mut Vec<usize>) -> Result<(), AllocError>
    ensures { OnOk result (mentions.new.items ≡ mentions.old.items ++ mention_of (source_now origin.entry)) }
{
    if let Origin::Result(Some(k)) = origin {
        mentions.push(k)?;
    }
    Ok(())
}

fn push_mentions(origins: &[Origin], mentions: &mut Vec<usize>) -> Result<(), AllocError>
    ensures { OnOk result (mentions.new.items ≡ mentions.old.items ++ flat_map mention_of (map source_now origins.now)) }
{
    for origin in origins {
        push_mention(*origin, mentions)?;
    }
    Ok(())
}

// The mentions in one statement are added.
fn push_own(
    alloc: Global,
    earlier: &[Statement],
    statement: &Statement,
    mentions: &mut Vec<usize>,
) -> Result<(), AllocError>
    ensures { OnOk result (mentions.new.items ≡ mentions.old.items ++ flat_map mention_of (sources_of earlier.now statement.now.command)) }
{
    let origins = origins_of(alloc, earlier, &statement.command)?;
    push_mentions(origins.as_slice(), mentions)
}

/// Each mention of a result in a script, by the number of its statement. An error is want of memory.
pub(crate) fn mentions_of(alloc: Global, script: &[Statement]) -> Result<Vec<usize>, AllocError>
    ensures { IfOk result (λ v. v.items ≡ bound.mentions [] script.now) }
{
    let mut mentions = Vec::new(alloc);
    for (at, statement) in script.iter().enumerate() {
        push_own(alloc, &script[..at], statement, &mut mentions)?;
    }
    Ok(mentions)
}
