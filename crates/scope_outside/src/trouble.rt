// What every store that can fail keeps of its failures.
ghost use Rattle.std.specs.Prelude.{◌≡◌, ◌≤◌, Option};
ghost use Rattle.scope_outside.specs.State.{Rose, Files, untroubled};
ghost use Rattle.scope_outside.specs.Answers.{IsFault, IsMiss};
ghost use Rattle.scope_outside.specs.Trouble.{state_of};

use crate::latest::Latest;
use scope_value::Cell;

/// How many calls failed, how many found nothing of their name, and the latest such call.
#[derive(Drop)]
pub(crate) struct Trouble {
    pub(crate) faults: u64,
    pub(crate) misses: u64,
    pub(crate) latest: Option<Latest>,
}

// One more, up to the last number of a u64.
pub(crate) fn raised(count: u64) -> u64
    ensures rose { Rose count result }
    ensures never_falls { count ≤ result }
{
    count.saturating_add(1)
}

impl Trouble {
    /// No call has failed yet.
    pub(crate) fn new() -> Trouble
        ensures { (files : Option Files) → state_of files result ≡ untroubled files }
    {
        Trouble {
            faults: 0,
            misses: 0,
            latest: None,
        }
    }

    /// Counts a read or a write that failed.
    pub(crate) fn note_fault(&mut self, name: Cell, wrote: bool)
        ensures { (files : Option Files) → IsFault name wrote (state_of files self.old) (state_of files self.new) }
    {
        self.faults = raised(self.faults);
        self.latest = Some(Latest { name, wrote });
    }

    /// Counts a read that found nothing of its name.
    pub(crate) fn note_miss(&mut self, name: Cell)
        ensures { (files : Option Files) → IsMiss name (state_of files self.old) (state_of files self.new) }
    {
        self.misses = raised(self.misses);
        self.latest = Some(Latest { name, wrote: false });
    }
}
