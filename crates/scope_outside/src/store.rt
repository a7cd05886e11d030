// The trait through which every layer above reads and writes named byte strings.
ghost use Rattle.std.specs.Prelude.{◌≡◌, ℕ, List, ◌++◌};
ghost use Rattle.scope_outside.specs.State.{StoreState};
ghost use Rattle.scope_outside.specs.Answers.{AfterRead, AfterWrite};

use crate::{ReadAnswer, WriteAnswer};

/// A store of named byte strings.
///
/// What it tells is a map from names to bytes, where it knows it, and always how many calls failed, how many reads found nothing
/// of their name, and the name of the latest such call with whether it was a write. The two counts never fall.
pub trait Store {
    /// What the store tells.
    ghost told: { Self → StoreState };

    /// Reads the content of a name, and appends it to `out`.
    ///
    /// The map stays as it is, whatever the answer. `Done`: the whole content was appended. `Missing`: the count of misses rose; where the
    /// map is told, this comes exactly where the name isn't in it. `Failed`: the count of faults rose. At these two `out` keeps what it
    /// held and may have more bytes after it. `NoMemory`: memory was refused, and all that the store tells is as before, and `out` too.
    fn read(&mut self, name: &[u8], out: &mut Vec<u8>) -> ReadAnswer
        ensures { (more : List ℕ) × (out.new.items ≡ out.old.items ++ more) × AfterRead result name.now more (told self.old) (told self.new) };

    /// Replaces the whole content of a name by the bytes.
    ///
    /// No other name changes, whatever the answer. `Done`: the name holds the bytes. `Failed`: the count of faults rose, and what the
    /// name holds is open. `NoMemory`: memory was refused, and all that the store tells is as before.
    fn write(&mut self, name: &[u8], bytes: &[u8]) -> WriteAnswer
        ensures { AfterWrite result name.now bytes.now (told self.old) (told self.new) };
}
