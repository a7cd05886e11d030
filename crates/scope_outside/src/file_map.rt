// The map of the stores in memory: a balanced tree from names to bytes, which contracts see as a finite map.
ghost use Rattle.std.specs.Prelude.{◌≡◌, OnOk, OnErr, option_map};
ghost use Rattle.std.specs.FinMap as map;

use scope_value::Cell;
use std::alloc::{AllocError, Global};
use std::collections::BTreeMap;
use std::marker::Model;

/// Names and their bytes. Contracts see the finite map.
#[derive(Drop)]
pub(crate) struct FileMap {
    entries: BTreeMap<Cell, Cell>,
}

impl Model for FileMap {
    ghost use Rattle.std.specs.FinMap as map;
    ghost use Rattle.std.specs.Coded.{coded_ℕ, coded_list};
    ghost use Rattle.scope_outside.specs.State.{Files};

    ghost Value = { Files };

    ghost coded = { map.code (coded_list coded_ℕ) (coded_list coded_ℕ) };

    ghost view = { λ f. map.from_entries f.entries.entries };
}

impl FileMap {
    /// No name at all.
    pub(crate) fn new(alloc: Global) -> FileMap
        ensures { result ≡ map.empty }
    {
        FileMap {
            entries: BTreeMap::new(alloc),
        }
    }

    /// What stands under the name.
    pub(crate) fn get(&self, name: &Cell) -> Option<&Cell>
        ensures { option_map (λ content. content.now) result ≡ map.get self.now name.now }
    {
        self.entries.get(name)
    }

    /// Puts the bytes under the name, in place of what stood there. At an error, which is want of memory, the map stays.
    pub(crate) fn insert(&mut self, name: Cell, bytes: Cell) -> Result<(), AllocError>
        ensures ok { OnOk result (self.new ≡ map.insert self.old name bytes) }
        ensures err { OnErr result (self.new ≡ self.old) }
    {
        match self.entries.insert(name, bytes) {
            Ok(_) => Ok(()),
            Err(_) => Err(AllocError),
        }
    }
}
