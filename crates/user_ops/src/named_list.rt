// The operators of one kind, each under a name of its own.
ghost use Rattle.std.specs.Prelude.{◌≡◌, true, false, ◌++◌, ◌<◌, ◌∷◌, [], ◌↔◌, OnOk, OnErr, IfSome, IfErr, IsErrAnd, Contains, map, length, slice_get, Some};
ghost use Rattle.std.specs.Str.{bytes_eq};
ghost use Rattle.std.specs.List.{position};

use crate::add_fault::AddFault;
use scope_value::Cell;
use std::alloc::Global;

/// Something under a name.
#[derive(Drop)]
pub(crate) struct Named<T> {
    pub(crate) name: Cell,
    pub(crate) op: T,
}

/// A list of named things, no two of one name, in the order of adding. Places are counted from 0.
#[derive(Drop)]
pub(crate) struct NamedList<T> {
    pub(crate) entries: Vec<Named<T>>,
}

impl<T> NamedList<T> {
    /// Nothing under any name.
    pub(crate) fn new(alloc: Global) -> NamedList<T>
        ensures { result.entries.items ≡ [] }
    {
        NamedList {
            entries: Vec::new(alloc),
        }
    }

    /// The place of a name, or None exactly where it isn't there.
    pub(crate) fn find(&self, name: &[u8]) -> Option<usize>
        ensures is { result ≡ position (λ n. bytes_eq n name.now) (map (λ n. n.name) self.now.entries.items) }
        ensures within { IfSome result (λ place. place < length self.now.entries.items) }
    {
        place_of(self.entries.as_slice(), name)
    }

    /// Adds it at the end. A refusal hands it back and changes nothing: `Duplicate` exactly where the name is there, and else want of
    /// memory.
    pub(crate) fn add(&mut self, name: Cell, op: T) -> Result<(), (T, AddFault)>
        ensures names { OnOk result (map (λ n. n.name) self.new.entries.items ≡ map (λ n. n.name) self.old.entries.items ++ name ∷ []) }
        ensures ok { OnOk result (self.new.entries.items ≡ self.old.entries.items ++ record { name = name; op = op } ∷ []) }
        ensures handed_back { IfErr result (λ e. e.0 ≡ op) }
        ensures unchanged { OnErr result (self.new.entries.items ≡ self.old.entries.items) }
        ensures duplicate { IsErrAnd result (λ e. e.1 ≡ AddFault.Duplicate)
            ↔ Contains (map (λ n. n.name) self.old.entries.items) name }
    {
        if self.find(name.as_slice()).is_some() {
            return Err((op, AddFault::Duplicate));
        }
        match self.entries.push(Named { name, op }) {
            Ok(()) => Ok(()),
            Err(e) => {
                let Named { name: _, op } = e.value;
                Err((op, AddFault::NoMemory))
            }
        }
    }

    /// Adds it at the end under a copy of the name, and answers true; or answers false, drops it and changes nothing, where the name is
    /// there or for want of memory.
    pub(crate) fn put(&mut self, alloc: Global, name: &[u8], op: T) -> bool
    where
        T: Drop,
        ensures names { result ≡ true → map (λ n. n.name) self.new.entries.items ≡ map (λ n. n.name) self.old.entries.items ++ name.now ∷ [] }
        ensures ok { result ≡ true → self.new.entries.items ≡ self.old.entries.items ++ record { name = name.now; op = op } ∷ [] }
        ensures unchanged { result ≡ false → self.new.entries.items ≡ self.old.entries.items }
        ensures duplicate { Contains (map (λ n. n.name) self.old.entries.items) name.now → result ≡ false }
    {
        match Cell::from_slice(alloc, name) {
            Ok(name) => self.add(name, op).is_ok(),
            Err(_) => false,
        }
    }
}

// The first place that has the name.
fn place_of<T>(named: &[Named<T>], name: &[u8]) -> Option<usize>
    ensures is { result ≡ position (λ n. bytes_eq n.name name.now) named.now }
    ensures within { IfSome result (λ place. place < length named.now) }
{
    named.iter().position(|n| n.name.as_slice() == name)
}
