// The set of operators that a caller hands in, and how clauses speak of what its objects tell.
ghost use Rattle.std.specs.Prelude.{◌≡◌, true, false, ◌++◌, ◌<◌, ◌∷◌, [], ◌↔◌, OnOk, OnErr, IfSome, IfErr, IsErrAnd, Contains, length, slice_get, Some};
ghost use Rattle.std.specs.Str.{bytes_eq};
ghost use Rattle.std.specs.List.{position};

use crate::add_fault::AddFault;
use crate::combiner::Combiner;
use crate::extractor::Extractor;
use crate::named_list::NamedList;
use crate::processor::Processor;
use crate::reducer::Reducer;
use scope_value::Cell;
use std::alloc::Global;

/// The operators that a caller hands in, each in its box and under a name of its own within its kind. They have places
/// there, counted from 0 in the order of adding within each kind.
#[derive(Drop)]
pub struct OpSet {
    extractors: NamedList<Box<dyn Extractor>>,
    processors: NamedList<Box<dyn Processor>>,
    reducers: NamedList<Box<dyn Reducer>>,
    combiners: NamedList<Box<dyn Combiner>>,
}

/// What a set of operators tells, in ghost code alone.
///
/// A clause writes `⟦<OpSet as Tells>⟧.tells ops.now`, a record of lists that names no box: for each kind the names and,
/// at the same places, what the objects tell. Code that needs the meanings alone is generic in `O: Tells` and writes
/// `O.tells ops.now`.
pub trait Tells {
    ghost use Rattle.user_ops.specs.Lawful.{AreLawful};
    ghost use Rattle.user_ops.specs.Told.{Operators};

    ghost tells: { Self → Operators };

    // Each of them keeps the law of its trait, and has a name.
    ghost lawful: { (ops : Self) → AreLawful (tells ops) };
}

impl Tells for OpSet {
    ghost use Rattle.std.specs.Prelude.{map, get_or};
    ghost use Rattle.std.proofs.Common.{◌∙◌, sym};
    ghost use Rattle.std.proofs.lemmas.List.{length-map};
    ghost use Rattle.std.proofs.lemmas.List.Elements.{All-map};
    ghost use Rattle.user_ops.specs.Lawful.{IsLawfulExtractor, IsLawfulProcessor, IsLawfulReducer, IsLawfulCombiner};

    ghost tells = { λ s. record {
      extractor_names = map (λ n. n.name) s.extractors.entries.items;
      extractors = map (λ n. (Extractor-box n.op).told_extractor n.op.value) s.extractors.entries.items;
      processor_names = map (λ n. n.name) s.processors.entries.items;
      processors = map (λ n. (Processor-box n.op).told_processor n.op.value) s.processors.entries.items;
      reducer_names = map (λ n. n.name) s.reducers.entries.items;
      reducers = map (λ n. (Reducer-box n.op).told_reducer n.op.value) s.reducers.entries.items;
      combiner_names = map (λ n. n.name) s.combiners.entries.items;
      combiners = map (λ n. (Combiner-box n.op).told_combiner n.op.value) s.combiners.entries.items;
    } };

    ghost lawful = { λ s. record {
      named = record {
        extractors = length-map s.extractors.entries.items (λ n. n.name) ∙ sym (length-map s.extractors.entries.items (λ n. (Extractor-box n.op).told_extractor n.op.value));
        processors = length-map s.processors.entries.items (λ n. n.name) ∙ sym (length-map s.processors.entries.items (λ n. (Processor-box n.op).told_processor n.op.value));
        reducers = length-map s.reducers.entries.items (λ n. n.name) ∙ sym (length-map s.reducers.entries.items (λ n. (Reducer-box n.op).told_reducer n.op.value));
        combiners = length-map s.combiners.entries.items (λ n. n.name) ∙ sym (length-map s.combiners.entries.items (λ n. (Combiner-box n.op).told_combiner n.op.value));
      };
      extractors = All-map IsLawfulExtractor (λ n. (Extractor-box n.op).told_extractor n.op.value) s.extractors.entries.items
          (λ place n within. let op = (get_or s.extractors.entries.items place n).op in (Extractor-box op).extractor_law op.value);
      processors = All-map IsLawfulProcessor (λ n. (Processor-box n.op).told_processor n.op.value) s.processors.entries.items
          (λ place n within. let op = (get_or s.processors.entries.items place n).op in (Processor-box op).processor_law op.value);
      reducers = All-map IsLawfulReducer (λ n. (Reducer-box n.op).told_reducer n.op.value) s.reducers.entries.items
          (λ place n within. let op = (get_or s.reducers.entries.items place n).op in (Reducer-box op).reducer_law op.value);
      combiners = All-map IsLawfulCombiner (λ n. (Combiner-box n.op).told_combiner n.op.value) s.combiners.entries.items
          (λ place n within. let op = (get_or s.combiners.entries.items place n).op in (Combiner-box op).combiner_law op.value);
    } };
}

impl OpSet {
    /// A set of no operators.
    pub fn new(alloc: Global) -> OpSet
        ensures { ⟦<OpSet as Tells>⟧.tells result ≡ record {
          extractor_names = [];
          extractors = [];
          processor_names = [];
          processors = [];
          reducer_names = [];
          reducers = [];
          combiner_names = [];
          combiners = [];
        } }
    {
        OpSet {
            extractors: NamedList::new(alloc),
            processors: NamedList::new(alloc),
            reducers: NamedList::new(alloc),
            combiners: NamedList::new(alloc),
        }
    }

    /// Adds an extractor at the end of its kind. A refusal hands the box back and changes nothing: `Duplicate` exactly where the
    /// set has an extractor of that name, and else want of memory.
    pub fn add_extractor(
        &mut self,
        name: Cell,
        op: Box<dyn Extractor>,
    ) -> Result<(), (Box<dyn Extractor>, AddFault)>
        ensures ok { let old = ⟦<OpSet as Tells>⟧.tells self.old in
            OnOk result (⟦<OpSet as Tells>⟧.tells self.new ≡ record old {
              extractor_names = old.extractor_names ++ name ∷ [];
              extractors = old.extractors ++ told_extractor op ∷ [];
            }) }
        ensures handed_back { IfErr result (λ e. e.0 ≡ op) }
        ensures unchanged { OnErr result (⟦<OpSet as Tells>⟧.tells self.new ≡ ⟦<OpSet as Tells>⟧.tells self.old) }
        ensures duplicate { IsErrAnd result (λ e. e.1 ≡ AddFault.Duplicate)
            ↔ Contains (⟦<OpSet as Tells>⟧.tells self.old).extractor_names name }
    {
        self.extractors.add(name, op)
    }

    /// Adds an extractor at the end of its kind under a copy of the name, and answers true; or answers false, drops the box and changes
    /// nothing, where the set has an extractor of that name or for want of memory.
    pub fn put_extractor(&mut self, alloc: Global, name: &[u8], op: Box<dyn Extractor>) -> bool
        ensures ok { let old = ⟦<OpSet as Tells>⟧.tells self.old in
            result ≡ true → ⟦<OpSet as Tells>⟧.tells self.new ≡ record old {
              extractor_names = old.extractor_names ++ name.now ∷ [];
              extractors = old.extractors ++ told_extractor op ∷ [];
            } }
        ensures unchanged { result ≡ false → ⟦<OpSet as Tells>⟧.tells self.new ≡ ⟦<OpSet as Tells>⟧.tells self.old }
        ensures duplicate { Contains (⟦<OpSet as Tells>⟧.tells self.old).extractor_names name.now → result ≡ false }
    {
        self.extractors.put(alloc, name, op)
    }

    /// The place of the extractor of that name, or None exactly where the set has none.
    pub fn find_extractor(&self, name: &[u8]) -> Option<usize>
        ensures is { result ≡ position (λ n. bytes_eq n name.now) (⟦<OpSet as Tells>⟧.tells self.now).extractor_names }
        ensures within { IfSome result (λ place. place < length (⟦<OpSet as Tells>⟧.tells self.now).extractors) }
    {
        self.extractors.find(name)
    }

    /// The extractor at a place, where one stands.
    pub fn extractor_at(&self, place: usize) -> &Box<dyn Extractor>
        requires { place < length (⟦<OpSet as Tells>⟧.tells self.now).extractors }
        ensures { slice_get (⟦<OpSet as Tells>⟧.tells self.now).extractors place ≡ Some (told_extractor result.now) }
    {
        &self.extractors.entries[place].op
    }

    /// Adds a processor at the end of its kind. A refusal hands the box back and changes nothing: `Duplicate` exactly where the
    /// set has a processor of that name, and else want of memory.
    pub fn add_processor(
        &mut self,
        name: Cell,
        op: Box<dyn Processor>,
    ) -> Result<(), (Box<dyn Processor>, AddFault)>
        ensures ok { let old = ⟦<OpSet as Tells>⟧.tells self.old in
            OnOk result (⟦<OpSet as Tells>⟧.tells self.new ≡ record old {
              processor_names = old.processor_names ++ name ∷ [];
              processors = old.processors ++ told_processor op ∷ [];
            }) }
        ensures handed_back { IfErr result (λ e. e.0 ≡ op) }
        ensures unchanged { OnErr result (⟦<OpSet as Tells>⟧.tells self.new ≡ ⟦<OpSet as Tells>⟧.tells self.old) }
        ensures duplicate { IsErrAnd result (λ e. e.1 ≡ AddFault.Duplicate)
            ↔ Contains (⟦<OpSet as Tells>⟧.tells self.old).processor_names name }
    {
        self.processors.add(name, op)
    }

    /// Adds a processor at the end of its kind under a copy of the name, and answers true; or answers false, drops the box and changes
    /// nothing, where the set has a processor of that name or for want of memory.
    pub fn put_processor(&mut self, alloc: Global, name: &[u8], op: Box<dyn Processor>) -> bool
        ensures ok { let old = ⟦<OpSet as Tells>⟧.tells self.old in
            result ≡ true → ⟦<OpSet as Tells>⟧.tells self.new ≡ record old {
              processor_names = old.processor_names ++ name.now ∷ [];
              processors = old.processors ++ told_processor op ∷ [];
            } }
        ensures unchanged { result ≡ false → ⟦<OpSet as Tells>⟧.tells self.new ≡ ⟦<OpSet as Tells>⟧.tells self.old }
        ensures duplicate { Contains (⟦<OpSet as Tells>⟧.tells self.old).processor_names name.now → result ≡ false }
    {
        self.processors.put(alloc, name, op)
    }

    /// The place of the processor of that name, or None exactly where the set has none.
    pub fn find_processor(&self, name: &[u8]) -> Option<usize>
        ensures is { result ≡ position (λ n. bytes_eq n name.now) (⟦<OpSet as Tells>⟧.tells self.now).processor_names }
        ensures within { IfSome result (λ place. place < length (⟦<OpSet as Tells>⟧.tells self.now).processors) }
    {
        self.processors.find(name)
    }

    /// The processor at a place, where one stands.
    pub fn processor_at(&self, place: usize) -> &Box<dyn Processor>
        requires { place < length (⟦<OpSet as Tells>⟧.tells self.now).processors }
        ensures { slice_get (⟦<OpSet as Tells>⟧.tells self.now).processors place ≡ Some (told_processor result.now) }
    {
        &self.processors.entries[place].op
    }

    /// Adds a reducer at the end of its kind. A refusal hands the box back and changes nothing: `Duplicate` exactly where the
    /// set has a reducer of that name, and else want of memory.
    pub fn add_reducer(
        &mut self,
        name: Cell,
        op: Box<dyn Reducer>,
    ) -> Result<(), (Box<dyn Reducer>, AddFault)>
        ensures ok { let old = ⟦<OpSet as Tells>⟧.tells self.old in
            OnOk result (⟦<OpSet as Tells>⟧.tells self.new ≡ record old {
              reducer_names = old.reducer_names ++ name ∷ [];
              reducers = old.reducers ++ told_reducer op ∷ [];
            }) }
        ensures handed_back { IfErr result (λ e. e.0 ≡ op) }
        ensures unchanged { OnErr result (⟦<OpSet as Tells>⟧.tells self.new ≡ ⟦<OpSet as Tells>⟧.tells self.old) }
        ensures duplicate { IsErrAnd result (λ e. e.1 ≡ AddFault.Duplicate)
            ↔ Contains (⟦<OpSet as Tells>⟧.tells self.old).reducer_names name }
    {
        self.reducers.add(name, op)
    }

    /// Adds a reducer at the end of its kind under a copy of the name, and answers true; or answers false, drops the box and changes
    /// nothing, where the set has a reducer of that name or for want of memory.
    pub fn put_reducer(&mut self, alloc: Global, name: &[u8], op: Box<dyn Reducer>) -> bool
        ensures ok { let old = ⟦<OpSet as Tells>⟧.tells self.old in
            result ≡ true → ⟦<OpSet as Tells>⟧.tells self.new ≡ record old {
              reducer_names = old.reducer_names ++ name.now ∷ [];
              reducers = old.reducers ++ told_reducer op ∷ [];
            } }
        ensures unchanged { result ≡ false → ⟦<OpSet as Tells>⟧.tells self.new ≡ ⟦<OpSet as Tells>⟧.tells self.old }
        ensures duplicate { Contains (⟦<OpSet as Tells>⟧.tells self.old).reducer_names name.now → result ≡ false }
    {
        self.reducers.put(alloc, name, op)
    }

    /// The place of the reducer of that name, or None exactly where the set has none.
    pub fn find_reducer(&self, name: &[u8]) -> Option<usize>
        ensures is { result ≡ position (λ n. bytes_eq n name.now) (⟦<OpSet as Tells>⟧.tells self.now).reducer_names }
        ensures within { IfSome result (λ place. place < length (⟦<OpSet as Tells>⟧.tells self.now).reducers) }
    {
        self.reducers.find(name)
    }

    /// The reducer at a place, where one stands.
    pub fn reducer_at(&self, place: usize) -> &Box<dyn Reducer>
        requires { place < length (⟦<OpSet as Tells>⟧.tells self.now).reducers }
        ensures { slice_get (⟦<OpSet as Tells>⟧.tells self.now).reducers place ≡ Some (told_reducer result.now) }
    {
        &self.reducers.entries[place].op
    }

    /// Adds a combiner at the end of its kind. A refusal hands the box back and changes nothing: `Duplicate` exactly where the
    /// set has a combiner of that name, and else want of memory.
    pub fn add_combiner(
        &mut self,
        name: Cell,
        op: Box<dyn Combiner>,
    ) -> Result<(), (Box<dyn Combiner>, AddFault)>
        ensures ok { let old = ⟦<OpSet as Tells>⟧.tells self.old in
            OnOk result (⟦<OpSet as Tells>⟧.tells self.new ≡ record old {
              combiner_names = old.combiner_names ++ name ∷ [];
              combiners = old.combiners ++ told_combiner op ∷ [];
            }) }
        ensures handed_back { IfErr result (λ e. e.0 ≡ op) }
        ensures unchanged { OnErr result (⟦<OpSet as Tells>⟧.tells self.new ≡ ⟦<OpSet as Tells>⟧.tells self.old) }
        ensures duplicate { IsErrAnd result (λ e. e.1 ≡ AddFault.Duplicate)
            ↔ Contains (⟦<OpSet as Tells>⟧.tells self.old).combiner_names name }
    {
        self.combiners.add(name, op)
    }

    /// Adds a combiner at the end of its kind under a copy of the name, and answers true; or answers false, drops the box and changes
    /// nothing, where the set has a combiner of that name or for want of memory.
    pub fn put_combiner(&mut self, alloc: Global, name: &[u8], op: Box<dyn Combiner>) -> bool
        ensures ok { let old = ⟦<OpSet as Tells>⟧.tells self.old in
            result ≡ true → ⟦<OpSet as Tells>⟧.tells self.new ≡ record old {
              combiner_names = old.combiner_names ++ name.now ∷ [];
              combiners = old.combiners ++ told_combiner op ∷ [];
            } }
        ensures unchanged { result ≡ false → ⟦<OpSet as Tells>⟧.tells self.new ≡ ⟦<OpSet as Tells>⟧.tells self.old }
        ensures duplicate { Contains (⟦<OpSet as Tells>⟧.tells self.old).combiner_names name.now → result ≡ false }
    {
        self.combiners.put(alloc, name, op)
    }

    /// The place of the combiner of that name, or None exactly where the set has none.
    pub fn find_combiner(&self, name: &[u8]) -> Option<usize>
        ensures is { result ≡ position (λ n. bytes_eq n name.now) (⟦<OpSet as Tells>⟧.tells self.now).combiner_names }
        ensures within { IfSome result (λ place. place < length (⟦<OpSet as Tells>⟧.tells self.now).combiners) }
    {
        self.combiners.find(name)
    }

    /// The combiner at a place, where one stands.
    pub fn combiner_at(&self, place: usize) -> &Box<dyn Combiner>
        requires { place < length (⟦<OpSet as Tells>⟧.tells self.now).combiners }
        ensures { slice_get (⟦<OpSet as Tells>⟧.tells self.now).combiners place ≡ Some (told_combiner result.now) }
    {
        &self.combiners.entries[place].op
    }
}
