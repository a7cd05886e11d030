// Lists of batches: the parts of a result, or the pieces that one vertex sends.
ghost use Rattle.std.specs.Prelude.{◌≡◌, ◌↔◌, [], ◌∷◌, ◌++◌, IsTrue, OnOk, OnErr, length};

use crate::batch::Batch;
use std::alloc::{AllocError, Global};
use std::marker::Model;

/// Batches, one behind another. Contracts see it as the list of them.
#[derive(Drop)]
pub struct BatchList {
    batches: Vec<Batch>,
}

impl Model for BatchList {
    ghost use Rattle.std.specs.Prelude.{List};
    ghost use Rattle.row_batch.specs.Rows.{Rows};

    ghost Value = { List Rows };

    ghost view = { λ l. l.batches.items };
}

impl BatchList {
    /// No batch.
    pub fn new(alloc: Global) -> BatchList
        ensures { result ≡ [] }
    {
        BatchList {
            batches: Vec::new(alloc),
        }
    }

    /// The batches of a vector, which is moved.
    pub fn from_vec(batches: Vec<Batch>) -> BatchList
        ensures { result ≡ batches.items }
    {
        BatchList { batches }
    }

    /// The vector of the batches.
    pub fn into_vec(self) -> Vec<Batch>
        ensures { result.items ≡ self }
    {
        let BatchList { batches } = self;
        batches
    }

    /// Adds a batch, as the last. An error is want of memory, and leaves the list as it was.
    pub fn push(&mut self, batch: Batch) -> Result<(), AllocError>
        ensures ok { OnOk result (self.new ≡ self.old ++ batch ∷ []) }
        ensures err { OnErr result (self.new ≡ self.old) }
    {
        self.batches.push(batch)?;
        Ok(())
    }

    /// The batches.
    pub fn as_slice(&self) -> &[Batch]
        ensures { result.now ≡ self.now }
    {
        self.batches.as_slice()
    }

    /// How many batches there are.
    pub fn len(&self) -> usize
        ensures { result ≡ length self.now }
    {
        self.batches.len()
    }

    /// Whether there is no batch.
    pub fn is_empty(&self) -> bool
        ensures { IsTrue result ↔ (self.now ≡ []) }
    {
        self.batches.is_empty()
    }
}
