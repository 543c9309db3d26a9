//! Batches whose operations come with the indices of their names.

ghost use Rattle.std.specs.Prelude.{◌≡◌, ℕ, OnOk, Some, take};
ghost use Rattle.coniks_directory.specs.Batches.{fault_is};
ghost use Rattle.coniks_directory.specs.SuppliedBatches.{earlier_of, indices_in, put_indices, supplied_fault_is};

use crate::batch::{BatchFault, Op, OpFault};
use crate::source::IndexSource;
use crate::supplied::{SuppliedIndices, SupplyIndex};
use coniks_proof::{Index, Nonce};
use coniks_tree::Record;
use std::alloc::{AllocError, Global};
use thiserror::Error;

/// A batch whose operations come with the indices of their names, which another process computed.
#[derive(Drop)]
pub struct OwnedBatch {
    /// The nonce under which the epoch's tree is rehashed, if any.
    pub nonce: Option<Nonce>,
    /// At most `MAX_OPERATIONS` operations.
    pub ops: Vec<Op>,
    /// The index of each operation's name, in the order of the operations.
    pub indices: Vec<Index>,
}

/// Bindings that come with the indices of their names, each a `Register` operation.
#[derive(Drop)]
pub struct OwnedBindings {
    pub bindings: Vec<Op>,
    /// The index of each binding's name, in the order of the bindings.
    pub indices: Vec<Index>,
}

/// The error of a batch that comes with its indices.
#[derive(Clone, Copy, Debug, Drop, PartialEq, Eq, Error)]
pub enum SuppliedBatchFault {
    /// The error of the batch or of one of its operations.
    #[error("{0}")]
    Batch(BatchFault),
    /// An operation has a name that is registered with another index.
    ///
    /// It contains the position of the first such operation, counted from 0. Of an operation's errors it comes after
    /// `NameUnknown` and before `IndexClash`.
    #[error("operation {position}: the name has another index")]
    OtherIndex { position: usize },
}

/// The indices that come with a batch, and those of a source for all other names.
#[derive(Drop)]
pub(crate) struct BatchIndices<'a, X: IndexSource> {
    pub(crate) source: &'a X,
    pub(crate) fresh: SuppliedIndices,
}

impl<'a, X: IndexSource> IndexSource for BatchIndices<'a, X> {
    ghost use Rattle.coniks_directory.specs.SuppliedBatches.{given_index};

    ghost index_of = { λ it name. given_index it.fresh (X.index_of it.source.now) name };

    fn index(&self, name: &[u8]) -> Index {
        match self.fresh.get(name) {
            Some(index) => *index,
            None => self.source.index(name),
        }
    }
}

/// Returns the error of the operation at `position`, or `OtherIndex` if that comes first at `place`.
pub(crate) fn earlier_of(position: usize, fault: OpFault, place: usize) -> SuppliedBatchFault
    ensures { supplied_fault_is result ≡ Some (earlier_of position (fault_is fault) place) }
{
    let is_clash = fault == OpFault::IndexClash;
    if position < place || (position == place && !is_clash) {
        return SuppliedBatchFault::Batch(BatchFault::At { position, fault });
    }
    SuppliedBatchFault::OtherIndex { position: place }
}

/// Supplies the indices that records contain to their names.
///
/// # Errors
///
/// `AllocError` if an allocation fails. Some of the indices may then be supplied.
pub(crate) fn supply_all(source: &mut SuppliedIndices, records: &[Record]) -> Result<(), AllocError>
    ensures put { OnOk result (source.new ≡ put_indices source.old (indices_in records.now)) }
    ensures some { (n : ℕ) × (source.new ≡ put_indices source.old (indices_in (take n records.now))) }
{
    for new in records {
        source.supply(new.binding.name.as_slice(), new.index)?;
    }
    Ok(())
}
