//! Bindings of a restore that come with the indices of their names.

ghost use Rattle.std.specs.Prelude.{◌≡◌, ◌≤◌, ◌++◌, ◌∷◌, [], ℕ, List, None, IfErr, IfOk, OnErr, OnOk, drop, length, map, take};
ghost use Rattle.coniks_proof.specs.Batches.{bound_by, fault_from};
ghost use Rattle.coniks_proof.specs.Octets.{Octets};
ghost use Rattle.coniks_proof.specs.Registry.{Registered};
ghost use Rattle.coniks_directory.specs.Batches.{operations};
ghost use Rattle.coniks_directory.specs.Judged.{ArePendingRecords, IsJudgedFaultAfter};
ghost use Rattle.coniks_directory.specs.Supplied.{Supplied, supplied_index};
ghost use Rattle.coniks_directory.specs.SuppliedBatches.{IsFresh, binding_index, given_index, index_in, indexed, indices_in, put_indices};
ghost use Rattle.coniks_directory.specs.State.{registered_of};

use crate::batch::{BatchFault, Op};
use crate::judge::judge_all;
use crate::pending::PendingRecords;
use crate::source::IndexSource;
use crate::supplied::SuppliedIndices;
use crate::supplied_batch::{BatchIndices, OwnedBindings, supply_all};
use coniks_proof::Index;
use coniks_tree::Tree;
use std::alloc::{AllocError, Global};

/// Adds the index that comes with a name, unless the name is bound or has one already.
fn add_fresh(
    source: &SuppliedIndices,
    pending: &PendingRecords,
    fresh: &mut SuppliedIndices,
    name: &[u8],
    index: Index,
) -> Result<(), AllocError>
    ensures { OnOk result ((hash : Octets → Octets) (bound : List Registered) (named : List Supplied)
        → ArePendingRecords hash (supplied_index source.now) bound pending.now.records.items pending.now.numbers
        → IsFresh bound fresh.old named → IsFresh bound fresh.new (named ++ (name.now, index.0) ∷ [])) }
{
    let own = source.index(name);
    if pending.binds(&own, name) {
        return Ok(());
    }
    fresh.supply_first(name, index)?;
    Ok(())
}

/// Returns the indices of the names that are not bound, each the first that comes with the name.
fn fresh_indices(
    alloc: Global,
    source: &SuppliedIndices,
    pending: &PendingRecords,
    bindings: &[Op],
    indices: &[Index],
) -> Result<SuppliedIndices, AllocError>
    requires { length bindings.now ≡ length indices.now }
    ensures { IfOk result (λ fresh. (hash : Octets → Octets) (bound : List Registered)
        → ArePendingRecords hash (supplied_index source.now) bound pending.now.records.items pending.now.numbers
        → given_index fresh (supplied_index source.now) ≡ index_in (supplied_index source.now) bound (indexed bindings.now indices.now)) }
{
    let mut fresh = SuppliedIndices::new(alloc);
    for place in 0..bindings.len() {
        let (name, index) = (bindings[place].name.as_slice(), indices[place]);
        add_fresh(source, pending, &mut fresh, name, index)?;
    }
    Ok(fresh)
}

/// Adds the records of bindings to those of earlier ones. A new name has the index that comes with it.
///
/// # Errors
///
/// The errors of `judge_all`. The records are then those of the earlier bindings.
pub(crate) fn judge_bindings(
    alloc: Global,
    source: &SuppliedIndices,
    tree: &Tree,
    pending: &mut PendingRecords,
    batch: OwnedBindings,
) -> Result<(), BatchFault>
    requires { length batch.bindings.items ≡ length batch.indices.items }
    ensures pending { OnOk result ((hash : Octets → Octets) (bound : List Registered)
        → ArePendingRecords hash (supplied_index source.now) bound pending.old.records.items pending.old.numbers
        → ArePendingRecords hash (binding_index (supplied_index source.now) bound batch)
        (bound ++ map bound_by (operations batch.bindings.items)) pending.new.records.items pending.new.numbers) }
    ensures faultless { OnOk result ((hash : Octets → Octets) (bound : List Registered)
        → ArePendingRecords hash (supplied_index source.now) bound pending.old.records.items pending.old.numbers
        → fault_from (binding_index (supplied_index source.now) bound batch) [] bound 0 (operations batch.bindings.items) ≡ None) }
    ensures fault { IfErr result (λ fault. (hash : Octets → Octets) (bound : List Registered)
        → ArePendingRecords hash (supplied_index source.now) bound pending.old.records.items pending.old.numbers
        → IsJudgedFaultAfter (binding_index (supplied_index source.now) bound batch) [] bound (operations batch.bindings.items) fault) }
    ensures retained { OnErr result ((hash : Octets → Octets) (bound : List Registered)
        → ArePendingRecords hash (supplied_index source.now) bound pending.old.records.items pending.old.numbers
        → ArePendingRecords hash (supplied_index source.now) bound pending.new.records.items pending.new.numbers) }
{
    let Ok(fresh) = fresh_indices(alloc, source, pending, &batch.bindings, &batch.indices) else {
        return Err(BatchFault::OutOfMemory);
    };
    let indices = BatchIndices { source, fresh };
    judge_all(&indices, tree, None, pending, batch.bindings)?;
    Ok(())
}

/// Supplies the indices of the records from a number on.
///
/// # Errors
///
/// `AllocError` if an allocation fails. These records are then removed, and some of their indices may be supplied.
pub(crate) fn supply_since(
    source: &mut SuppliedIndices,
    pending: &mut PendingRecords,
    number: usize,
) -> Result<(), AllocError>
    requires { number ≤ length pending.old.records.items }
    ensures put { OnOk result (source.new ≡ put_indices source.old (indices_in (drop number pending.old.records.items))) }
    ensures same { OnOk result (pending.new ≡ pending.old) }
    ensures some { OnErr result ((n : ℕ) × (source.new ≡ put_indices source.old (indices_in (take n (drop number pending.old.records.items))))) }
    ensures records { OnErr result (pending.new.records.items ≡ take number pending.old.records.items) }
    ensures pending { OnErr result ((hash index_of : Octets → Octets) (bound : List Registered)
        → ArePendingRecords hash index_of bound pending.old.records.items pending.old.numbers
        → ArePendingRecords hash index_of (map registered_of pending.new.records.items) pending.new.records.items pending.new.numbers) }
{
    match supply_all(source, pending.since(number)) {
        Ok(()) => Ok(()),
        Err(error) => {
            pending.truncate(number);
            Err(error)
        }
    }
}
