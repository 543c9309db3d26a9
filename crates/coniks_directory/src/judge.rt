//! Checks a batch on a registry, operation by operation.

ghost use Rattle.std.specs.Prelude.{◌≡◌, ◌≢◌, ◌++◌, ◌∷◌, ◌<◌, [], List, None, Ok, IfErr, IfOk, IfSome, OnErr, OnOk, length, map, option_map};
ghost use Rattle.coniks_proof.specs.Batches.{bound_by, fault_from, fault_of, first_fault};
ghost use Rattle.coniks_proof.specs.Octets.{Octets};
ghost use Rattle.coniks_proof.specs.Registry.{Registered, Registry};
ghost use Rattle.coniks_tree.specs.Trees.{table_of};
ghost use Rattle.coniks_directory.specs.Batches.{fault_is, operation_of, operations};
ghost use Rattle.coniks_directory.specs.Holders.{ShowsLatest};
ghost use Rattle.coniks_directory.specs.Judged.{ArePendingRecords, IsJudgedFault, IsJudgedFaultAfter, IsSamePending};

use crate::batch::{BatchFault, Op, OpFault, copies_of};
use crate::conflicts::{holder_at, op_fault};
use crate::lengths::length_fault;
use crate::pending::{PendingRecords, record_of};
use crate::source::IndexSource;
use coniks_tree::{Root, Tree};
use std::alloc::{AllocError, Global};

/// Adds the record of an operation to those of the earlier ones, or returns the operation's error and adds nothing.
fn judge_one<X: IndexSource>(
    source: &X,
    tree: &Tree,
    root: Option<Root>,
    pending: &mut PendingRecords,
    op: Op,
) -> Result<Option<OpFault>, AllocError>
    requires { IfSome root (λ r. r.0 < length tree.now.nodes) }
    ensures fault { IfOk result (λ fault. (hash : Octets → Octets) (nonce : Octets) (registry : Registry) (bound : List Registered)
        → ShowsLatest hash (X.index_of source.now) nonce (table_of tree.now) root registry
        → ArePendingRecords hash (X.index_of source.now) bound pending.old.records.items pending.old.numbers
        → option_map fault_is fault ≡ fault_of (X.index_of source.now) registry bound (operation_of op)) }
    ensures pending { result ≡ Ok None → (hash : Octets → Octets) (bound : List Registered)
        → ArePendingRecords hash (X.index_of source.now) bound pending.old.records.items pending.old.numbers
        → ArePendingRecords hash (X.index_of source.now) (bound ++ bound_by (operation_of op) ∷ []) pending.new.records.items pending.new.numbers }
    ensures retained { result ≢ Ok None → IsSamePending pending.old pending.new }
{
    if let Some(fault) = length_fault(&op) {
        return Ok(Some(fault));
    }
    let index = source.index(op.name.as_slice());
    let present = holder_at(tree, root, &index);
    let earlier = pending.holder(&index);
    if let Some(fault) = op_fault(&op, present, earlier) {
        return Ok(Some(fault));
    }
    pending.add(record_of(index, op))?;
    Ok(None)
}

/// Adds the records of a batch's operations to those of earlier ones.
///
/// # Errors
///
/// The position of the first operation that has an error, and its first error, or `OutOfMemory` if an allocation fails.
/// The records are then those of the earlier operations.
pub(crate) fn judge_all<X: IndexSource>(
    source: &X,
    tree: &Tree,
    root: Option<Root>,
    pending: &mut PendingRecords,
    ops: Vec<Op>,
) -> Result<(), BatchFault>
    requires { IfSome root (λ r. r.0 < length tree.now.nodes) }
    ensures pending { OnOk result ((hash : Octets → Octets) (bound : List Registered)
        → ArePendingRecords hash (X.index_of source.now) bound pending.old.records.items pending.old.numbers
        → ArePendingRecords hash (X.index_of source.now) (bound ++ map bound_by (operations ops.items)) pending.new.records.items pending.new.numbers) }
    ensures faultless { OnOk result ((hash : Octets → Octets) (nonce : Octets) (registry : Registry) (bound : List Registered)
        → ShowsLatest hash (X.index_of source.now) nonce (table_of tree.now) root registry
        → ArePendingRecords hash (X.index_of source.now) bound pending.old.records.items pending.old.numbers
        → fault_from (X.index_of source.now) registry bound 0 (operations ops.items) ≡ None) }
    ensures fault { IfErr result (λ fault. (hash : Octets → Octets) (nonce : Octets) (registry : Registry) (bound : List Registered)
        → ShowsLatest hash (X.index_of source.now) nonce (table_of tree.now) root registry
        → ArePendingRecords hash (X.index_of source.now) bound pending.old.records.items pending.old.numbers
        → IsJudgedFaultAfter (X.index_of source.now) registry bound (operations ops.items) fault) }
    ensures retained { OnErr result ((hash : Octets → Octets) (bound : List Registered)
        → ArePendingRecords hash (X.index_of source.now) bound pending.old.records.items pending.old.numbers
        → ArePendingRecords hash (X.index_of source.now) bound pending.new.records.items pending.new.numbers) }
{
    let earlier = pending.count();
    for (position, op) in ops.into_iter().enumerate() {
        match judge_one(source, tree, root, pending, op) {
            Ok(None) => {}
            Ok(Some(fault)) => {
                pending.truncate(earlier);
                return Err(BatchFault::At { position, fault });
            }
            Err(_) => {
                pending.truncate(earlier);
                return Err(BatchFault::OutOfMemory);
            }
        }
    }
    Ok(())
}

/// Adds the records of a batch's operations to those of earlier ones, as `judge_all` does before the first epoch, and copies
/// the operations.
///
/// # Errors
///
/// The errors of `judge_all`.
pub(crate) fn judge_copies<X: IndexSource>(
    alloc: Global,
    source: &X,
    tree: &Tree,
    pending: &mut PendingRecords,
    ops: &[Op],
) -> Result<(), BatchFault>
    ensures pending { OnOk result ((hash : Octets → Octets) (bound : List Registered)
        → ArePendingRecords hash (X.index_of source.now) bound pending.old.records.items pending.old.numbers
        → ArePendingRecords hash (X.index_of source.now) (bound ++ map bound_by (operations ops.now)) pending.new.records.items pending.new.numbers) }
    ensures faultless { OnOk result ((hash : Octets → Octets) (bound : List Registered)
        → ArePendingRecords hash (X.index_of source.now) bound pending.old.records.items pending.old.numbers
        → fault_from (X.index_of source.now) [] bound 0 (operations ops.now) ≡ None) }
    ensures fault { IfErr result (λ fault. (hash : Octets → Octets) (bound : List Registered)
        → ArePendingRecords hash (X.index_of source.now) bound pending.old.records.items pending.old.numbers
        → IsJudgedFaultAfter (X.index_of source.now) [] bound (operations ops.now) fault) }
    ensures retained { OnErr result ((hash : Octets → Octets) (bound : List Registered)
        → ArePendingRecords hash (X.index_of source.now) bound pending.old.records.items pending.old.numbers
        → ArePendingRecords hash (X.index_of source.now) bound pending.new.records.items pending.new.numbers) }
{
    let Ok(copies) = copies_of(alloc, ops) else {
        return Err(BatchFault::OutOfMemory);
    };
    judge_all(source, tree, None, pending, copies)?;
    Ok(())
}

/// Returns the records of a batch's operations, after all are checked. They have no commitments yet.
///
/// # Errors
///
/// The position of the first operation that has an error, and its first error, or `OutOfMemory` if an allocation fails.
pub(crate) fn judged<X: IndexSource>(
    alloc: Global,
    source: &X,
    tree: &Tree,
    root: Option<Root>,
    ops: Vec<Op>,
) -> Result<PendingRecords, BatchFault>
    requires { IfSome root (λ r. r.0 < length tree.now.nodes) }
    ensures pending { IfOk result (λ pending. (hash : Octets → Octets)
        → ArePendingRecords hash (X.index_of source.now) (map bound_by (operations ops.items)) pending.records.items pending.numbers) }
    ensures faultless { OnOk result ((hash : Octets → Octets) (nonce : Octets) (registry : Registry)
        → ShowsLatest hash (X.index_of source.now) nonce (table_of tree.now) root registry
        → first_fault (X.index_of source.now) registry (operations ops.items) ≡ None) }
    ensures fault { IfErr result (λ fault. (hash : Octets → Octets) (nonce : Octets) (registry : Registry)
        → ShowsLatest hash (X.index_of source.now) nonce (table_of tree.now) root registry
        → IsJudgedFault (X.index_of source.now) registry (operations ops.items) fault) }
{
    let Ok(mut pending) = PendingRecords::new(alloc, ops.len()) else {
        return Err(BatchFault::OutOfMemory);
    };
    judge_all(source, tree, root, &mut pending, ops)?;
    Ok(pending)
}
