//! Operations on the registry, and the errors of a batch.

ghost use Rattle.std.specs.Prelude.{◌≡◌, ◌<◌, ◌≤◌, List, IfErr, IfOk, OnOk, length};
ghost use Rattle.coniks_proof.specs.Batches.{Operation};
ghost use Rattle.coniks_proof.specs.Octets.{Octets};
ghost use Rattle.coniks_proof.specs.Registry.{Registry};
ghost use Rattle.coniks_directory.specs.Batches.{IsBatchFault};
ghost use Rattle.coniks_directory.specs.declared.batch.BatchFault.TheVariants.{BatchTooLong};

use coniks_proof::{Bytes, MAX_KEY, MAX_NAME, MAX_OPERATIONS, Nonce, Opening};
use coniks_threads::{MAX_DEPTH, MAX_WORKERS, Parallelism, ParallelismFault, Wanted};
use std::alloc::{AllocError, Global};
use thiserror::Error;

/// The kind of an operation: it registers a new name, or changes the key of a registered one.
#[derive(Clone, Copy, Debug, PartialEq, Eq)]
pub enum OpKind {
    Register,
    Change,
}

/// One operation of a batch.
#[derive(Drop)]
pub struct Op {
    pub kind: OpKind,
    /// 1 to `MAX_NAME` bytes.
    pub name: Bytes,
    /// 1 to `MAX_KEY` bytes.
    pub key: Bytes,
    /// The opening of the commitment to the name and the key.
    pub opening: Opening,
}

impl Op {
    /// Copies the operation.
    fn copied(&self, alloc: Global) -> Result<Op, AllocError>
        ensures { IfOk result (λ copy. copy ≡ self.now) }
    {
        Ok(Op {
            kind: self.kind,
            name: Bytes::copy_of(alloc, self.name.as_slice())?,
            key: Bytes::copy_of(alloc, self.key.as_slice())?,
            opening: self.opening,
        })
    }
}

/// A batch whose operations are handed over: the number of its epoch, the new nonce, if there is one, and the operations.
#[derive(Drop)]
pub struct EpochBatch {
    pub epoch: u64,
    /// The nonce under which the epoch's tree is rehashed, if any.
    pub nonce: Option<Nonce>,
    /// At most `MAX_OPERATIONS` operations.
    pub ops: Vec<Op>,
}

/// Copies operations.
///
/// # Errors
///
/// `AllocError` if an allocation fails.
pub(crate) fn copies_of(alloc: Global, ops: &[Op]) -> Result<Vec<Op>, AllocError>
    ensures { IfOk result (λ copies. copies.items ≡ ops.now) }
{
    let mut copies = Vec::with_capacity(alloc, ops.len())?;
    for op in ops {
        copies.push(op.copied(alloc)?)?;
    }
    Ok(copies)
}

/// The error of an operation. If several apply, the first in declaration order is returned.
#[derive(Clone, Copy, Debug, Drop, PartialEq, Eq, Error)]
pub enum OpFault {
    #[error("the name is empty or longer than {} bytes", MAX_NAME)]
    NameLength,
    #[error("the key is empty or longer than {} bytes", MAX_KEY)]
    KeyLength,
    #[error("an earlier operation has this name")]
    NameTwice,
    #[error("the name is registered")]
    NameTaken,
    #[error("the name isn't registered")]
    NameUnknown,
    #[error("another name has this name's index")]
    IndexClash,
}

/// The error of a batch. If several apply, the first in declaration order is returned.
///
/// `OutOfMemory` can also replace the error of an operation.
#[derive(Clone, Copy, Debug, Drop, PartialEq, Eq, Error)]
pub enum BatchFault {
    #[error("the number of workers isn't 1 to {}", MAX_WORKERS)]
    Workers,
    #[error("the depth is more than {}", MAX_DEPTH)]
    Depth,
    #[error("there are more than {} operations", MAX_OPERATIONS)]
    BatchTooLong,
    /// The position of the first operation that has an error, counted from 0, and its first error.
    #[error("operation {position}: {fault}")]
    At { position: usize, fault: OpFault },
    #[error("out of memory")]
    OutOfMemory,
}

/// Returns the parallelism of these numbers, if both are within their limits.
///
/// # Errors
///
/// `Workers` or `Depth`, the first that applies.
pub(crate) fn parallelism_of(wanted: Wanted) -> Result<Parallelism, BatchFault>
    ensures workers { IfOk result (λ parallelism. parallelism.workers ≡ wanted.workers) }
    ensures depth { IfOk result (λ parallelism. parallelism.depth ≡ wanted.depth) }
    ensures refused { IfErr result (λ fault. (index_of : Octets → Octets) (registry : Registry) (ops : List Operation)
        → IsBatchFault index_of registry ops wanted.depth wanted.workers fault) }
{
    match Parallelism::new(wanted) {
        Ok(parallelism) => Ok(parallelism),
        Err(ParallelismFault::Workers) => Err(BatchFault::Workers),
        Err(ParallelismFault::Depth) => Err(BatchFault::Depth),
    }
}

/// Checks that the batch's length is within its limit.
///
/// # Errors
///
/// `BatchTooLong` if it isn't.
pub(crate) fn check_length(ops: &[Op]) -> Result<(), BatchFault>
    ensures few { OnOk result (length ops.now ≤ MAX_OPERATIONS) }
    ensures refused { IfErr result (λ fault. (fault ≡ BatchTooLong) × (MAX_OPERATIONS < length ops.now)) }
{
    if ops.len() > MAX_OPERATIONS {
        return Err(BatchFault::BatchTooLong);
    }
    Ok(())
}
