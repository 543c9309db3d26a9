//! The checked operations of a batch: their records, found by index, and the commitments of these.

ghost use Rattle.std.specs.Prelude.{◌≡◌, ◌<◌, ◌≤◌, ◌+◌, ◌++◌, ◌∷◌, [], List, IfOk, MatchOption, None, OnErr, OnOk, Some, drop, length, map, slice_get, take};
ghost use Rattle.coniks_proof.specs.Batches.{bound_by};
ghost use Rattle.coniks_proof.specs.Octets.{Octets};
ghost use Rattle.coniks_proof.specs.Registry.{AreWithin, IsFree, IsLength, Registered, has_name};
ghost use Rattle.coniks_directory.specs.Batches.{operation_of};
ghost use Rattle.coniks_directory.specs.Holders.{HolderIs};
ghost use Rattle.coniks_directory.specs.Judged.{ArePendingRecords, AreCommitted, IsPendingRecord, IsSamePending};
ghost use Rattle.coniks_directory.specs.State.{registered_of};

use crate::batch::Op;
use crate::build::Build;
use crate::commitments::commit_apart;
use crate::conflicts::is_of;
use coniks_proof::{Binding, Digest, Hash32, Index, MAX_KEY, MAX_NAME};
use coniks_threads::Gate;
use coniks_tree::Record;
use std::alloc::{AllocError, Global};
use std::collections::BTreeMap;
use std::thread::Threads;

/// The commitment of a record until all operations of the batch are checked.
const UNCOMMITTED: Digest = Digest([0; 32]);

/// The records of the checked operations, in their order, and the number of the record at each index.
#[derive(Drop)]
pub(crate) struct PendingRecords {
    pub(crate) records: Vec<Record>,
    pub(crate) numbers: BTreeMap<[u8; 32], usize>,
}

impl PendingRecords {
    /// Returns no operations, with room for this number of records.
    pub(crate) fn new(alloc: Global, operations: usize) -> Result<PendingRecords, AllocError>
        ensures { IfOk result (λ pending. (hash index_of : Octets → Octets) → ArePendingRecords hash index_of [] pending.records.items pending.numbers) }
    {
        Ok(PendingRecords {
            records: Vec::with_capacity(alloc, operations)?,
            numbers: BTreeMap::new(alloc),
        })
    }

    /// Returns the record at an index, if one of the operations has it.
    pub(crate) fn holder(&self, index: &Index) -> Option<&Record>
        ensures { (hash index_of : Octets → Octets) (bound : List Registered) → ArePendingRecords hash index_of bound self.now.records.items self.now.numbers
            → HolderIs index_of bound index.now.0 result }
    {
        let number = self.numbers.get(&index.0)?;
        record_at(&self.records, *number)
    }

    /// Returns whether one of the operations has the name, which has this index.
    pub(crate) fn binds(&self, index: &Index, name: &[u8]) -> bool
        ensures { (hash index_of : Octets → Octets) (bound : List Registered) → ArePendingRecords hash index_of bound self.now.records.items self.now.numbers
            → index.now.0 ≡ index_of name.now → result ≡ has_name bound name.now }
    {
        is_of(self.holder(index), name)
    }

    /// Returns the number of operations.
    pub(crate) fn count(&self) -> usize
        ensures { result ≡ length self.now.records.items }
    {
        self.records.len()
    }

    /// Returns the records of the operations from a number on.
    pub(crate) fn since(&self, number: usize) -> &[Record]
        requires { number ≤ length self.now.records.items }
        ensures { result.now ≡ drop number self.now.records.items }
    {
        &self.records[number..]
    }

    /// Adds the record of the next operation, whose index has none. After an error nothing has changed.
    pub(crate) fn add(&mut self, made: Record) -> Result<(), AllocError>
        ensures records { OnOk result (self.new.records.items ≡ self.old.records.items ++ made ∷ []) }
        ensures retained { OnErr result (IsSamePending self.old self.new) }
        ensures pending { OnOk result ((hash index_of : Octets → Octets) (bound : List Registered)
            → ArePendingRecords hash index_of bound self.old.records.items self.old.numbers
            → IsPendingRecord index_of made → IsFree index_of bound made.index.0
            → ArePendingRecords hash index_of (bound ++ registered_of made ∷ []) self.new.records.items self.new.numbers) }
    {
        let index = made.index.0;
        let number = self.records.len();
        self.records.push(made)?;
        match self.numbers.insert(index, number) {
            Ok(_) => Ok(()),
            Err(_) => {
                self.records.pop();
                Err(AllocError)
            }
        }
    }

    /// Removes the record of the last operation.
    fn remove_last(&mut self)
        requires { 0 < length self.old.records.items }
        ensures fewer { length self.new.records.items + 1 ≡ length self.old.records.items }
        ensures records { (more : List Record) × (self.old.records.items ≡ self.new.records.items ++ more) }
        ensures pending { (hash index_of : Octets → Octets) (bound : List Registered)
            → ArePendingRecords hash index_of bound self.old.records.items self.old.numbers
            → ArePendingRecords hash index_of (map registered_of self.new.records.items) self.new.records.items self.new.numbers }
    {
        let Some(record) = self.records.pop() else {
            unreachable!()
        };
        self.numbers.remove(&record.index.0);
    }

    /// Keeps the records of the first operations, this number of them, and removes the others.
    pub(crate) fn truncate(&mut self, count: usize)
        ensures records { self.new.records.items ≡ take count self.old.records.items }
        ensures pending { (hash index_of : Octets → Octets) (bound : List Registered)
            → ArePendingRecords hash index_of bound self.old.records.items self.old.numbers
            → ArePendingRecords hash index_of (map registered_of self.new.records.items) self.new.records.items self.new.numbers }
    {
        for _place in count..self.records.len() {
            self.remove_last();
        }
    }

    /// Stores its commitment in each record, in worker threads if there are many records.
    pub(crate) fn commit_records<H: Hash32 + Sync, G: Gate + Sync, R: Threads + Sync>(
        &mut self,
        build: &Build<'_, G, R>,
        h: &H,
    )
        requires within { AreWithin (map registered_of self.old.records.items) }
        ensures committed { AreCommitted (H.digest_of h.now) self.new.records.items }
        ensures pending { (hash index_of : Octets → Octets) (bound : List Registered)
            → ArePendingRecords hash index_of bound self.old.records.items self.old.numbers
            → ArePendingRecords hash index_of bound self.new.records.items self.new.numbers }
    {
        commit_apart(build.rt, build.parallelism.workers(), h, &mut self.records);
    }
}

/// Returns the record of a number, if there is one.
fn record_at(records: &[Record], number: usize) -> Option<&Record>
    ensures { MatchOption result (slice_get records.now number ≡ None) (λ found. slice_get records.now number ≡ Some found.now) }
{
    records.get(number)
}

/// Returns the record of an operation, whose name has this index. It takes the operation's name and key, and its commitment
/// is added later.
pub(crate) fn record_of(index: Index, op: Op) -> Record
    requires name { IsLength MAX_NAME op.name }
    requires key { IsLength MAX_KEY op.key }
    ensures binds { registered_of result ≡ bound_by (operation_of op) }
    ensures drafted { (index_of : Octets → Octets) → index.0 ≡ index_of op.name → IsPendingRecord index_of result }
    ensures indexed { result.index.0 ≡ index.0 }
{
    index.known();
    let Op {
        name,
        key,
        opening,
        ..
    } = op;
    Record {
        index,
        binding: Binding { name, key },
        opening,
        commitment: UNCOMMITTED,
    }
}
