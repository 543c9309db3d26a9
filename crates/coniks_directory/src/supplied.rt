//! Indices that another process computes, and that the caller supplies after `open`.

ghost use Rattle.std.specs.Prelude.{◌≡◌, IfSome, None, OnErr, OnOk, [], false, true};
ghost use Rattle.coniks_directory.specs.Supplied.{IsSupplied, is_supplied, supplied_index};
ghost use Rattle.coniks_directory.specs.SuppliedBatches.{put_index};

use crate::name_key::NameKey;
use crate::source::IndexSource;
use coniks_proof::{Index, MAX_NAME};
use std::alloc::{AllocError, Global};
use std::collections::BTreeMap;
use std::marker::Model;
use thiserror::Error;

/// A source to which the caller supplies indices.
pub trait SupplyIndex: IndexSource {
    /// Stores the index of a name, and replaces an earlier one.
    ///
    /// # Errors
    ///
    /// `AllocError` if an allocation fails. After an error nothing has changed.
    fn supply(&mut self, name: &[u8], index: Index) -> Result<(), AllocError>
        ensures supplied { OnOk result (IsSupplied (Self.index_of self.old) name.now index.0 (Self.index_of self.new)) }
        ensures unchanged { OnErr result (self.new ≡ self.old) };
}

/// An index source that holds the indices that were supplied to it.
///
/// Contracts see it as a list of names with their indices, in the order of the names.
///
/// `prepare_owned` takes batches that come with the indices of their names. For `prepare`, supply the index of each
/// name before a batch registers it; `has` returns whether that was done. A name without an index counts as having 32
/// zero bytes, and is registered at that index permanently.
#[derive(Drop)]
pub struct SuppliedIndices {
    alloc: Global,
    indices: BTreeMap<NameKey, Index>,
}

impl Model for SuppliedIndices {
    ghost use Rattle.std.specs.Prelude.{List, map};
    ghost use Rattle.coniks_directory.specs.Supplied.{Supplied};

    ghost Value = { List Supplied };

    ghost view = { λ t. map (λ e. (e.0, e.1.0)) t.indices.entries };
}

impl SuppliedIndices {
    ghost use Rattle.std.specs.Prelude.{◌&&◌, length, not};
    ghost use Rattle.std.specs.Str.{bytes_eq};

    /// Returns a source without indices. Allocates nothing.
    pub fn new(alloc: Global) -> SuppliedIndices
        ensures { result ≡ [] }
    {
        SuppliedIndices {
            alloc,
            indices: BTreeMap::new(alloc),
        }
    }

    /// Returns whether an index was supplied for the name.
    pub fn has(&self, name: &[u8]) -> bool
        ensures { result ≡ is_supplied self.now name.now }
    {
        self.indices.contains_key(name)
    }

    /// Returns the index that was supplied for the name, if one was.
    pub fn get(&self, name: &[u8]) -> Option<&Index>
        ensures some { IfSome result (λ index. (is_supplied self.now name.now ≡ true) × (index.now.0 ≡ supplied_index self.now name.now)) }
        ensures none { result ≡ None → is_supplied self.now name.now ≡ false }
    {
        self.indices.get(name)
    }

    /// Returns whether an index other than this one was supplied for the name.
    pub fn has_other(&self, name: &[u8], index: &Index) -> bool
        ensures { result ≡ is_supplied self.now name.now && not (bytes_eq (supplied_index self.now name.now) index.now.0) }
    {
        match self.get(name) {
            Some(own) => own.0 != index.0,
            None => false,
        }
    }

    /// Returns the number of names that have an index.
    pub fn count(&self) -> usize
        ensures { result ≡ length self.now }
    {
        self.indices.len()
    }

    /// Stores the index of a name that has none. A name that has one keeps it.
    ///
    /// # Errors
    ///
    /// `AllocError` if an allocation fails.
    pub(crate) fn supply_first(&mut self, name: &[u8], index: Index) -> Result<(), AllocError>
        ensures retained { OnOk result (is_supplied self.old name.now ≡ true → self.new ≡ self.old) }
        ensures put { OnOk result (is_supplied self.old name.now ≡ false → self.new ≡ put_index self.old name.now index.0) }
    {
        if self.has(name) {
            return Ok(());
        }
        self.supply(name, index)
    }
}

impl IndexSource for SuppliedIndices {
    ghost use Rattle.coniks_directory.specs.Supplied.{supplied_index};

    ghost index_of = { λ supplied name. supplied_index supplied name };

    /// Returns the index that was supplied for the name, or 32 zero bytes if none was.
    fn index(&self, name: &[u8]) -> Index {
        match self.indices.get(name) {
            Some(index) => *index,
            None => Index([0; 32]),
        }
    }
}

impl SupplyIndex for SuppliedIndices {
    fn supply(&mut self, name: &[u8], index: Index) -> Result<(), AllocError>
        ensures supplied { OnOk result (IsSupplied (supplied_index self.old) name.now index.0 (supplied_index self.new)) }
        ensures put { OnOk result (self.new ≡ put_index self.old name.now index.0) }
        ensures unchanged { OnErr result (self.new ≡ self.old) }
    {
        let name = Vec::from_slice(self.alloc, name)?;
        self.indices.insert(NameKey::new(name), index)?;
        Ok(())
    }
}

/// The error of `supply`. If several apply, the first in declaration order is returned.
#[derive(Clone, Copy, Debug, Drop, PartialEq, Eq, Error)]
pub enum SupplyFault {
    /// The name is empty or longer than `MAX_NAME` bytes.
    #[error("the name is empty or longer than {} bytes", MAX_NAME)]
    NameLength,
    /// The name is registered with another index.
    #[error("the name is registered with another index")]
    OtherIndex,
    /// An allocation failed.
    #[error("out of memory")]
    OutOfMemory,
}
