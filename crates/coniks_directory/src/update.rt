//! Prepared updates, and the errors of an install.

ghost use Rattle.std.specs.Prelude.{◌≡◌, Err, IfErr, IfOk, Ok};
ghost use Rattle.coniks_directory.specs.declared.update.CommitFault.TheVariants.{Batch, Install};
ghost use Rattle.coniks_tree.specs.Parts.{node_count};

use crate::batch::BatchFault;
use coniks_proof::Nonce;
use coniks_tree::{Part, Record};
use thiserror::Error;

/// An update that `prepare` made of a batch: the new tree and the new records.
///
/// It is for the directory that it was prepared from, until another epoch is installed there.
#[derive(Drop)]
pub struct Prepared {
    /// The number of epochs when the update was prepared.
    pub(crate) base: usize,
    /// The version of the entry.
    pub(crate) version: u8,
    /// The nonce under which the part is hashed.
    pub(crate) nonce: Nonce,
    pub(crate) part: Part,
    pub(crate) records: Vec<Record>,
    pub(crate) new_nodes: usize,
    pub(crate) ghost counted: { new_nodes ≡ node_count part },
}

impl Prepared {
    ghost use Rattle.std.specs.Prelude.{◌≡◌, map};
    ghost use Rattle.coniks_directory.specs.State.{registered_of};
    ghost use Rattle.coniks_directory.specs.Updates.{nodes_added};
    ghost use Rattle.coniks_proof.specs.Registry.{has_name};

    /// Returns the number of nodes that an install of the update adds, empty nodes and the root included.
    ///
    /// An update of b operations, b at least 1, adds at most `512 * b + 1` nodes. Without operations it adds one node as
    /// the first epoch, and none later.
    pub fn new_nodes(&self) -> usize
        ensures { result ≡ nodes_added self.now }
    {
        self.new_nodes
    }

    /// Returns whether one of the batch's operations is on the name.
    pub fn binds(&self, name: &[u8]) -> bool
        ensures { result ≡ has_name (map registered_of self.now.records.items) name.now }
    {
        for record in &self.records {
            if record.binding.name.as_slice() == name {
                return true;
            }
        }
        false
    }
}

/// The error of an install. If several apply, the first in declaration order is returned.
#[derive(Clone, Copy, Debug, Drop, PartialEq, Eq, Error)]
pub enum InstallFault {
    /// An epoch was installed after the update was prepared.
    #[error("the update is stale: the latest epoch is {latest}")]
    Stale { latest: u64 },
    /// The epoch is not later than the latest one, or is 0 if there is none.
    #[error("the epoch isn't later than {latest}")]
    EpochNotLater { latest: u64 },
    /// The board has no room for another head.
    #[error("the board is full")]
    BoardFull,
    /// An allocation failed.
    #[error("out of memory")]
    OutOfMemory,
    /// The signer returned no signature.
    #[error("the signer refused")]
    SignerRefused,
}

/// The error of a commit: that of the batch or that of the install.
#[derive(Clone, Copy, Debug, Drop, PartialEq, Eq, Error)]
pub enum CommitFault {
    #[error("the batch is refused: {0}")]
    Batch(BatchFault),
    #[error("the update is refused: {0}")]
    Install(InstallFault),
}

/// Returns the update that a commit prepared. The error is the batch's, also if an allocation failed.
pub(crate) fn in_prepare(prepared: Result<Prepared, BatchFault>) -> Result<Prepared, CommitFault>
    ensures update { IfOk prepared (λ update. result ≡ Ok update) }
    ensures fault { IfErr prepared (λ fault. result ≡ Err (Batch fault)) }
{
    match prepared {
        Ok(update) => Ok(update),
        Err(fault) => Err(CommitFault::Batch(fault)),
    }
}

/// Returns the error of a commit whose install returned this one, also if an allocation failed.
pub(crate) fn in_install(fault: InstallFault) -> CommitFault
    ensures { result ≡ Install fault }
{
    CommitFault::Install(fault)
}
