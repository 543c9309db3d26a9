//! The state of a directory.

ghost use Rattle.std.specs.Prelude.{◌≡◌, ◌-◌, length, slice_get};
ghost use Rattle.coniks_proof.specs.Octets.{Octets};
ghost use Rattle.coniks_directory.specs.History.{latest_epoch, latest_nonce, latest_version};
ghost use Rattle.coniks_directory.specs.Holders.{IsLatestRoot};

use crate::epochs::Epoch;
use coniks_chain::{AuditorState, Entry};
use coniks_proof::{Digest, Nonce};
use coniks_tree::{Root, Tree};
use std::alloc::Global;

/// The state of a directory beside its hash and its index source.
///
/// It contains the nonce of `open` or of the entry that was restored, the policy, what the chain's first entry follows, the
/// tree that all epochs share, the epochs, the chain, and the link of the last entry, or 32 zero bytes if there is none.
#[derive(Drop)]
pub(crate) struct DirectoryState {
    pub(crate) nonce: Nonce,
    pub(crate) policy: [u8; 32],
    pub(crate) before: Option<AuditorState>,
    pub(crate) tree: Tree,
    pub(crate) epochs: Vec<Epoch>,
    pub(crate) chain: Vec<Entry>,
    pub(crate) link: Digest,
}

impl DirectoryState {
    ghost use Rattle.coniks_directory.specs.State.{IsInstalled, IsLinked, Whole, history_of, opened, state_of};

    /// Returns the state without epochs and names.
    pub(crate) fn new(alloc: Global, nonce: Nonce, policy: [u8; 32]) -> Self
        ensures opened { state_of result ≡ opened nonce.0 policy }
        ensures linked { (hash : Octets → Octets) → IsLinked hash result }
    {
        DirectoryState {
            nonce,
            policy,
            before: None,
            tree: Tree::new(alloc),
            epochs: Vec::new(alloc),
            chain: Vec::new(alloc),
            link: Digest([0; 32]),
        }
    }

    /// Returns the number of epochs.
    pub(crate) fn count(&self) -> usize
        ensures { result ≡ length (state_of self.now).epochs }
    {
        self.epochs.len()
    }

    /// Returns the latest epoch's number, or 0 if there is none.
    pub(crate) fn latest(&self) -> u64
        ensures { result ≡ latest_epoch (history_of (state_of self.now)) }
    {
        Epoch::latest(&self.epochs)
    }

    /// Returns the last epoch, if there is one.
    fn last(&self) -> Option<Epoch>
        ensures { result ≡ slice_get (state_of self.now).epochs (length (state_of self.now).epochs - 1) }
    {
        Epoch::last(&self.epochs)
    }

    /// Returns the root of the latest epoch's tree, if there is one.
    pub(crate) fn latest_root(&self) -> Option<Root>
        ensures { (hash index_of : Octets → Octets) → Whole hash index_of (state_of self.now) → IsLatestRoot hash index_of (state_of self.now) result }
    {
        match self.last() {
            Some(epoch) => Some(epoch.root),
            None => None,
        }
    }

    /// Returns the version of the latest epoch's entry, or 1 if there is none.
    pub(crate) fn latest_version(&self) -> u8
        ensures { result ≡ latest_version 1 (history_of (state_of self.now)) }
    {
        match self.last() {
            Some(epoch) => epoch.version,
            None => 1,
        }
    }

    /// Returns the nonce under which the latest tree is hashed, or that of `open` if there is none.
    pub(crate) fn latest_nonce(&self) -> Nonce
        ensures { result.0 ≡ latest_nonce (state_of self.now).nonce (history_of (state_of self.now)) }
    {
        match self.last() {
            Some(epoch) => epoch.nonce,
            None => self.nonce,
        }
    }

    /// Returns the epoch of exactly this number, with its entry.
    pub(crate) fn installed(&self, t: u64) -> Option<(Epoch, Entry)>
        ensures { (hash index_of : Octets → Octets) → Whole hash index_of (state_of self.now) → IsInstalled hash index_of (state_of self.now) t result }
    {
        let (place, epoch) = Epoch::of_number(&self.epochs, t)?;
        Some((epoch, self.entry(place)?))
    }

    /// Returns the entry at a position, if there is one.
    fn entry(&self, place: usize) -> Option<Entry>
        ensures { result ≡ slice_get (state_of self.now).chain place }
    {
        self.chain.get(place).copied()
    }
}
