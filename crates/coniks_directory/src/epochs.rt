//! Epochs, found by their numbers.

ghost use Rattle.std.specs.Prelude.{◌≡◌, ◌==◌, ◌-◌, ℕ, IfSome, Some, length, map, option_map, slice_get};
ghost use Rattle.std.specs.List.{find};
ghost use Rattle.coniks_directory.specs.History.{AreRising, last_number};

use coniks_proof::Nonce;
use coniks_tree::Root;

/// An installed epoch.
#[derive(Clone, Copy, Debug)]
pub struct Epoch {
    /// Its number, at least 1.
    pub t: u64,
    /// The version of its entry.
    pub version: u8,
    /// The nonce under which its tree is hashed.
    pub nonce: Nonce,
    /// The root of its tree.
    pub root: Root,
    /// The number of records after its install.
    pub count: usize,
}

impl Epoch {
    ghost use Rattle.coniks_directory.specs.declared.epochs.Epoch.{Epoch};

    /// Returns the epoch of exactly this number with its position, among epochs in increasing order of number.
    ///
    /// It halves the list until one epoch is left.
    pub(crate) fn of_number(epochs: &[Epoch], t: u64) -> Option<(usize, Epoch)>
        ensures found { AreRising 0 (map (λ (e : Epoch). e.t) epochs.now)
            → option_map (λ (it : ℕ × Epoch). it.1) result ≡ find (λ (e : Epoch). e.t == t) epochs.now }
        ensures there { IfSome result (λ it. (slice_get epochs.now it.0 ≡ Some it.1) × (it.1.t ≡ t)) }
    {
        let place = epochs.partition_point(|epoch| epoch.t < t);
        match Epoch::at(epochs, place) {
            Some(epoch) if epoch.t == t => Some((place, epoch)),
            _ => None,
        }
    }

    /// Returns the epoch at a position, if there is one.
    fn at(epochs: &[Epoch], place: usize) -> Option<Epoch>
        ensures { result ≡ slice_get epochs.now place }
    {
        epochs.get(place).copied()
    }

    /// Returns the latest number, or 0 if there is none.
    pub(crate) fn latest(epochs: &[Epoch]) -> u64
        ensures { result ≡ last_number 0 (map (λ (e : Epoch). e.t) epochs.now) }
    {
        match Epoch::last(epochs) {
            Some(epoch) => epoch.t,
            None => 0,
        }
    }

    /// Returns the last epoch, if there is one.
    pub(crate) fn last(epochs: &[Epoch]) -> Option<Epoch>
        ensures { result ≡ slice_get epochs.now (length epochs.now - 1) }
    {
        epochs.last().copied()
    }
}
