//! A hash that counts its calls.

ghost use Rattle.sha2.specs.Sha256.{sha256};

use coniks_proof::{Digest, Hash32, Sha256Hash};
use std::cell::Cell;

/// SHA-256, with a count of its calls.
#[derive(Drop)]
pub struct Counting {
    calls: Cell<u64>,
}

impl Counting {
    /// Returns a hash without calls.
    pub fn new() -> Counting {
        Counting {
            calls: Cell::new(0),
        }
    }

    /// Returns the number of calls, modulo 2^64.
    pub fn calls(&self) -> u64 {
        self.calls.get()
    }
}

impl Hash32 for Counting {
    ghost digest_of = { λ h message. sha256 message };

    fn hash(&self, pieces: &[&[u8]]) -> Digest {
        self.calls.set(self.calls.get().wrapping_add(1));
        Sha256Hash.hash(pieces)
    }
}
