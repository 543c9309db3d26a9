//! The demonstration index, which claims no security.

ghost use Rattle.std.specs.Prelude.{◌≡◌};

use coniks_directory::IndexSource;
use coniks_proof::{Hash32, Index, Sha256Hash};
use std::marker::Model;

/// The byte before the preimage of an index.
const INDEX_TAG: u8 = 0x56;

/// A demonstration source, which gives each name an index under a key. It claims no security.
///
/// Contracts see it as the list of its key's bytes.
#[derive(Clone, Copy)]
pub struct DemoIndex {
    key: [u8; 32],
}

impl Model for DemoIndex {
    ghost use Rattle.coniks_proof.specs.Octets.{Octets};

    ghost Value = { Octets };

    ghost view = { λ source. source.key };

    ghost inverse = { λ key. record { key = key } };
}

impl DemoIndex {
    /// Returns the index source of a key.
    pub fn new(key: [u8; 32]) -> DemoIndex
        ensures { result ≡ key }
    {
        DemoIndex { key }
    }
}

impl IndexSource for DemoIndex {
    ghost use Rattle.coniks_tool.specs.Demo.{demo_index};

    ghost index_of = { λ source name. demo_index source name };

    /// Returns SHA-256 of the byte 56 (hexadecimal), the key and the name.
    fn index(&self, name: &[u8]) -> Index {
        let digest = Sha256Hash.hash(&[&[INDEX_TAG], &self.key, name]);
        Index(digest.0)
    }
}
