//! Signed entries with their links.

ghost use Rattle.std.specs.Prelude.{◌≡◌};
ghost use Rattle.coniks_chain.specs.Entries.{link_preimage};
ghost use Rattle.coniks_proof.specs.Sha256.{sha256};

use coniks_chain::{Entry, link};
use coniks_proof::{Digest, Sha256Hash};
use std::marker::Model;

/// A signed entry with its link, the SHA-256 of the entry, which is computed once.
///
/// Contracts see it as the entry.
#[derive(Drop)]
pub struct LinkedEntry {
    entry: Entry,
    link: Digest,
}

impl Model for LinkedEntry {
    ghost use Rattle.std.specs.Prelude.{◌≡◌};
    ghost use Rattle.coniks_chain.specs.Entries.{link_preimage};
    ghost use Rattle.coniks_chain.specs.declared.entry.Entry.{Entry};
    ghost use Rattle.coniks_proof.specs.Sha256.{sha256};

    ghost Value = { Entry };

    ghost view = { λ linked. linked.entry };

    ghost invariant = { λ linked. linked.link.0 ≡ sha256 (link_preimage linked.entry) };
}

impl LinkedEntry {
    /// Computes the link of an entry.
    pub fn new(entry: Entry) -> LinkedEntry
        ensures { result ≡ entry }
    {
        let link = link(&Sha256Hash, &entry);
        LinkedEntry { entry, link }
    }

    /// Returns the link.
    pub fn link(&self) -> Digest
        ensures { result.0 ≡ sha256 (link_preimage self.now) }
    {
        self.link
    }

    /// Returns the entry.
    pub fn entry(&self) -> Entry
        ensures { result ≡ self.now }
    {
        self.entry
    }
}
