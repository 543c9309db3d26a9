//! Proofs that borrow their siblings, name and key from a `Proof` or from bytes.

ghost use Rattle.std.specs.Prelude.{◌≡◌, ◌<◌, length, map, slice_get};
ghost use Rattle.coniks_proof.specs.ProofRefs.{digest_of, listed, owned};

use crate::paths::{End, Proof};
use crate::values::{Digest, Index, Opening};
use std::marker::Model;

/// The borrowed siblings of a proof, from the root down. At most 256 are accepted.
#[derive(Clone, Copy, Debug, Drop)]
pub enum Siblings<'a> {
    /// Digests.
    Listed(&'a [Digest]),
    /// The bytes of digests.
    Wire(&'a [[u8; 32]]),
}

/// The end of an authentication path, with a borrowed name and key.
#[derive(Clone, Copy, Debug, Drop)]
pub enum EndRef<'a> {
    /// An empty node: no index of the tree begins with the path's bits.
    Empty,
    /// A leaf of another index, which begins with the path's bits.
    Other {
        index: Index,
        commitment: Digest,
    },
    /// The leaf of the requested index, with the opening of its commitment.
    Here {
        name: &'a [u8],
        key: &'a [u8],
        opening: Opening,
    },
}

/// A borrowed presence or absence proof. Contracts see it as the `Proof` that it represents.
#[derive(Drop)]
pub struct ProofRef<'a> {
    siblings: Siblings<'a>,
    end: EndRef<'a>,
}

impl<'a> Model for ProofRef<'a> {
    ghost use Rattle.coniks_proof.specs.declared.paths.Proof.{Proof};
    ghost use Rattle.coniks_proof.specs.ProofRefs.{listed, owned};

    ghost Value = { Proof };

    ghost view = { λ p. record { siblings = listed p.siblings; end = owned p.end } };
}

/// Returns the digest at a position.
fn digest_at(digests: &[Digest], place: usize) -> Digest
    requires { place < length digests.now }
    ensures { slice_get digests.now place ≡ Some result }
{
    digests[place]
}

/// Returns the digest whose bytes are at a position.
fn string_at(strings: &[[u8; 32]], place: usize) -> Digest
    requires { place < length strings.now }
    ensures { slice_get (map digest_of strings.now) place ≡ Some result }
{
    Digest(strings[place])
}

impl Siblings<'_> {
    /// Returns the number of siblings.
    pub fn len(&self) -> usize
        ensures { result ≡ length (listed self.now) }
    {
        match self {
            Siblings::Listed(digests) => digests.len(),
            Siblings::Wire(strings) => strings.len(),
        }
    }

    /// Returns the sibling at a position. Position 0 is next to the root.
    pub fn at(&self, place: usize) -> Digest
        requires { place < length (listed self.now) }
        ensures { slice_get (listed self.now) place ≡ Some result }
    {
        match self {
            Siblings::Listed(digests) => digest_at(*digests, place),
            Siblings::Wire(strings) => string_at(*strings, place),
        }
    }
}

impl<'a> ProofRef<'a> {
    /// Returns a proof with these siblings and this end.
    pub fn new(siblings: Siblings<'a>, end: EndRef<'a>) -> ProofRef<'a>
        ensures { result ≡ record { siblings = listed siblings.entry; end = owned end.entry } }
    {
        ProofRef { siblings, end }
    }

    /// Returns the siblings.
    pub fn siblings(&self) -> Siblings<'a>
        ensures { listed result ≡ self.now.siblings }
    {
        self.siblings
    }

    /// Returns the end of the path.
    pub fn end(&self) -> EndRef<'a>
        ensures { owned result ≡ self.now.end }
    {
        self.end
    }
}

impl End {
    /// Borrows the end. Allocates nothing.
    pub fn borrowed(&self) -> EndRef<'_>
        ensures { owned result ≡ self.now }
    {
        match self {
            End::Empty => EndRef::Empty,
            End::Other { index, commitment } => EndRef::Other {
                index: *index,
                commitment: *commitment,
            },
            End::Here { name, key, opening } => EndRef::Here {
                name: name.as_slice(),
                key: key.as_slice(),
                opening: *opening,
            },
        }
    }
}

impl Proof {
    /// Borrows the proof. Allocates nothing.
    pub fn borrowed(&self) -> ProofRef<'_>
        ensures { result ≡ self.now }
    {
        ProofRef {
            siblings: Siblings::Listed(self.siblings.as_slice()),
            end: self.end.borrowed(),
        }
    }
}
