//! Byte strings that are hashed, as the parts that they are made of. No memory is allocated for them.

ghost use Rattle.std.specs.Prelude.{◌≡◌, ◌++◌, ◌+◌, ◌∷◌, ◌≤◌, drop, flat_map, length, take};
ghost use Rattle.coniks_proof.specs.Bits.{first_bits};
ghost use Rattle.coniks_proof.specs.Preimages.{commitment_preimage, empty_preimage, leaf_preimage};
ghost use Rattle.coniks_proof.specs.Proofs.{joined};

use coniks_chain::ENTRY_BYTES;
use coniks_proof::{Digest, Hash32, Index, MAX_KEY, MAX_LEVEL, MAX_NAME, Nonce, Opening, Prefix};
use std::marker::Model;

/// The length of the longest string, in bytes: the preimage of a commitment to the longest name and the longest key.
pub const MAX_PREIMAGE: usize = 39 + MAX_NAME + MAX_KEY;

/// The tag of an entry's link.
const LINK_TAG: u8 = 0x53;

/// The tag of an empty node.
const EMPTY_TAG: u8 = 0x45;

/// The tag of a leaf.
const LEAF_TAG: u8 = 0x4C;

/// The tag of an interior node.
const INNER_TAG: u8 = 0x49;

/// The tag of a commitment.
const COMMITMENT_TAG: u8 = 0x43;

/// The parts of a string, by its kind.
#[derive(Drop)]
enum Parts<'a> {
    Link(&'a [u8; ENTRY_BYTES]),
    Empty {
        nonce: Nonce,
        prefix: [u8; 32],
        level: [u8; 2],
    },
    Leaf {
        nonce: Nonce,
        index: Index,
        level: [u8; 2],
        commitment: Digest,
    },
    Inner {
        left: Digest,
        right: Digest,
    },
    Commitment {
        opening: Opening,
        name_length: [u8; 2],
        name: &'a [u8],
        key_length: [u8; 4],
        key: &'a [u8],
    },
}

/// A byte string that is hashed for a directory. It borrows an entry, a name and a key.
#[derive(Drop)]
pub struct Preimage<'a> {
    parts: Parts<'a>,
}

impl<'a> Model for Preimage<'a> {
    ghost use Rattle.coniks_proof.specs.Octets.{Octets};
    ghost use Rattle.coniks_evidence.specs.Strings.{PartsFit, string_of};

    ghost Value = { Octets };

    ghost view = { λ p. string_of p.parts };

    ghost invariant = { λ p. PartsFit p.parts };
}

/// Two different byte strings with one hash.
#[derive(Drop)]
pub struct Colliding<'a> {
    pub x: Preimage<'a>,
    pub y: Preimage<'a>,
}

/// Proves that an array has its length.
pub(crate) fn full<const N: usize>(bytes: &[u8; N])
    ensures { length bytes.now ≡ N }
{
    let _ = bytes;
}

/// Writes a part from a place on. Returns the place after it.
fn put(bytes: &mut [u8], at: usize, part: &[u8]) -> usize
    requires { at + length part.now ≤ length bytes.old }
    ensures next { result ≡ at + length part.now }
    ensures size { length bytes.new ≡ length bytes.old }
    ensures put { take result bytes.new ≡ take at bytes.old ++ part.now }
    ensures rest { drop result bytes.new ≡ drop result bytes.old }
{
    bytes[at..at + part.len()].copy_from_slice(part);
    at + part.len()
}

/// Writes pieces one after another, from the first byte on.
fn put_all(bytes: &mut [u8], pieces: &[&[u8]])
    requires { length (flat_map (λ piece. piece.now) pieces.now) ≤ length bytes.old }
    ensures written { take (length (flat_map (λ piece. piece.now) pieces.now)) bytes.new ≡ flat_map (λ piece. piece.now) pieces.now }
    ensures rest { drop (length (flat_map (λ piece. piece.now) pieces.now)) bytes.new ≡ drop (length (flat_map (λ piece. piece.now) pieces.now)) bytes.old }
{
    let mut at = 0;
    for piece in pieces {
        at = put(bytes, at, *piece);
    }
}

/// Returns the number of bytes of pieces.
fn total(pieces: &[&[u8]]) -> usize
    requires { length (flat_map (λ piece. piece.now) pieces.now) ≤ MAX_PREIMAGE }
    ensures { result ≡ length (flat_map (λ piece. piece.now) pieces.now) }
{
    let mut size = 0;
    for piece in pieces {
        size += piece.len();
    }
    size
}

impl<'a> Preimage<'a> {
    /// Returns what is hashed to an entry's link, from the entry's bytes.
    pub(crate) fn link(entry: &'a [u8; ENTRY_BYTES]) -> Preimage<'a>
        ensures { result ≡ 0x53 ∷ entry.now }
    {
        Preimage {
            parts: Parts::Link(entry),
        }
    }

    /// Returns what is hashed for the empty node on the way to an index, at a level.
    pub(crate) fn empty(nonce: &Nonce, index: &Index, level: usize) -> Preimage<'a>
        requires { level ≤ MAX_LEVEL }
        ensures { result ≡ empty_preimage nonce.now.0 (first_bits index.now.0 level) }
    {
        let prefix = Prefix::of(index, level);
        Preimage {
            parts: Parts::Empty {
                nonce: *nonce,
                prefix: *prefix.bytes(),
                level: (prefix.len() as u16).to_be_bytes(),
            },
        }
    }

    /// Returns what is hashed for a leaf, at a level.
    pub(crate) fn leaf(
        nonce: &Nonce,
        index: &Index,
        level: usize,
        commitment: &Digest,
    ) -> Preimage<'a>
        requires { level ≤ MAX_LEVEL }
        ensures { result ≡ leaf_preimage nonce.now.0 index.now.0 level commitment.now.0 }
    {
        Preimage {
            parts: Parts::Leaf {
                nonce: *nonce,
                index: *index,
                level: (level as u16).to_be_bytes(),
                commitment: *commitment,
            },
        }
    }

    /// Returns what is hashed for the interior node over a hash on the way to an index and its sibling.
    pub(crate) fn joined(goes_right: bool, sibling: &Digest, below: &Digest) -> Preimage<'a>
        ensures { result ≡ joined goes_right sibling.now.0 below.now.0 }
    {
        if goes_right {
            Preimage {
                parts: Parts::Inner {
                    left: *sibling,
                    right: *below,
                },
            }
        } else {
            Preimage {
                parts: Parts::Inner {
                    left: *below,
                    right: *sibling,
                },
            }
        }
    }

    /// Returns what is hashed to a commitment.
    pub(crate) fn commitment(opening: &Opening, name: &'a [u8], key: &'a [u8]) -> Preimage<'a>
        requires name { length name.now ≤ MAX_NAME }
        requires key { length key.now ≤ MAX_KEY }
        ensures { result ≡ commitment_preimage opening.now.0 name.now key.now }
    {
        Preimage {
            parts: Parts::Commitment {
                opening: *opening,
                name_length: (name.len() as u16).to_be_bytes(),
                name,
                key_length: (key.len() as u32).to_be_bytes(),
                key,
            },
        }
    }

    /// Returns the pieces of the string, one after another.
    fn pieces(&'a self) -> [&'a [u8]; 6]
        ensures joined { flat_map (λ piece. piece.now) result ≡ self.now }
        ensures small { length self.now ≤ MAX_PREIMAGE }
    {
        match &self.parts {
            Parts::Link(entry) => [&[LINK_TAG], *entry, &[], &[], &[], &[]],
            Parts::Empty {
                nonce,
                prefix,
                level,
            } => [&[EMPTY_TAG], &nonce.0, prefix, level, &[], &[]],
            Parts::Leaf {
                nonce,
                index,
                level,
                commitment,
            } => [&[LEAF_TAG], &nonce.0, &index.0, level, &commitment.0, &[]],
            Parts::Inner { left, right } => [&[INNER_TAG], &left.0, &right.0, &[], &[], &[]],
            Parts::Commitment {
                opening,
                name_length,
                name,
                key_length,
                key,
            } => [
                &[COMMITMENT_TAG],
                &opening.0,
                name_length,
                *name,
                key_length,
                *key,
            ],
        }
    }

    /// Returns the hash of the string.
    pub fn hash<H: Hash32>(&self, h: &H) -> Digest
        ensures { result.0 ≡ H.digest_of h.now self.now }
    {
        h.hash(&self.pieces())
    }

    /// Returns the number of bytes of the string.
    pub fn size(&self) -> usize
        ensures size { result ≡ length self.now }
        ensures small { result ≤ MAX_PREIMAGE }
    {
        total(&self.pieces())
    }

    /// Writes the string to the first bytes of a buffer. The bytes after it stay as they are.
    pub fn write(&self, buffer: &mut [u8])
        requires { length self.now ≤ length buffer.old }
        ensures written { take (length self.now) buffer.new ≡ self.now }
        ensures rest { drop (length self.now) buffer.new ≡ drop (length self.now) buffer.old }
    {
        put_all(buffer, &self.pieces());
    }
}
