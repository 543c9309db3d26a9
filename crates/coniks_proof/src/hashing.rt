//! Hashes of 32 bytes, and the four hash calls of the tree.

ghost use Rattle.std.specs.Prelude.{◌≡◌, ◌++◌, ◌<◌, ◌≤◌, length, flat_map, map, IfSome};
ghost use Rattle.coniks_proof.specs.Octets.{Octets};
ghost use Rattle.coniks_proof.specs.Preimages.{empty_preimage, inner_preimage, leaf_preimage, commitment_preimage};
ghost use Rattle.sha2.specs.Sha256.{sha256};

use crate::bits::Prefix;
use crate::values::{Digest, Index, MAX_KEY, MAX_LEVEL, MAX_NAME, Nonce, Opening};
use coniks_lanes::{TwoBlocks, hash_eight, hash_four};
use sha2::{Digest as _, Sha256};
use std::marker::Model;

/// A hash of 32 bytes. It is a function of the message, however the message is split into pieces.
pub trait Hash32 {
    /// The hash of a message.
    ghost digest_of: { Self → Octets → Octets };

    /// Returns the hash of the pieces, taken as one message.
    fn hash(&self, pieces: &[&[u8]]) -> Digest
        ensures { result.0 ≡ digest_of self.now (flat_map (λ piece. piece.now) pieces.now) };

    /// Returns the hashes of four messages, each in pieces.
    ///
    /// A hash without a faster way calls `hash` four times.
    fn hash_four(
        &self,
        a: &[&[u8]],
        b: &[&[u8]],
        c: &[&[u8]],
        d: &[&[u8]],
    ) -> (Digest, Digest, Digest, Digest)
        ensures first { result.0.0 ≡ digest_of self.now (flat_map (λ piece. piece.now) a.now) }
        ensures second { result.1.0 ≡ digest_of self.now (flat_map (λ piece. piece.now) b.now) }
        ensures third { result.2.0 ≡ digest_of self.now (flat_map (λ piece. piece.now) c.now) }
        ensures fourth { result.3.0 ≡ digest_of self.now (flat_map (λ piece. piece.now) d.now) }
    {
        (self.hash(a), self.hash(b), self.hash(c), self.hash(d))
    }

    /// Returns the hashes of eight messages, each in pieces.
    ///
    /// A hash without a faster way calls `hash` eight times.
    fn hash_eight(&self, messages: &[&[&[u8]]; 8]) -> [Digest; 8]
        ensures { map (λ hash. hash.0) result ≡ map (λ pieces. digest_of self.now (flat_map (λ piece. piece.now) pieces.now)) messages.now }
    {
        let [a, b, c, d, e, f, g, h] = *messages;
        [
            self.hash(a),
            self.hash(b),
            self.hash(c),
            self.hash(d),
            self.hash(e),
            self.hash(f),
            self.hash(g),
            self.hash(h),
        ]
    }
}

/// SHA-256 (FIPS 180-4).
#[derive(Clone, Copy, Debug, Drop)]
pub struct Sha256Hash;

impl Hash32 for Sha256Hash {
    ghost digest_of = { λ h message. sha256 message };

    fn hash(&self, pieces: &[&[u8]]) -> Digest {
        let mut hasher = Sha256::new();
        for piece in pieces {
            hasher.update(*piece);
        }
        Digest(hasher.finalize())
    }

    fn hash_four(
        &self,
        a: &[&[u8]],
        b: &[&[u8]],
        c: &[&[u8]],
        d: &[&[u8]],
    ) -> (Digest, Digest, Digest, Digest) {
        match by_lanes(a, b, c, d) {
            Some(hashes) => hashes,
            None => (self.hash(a), self.hash(b), self.hash(c), self.hash(d)),
        }
    }

    fn hash_eight(&self, messages: &[&[&[u8]]; 8]) -> [Digest; 8] {
        match eight_by_lanes(messages) {
            Some(hashes) => hashes,
            None => by_fours(self, messages),
        }
    }
}

/// Returns the SHA-256 hashes of four messages at once, if each has two blocks with its padding.
fn by_lanes(
    a: &[&[u8]],
    b: &[&[u8]],
    c: &[&[u8]],
    d: &[&[u8]],
) -> Option<(Digest, Digest, Digest, Digest)>
    ensures first { IfSome result (λ hashes. hashes.0.0 ≡ sha256 (flat_map (λ piece. piece.now) a.now)) }
    ensures second { IfSome result (λ hashes. hashes.1.0 ≡ sha256 (flat_map (λ piece. piece.now) b.now)) }
    ensures third { IfSome result (λ hashes. hashes.2.0 ≡ sha256 (flat_map (λ piece. piece.now) c.now)) }
    ensures fourth { IfSome result (λ hashes. hashes.3.0 ≡ sha256 (flat_map (λ piece. piece.now) d.now)) }
{
    let a = TwoBlocks::of(a)?;
    let b = TwoBlocks::of(b)?;
    let c = TwoBlocks::of(c)?;
    let d = TwoBlocks::of(d)?;
    let [a, b, c, d] = hash_four(&a, &b, &c, &d);
    Some((Digest(a), Digest(b), Digest(c), Digest(d)))
}

/// Returns the SHA-256 hashes of eight messages at once, if each has two blocks with its padding.
fn eight_by_lanes(messages: &[&[&[u8]]; 8]) -> Option<[Digest; 8]>
    ensures { IfSome result (λ hashes. map (λ hash. hash.0) hashes ≡ map (λ pieces. sha256 (flat_map (λ piece. piece.now) pieces.now)) messages.now) }
{
    let [a, b, c, d, e, f, g, h] = *messages;
    let a = TwoBlocks::of(a)?;
    let b = TwoBlocks::of(b)?;
    let c = TwoBlocks::of(c)?;
    let d = TwoBlocks::of(d)?;
    let e = TwoBlocks::of(e)?;
    let f = TwoBlocks::of(f)?;
    let g = TwoBlocks::of(g)?;
    let h = TwoBlocks::of(h)?;
    let [a, b, c, d, e, f, g, h] = hash_eight(&[&a, &b, &c, &d, &e, &f, &g, &h]);
    Some([
        Digest(a),
        Digest(b),
        Digest(c),
        Digest(d),
        Digest(e),
        Digest(f),
        Digest(g),
        Digest(h),
    ])
}

/// Returns the hashes of eight messages, of which some are hashed alone or by fours.
fn by_fours(hash: &Sha256Hash, messages: &[&[&[u8]]; 8]) -> [Digest; 8]
    ensures { map (λ hash. hash.0) result ≡ map (λ pieces. sha256 (flat_map (λ piece. piece.now) pieces.now)) messages.now }
{
    let [a, b, c, d, e, f, g, h] = *messages;
    let (a, b, c, d) = hash.hash_four(a, b, c, d);
    let (e, f, g, h) = hash.hash_four(e, f, g, h);
    [a, b, c, d, e, f, g, h]
}

/// A hash that returns 32 zero bytes for every message: a hash with collisions, for tests.
#[derive(Clone, Copy, Debug, Drop)]
pub struct Flat;

impl Hash32 for Flat {
    ghost use Rattle.coniks_proof.specs.Preimages.{zeros};

    ghost digest_of = { λ h message. zeros };

    fn hash(&self, _pieces: &[&[u8]]) -> Digest {
        Digest([0; 32])
    }
}

/// The tag of an empty node's preimage.
pub(crate) const EMPTY_TAG: u8 = 0x45;

/// The tag of a leaf's preimage.
pub(crate) const LEAF_TAG: u8 = 0x4C;

/// The tag of an interior node's preimage.
pub(crate) const INNER_TAG: u8 = 0x49;

/// The tag of a commitment's preimage.
const COMMITMENT_TAG: u8 = 0x43;

/// Returns the hash of an empty node, which represents a prefix that begins no index of the tree (CONIKS, section 3.1).
pub fn empty_hash<H: Hash32>(h: &H, nonce: &Nonce, prefix: &Prefix) -> Digest
    ensures { result.0 ≡ H.digest_of h.now (empty_preimage nonce.now.0 prefix.now) }
{
    let level = (prefix.len() as u16).to_be_bytes();
    h.hash(&[&[EMPTY_TAG], &nonce.0, prefix.bytes(), &level])
}

/// Returns the hash of a leaf, which represents one index of the tree, at a level of at most 256.
pub fn leaf_hash<'a, H: Hash32>(
    h: &H,
    nonce: &'a Nonce,
    index: &'a Index,
    level: usize,
    commitment: &'a Digest,
) -> Digest
    requires { level ≤ MAX_LEVEL }
    ensures { result.0 ≡ H.digest_of h.now (leaf_preimage nonce.now.0 index.now.0 level commitment.now.0) }
{
    let level = (level as u16).to_be_bytes();
    h.hash(&[&[LEAF_TAG], &nonce.0, &index.0, &level, &commitment.0])
}

/// Returns the hash of an interior node over its children.
pub fn inner_hash<H: Hash32>(h: &H, left: &Digest, right: &Digest) -> Digest
    ensures { result.0 ≡ H.digest_of h.now (inner_preimage left.now.0 right.now.0) }
{
    h.hash(&[&[INNER_TAG], &left.0, &right.0])
}

/// The byte list that a commitment is the hash of. It borrows opening, name and key.
#[derive(Drop)]
pub struct CommitmentPreimage<'a> {
    opening: &'a Opening,
    name_length: [u8; 2],
    name: &'a [u8],
    key_length: [u8; 4],
    key: &'a [u8],
}

impl<'a> Model for CommitmentPreimage<'a> {
    ghost use Rattle.std.specs.Prelude.{◌∷◌, ◌++◌};
    ghost use Rattle.coniks_proof.specs.Octets.{Octets};

    ghost Value = { Octets };

    ghost view = { λ p. 0x43 ∷ p.opening.now.0 ++ p.name_length ++ p.name.now ++ p.key_length ++ p.key.now };
}

impl<'a> CommitmentPreimage<'a> {
    /// Returns the byte list for a name of at most `MAX_NAME` bytes and its key of at most `MAX_KEY` bytes.
    pub fn of(opening: &'a Opening, name: &'a [u8], key: &'a [u8]) -> CommitmentPreimage<'a>
        requires name { length name.now ≤ MAX_NAME }
        requires key { length key.now ≤ MAX_KEY }
        ensures { result ≡ commitment_preimage opening.now.0 name.now key.now }
    {
        CommitmentPreimage {
            opening,
            name_length: (name.len() as u16).to_be_bytes(),
            name,
            key_length: (key.len() as u32).to_be_bytes(),
            key,
        }
    }

    /// Returns its pieces, one after another.
    pub(crate) fn pieces(&'a self) -> [&'a [u8]; 6]
        ensures { flat_map (λ piece. piece.now) result ≡ self.now }
    {
        [
            &[COMMITMENT_TAG],
            &self.opening.0,
            &self.name_length,
            self.name,
            &self.key_length,
            self.key,
        ]
    }
}

/// Returns the commitment to a name of at most `MAX_NAME` bytes and its key of at most `MAX_KEY` bytes (CONIKS, section
/// 3.1).
pub fn commit_hash<'a, H: Hash32>(
    h: &H,
    opening: &'a Opening,
    name: &'a [u8],
    key: &'a [u8],
) -> Digest
    requires name { length name.now ≤ MAX_NAME }
    requires key { length key.now ≤ MAX_KEY }
    ensures { result.0 ≡ H.digest_of h.now (commitment_preimage opening.now.0 name.now key.now) }
{
    h.hash(&CommitmentPreimage::of(opening, name, key).pieces())
}

/// Returns four commitments, each the hash of its own byte list.
pub fn commit_hash_four<H: Hash32>(
    h: &H,
    a: &CommitmentPreimage,
    b: &CommitmentPreimage,
    c: &CommitmentPreimage,
    d: &CommitmentPreimage,
) -> (Digest, Digest, Digest, Digest)
    ensures first { result.0.0 ≡ H.digest_of h.now a.now }
    ensures second { result.1.0 ≡ H.digest_of h.now b.now }
    ensures third { result.2.0 ≡ H.digest_of h.now c.now }
    ensures fourth { result.3.0 ≡ H.digest_of h.now d.now }
{
    h.hash_four(&a.pieces(), &b.pieces(), &c.pieces(), &d.pieces())
}

/// Returns eight commitments, each the hash of its own byte list.
pub fn commit_hash_eight<H: Hash32>(h: &H, preimages: &[CommitmentPreimage; 8]) -> [Digest; 8]
    ensures { map (λ hash. hash.0) result ≡ map (λ preimage. H.digest_of h.now preimage) preimages.now }
{
    let [a, b, c, d, e, f, g, i] = preimages;
    h.hash_eight(&[
        &a.pieces(),
        &b.pieces(),
        &c.pieces(),
        &d.pieces(),
        &e.pieces(),
        &f.pieces(),
        &g.pieces(),
        &i.pieces(),
    ])
}
