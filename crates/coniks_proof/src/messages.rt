//! Messages that are hashed for nodes, eight or four at a time.

ghost use Rattle.std.specs.Prelude.{◌≡◌, ◌++◌, ◌≤◌, flat_map, length, map, IfOk, OnOk};
ghost use Rattle.coniks_proof.specs.Messages.{AreAppended, preimage_of};
ghost use Rattle.coniks_proof.specs.Octets.{Octets};
ghost use Rattle.coniks_proof.specs.Preimages.{empty_preimage, leaf_preimage};

use crate::bits::Prefix;
use crate::hashing::{EMPTY_TAG, Hash32, INNER_TAG, LEAF_TAG};
use crate::values::{Digest, Index, MAX_LEVEL, Nonce};
use std::alloc::{AllocError, Global};
use std::collections::VecDeque;

/// The message that is hashed for a node under a nonce.
///
/// For an empty node it is the prefix, and for a leaf the index and the commitment, both with the two bytes of their
/// level. For an interior node it is the hashes of its children.
#[derive(Drop)]
pub enum Message {
    Empty(Prefix, [u8; 2]),
    Leaf(Index, [u8; 2], Digest),
    Inner(Digest, Digest),
}

impl Message {
    /// Returns the pieces that are hashed.
    fn pieces<'a>(&'a self, nonce: &'a Nonce) -> [&'a [u8]; 5]
        ensures { flat_map (λ piece. piece.now) result ≡ preimage_of nonce.now.0 self.now }
    {
        match self {
            Message::Empty(prefix, level) => [&[EMPTY_TAG], &nonce.0, prefix.bytes(), level, &[]],
            Message::Leaf(index, level, commitment) => {
                [&[LEAF_TAG], &nonce.0, &index.0, level, &commitment.0]
            }
            Message::Inner(left, right) => [&[INNER_TAG], &left.0, &right.0, &[], &[]],
        }
    }
}

/// Returns the message of an empty node.
pub fn empty_message(prefix: Prefix) -> Message
    ensures { (nonce : Octets) → preimage_of nonce result ≡ empty_preimage nonce prefix }
{
    let level = (prefix.len() as u16).to_be_bytes();
    Message::Empty(prefix, level)
}

/// Returns the message of a leaf, at a level of at most 256.
pub fn leaf_message(index: &Index, level: usize, commitment: &Digest) -> Message
    requires { level ≤ MAX_LEVEL }
    ensures { (nonce : Octets) → preimage_of nonce result ≡ leaf_preimage nonce index.now.0 level commitment.now.0 }
{
    Message::Leaf(*index, (level as u16).to_be_bytes(), *commitment)
}

/// Returns the hashes of eight messages.
fn eight_hashes<H: Hash32>(h: &H, nonce: &Nonce, eight: &[Message]) -> [Digest; 8]
    requires { length eight.now ≡ 8 }
    ensures { map (λ hash. hash.0) result ≡ map (λ message. H.digest_of h.now (preimage_of nonce.now.0 message)) eight.now }
{
    let [a, b, c, d, e, f, g, i] = eight else {
        unreachable!()
    };
    h.hash_eight(&[
        &a.pieces(nonce),
        &b.pieces(nonce),
        &c.pieces(nonce),
        &d.pieces(nonce),
        &e.pieces(nonce),
        &f.pieces(nonce),
        &g.pieces(nonce),
        &i.pieces(nonce),
    ])
}

/// Returns the hashes of four messages.
fn four_hashes<H: Hash32>(h: &H, nonce: &Nonce, four: &[Message]) -> [Digest; 4]
    requires { length four.now ≡ 4 }
    ensures { map (λ hash. hash.0) result ≡ map (λ message. H.digest_of h.now (preimage_of nonce.now.0 message)) four.now }
{
    let [a, b, c, d] = four else { unreachable!() };
    let (a, b, c, d) = h.hash_four(
        &a.pieces(nonce),
        &b.pieces(nonce),
        &c.pieces(nonce),
        &d.pieces(nonce),
    );
    [a, b, c, d]
}

/// Appends digests to a list.
fn append(hashes: &mut VecDeque<Digest>, new: &[Digest]) -> Result<(), AllocError>
    ensures { OnOk result (hashes.new.items ≡ hashes.old.items ++ new.now) }
{
    for hash in new {
        hashes.push_back(*hash)?;
    }
    Ok(())
}

/// Appends the hashes of eight messages as long as eight are left. Returns the rest.
fn append_eights<'a, H: Hash32>(
    h: &H,
    nonce: &Nonce,
    messages: &'a [Message],
    hashes: &mut VecDeque<Digest>,
) -> Result<&'a [Message], AllocError>
    ensures { IfOk result (λ rest. AreAppended (λ message. H.digest_of h.now (preimage_of nonce.now.0 message)) hashes.old.items hashes.new.items messages.now rest.now) }
{
    let mut rest = messages;
    while rest.len() >= 8 {
        let (eight, others) = rest.split_at(8);
        append(hashes, &eight_hashes(h, nonce, eight))?;
        rest = others;
    }
    Ok(rest)
}

/// Appends the hashes of four messages if there are four. Returns the rest.
fn append_four<'a, H: Hash32>(
    h: &H,
    nonce: &Nonce,
    messages: &'a [Message],
    hashes: &mut VecDeque<Digest>,
) -> Result<&'a [Message], AllocError>
    ensures { IfOk result (λ rest. AreAppended (λ message. H.digest_of h.now (preimage_of nonce.now.0 message)) hashes.old.items hashes.new.items messages.now rest.now) }
{
    if messages.len() < 4 {
        return Ok(messages);
    }
    let (four, rest) = messages.split_at(4);
    append(hashes, &four_hashes(h, nonce, four))?;
    Ok(rest)
}

/// Returns the hashes of messages, in their order.
///
/// Hashes eight messages at once as long as eight are left, and then four if four are left.
///
/// # Errors
///
/// `AllocError` if an allocation fails.
pub fn hash_all<H: Hash32>(
    alloc: Global,
    h: &H,
    nonce: &Nonce,
    messages: &[Message],
) -> Result<VecDeque<Digest>, AllocError>
    ensures { IfOk result (λ hashes. map (λ hash. hash.0) hashes.items ≡ map (λ message. H.digest_of h.now (preimage_of nonce.now.0 message)) messages.now) }
{
    let mut hashes = VecDeque::with_capacity(alloc, messages.len())?;
    let rest = append_eights(h, nonce, messages, &mut hashes)?;
    let rest = append_four(h, nonce, rest, &mut hashes)?;
    for message in rest {
        hashes.push_back(h.hash(&message.pieces(nonce)))?;
    }
    Ok(hashes)
}
