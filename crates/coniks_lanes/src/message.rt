//! Messages that are two blocks.

ghost use Rattle.std.specs.Prelude.{◌≡◌, ◌<◌, ◌≤◌, List, ℕ, length, flat_map, replicate, take, MatchOption};
ghost use Rattle.sha2.specs.Sha256.{padded_message};
ghost use Rattle.coniks_lanes.specs.Messages.{BeginWith, IsTwoBlocks, block};

use std::marker::Model;

/// The fewest bytes of a message of two blocks.
pub const MIN_TWO_BLOCKS: usize = 56;

/// The most bytes of a message of two blocks.
pub const MAX_TWO_BLOCKS: usize = 119;

/// A message of 56 to 119 bytes, which is two blocks with its padding (FIPS 180-4, section 5.1.1).
#[derive(Drop)]
pub struct TwoBlocks {
    padded: [u8; 128],
    length: usize,
}

impl Model for TwoBlocks {
    ghost use Rattle.std.specs.Prelude.{List, ℕ, take};
    ghost use Rattle.coniks_lanes.specs.Messages.{IsPaddedMessage};

    ghost Value = { List ℕ };

    ghost view = { λ m. take m.length m.padded };

    ghost invariant = { λ m. IsPaddedMessage m.padded m.length };
}

impl TwoBlocks {
    /// Joins the pieces to one message. None if it has fewer or more bytes.
    pub fn of(pieces: &[&[u8]]) -> Option<TwoBlocks>
        ensures { MatchOption result (IsTwoBlocks (flat_map (λ piece. piece.now) pieces.now) → ⊥)
            (λ message. message ≡ flat_map (λ piece. piece.now) pieces.now) }
    {
        let mut bytes = [0u8; 128];
        let length = gather(pieces, &mut bytes)?;
        if length < MIN_TWO_BLOCKS {
            return None;
        }
        let padded = padded(bytes, length);
        Some(TwoBlocks { padded, length })
    }

    /// The block of this number.
    pub(crate) fn block(&self, number: usize) -> &[u8]
        requires { number < 2 }
        ensures is { result.now ≡ block number self.now }
        ensures long { length result.now ≡ 64 }
        ensures two { length (padded_message self.now) ≡ 128 }
    {
        &self.padded[64 * number..64 * number + 64]
    }
}

/// Writes the pieces one after another to the front of the bytes, which are zeros, and returns how many they are; None if
/// they are more than a message of two blocks.
fn gather(pieces: &[&[u8]], bytes: &mut [u8; 128]) -> Option<usize>
    requires { bytes.old ≡ replicate 128 0 }
    ensures { MatchOption result (MAX_TWO_BLOCKS < length (flat_map (λ piece. piece.now) pieces.now))
        (λ size. BeginWith bytes.new (flat_map (λ piece. piece.now) pieces.now) size) }
{
    let mut size = 0;
    for piece in pieces {
        if piece.len() > MAX_TWO_BLOCKS - size {
            return None;
        }
        bytes[size..size + piece.len()].copy_from_slice(piece);
        size += piece.len();
    }
    Some(size)
}

/// Returns the two blocks of the message at the front of the bytes.
fn padded(bytes: [u8; 128], size: usize) -> [u8; 128]
    requires least { MIN_TWO_BLOCKS ≤ size }
    requires most { size ≤ MAX_TWO_BLOCKS }
    ensures { (message : List ℕ) → BeginWith bytes message size → result ≡ padded_message message }
{
    let mut padded = bytes;
    padded[size] = 0x80;
    padded[120..].copy_from_slice(&(8 * size as u64).to_be_bytes());
    padded
}
