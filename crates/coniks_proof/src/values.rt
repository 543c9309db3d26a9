//! Values of 32 bytes, and the limits of the directory.

ghost use Rattle.std.specs.Prelude.{◌<◌, ℕ, length, slice_index};
ghost use Rattle.coniks_proof.specs.Maps.{IsIndex};

/// The length of the longest name, in bytes. The shortest name has 1 byte.
pub const MAX_NAME: usize = 255;

/// The length of the longest key, in bytes. The shortest key has 1 byte.
pub const MAX_KEY: usize = 16384;

/// The deepest level of the tree, equal to the number of bits of an index. The root is at level 0.
pub const MAX_LEVEL: usize = 256;

/// The largest number of operations in a batch.
pub const MAX_OPERATIONS: usize = 4096;

/// The position of a name in the tree: 256 bits, the most significant bit of the first byte first.
#[derive(Clone, Copy, Debug, PartialEq, Eq, PartialOrd, Ord)]
pub struct Index(pub [u8; 32]);

/// A hash, or a commitment.
#[derive(Clone, Copy, Debug, PartialEq, Eq, PartialOrd, Ord)]
pub struct Digest(pub [u8; 32]);

/// The nonce of a tree, which is hashed into each of its leaves and empty nodes.
#[derive(Clone, Copy, Debug, PartialEq, Eq, PartialOrd, Ord)]
pub struct Nonce(pub [u8; 32]);

/// The opening of a commitment.
#[derive(Clone, Copy, Debug, PartialEq, Eq, PartialOrd, Ord)]
pub struct Opening(pub [u8; 32]);

/// The head of a chain: the epoch and the link of its last entry.
#[derive(Clone, Copy, Debug, PartialEq, Eq, PartialOrd, Ord)]
pub struct Head {
    pub epoch: u64,
    pub link: Digest,
}

impl Index {
    /// Proves that the index is 32 numbers from 0 to 255.
    pub fn known(&self)
        ensures { IsIndex self.now.0 }
    {
        in_range(&self.0);
    }
}

/// Proves that 32 bytes are 32 numbers from 0 to 255.
pub(crate) fn in_range(bytes: &[u8; 32])
    ensures { IsIndex bytes.now }
{
    each_in_range(bytes);
}

/// Proves that each byte is a number below 256.
fn each_in_range(bytes: &[u8])
    ensures { (q : ℕ) → q < length bytes.now → slice_index bytes.now q < 256 }
{
    let _length = bytes.len();
}
