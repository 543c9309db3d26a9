//! The values of the worked examples.

use coniks_proof::{Digest, Index, Nonce, Opening};

/// The nonce of the worked examples.
pub const NONCE: Nonce = Nonce([0x11; 32]);

/// The nonce of a rotation.
pub const NEW_NONCE: Nonce = Nonce([0x44; 32]);

/// The opening of the worked examples.
pub const OPENING: Opening = Opening([0x22; 32]);

/// The policy digest of the worked examples.
pub const POLICY: [u8; 32] = [0x33; 32];

/// Returns the index with a first and a last byte, and zeros between.
pub fn index_of(first: u8, last: u8) -> Index {
    let mut bytes = [0; 32];
    bytes[0] = first;
    bytes[31] = last;
    Index(bytes)
}

/// Returns the index with these first two bytes, and zeros after them.
pub fn index_below(first: u8, second: u8) -> Index {
    let mut bytes = [0; 32];
    bytes[0] = first;
    bytes[1] = second;
    Index(bytes)
}

/// Returns the bytes that hexadecimal digits encode.
///
/// If `digits` are not exactly `2 * N` such digits, all bytes are `ff`. No test expects that value, so a test with a
/// misprint fails.
pub fn bytes_of<const N: usize>(digits: &str) -> [u8; N] {
    let mut bytes = [0; N];
    match hex::decode_to_slice(digits, &mut bytes) {
        Ok(()) => bytes,
        Err(_) => [0xff; N],
    }
}

/// Returns the digest with these 64 hexadecimal digits, or 32 bytes `ff` if `bytes_of` returns them.
pub fn digest(digits: &str) -> Digest {
    Digest(bytes_of(digits))
}
