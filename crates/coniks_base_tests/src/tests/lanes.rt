//! Published examples, and digests that Python's `hashlib` computed.

use crate::bytes_of;
use coniks_lanes::{TwoBlocks, hash_eight, hash_four};
use std::process::Abort;

/// The digests of FIPS 180-4's example of two blocks, of NIST's of 56, 57 and 64 zero bytes, and of counted bytes.
const WANTED: [&str; 8] = [
    "248d6a61d20638b8e5c026930c3e6039a33ce45964ff2167f6ecedd419db06c1",
    "d4817aa5497628e7c77e6b606107042bbba3130888c5f47a375e6179be789fbb",
    "65a16cb7861335d5ace3c60718b5052e44660726da4cd13bb745381b235a1785",
    "f5a5fd42d16a20302798ef6ed309979b43003d2320d9f0e8ea9831a92759fb4b",
    "4324d65f3c103567f5589c710bc08f8523f929a9272e3af36fc968e52abc6c27",
    "aacca6ff74fdbb296d165a45cecfa04e5127bc008770fbbdd48006f2d2fae95e",
    "5e4edd8413b312a4d85297f6e89146bacf0d9714495a1e83dc9f63c0037f0d30",
    "9ce7368e4daf32341631b492e80359dc9f594b48453cd0dd5bf0b19279cc177e",
];

/// Returns the bytes 3, 10, 17 and so on, modulo 256.
fn counted() -> [u8; 119] {
    let mut bytes = [3u8; 119];
    for i in 1..119usize {
        bytes[i] = bytes[i - 1].wrapping_add(7);
    }
    bytes
}

/// Joins pieces to a message of two blocks.
fn message(rt: &impl Abort, pieces: &[&[u8]]) -> TwoBlocks {
    TwoBlocks::of(pieces).expect(rt, "56 to 119 bytes")
}

/// `hash_four` and `hash_eight` hash published messages, and those of the shortest and the longest length and of the
/// lengths of tree nodes, each in its lane.
#[test]
fn published(rt: HostRuntime) {
    let counted = counted();
    let front = |length: usize| counted.get(..length).expect(&rt, "within");
    let letters = message(
        &rt,
        &[
            b"abcdbcdecdefdefgefghfghighijhijk",
            b"",
            b"ijkljklmklmnlmnomnopnopq",
        ],
    );
    let (a, b, c) = (
        message(&rt, &[&[0; 56]]),
        message(&rt, &[&[0; 57]]),
        message(&rt, &[&[0; 64]]),
    );
    let shortest = message(&rt, &[front(56)]);
    let (node, leaf) = (message(&rt, &[front(65)]), message(&rt, &[front(99)]));
    let longest = message(&rt, &[&counted]);
    let four = hash_four(&letters, &a, &b, &c);
    let eight = hash_eight(&[&letters, &a, &b, &c, &shortest, &node, &leaf, &longest]);
    for (hash, digits) in four.iter().zip(WANTED) {
        assert!(rt; *hash == bytes_of(digits));
    }
    for (hash, digits) in eight.iter().zip(WANTED) {
        assert!(rt; *hash == bytes_of(digits));
    }
}
