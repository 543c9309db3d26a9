//! The hashes of several messages at once.

ghost use Rattle.std.specs.Prelude.{◌≡◌, ℕ, ◌<◌, ◌≤◌, [], ◌∷◌, length, map, slice_index_or};
ghost use Rattle.sha2.specs.Sha256.{digest_bytes, sha256};

use crate::message::TwoBlocks;
use crate::rounds::{compress_blocks, initial};
use crate::words::Words;
use std::simd::prelude::*;

/// A lane of the state as bytes.
#[inline(always)]
fn bytes_of<W: Words>(state: &[W; 8], j: usize) -> [u8; 32]
    requires { j < W.lanes }
    ensures { result ≡ digest_bytes (map (W.lane j) state.now) 8 }
{
    let mut out = [0u8; 32];
    'words: for i in 0..8usize {
        out[4 * i..4 * i + 4].copy_from_slice(&state[i].at(j).to_be_bytes());
    }
    out
}

/// The state after both blocks of each message. `w` has room for the words of a block.
#[inline(always)]
fn compress_all<W: Words>(messages: &[&TwoBlocks], w: &mut [W; 16]) -> [W; 8]
    requires lanes { length messages.now ≡ W.lanes }
    requires most { W.lanes ≤ 8 }
    ensures { (j : ℕ) → j < W.lanes → digest_bytes (map (W.lane j) result) 8 ≡ slice_index_or (map (λ m. sha256 m.now) messages.now) j [] }
{
    let state = compress_blocks(initial(), messages, 0, w);
    compress_blocks(state, messages, 1, w)
}

/// Writes each lane of the state as bytes.
#[inline(always)]
fn write_lanes<W: Words>(state: &[W; 8], hashes: &mut [[u8; 32]])
    requires { length hashes.old ≡ W.lanes }
    ensures long { length hashes.new ≡ W.lanes }
    ensures each { (j : ℕ) → j < W.lanes → slice_index_or hashes.new j [] ≡ digest_bytes (map (W.lane j) state.now) 8 }
{
    'lanes: for j in 0..hashes.len() {
        hashes[j] = bytes_of(state, j);
    }
}

/// The SHA-256 hashes (FIPS 180-4) of four messages of two blocks.
pub fn hash_four(a: &TwoBlocks, b: &TwoBlocks, c: &TwoBlocks, d: &TwoBlocks) -> [[u8; 32]; 4]
    ensures { result ≡ sha256 a.now ∷ sha256 b.now ∷ sha256 c.now ∷ sha256 d.now ∷ [] }
{
    let mut w = [u32x4::splat(0); 16];
    let state = compress_all(&[a, b, c, d], &mut w);
    let mut hashes = [[0; 32]; 4];
    write_lanes(&state, &mut hashes);
    hashes
}

/// The SHA-256 hashes (FIPS 180-4) of eight messages of two blocks.
pub fn hash_eight(messages: &[&TwoBlocks; 8]) -> [[u8; 32]; 8]
    ensures { result ≡ map (λ m. sha256 m.now) messages.now }
{
    let mut w = [u32x8::splat(0); 16];
    let state = compress_all(messages, &mut w);
    let mut hashes = [[0; 32]; 8];
    write_lanes(&state, &mut hashes);
    hashes
}
