//! A word of each message: the operations of SHA-256 (FIPS 180-4, section 4.1.2), done in each lane.

ghost use Rattle.std.specs.Prelude.{◌≡◌, ◌+◌, ◌/◌, ◌^◌, ◌<◌, ◌≤◌, ℕ, length, slice_index, bit_and, bit_xor};
ghost use Rattle.std.specs.Int.{w32, rotate_right};
ghost use Rattle.sha2.specs.Sha256.{add32, big_sigma0, big_sigma1, ch, maj, small_sigma0, small_sigma1};

use std::simd::prelude::*;

/// Words, each of another message, in the lanes of a vector.
pub(crate) trait Words: Copy {
    /// The number of lanes.
    ghost lanes: { ℕ };

    /// The word in a lane.
    ghost lane: { ℕ → Self → ℕ };

    /// One word in each lane.
    fn splat(word: u32) -> Self
        ensures { (j : ℕ) → j < lanes → lane j result ≡ word };

    /// The first words of a list, each in its lane.
    fn from_list(list: &[u32]) -> Self
        requires { lanes ≤ length list.now }
        ensures { (j : ℕ) → j < lanes → lane j result ≡ slice_index list.now j };

    /// The word in lane `j`.
    fn at(self, j: usize) -> u32
        requires { j < lanes }
        ensures { result ≡ lane j self };

    /// The sums, with the carries out of the words dropped (section 3.2).
    fn add(self, other: Self) -> Self
        ensures { (j : ℕ) → j < lanes → lane j result ≡ add32 (lane j self) (lane j other) };

    /// The exclusive ors, bit by bit.
    fn xor(self, other: Self) -> Self
        ensures { (j : ℕ) → j < lanes → lane j result ≡ bit_xor (lane j self) (lane j other) };

    /// The ands, bit by bit.
    fn and(self, other: Self) -> Self
        ensures { (j : ℕ) → j < lanes → lane j result ≡ bit_and (lane j self) (lane j other) };

    /// The words shifted right, SHR of FIPS 180-4.
    fn shift(self, by: u32) -> Self
        requires { by < 32 }
        ensures { (j : ℕ) → j < lanes → lane j result ≡ lane j self / 2 ^ by };

    /// The words rotated right, ROTR of FIPS 180-4: what falls out on the right comes in on the left.
    fn rotate(self, by: u32) -> Self
        requires low { 0 < by }
        requires high { by < 32 }
        ensures { (j : ℕ) → j < lanes → lane j result ≡ rotate_right w32 (lane j self) by };

    /// Each word has 32 bits.
    ghost fits: { (j : ℕ) (v : Self) → lane j v < 2 ^ 32 };
}

impl<const N: usize> Words for Simd<u32, N> {
    ghost use Rattle.std.specs.Prelude.{◌%◌, ◌^◌, slice_index};
    ghost use Rattle.coniks_lanes.specs.Lanes.{below_2_32};

    ghost lanes = { N };

    ghost lane = { λ j v. slice_index v j % 2 ^ 32 };

    ghost fits = { λ j v. below_2_32 (slice_index v j) };

    #[inline(always)]
    fn splat(word: u32) -> Self {
        Simd::splat(word)
    }

    #[inline(always)]
    fn from_list(list: &[u32]) -> Self {
        Simd::from_slice(list)
    }

    #[inline(always)]
    fn at(self, j: usize) -> u32 {
        let words = self.to_array();
        words[j]
    }

    #[inline(always)]
    fn add(self, other: Self) -> Self {
        self + other
    }

    #[inline(always)]
    fn xor(self, other: Self) -> Self {
        self ^ other
    }

    #[inline(always)]
    fn and(self, other: Self) -> Self {
        self & other
    }

    #[inline(always)]
    fn shift(self, by: u32) -> Self {
        self >> Simd::splat(by)
    }

    #[inline(always)]
    fn rotate(self, by: u32) -> Self {
        (self >> Simd::splat(by)) | (self << Simd::splat(32 - by))
    }
}

/// The function Ch of FIPS 180-4: each bit is that of y where x has a one, and else that of z.
#[inline(always)]
pub(crate) fn choose<W: Words>(x: W, y: W, z: W) -> W
    ensures { (j : ℕ) → j < W.lanes → W.lane j result ≡ ch (W.lane j x) (W.lane j y) (W.lane j z) }
{
    z.xor(x.and(y.xor(z)))
}

/// The function Maj of FIPS 180-4: each bit is the one that most of x, y and z have. It is x's if y and z differ, else y's.
#[inline(always)]
pub(crate) fn majority<W: Words>(x: W, y: W, z: W) -> W
    ensures { (j : ℕ) → j < W.lanes → W.lane j result ≡ maj (W.lane j x) (W.lane j y) (W.lane j z) }
{
    y.xor(x.xor(y).and(y.xor(z)))
}

/// The function Σ0 of FIPS 180-4: the exclusive or of the rotations by 2, 2 + 11 and 2 + 11 + 9, each within the one before.
#[inline(always)]
pub(crate) fn upper_sigma0<W: Words>(x: W) -> W
    ensures { (j : ℕ) → j < W.lanes → W.lane j result ≡ big_sigma0 (W.lane j x) }
{
    x.xor(x.xor(x.rotate(9)).rotate(11)).rotate(2)
}

/// The function Σ1 of FIPS 180-4: the exclusive or of the rotations by 6, 6 + 5 and 6 + 5 + 14, each within the one before.
#[inline(always)]
pub(crate) fn upper_sigma1<W: Words>(x: W) -> W
    ensures { (j : ℕ) → j < W.lanes → W.lane j result ≡ big_sigma1 (W.lane j x) }
{
    x.xor(x.xor(x.rotate(14)).rotate(5)).rotate(6)
}

/// The function σ0 of FIPS 180-4: the exclusive or of the rotations by 7 and 7 + 11, the second within the first, and a shift.
#[inline(always)]
pub(crate) fn lower_sigma0<W: Words>(x: W) -> W
    ensures { (j : ℕ) → j < W.lanes → W.lane j result ≡ small_sigma0 (W.lane j x) }
{
    x.xor(x.rotate(11)).rotate(7).xor(x.shift(3))
}

/// The function σ1 of FIPS 180-4: the exclusive or of the rotations by 17 and 17 + 2, the second within the first, and a shift.
#[inline(always)]
pub(crate) fn lower_sigma1<W: Words>(x: W) -> W
    ensures { (j : ℕ) → j < W.lanes → W.lane j result ≡ small_sigma1 (W.lane j x) }
{
    x.xor(x.rotate(2)).rotate(17).xor(x.shift(10))
}
