//! Readers, and the results of their lookups.

use crate::soak::names::name_of;
use crate::soak::provider::{NONCE, Names, source};
use coniks_directory::IndexSource;
use coniks_proof::{Answer, Sha256Hash, check};

/// A generator of pseudo-random numbers.
#[derive(Clone, Copy)]
struct Numbers(u64);

impl Numbers {
    /// Returns the next number below a bound, or 0 if the bound is 0.
    fn below(&mut self, bound: u64) -> u64 {
        self.0 = self
            .0
            .wrapping_mul(6_364_136_223_846_793_005)
            .wrapping_add(1_442_695_040_888_963_407);
        (self.0 >> 33).checked_rem(bound).unwrap_or(0)
    }
}

/// Returns whether the proof for a name at an epoch is accepted. It is a presence proof with the name's key if the name
/// is bound there, and else an absence proof.
fn is_reported(directory: &Names, t: u64, number: u64, is_bound: bool) -> bool {
    let name = name_of(number);
    let (Some(root), Ok(proof)) = (directory.root_at(t), directory.lookup(t, &name)) else {
        return false;
    };
    match check(
        &Sha256Hash,
        &NONCE,
        &root,
        &source().index(&name),
        &name,
        &proof,
    ) {
        Ok(Answer::Key(key)) => is_bound && key == name.as_slice(),
        Ok(Answer::Absent) => !is_bound,
        Err(_) => false,
    }
}

/// Returns the number of wrong lookups. Their epochs are from 1 to the latest one, and each epoch binds `batch` more
/// names.
pub fn wrong_lookups(
    directory: &Names,
    reader: u64,
    latest: u64,
    batch: u64,
    lookups: usize,
) -> u64 {
    let mut numbers = Numbers(latest.wrapping_mul(1000).wrapping_add(reader));
    let mut wrong = 0u64;
    for _ in 0..lookups {
        let t = numbers.below(latest).wrapping_add(1);
        let number = numbers.below(latest.wrapping_mul(batch));
        let is_bound = number < t.wrapping_mul(batch);
        if !is_reported(directory, t, number, is_bound) {
            wrong = wrong.wrapping_add(1);
        }
    }
    wrong
}
