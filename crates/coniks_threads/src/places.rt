//! Parts at the positions of their numbers.

ghost use Rattle.std.specs.Prelude.{◌≡◌, ℕ, ◌≤◌, ◌<◌, [], length, IfOk, Some};
ghost use Rattle.std.proofs.Math.ListN.{set};
ghost use Rattle.coniks_threads.specs.Limits.{most_numbers};
ghost use Rattle.coniks_threads.specs.Places.{numbers, AreParts, AllFrom, StandsAt, Places};

use crate::work::Work;
use coniks_tree::Part;
use std::alloc::{AllocError, Global};
use std::mem::replace;

/// Reserves room for this number of parts.
pub(crate) fn room(alloc: Global, count: usize) -> Result<Vec<Option<Part>>, AllocError>
    ensures { IfOk result (λ placed. length placed.items ≡ count) }
{
    let mut placed = Vec::with_capacity(alloc, count)?;
    for _ in 0..count {
        placed.push(None)?;
    }
    Ok(placed)
}

/// Stores one part at its position.
fn put(placed: &mut [Option<Part>], job: usize, part: Part)
    requires { (job < length placed.old) × (length placed.old ≤ most_numbers) }
    ensures { placed.new ≡ set placed.old job (Some part) }
{
    drop(replace(&mut placed[job], Some(part)));
}

/// Stores each part at its position.
pub(crate) fn place<W: Work>(placed: &mut [Option<Part>], mut done: Vec<(usize, Part)>, work: &W)
    requires parts { AreParts (W.part work.now) (length placed.old) done.items }
    requires few { length placed.old ≤ most_numbers }
    ensures len { length placed.new ≡ length placed.old }
    ensures places { Places (W.part work.now) placed.old placed.new (numbers done.items) [] }
{
    while let Some((job, part)) = done.pop() {
        put(placed, job, part);
    }
}

/// Returns the parts, each of which is there.
pub(crate) fn unwrapped<W: Work>(
    alloc: Global,
    placed: &mut [Option<Part>],
    work: &W,
) -> Result<Vec<Part>, AllocError>
    requires { (j : ℕ) → j < length placed.old → StandsAt (W.part work.now) placed.old j }
    ensures { IfOk result (λ v. AllFrom (W.part work.now) 0 v.items × (length v.items ≡ length placed.old)) }
{
    let mut parts = Vec::with_capacity(alloc, placed.len())?;
    for j in 0..placed.len() {
        let Some(part) = placed[j].take() else {
            unreachable!()
        };
        parts.push(part)?;
    }
    Ok(parts)
}
