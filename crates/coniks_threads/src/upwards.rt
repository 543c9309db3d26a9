//! The parts of the jobs, joined upwards.

ghost use Rattle.std.specs.Prelude.{◌≡◌, ◌<◌, ◌≤◌, ◌-◌, ◌++◌, ◌∷◌, [], List, length, IfOk, IfSome, OnOk};
ghost use Rattle.coniks_proof.specs.Hashing.{hashing};
ghost use Rattle.coniks_tree.specs.Trees.{table_of};
ghost use Rattle.coniks_tree.specs.Parts.{entries_in};
ghost use Rattle.coniks_tree.specs.declared.part.Part.{Part};
ghost use Rattle.coniks_threads.specs.Grown.{IsNewPart, AreNewParts};

use crate::growing::{Old, old_part};
use crate::jobs::MAX_DEPTH;
use coniks_proof::{Hash32, Prefix};
use coniks_tree::{Change, OutOfMemory, Part, sides};

/// Returns the last of the parts.
fn last_part(parts: &mut Vec<Part>) -> Part
    requires { 0 < length parts.old.items }
    ensures { parts.old.items ≡ parts.new.items ++ result ∷ [] }
{
    let Some(part) = parts.pop() else {
        unreachable!()
    };
    part
}

/// Returns the part of a prefix, from these changes under it.
///
/// It takes the parts of the jobs under the prefix, which are the last ones. A prefix without changes is taken whole, so
/// it is not opened further.
pub(crate) fn join_upwards<H: Hash32>(
    old: &Old<'_, H>,
    depth: usize,
    prefix: &Prefix,
    changes: &[Change],
    parts: &mut Vec<Part>,
) -> Result<Part, OutOfMemory>
    requires root { IfSome old.now.root (λ r. r.0 < length old.now.tree.now.nodes) }
    requires depth { (length prefix.now ≤ depth) × (depth ≤ MAX_DEPTH) }
    requires parts { (before : List Part) × (mine : List Part) × (parts.old.items ≡ before ++ mine)
        × AreNewParts (hashing (H.digest_of old.now.h.now) old.now.nonce.now.0) (table_of old.now.tree.now)
        old.now.root (depth - length prefix.now) prefix.now (entries_in changes.now) mine }
    ensures taken { OnOk result ((before mine : List Part) → parts.old.items ≡ before ++ mine
        → AreNewParts (hashing (H.digest_of old.now.h.now) old.now.nonce.now.0) (table_of old.now.tree.now)
        old.now.root (depth - length prefix.now) prefix.now (entries_in changes.now) mine
        → parts.new.items ≡ before) }
    ensures grown { IfOk result (λ part. IsNewPart (hashing (H.digest_of old.now.h.now) old.now.nonce.now.0)
        (table_of old.now.tree.now) old.now.root prefix.now (entries_in changes.now) part) }
{
    if changes.is_empty() {
        return Ok(old_part(old.tree, old.root, prefix));
    }
    let level = prefix.len();
    if level == depth {
        return Ok(last_part(parts));
    }
    let (on_left, on_right) = sides(changes, level);
    let below_right = prefix.child(true);
    let right = join_upwards(old, depth, &below_right, on_right, parts)?;
    let below_left = prefix.child(false);
    let left = join_upwards(old, depth, &below_left, on_left, parts)?;
    Ok(old.tree.join(old.h, old.nonce, prefix, left, right)?)
}
