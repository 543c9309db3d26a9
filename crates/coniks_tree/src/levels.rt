//! Overwrites a part with many changes, level by level.

ghost use Rattle.std.specs.Prelude.{◌≡◌, ◌++◌, ◌<◌, ◌+◌, ◌-◌, ◌^◌, List, length, slice_get, min, IfOk, false, true};
ghost use Rattle.coniks_proof.specs.Bits.{child};
ghost use Rattle.coniks_proof.specs.Hashing.{Hashing, hashing};
ghost use Rattle.coniks_tree.specs.Table.{Table};
ghost use Rattle.coniks_tree.specs.Trees.{table_of};
ghost use Rattle.coniks_tree.specs.Parts.{Fits};
ghost use Rattle.coniks_tree.specs.Levels.{AllDivide, AllGrown, AllOpen, Divides, IsGrown, SideGrows, all_interior_below, filled, interior_below, is_interior, left_by, side_from};

use crate::growth::{only_change, sides};
use crate::halving::opened;
use crate::joining::{Pair, join_all};
use crate::packed::PackedNode;
use crate::part::{Change, Part, join_parts};
use crate::table::Node;
use crate::tree::{Base, Tree};
use coniks_proof::{Hash32, Prefix};
use std::alloc::{AllocError, Global};
use std::cmp::max;
use std::collections::VecDeque;

/// The part of a prefix that changes overwrite, for which it has to be opened.
#[derive(Drop)]
pub(crate) struct Growing<'a> {
    pub(crate) part: Part,
    pub(crate) prefix: Prefix,
    pub(crate) changes: &'a [Change],
}

/// A prefix whose part was opened, and its two sides, as far as they are done.
#[derive(Drop)]
pub(crate) struct Opened {
    pub(crate) prefix: Prefix,
    pub(crate) left: Option<Part>,
    pub(crate) right: Option<Part>,
}

/// Returns a part overwritten by changes, if that needs no opening, and else appends it to the parts that grow.
fn settle<'a>(
    part: Part,
    prefix: Prefix,
    changes: &'a [Change],
    next: &mut VecDeque<Growing<'a>>,
) -> Result<Option<Part>, AllocError>
    ensures { IfOk result (λ side. (by : Hashing) (t : Table)
        → Fits (length t.nodes) (length prefix) part
        → (more : List Growing) × (next.new.items ≡ next.old.items ++ more) × AllOpen (length t.nodes) (length prefix) more
        × SideGrows by t prefix part changes.now side more) }
{
    if changes.is_empty() {
        return Ok(Some(part));
    }
    if let Some(change) = only_change(prefix.len(), &part, changes) {
        return Ok(Some(Part::Entry(change)));
    }
    next.push_back(Growing {
        part,
        prefix,
        changes,
    })?;
    Ok(None)
}

/// Opens a part for its changes. The parts below that are left to grow are appended to the parts that grow.
fn divide<'a>(
    tree: &Tree,
    part: Part,
    prefix: &Prefix,
    changes: &'a [Change],
    next: &mut VecDeque<Growing<'a>>,
) -> Result<(Option<Part>, Option<Part>), AllocError>
    requires short { length prefix.now < 256 }
    requires some { 0 < length changes.now }
    requires fits { Fits (length tree.now.nodes) (length prefix.now) part }
    ensures { IfOk result (λ both. (by : Hashing)
        → (more : List Growing) × (next.new.items ≡ next.old.items ++ more) × AllOpen (length tree.now.nodes) (length prefix.now + 1) more
        × Divides by (table_of tree.now) prefix.now part changes.now both.0 both.1 more) }
{
    let level = prefix.len();
    let (left, right) = opened(tree, level, part);
    let (on_left, on_right) = sides(changes, level);
    let left = settle(left, prefix.child(false), on_left, next)?;
    let right = settle(right, prefix.child(true), on_right, next)?;
    Ok((left, right))
}

/// Returns whether the node of this number is an interior node.
fn is_inner(nodes: &[PackedNode], number: usize) -> bool
    ensures { result ≡ is_interior (slice_get nodes.now number) }
{
    let Some(node) = nodes.get(number) else {
        return false;
    };
    matches!(node.node(), Node::Inner(_, _, _))
}

/// Returns the number of interior nodes among the two nodes below a part.
fn inner_below(nodes: &[PackedNode], part: &Part) -> usize
    ensures { result ≡ interior_below nodes.now part.now }
{
    let Part::Kept(root) = part else { return 0 };
    let Some(node) = nodes.get(root.0) else {
        return 0;
    };
    let Node::Inner(left, right, _) = node.node() else {
        return 0;
    };
    is_inner(nodes, left) as usize + is_inner(nodes, right) as usize
}

/// Returns the number of interior nodes among the nodes below parts.
///
/// It reads them one after another, and nothing else in between.
fn all_inner_below(nodes: &[PackedNode], growing: &VecDeque<Growing>) -> usize
    ensures { result ≡ min (all_interior_below nodes.now growing.now.items) (2 ^ 64 - 1) }
{
    let mut count = 0;
    for one in growing.iter() {
        count = usize::saturating_add(count, inner_below(nodes, &one.part));
    }
    count
}

/// Opens the parts of a level for their changes, and returns those that are left to grow at the next level.
fn divide_all<'a>(
    tree: &Tree,
    level: usize,
    mut growing: VecDeque<Growing<'a>>,
) -> Result<(VecDeque<Opened>, VecDeque<Growing<'a>>), AllocError>
    requires { AllOpen (length tree.now.nodes) level growing.items }
    ensures below { IfOk result (λ both. AllOpen (length tree.now.nodes) (level + 1) both.1.items) }
    ensures divide { IfOk result (λ both. (by : Hashing) → AllDivide by (table_of tree.now) growing.entry.items both.0.items both.1.items) }
{
    let mut opened = VecDeque::with_capacity(tree.alloc(), growing.len())?;
    let room = max(growing.len(), all_inner_below(&tree.nodes, &growing));
    let mut next = VecDeque::with_capacity(tree.alloc(), room)?;
    while let Some(one) = growing.pop_front() {
        let Growing {
            part,
            prefix,
            changes,
        } = one;
        let (left, right) = divide(tree, part, &prefix, changes, &mut next)?;
        opened.push_back(Opened {
            prefix,
            left,
            right,
        })?;
    }
    Ok((opened, next))
}

/// Returns a side that is done, and else the first of the parts from below.
fn side_or_first(side: Option<Part>, below: &mut VecDeque<Part>) -> Part
    ensures part { result ≡ side_from side below.old.items }
    ensures below { below.new.items ≡ left_by side below.old.items }
{
    match side {
        Some(part) => part,
        None => below.pop_front().unwrap_or(Part::Nothing),
    }
}

/// Returns the opened parts with all their sides.
fn fill(
    alloc: Global,
    mut opened: VecDeque<Opened>,
    mut below: VecDeque<Part>,
) -> Result<Vec<Pair>, AllocError>
    ensures { IfOk result (λ pairs. pairs.items ≡ filled opened.items below.items) }
{
    let mut pairs = Vec::with_capacity(alloc, opened.len())?;
    while let Some(one) = opened.pop_front() {
        let Opened {
            prefix,
            left,
            right,
        } = one;
        let left = side_or_first(left, &mut below);
        let right = side_or_first(right, &mut below);
        pairs.push(Pair {
            prefix,
            left,
            right,
        })?;
    }
    Ok(pairs)
}

/// Returns the parts of a level, overwritten by their changes: opened, grown at the next level, and joined four at a
/// time.
fn grow_level<H: Hash32>(
    base: &Base<'_, H>,
    level: usize,
    growing: VecDeque<Growing>,
) -> Result<VecDeque<Part>, AllocError>
    requires { AllOpen (length base.now.tree.now.nodes) level growing.items }
    ensures { IfOk result (λ parts. AllGrown (hashing (H.digest_of base.now.h.now) base.now.nonce.now.0)
        (table_of base.now.tree.now) growing.entry.items parts.items) }
{
    if growing.is_empty() {
        return Ok(VecDeque::new(base.tree.alloc()));
    }
    let (opened, next) = divide_all(base.tree, level, growing)?;
    let below = grow_level(base, level + 1, next)?;
    let pairs = fill(base.tree.alloc(), opened, below)?;
    Ok(join_all(base, pairs)?)
}

/// Returns the part overwritten by changes, for which it has to be opened, level by level.
///
/// It is not part of its caller's stack frame, which a recursion has once for each level.
#[inline(never)]
pub(crate) fn grow_by_levels<H: Hash32>(
    base: &Base<'_, H>,
    part: Part,
    prefix: &Prefix,
    changes: &[Change],
) -> Result<Part, AllocError>
    requires short { length prefix.now < 256 }
    requires some { 0 < length changes.now }
    requires fits { Fits (length base.now.tree.now.nodes) (length prefix.now) part }
    ensures { IfOk result (λ grown. IsGrown (hashing (H.digest_of base.now.h.now) base.now.nonce.now.0)
        (table_of base.now.tree.now) prefix.now part changes.now grown) }
{
    let mut next = VecDeque::with_capacity(base.tree.alloc(), 2)?;
    let (left, right) = divide(base.tree, part, prefix, changes, &mut next)?;
    let mut below = grow_level(base, prefix.len() + 1, next)?;
    let left = side_or_first(left, &mut below);
    let right = side_or_first(right, &mut below);
    Ok(join_parts(base, prefix, left, right)?)
}
