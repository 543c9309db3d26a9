//! A tree of epochs.

ghost use Rattle.std.specs.Prelude.{List, length, IfOk};
ghost use Rattle.coniks_tree.specs.Table.{Extends};
ghost use Rattle.coniks_tree.specs.Parts.{AllPlaced, Fits, Placed};
ghost use Rattle.coniks_tree.specs.declared.table.Record.{Record};

use crate::records::{Added, Bound, add, changes_to, records_of};
use crate::values::NONCE;
use coniks_proof::{Hash32, Index, MAX_LEVEL, Prefix, Proof};
use coniks_tree::{Change, OutOfMemory, Part, Root, Tree, lefts};
use std::alloc::Global;

/// What the part of an epoch is grown from: a tree, the hash of the new nodes, and the root whose entries are overwritten.
#[derive(Drop)]
struct Base<'a, H> {
    tree: &'a Tree,
    h: &'a H,
    older: Option<Root>,
}

/// Returns what the older root shows under a prefix, or nothing if there is none, overwritten by changes. The parts of
/// the prefixes of `depth` more bits that have a change are grown apart.
fn grown_at<H: Hash32>(
    base: &Base<'_, H>,
    prefix: &Prefix,
    depth: usize,
    changes: &[Change],
) -> Result<Part, OutOfMemory>
    ensures fits { IfOk result (λ part. Fits (length base.now.tree.now.nodes) (length prefix.now) part) }
    ensures placed { IfOk result (λ part. (all : List Record) → Extends base.now.tree.now.records all → AllPlaced all changes.now → Placed all part) }
{
    let Base { tree, h, older } = *base;
    if depth == 0 || changes.is_empty() || prefix.len() == MAX_LEVEL {
        let part = part_before(tree, older, prefix);
        return Ok(tree.grow(h, &NONCE, part, prefix, changes)?);
    }
    let (on_left, on_right) = changes.split_at(lefts(changes, prefix.len()));
    let left = grown_at(base, &prefix.child(false), depth - 1, on_left)?;
    let right = grown_at(base, &prefix.child(true), depth - 1, on_right)?;
    Ok(tree.join(h, &NONCE, prefix, left, right)?)
}

/// Returns what an older root shows under a prefix, or nothing if the tree has no such root.
pub fn part_before(tree: &Tree, older: Option<Root>, prefix: &Prefix) -> Part
    ensures fits { Fits (length tree.now.nodes) (length prefix.now) result }
    ensures placed { (all : List Record) → Extends tree.now.records all → Placed all result }
{
    let _level = prefix.len();
    match older {
        Some(root) if root.0 < tree.nodes() => tree.part_at(root, prefix),
        _ => Part::Nothing,
    }
}

/// A tree of epochs, all under `NONCE`.
#[derive(Drop)]
pub struct Epochs<H> {
    pub alloc: Global,
    pub h: H,
    pub tree: Tree,
}

impl<H: Hash32> Epochs<H> {
    /// Returns a tree without epochs.
    pub fn new(alloc: Global, h: H) -> Epochs<H> {
        Epochs {
            alloc,
            h,
            tree: Tree::new(alloc),
        }
    }

    /// Adds the epoch with the entries of an older root, overwritten by these bindings, which are in the order of their
    /// indices. Its parts are grown apart at a split depth.
    ///
    /// # Errors
    ///
    /// `OutOfMemory` if an allocation fails. The tree is unchanged.
    pub fn add(
        &mut self,
        older: Option<Root>,
        depth: usize,
        bindings: &[Bound],
    ) -> Result<Added, OutOfMemory> {
        let records = records_of(self.alloc, &self.h, bindings)?;
        let changes = changes_to(self.alloc, self.tree.records(), &records)?;
        let base = Base {
            tree: &self.tree,
            h: &self.h,
            older,
        };
        let part = grown_at(&base, &Prefix::root(), depth, &changes)?;
        Ok(add(&mut self.tree, &self.h, part, records)?)
    }

    /// Returns the numbers of nodes and records.
    pub fn sizes(&self) -> (usize, usize) {
        (self.tree.nodes(), self.tree.records())
    }

    /// Returns the authentication path to an index.
    ///
    /// # Errors
    ///
    /// `OutOfMemory` if an allocation fails, or the tree does not have the root.
    pub fn path(&self, root: Root, index: &Index) -> Result<Proof, OutOfMemory> {
        if root.0 < self.tree.nodes() {
            Ok(self.tree.path(root, index)?)
        } else {
            Err(OutOfMemory)
        }
    }

    /// Returns the changes that build what a root shows. Its errors are those of `path`.
    pub fn entries(&self, root: Root) -> Result<Vec<Change>, OutOfMemory> {
        if root.0 < self.tree.nodes() {
            Ok(self.tree.entries(root)?)
        } else {
            Err(OutOfMemory)
        }
    }

    /// Returns a page of what a root shows, as `Tree::page` does. Its errors are those of `path`.
    pub fn page(
        &self,
        root: Root,
        after: Option<Index>,
        most: usize,
    ) -> Result<Vec<Change>, OutOfMemory> {
        if root.0 < self.tree.nodes() {
            Ok(self.tree.page(root, after, most)?)
        } else {
            Err(OutOfMemory)
        }
    }
}
