//! A registry of pseudo-random indices, with an epoch for each batch.

use crate::tree::counting::Counting;
use crate::tree::plan::Plan;
use coniks_base_tests::{NEW_NONCE, NONCE, add, changes_to, known, part_before, record_of};
use coniks_proof::{Digest, Hash32, Index, Prefix, Proof, Sha256Hash};
use coniks_threads::{Open, Parallelism, build};
use coniks_tree::{Change, OutOfMemory, Part, Record, Root, Tree};
use std::alloc::{AllocError, Global};
use std::fmt;
use std::thread::Threads;

/// The numbers of nodes and hashes, and the latest root's hash.
#[derive(Drop)]
pub struct Counts {
    nodes: usize,
    hashes: u64,
    root: String,
}

impl fmt::Display for Counts {
    fn fmt<W: fmt::Write>(&self, f: &mut fmt::Formatter<W>) -> fmt::Result {
        let nodes = self.nodes;
        let hashes = self.hashes;
        let root = &self.root;
        write!(f, "nodes: {nodes}\nhashes: {hashes}\nroot: {root}")
    }
}

/// The numbers of nodes and hashes of a rotation.
#[derive(Drop)]
pub struct Rotation {
    nodes: usize,
    hashes: u64,
}

impl fmt::Display for Rotation {
    fn fmt<W: fmt::Write>(&self, f: &mut fmt::Formatter<W>) -> fmt::Result {
        let Rotation { nodes, hashes } = self;
        write!(
            f,
            "nodes under another nonce: {nodes}\nhashes for them: {hashes}"
        )
    }
}

/// Returns the index of a number: SHA-256 of its 8 bytes.
pub fn index_of(number: u64) -> Index {
    Index(Sha256Hash.hash(&[&number.to_be_bytes()]).0)
}

/// Returns the indices of these numbers, in increasing order.
fn indices_of(alloc: Global, from: u64, to: u64) -> Result<Vec<(Index, u64)>, AllocError> {
    let mut indices = Vec::new(alloc);
    for number in from..to {
        indices.push((index_of(number), number))?;
    }
    indices.sort()?;
    Ok(indices)
}

/// Returns the records of these numbers, in the order of their indices. A name is the 8 bytes of its number, and a key
/// the 32 bytes of its index.
fn records_of<H: Hash32>(
    alloc: Global,
    h: &H,
    from: u64,
    to: u64,
) -> Result<Vec<Record>, AllocError> {
    let mut records = Vec::new(alloc);
    for (index, number) in &indices_of(alloc, from, to)? {
        let name = number.to_be_bytes();
        records.push(record_of(alloc, h, *index, &name, &index.0)?)?;
    }
    Ok(records)
}

/// A tree with an epoch for each batch, and a hash that counts its calls.
#[derive(Drop)]
pub struct Registry {
    alloc: Global,
    hash: Counting,
    tree: Tree,
    latest: Option<Root>,
}

impl Registry {
    /// Returns an empty registry.
    pub fn new(alloc: Global) -> Registry {
        Registry {
            alloc,
            hash: Counting::new(),
            tree: Tree::new(alloc),
            latest: None,
        }
    }

    /// Registers the indices of a plan.
    pub fn register_all(&mut self, plan: &Plan) -> Result<(), OutOfMemory> {
        for number in 0..plan.batches() {
            let from = number.saturating_mul(plan.batch);
            let to = plan.indices.min(from.saturating_add(plan.batch));
            self.register(from, to)?;
        }
        Ok(())
    }

    /// Registers these numbers in one epoch.
    fn register(&mut self, from: u64, to: u64) -> Result<(), OutOfMemory> {
        let records = records_of(self.alloc, &self.hash, from, to)?;
        let changes = changes_to(self.alloc, self.tree.records(), &records)?;
        let top = Prefix::root();
        let part = part_before(&self.tree, self.latest, &top);
        let part = self.tree.grow(&self.hash, &NONCE, part, &top, &changes)?;
        let added = add(&mut self.tree, &self.hash, part, records)?;
        self.latest = Some(added.root);
        Ok(())
    }

    /// Returns the changes of one more batch that registers these numbers. The registry is unchanged.
    pub fn changes(&self, from: u64, to: u64) -> Result<Vec<Change>, AllocError> {
        let records = records_of(self.alloc, &Sha256Hash, from, to)?;
        Ok(changes_to(self.alloc, self.tree.records(), &records)?)
    }

    /// Builds the part of one more batch with several workers. The registry is unchanged.
    pub fn part<R: Threads + Sync>(
        &self,
        rt: &R,
        changes: &[Change],
        parallelism: Parallelism,
    ) -> Result<Part, OutOfMemory> {
        let latest = known(&self.tree, self.latest);
        Ok(build(
            rt,
            self.alloc,
            &Sha256Hash,
            &NONCE,
            &self.tree,
            latest,
            changes,
            parallelism.depth(),
            parallelism.workers(),
            &Open,
        )?)
    }

    /// Returns the authentication path to an index from the latest root, if there is a root.
    pub fn path(&self, index: &Index) -> Result<Option<Proof>, OutOfMemory> {
        match known(&self.tree, self.latest) {
            Some(root) => Ok(Some(self.tree.path(root, index)?)),
            None => Ok(None),
        }
    }

    /// Returns all entries, as the changes that build them from nothing.
    pub fn entries(&self) -> Result<Vec<Change>, OutOfMemory> {
        match known(&self.tree, self.latest) {
            Some(root) => Ok(self.tree.entries(root)?),
            None => Ok(Vec::new(self.alloc)),
        }
    }

    /// Builds the part of all entries under another nonce with several workers. The registry is unchanged.
    pub fn rotated<R: Threads + Sync>(
        &self,
        rt: &R,
        entries: &[Change],
        parallelism: Parallelism,
    ) -> Result<Part, OutOfMemory> {
        Ok(build(
            rt,
            self.alloc,
            &Sha256Hash,
            &NEW_NONCE,
            &self.tree,
            None,
            entries,
            parallelism.depth(),
            parallelism.workers(),
            &Open,
        )?)
    }

    /// Returns the numbers of nodes and hashes of a rotation of the nonce.
    pub fn rotation(&self) -> Result<Rotation, OutOfMemory> {
        let hash = Counting::new();
        let entries = self.entries()?;
        let part = self.tree.grow(&hash, &NEW_NONCE, Part::Nothing, &Prefix::root(), &entries)?;
        Ok(Rotation {
            nodes: self.tree.new_nodes(&part),
            hashes: hash.calls(),
        })
    }

    /// Returns the numbers so far.
    pub fn counts(&self, alloc: Global) -> Result<Counts, AllocError> {
        let root = match self.latest {
            Some(root) if root.0 < self.tree.nodes() => self.tree.node_hash(root),
            _ => Digest([0; 32]),
        };
        Ok(Counts {
            nodes: self.tree.nodes(),
            hashes: self.hash.calls(),
            root: hex::encode(alloc, &root.0)?,
        })
    }
}
