//! The tree.

ghost use Rattle.std.specs.Prelude.{◌≡◌, ◌++◌, [], ◌<◌, ◌≤◌, ◌+◌, ◌*◌, ◌-◌, ◌^◌, List, ℕ, length, slice_get, IfOk, IfSome, Some, OnOk, Bool, false, true, map, min};
ghost use Rattle.coniks_proof.specs.Bits.{child};
ghost use Rattle.coniks_proof.specs.Entries.{backed_by, half, under};
ghost use Rattle.coniks_proof.specs.Changes.{overwritten, AreApart, AreInOrder};
ghost use Rattle.coniks_proof.specs.Hashing.{Hashing, hashing};
ghost use Rattle.coniks_proof.specs.Paths.{IsPath};
ghost use Rattle.coniks_proof.specs.Tree.{node};
ghost use Rattle.coniks_tree.specs.Trees.{table_of};
ghost use Rattle.coniks_tree.specs.Entries.{Lists};
ghost use Rattle.coniks_tree.specs.Pages.{page_of};
ghost use Rattle.coniks_tree.specs.Table.{Extends, NodeFits, Numbered, Shows, registered_at};
ghost use Rattle.coniks_tree.specs.Counts.{joined_count, new_nodes};
ghost use Rattle.coniks_tree.specs.Parts.{Stands, Fits, KeepsNone, Placed, AllPlaced, node_count, is_made, entries_in};
ghost use Rattle.coniks_tree.specs.Paths.{Finds};

use crate::attach::append;
use crate::entries::{NodeAt, changes_at, list_places};
use crate::growth::grow_part;
use crate::halving::side;
use crate::packed::{PackedNode, has_numbers};
use crate::page::{list_beyond, list_first};
use crate::part::{Change, Part, hash_at, join_parts, new_nodes};
use crate::path::{Stop, last_number, path_from, stop_at};
use crate::table::{Node, Record, RecordNo, Root};
use coniks_proof::{Digest, Hash32, Index, Nonce, OutOfMemory, Prefix, Proof};
use std::alloc::Global;
use std::marker::Model;

/// The nodes that epochs share, and the records of their leaves. Both lists only grow, at their ends.
///
/// A part or a root belongs to the tree that returned it, and to the hash and the nonce that it was made with. The
/// postconditions are for a part that stands for a map, or a root that shows one. With another tree, hash or nonce a call
/// is memory-safe and terminates, but returns something else.
///
/// Contracts see a tree as its nodes, its records, and how many of each there is room for.
#[derive(Drop)]
pub struct Tree {
    pub(crate) nodes: Vec<PackedNode>,
    records: Vec<Record>,
    alloc: Global,
}

impl Model for Tree {
    ghost use Rattle.std.specs.Prelude.{◌^◌, min, vec_capacity};
    ghost use Rattle.coniks_tree.specs.Table.{IsLinked, table};
    ghost use Rattle.coniks_tree.specs.Trees.{TreeView};

    ghost Value = { TreeView };

    ghost view = { λ t. record {
      nodes = t.nodes.items;
      records = t.records.items;
      node_room = min (vec_capacity t.nodes) (2 ^ 48);
      record_room = vec_capacity t.records;
    } };

    ghost invariant = { λ t. IsLinked (table t.nodes.items t.records.items) };
}

/// What new parts are made over: a tree, and the hash and nonce of the new nodes.
#[derive(Clone, Copy)]
pub(crate) struct Base<'a, H> {
    pub(crate) tree: &'a Tree,
    pub(crate) h: &'a H,
    pub(crate) nonce: &'a Nonce,
}

impl Tree {
    /// Returns a tree without nodes and records.
    pub fn new(alloc: Global) -> Tree
        ensures nodes { result.nodes ≡ [] }
        ensures records { result.records ≡ [] }
    {
        Tree {
            nodes: Vec::new(alloc),
            records: Vec::new(alloc),
            alloc,
        }
    }

    /// Returns the allocator of the tree.
    pub(crate) fn alloc(&self) -> Global {
        self.alloc
    }

    /// Returns the number of nodes that the tree holds.
    pub fn nodes(&self) -> usize
        ensures { result ≡ length self.now.nodes }
    {
        self.nodes.len()
    }

    /// Returns the number of records that the tree holds, which is less than 2^63.
    pub fn records(&self) -> usize
        ensures count { result ≡ length self.now.records }
        ensures few { result < 2 ^ 63 }
    {
        self.records.len()
    }

    /// Returns the record of this number.
    pub fn record(&self, place: RecordNo) -> &Record
        requires { place.0 < length self.now.records }
        ensures { slice_get self.now.records place.0 ≡ Some result.now }
    {
        &self.records[place.0]
    }

    /// Returns the node of this number.
    pub(crate) fn node(&self, number: usize) -> Node
        requires { number < length self.now.nodes }
        ensures at { slice_get self.now.nodes number ≡ Some result }
        ensures linked { NodeFits number self.now.records result }
    {
        self.nodes[number].node()
    }

    /// Returns the hash of a node, which is stored in the node. Computes no hash.
    pub fn node_hash(&self, root: Root) -> Digest
        requires { root.0 < length self.now.nodes }
        ensures { (by : Hashing) (prefix : List Bool) (entries : List Numbered)
            → Shows by (table_of self.now) root.0 prefix entries → result.0 ≡ node by prefix entries }
    {
        self.nodes[root.0].hash()
    }

    /// Returns the number of the record at an index, or `None` if the root shows no entry there.
    ///
    /// Allocates nothing and computes no hash.
    pub fn find(&self, root: Root, index: &Index) -> Option<RecordNo>
        requires { root.0 < length self.now.nodes }
        ensures known { IfSome result (λ place. place.0 < length self.now.records) }
        ensures finds { (by : Hashing) (entries : List Numbered)
            → Shows by (table_of self.now) root.0 [] entries → Finds self.now.records index.now.0 result entries }
    {
        match stop_at(self, last_number(self, root, index), index) {
            Stop::Empty => None,
            Stop::Other(_, _) => None,
            Stop::Here(place) => Some(place),
        }
    }

    /// Returns the authentication path to an index, present or not (CONIKS, section 3.1).
    ///
    /// The path has 0 to 256 siblings and an end. The call copies the name and the key of that end only, and computes no
    /// hash.
    ///
    /// # Errors
    ///
    /// `OutOfMemory` if an allocation fails.
    pub fn path(&self, root: Root, index: &Index) -> Result<Proof, OutOfMemory>
        requires { root.0 < length self.now.nodes }
        ensures { IfOk result (λ path. (by : Hashing) (entries : List Numbered)
            → Shows by (table_of self.now) root.0 [] entries
            → IsPath by (map (backed_by (registered_at self.now.records)) entries) index.now.0 path) }
    {
        Ok(path_from(self, root, index)?)
    }

    /// Returns the map that a root shows, as the changes that build it from the empty map.
    ///
    /// They are in increasing order of index, each with the number of its record. The call computes no hash.
    ///
    /// # Errors
    ///
    /// `OutOfMemory` if an allocation fails.
    pub fn entries(&self, root: Root) -> Result<Vec<Change>, OutOfMemory>
        requires { root.0 < length self.now.nodes }
        ensures placed { IfOk result (λ changes. (all : List Record) → Extends self.now.records all → AllPlaced all changes.items) }
        ensures lists { IfOk result (λ changes. (by : Hashing) (entries : List Numbered)
            → Shows by (table_of self.now) root.0 [] entries → Lists changes.items entries) }
    {
        let mut places = Vec::new(self.alloc());
        let node = NodeAt {
            number: root.0,
            level: 0,
        };
        list_places(self, node, &mut places)?;
        Ok(changes_at(self, &places)?)
    }

    /// Returns a page of the map that a root shows: at most `most` entries, in increasing order of index.
    ///
    /// They are the first entries whose indices are greater than `after`, or the first of all. Each is a change, as in
    /// `entries`. The call reads the nodes on the way to `after` and those above the entries of the page, and computes no
    /// hash.
    ///
    /// # Errors
    ///
    /// `OutOfMemory` if an allocation fails.
    pub fn page(
        &self,
        root: Root,
        after: Option<Index>,
        most: usize,
    ) -> Result<Vec<Change>, OutOfMemory>
        requires { root.0 < length self.now.nodes }
        ensures placed { IfOk result (λ page. (all : List Record) → Extends self.now.records all → AllPlaced all page.items) }
        ensures page { IfOk result (λ page. (by : Hashing) (entries : List Numbered)
            → Shows by (table_of self.now) root.0 [] entries → entries_in page.items ≡ page_of after most entries) }
    {
        let mut places = Vec::new(self.alloc());
        let node = NodeAt {
            number: root.0,
            level: 0,
        };
        match after {
            None => list_first(self, node, most, &mut places)?,
            Some(index) => list_beyond(self, node, &index, most, &mut places)?,
        }
        Ok(changes_at(self, &places)?)
    }

    /// Returns the part of the entries that a root shows under a prefix. At the empty prefix it is the root itself, kept.
    ///
    /// Allocates nothing and computes no hash.
    pub fn part_at(&self, root: Root, prefix: &Prefix) -> Part
        requires { root.0 < length self.now.nodes }
        ensures fits { Fits (length self.now.nodes) (length prefix.now) result }
        ensures unmade { is_made result ≡ false }
        ensures count { node_count result ≤ 1 }
        ensures whole { length prefix.now ≡ 0 → node_count result ≡ 0 }
        ensures placed { (all : List Record) → Extends self.now.records all → Placed all result }
        ensures stands { (by : Hashing) (entries : List Numbered)
            → Shows by (table_of self.now) root.0 [] entries
            → Stands by (table_of self.now) result prefix.now (under prefix.now entries) }
    {
        let mut part = Part::Kept(root);
        for level in 0..prefix.len() {
            part = side(self, level, part, prefix.at(level));
        }
        part
    }

    /// Returns the hash of the root that a part of the empty prefix becomes.
    ///
    /// Computes a hash only for a single entry or an empty part, and only one.
    pub fn part_hash<H: Hash32>(&self, h: &H, nonce: &Nonce, part: &Part) -> Digest
        requires { Fits (length self.now.nodes) 0 part.now }
        ensures { (entries : List Numbered) → Stands (hashing (H.digest_of h.now) nonce.now.0) (table_of self.now) part.now [] entries
            → result.0 ≡ node (hashing (H.digest_of h.now) nonce.now.0) [] entries }
    {
        hash_at(self, h, nonce, &Prefix::root(), part)
    }

    /// Joins two parts of neighbouring prefixes, the left one first, to the part of the prefix above, which is an
    /// argument.
    ///
    /// One entry and nothing are that entry. Two or more entries are a new subtree, whose node is hashed here, once.
    ///
    /// # Errors
    ///
    /// `OutOfMemory` if an allocation fails. The tree is then unchanged, and both parts are dropped.
    pub fn join<H: Hash32>(
        &self,
        h: &H,
        nonce: &Nonce,
        prefix: &Prefix,
        left: Part,
        right: Part,
    ) -> Result<Part, OutOfMemory>
        requires short { length prefix.now < 256 }
        requires left { Fits (length self.now.nodes) (length prefix.now + 1) left }
        requires right { Fits (length self.now.nodes) (length prefix.now + 1) right }
        ensures fits { IfOk result (λ part. Fits (length self.now.nodes) (length prefix.now) part) }
        ensures count { IfOk result (λ part. node_count part ≤ node_count left + node_count right + 1) }
        ensures new { IfOk result (λ part. node_count part ≡ joined_count left right) }
        ensures keeps { IfOk result (λ part. KeepsNone left → KeepsNone right → KeepsNone part) }
        ensures placed { IfOk result (λ part. (all : List Record) → Placed all left → Placed all right → Placed all part) }
        ensures stands { IfOk result (λ part. (entries : List Numbered)
            → Stands (hashing (H.digest_of h.now) nonce.now.0) (table_of self.now)
            left (child prefix.now false) (half false (length prefix.now) entries)
            → Stands (hashing (H.digest_of h.now) nonce.now.0) (table_of self.now)
            right (child prefix.now true) (half true (length prefix.now) entries)
            → Stands (hashing (H.digest_of h.now) nonce.now.0) (table_of self.now) part prefix.now entries) }
    {
        let base = Base {
            tree: self,
            h,
            nonce,
        };
        Ok(join_parts(&base, prefix, left, right)?)
    }

    /// Overwrites the part of a prefix, which is an argument, with changes, and returns the new part.
    ///
    /// The changes are of indices under the prefix, in increasing order and each index once. Without changes it returns
    /// the part itself. Each interior node that it makes is hashed here, once, with the leaves and empty nodes below it.
    ///
    /// # Errors
    ///
    /// `OutOfMemory` if an allocation fails. The tree is then unchanged, and the part is dropped.
    pub fn grow<H: Hash32>(
        &self,
        h: &H,
        nonce: &Nonce,
        part: Part,
        prefix: &Prefix,
        changes: &[Change],
    ) -> Result<Part, OutOfMemory>
        requires { Fits (length self.now.nodes) (length prefix.now) part }
        ensures fits { IfOk result (λ grown. Fits (length self.now.nodes) (length prefix.now) grown) }
        ensures same { IfOk result (λ grown. length changes.now ≡ 0 → grown ≡ part) }
        ensures placed { IfOk result (λ grown. (all : List Record) → Extends self.now.records all
            → Placed all part → AllPlaced all changes.now → Placed all grown) }
        ensures count { IfOk result (λ grown. is_made part ≡ false → 0 < length changes.now
            → node_count grown ≤ 1 + 2 * ((256 - length prefix.now) * length changes.now)) }
        ensures new { IfOk result (λ grown. is_made part ≡ false → 0 < length prefix.now + length changes.now → (entries : List Numbered)
            → AreInOrder (length prefix.now) (entries_in changes.now)
            → AreApart (length prefix.now) (overwritten entries (entries_in changes.now))
            → Stands (hashing (H.digest_of h.now) nonce.now.0) (table_of self.now) part prefix.now entries
            → node_count grown ≡ new_nodes (length prefix.now) entries (entries_in changes.now)) }
        ensures keeps { IfOk result (λ grown. KeepsNone part → KeepsNone grown) }
        ensures stands { IfOk result (λ grown. (entries : List Numbered)
            → AreInOrder (length prefix.now) (entries_in changes.now)
            → AreApart (length prefix.now) (overwritten entries (entries_in changes.now))
            → Stands (hashing (H.digest_of h.now) nonce.now.0) (table_of self.now) part prefix.now entries
            → Stands (hashing (H.digest_of h.now) nonce.now.0) (table_of self.now)
            grown prefix.now (overwritten entries (entries_in changes.now))) }
    {
        let base = Base {
            tree: self,
            h,
            nonce,
        };
        Ok(grow_part(&base, part, prefix, changes)?)
    }

    /// Returns the number of nodes that an attach of a part adds, its empty nodes and its topmost one included.
    ///
    /// Returns `usize::MAX` if there are more.
    pub fn new_nodes(&self, part: &Part) -> usize
        ensures { (level : ℕ) → Fits (length self.now.nodes) level part.now → result ≡ min (node_count part.now) (2 ^ 64 - 1) }
    {
        new_nodes(part)
    }

    /// Reserves room for the nodes of a part and for this number of records, so that `attach` allocates nothing.
    ///
    /// The nodes and records are unchanged, also after an error.
    ///
    /// # Errors
    ///
    /// `OutOfMemory` if an allocation fails, or if the tree would have more than 2^48 nodes.
    pub fn reserve(&mut self, part: &Part, records: usize) -> Result<(), OutOfMemory>
        requires { Fits (length self.old.nodes) 0 part.now }
        ensures nodes { self.new.nodes ≡ self.old.nodes }
        ensures records { self.new.records ≡ self.old.records }
        ensures room_nodes { OnOk result (length self.new.nodes + node_count part.now ≤ self.new.node_room) }
        ensures room_records { OnOk result (length self.new.records + records ≤ self.new.record_room) }
    {
        let count = new_nodes(part);
        if !has_numbers(&self.nodes, count) {
            return Err(OutOfMemory);
        }
        self.nodes.try_reserve(count)?;
        self.records.try_reserve(records)?;
        Ok(())
    }

    /// Adds records and a part of the empty prefix, for which `reserve` made room, and returns the root that shows its
    /// entries.
    ///
    /// Returns a kept root as it is. Each older root shows the same entries as before. No node below the root is hashed
    /// again.
    pub fn attach<H: Hash32>(
        &mut self,
        h: &H,
        nonce: &Nonce,
        part: Part,
        records: Vec<Record>,
    ) -> Root
        requires fits { Fits (length self.old.nodes) 0 part }
        requires room_nodes { length self.old.nodes + node_count part ≤ self.old.node_room }
        requires room_records { length self.old.records + length records.items ≤ self.old.record_room }
        requires placed { Placed (self.old.records ++ records.items) part }
        ensures nodes { length self.new.nodes ≡ length self.old.nodes + node_count part }
        ensures records { self.new.records ≡ self.old.records ++ records.items }
        ensures known { result.0 < length self.new.nodes }
        ensures older { Extends self.old.nodes self.new.nodes }
        ensures shows { (entries : List Numbered)
            → Stands (hashing (H.digest_of h.now) nonce.now.0) (table_of self.old) part [] entries
            → Shows (hashing (H.digest_of h.now) nonce.now.0) (table_of self.new) result.0 [] entries }
    {
        let hash = hash_at(self, h, nonce, &Prefix::root(), &part);
        let mut added = records;
        let _ = self.records.append(&mut added);
        Root(append(&mut self.nodes, 0, &hash, &part))
    }
}
