//! A tree without a directory.

ghost use Rattle.std.specs.Prelude.{◌≡◌, ◌<◌, ◌∷◌, [], List, Some, length, slice_get, ℕ};
ghost use Rattle.coniks_tree.specs.Parts.{Fits, Placed, node_count};
ghost use Rattle.coniks_tree.specs.declared.part.Part.{Entry};
ghost use Rattle.coniks_tree.specs.declared.table.Record.{Record};

use crate::own::TaggedHash;
use crate::provider::{INDEX, NONCE};
use anyhow::Result;
use coniks_directory::IndexSource;
use coniks_proof::{Binding, Bytes, Opening, Prefix, commit_hash};
use coniks_threads::{Open, build};
use coniks_tree::{Change, Part, Record, RecordNo, Root, Tree};
use std::alloc::{AllocError, Global};
use std::thread::Threads;

/// The opening of the commitments.
const OPENING: Opening = Opening([9; 32]);

/// Returns the record of a name of five bytes and a key of three.
fn record_of(alloc: Global, name: &[u8; 5], key: &[u8; 3]) -> Result<Record, AllocError> {
    let binding = Binding {
        name: Bytes::copy_of(alloc, name)?,
        key: Bytes::copy_of(alloc, key)?,
    };
    Ok(Record {
        index: INDEX.index(name),
        commitment: commit_hash(&TaggedHash, &OPENING, name, key),
        opening: OPENING,
        binding,
    })
}

/// Returns the change that puts a record into the tree, under its number.
fn change_to(new: &Record, place: usize) -> Change
    ensures { (all : List Record) → slice_get all place ≡ Some new.now → Placed all (Entry result) }
{
    Change {
        index: new.index,
        commitment: new.commitment,
        place: RecordNo(place),
    }
}

/// Returns the part of a tree with one record.
fn lone_part(new: &Record) -> Part
    ensures fits { (nodes : ℕ) → Fits nodes 0 result }
    ensures count { node_count result ≡ 1 }
    ensures placed { Placed (new.now ∷ []) result }
{
    Part::Entry(change_to(new, 0))
}

/// Builds a tree of one name, and grows the next one from it: in one call, and with worker threads.
pub fn small_tree<R: Threads + Sync + Print + AllocGlobal>(rt: &R) -> Result<()> {
    let alloc = rt.alloc();
    let carol = record_of(alloc, b"carol", b"one")?;
    let david = record_of(alloc, b"david", b"two")?;
    let part = lone_part(&carol);
    let records = vec![in alloc; carol]?;
    let changes = [change_to(&david, 1)];

    // `reserve` makes room for a part and its records, and `attach` adds them. The root shows them from then on.
    let mut tree = Tree::new(alloc);
    tree.reserve(&part, records.len())?;
    let root = tree.attach(&TaggedHash, &NONCE, part, records);
    let hash = hex::encode(alloc, &tree.node_hash(root).0)?;
    println!(rt; "a tree of nodes: {}, root {hash}", tree.nodes())?;

    // The next part is grown from what a root shows. The tree is only read.
    let top = Prefix::root();
    let part = tree.grow(
        &TaggedHash,
        &NONCE,
        tree.part_at(root, &top),
        &top,
        &changes,
    )?;
    let hash = hex::encode(alloc, &tree.part_hash(&TaggedHash, &NONCE, &part).0)?;
    println!(rt;
        "the next one, of new nodes: {}, root {hash}",
        tree.new_nodes(&part)
    )?;

    let hash = hash_by_workers(rt, &tree, root, &changes)?;
    println!(rt; "by two workers: root {hash}")?;
    Ok(())
}

/// Builds the next tree with two workers, and returns its root after the changes in hexadecimal.
fn hash_by_workers<R: Threads + Sync + AllocGlobal>(
    rt: &R,
    tree: &Tree,
    root: Root,
    changes: &[Change],
) -> Result<String>
    requires { root.0 < length tree.now.nodes }
{
    // Indices that differ in their first bit are jobs of their own, and two workers draw them.
    let (depth, workers) = (1, 2);
    let (h, old) = (&TaggedHash, Some(root));
    let alloc = rt.alloc();
    let part = build(
        rt, alloc, h, &NONCE, tree, old, changes, depth, workers, &Open,
    )?;
    let hash = tree.part_hash(h, &NONCE, &part);
    Ok(hex::encode(alloc, &hash.0)?)
}
