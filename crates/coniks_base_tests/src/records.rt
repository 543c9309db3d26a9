//! Records and changes of trees.

ghost use Rattle.std.specs.Prelude.{◌≡◌, ◌++◌, ◌<◌, ◌≤◌, ◌+◌, List, length, IfOk, IfSome, Some, slice_get};
ghost use Rattle.coniks_proof.specs.declared.values.TheConstants.{MAX_KEY, MAX_NAME};
ghost use Rattle.coniks_tree.specs.Parts.{AllPlaced, Fits, Placed};
ghost use Rattle.coniks_tree.specs.declared.part.Part.{Entry};
ghost use Rattle.coniks_tree.specs.declared.table.Record.{Record};

use crate::values::{NONCE, OPENING};
use coniks_proof::{Binding, Bytes, Hash32, Index, commit_hash};
use coniks_tree::{Change, OutOfMemory, Part, Record, RecordNo, Root, Tree};
use std::alloc::{AllocError, Global};

/// An index, and the letters of the name and of the key that are bound there.
pub type Bound = (Index, u8, u8);

/// Returns the record that binds a name of at most `MAX_NAME` bytes to a key of at most `MAX_KEY`, at an index.
pub fn record_of<H: Hash32>(
    alloc: Global,
    h: &H,
    index: Index,
    name: &[u8],
    key: &[u8],
) -> Result<Record, AllocError>
    requires name { length name.now ≤ MAX_NAME }
    requires key { length key.now ≤ MAX_KEY }
{
    let commitment = commit_hash(h, &OPENING, name, key);
    let name = Bytes::copy_of(alloc, name)?;
    let key = Bytes::copy_of(alloc, key)?;
    Ok(Record {
        index,
        binding: Binding { name, key },
        opening: OPENING,
        commitment,
    })
}

/// Returns the records that bind these, in the same order.
pub fn records_of<H: Hash32>(
    alloc: Global,
    h: &H,
    bindings: &[Bound],
) -> Result<Vec<Record>, AllocError> {
    let mut records = Vec::new(alloc);
    for (index, name, key) in bindings {
        records.push(record_of(alloc, h, *index, &[*name], &[*key])?)?;
    }
    Ok(records)
}

/// Returns the change that puts the record with a number into the tree.
fn change_to(place: usize, new: &Record) -> Change
    ensures { (all : List Record) → slice_get all place ≡ Some new.now → Placed all (Entry result) }
{
    Change {
        index: new.index,
        commitment: new.commitment,
        place: RecordNo(place),
    }
}

/// Returns the changes that put records into the tree. `first` is the number of the first one.
pub fn changes_to(
    alloc: Global,
    first: usize,
    records: &[Record],
) -> Result<Vec<Change>, AllocError>
    ensures { IfOk result (λ changes. (old : List Record) → length old ≡ first → AllPlaced (old ++ records.now) changes.items) }
{
    let mut changes = Vec::new(alloc);
    for (position, new) in records.iter().enumerate() {
        let place = first.checked_add(position).ok_or(AllocError)?;
        changes.push(change_to(place, new))?;
    }
    Ok(changes)
}

/// Returns a root if the tree has it.
pub fn known(tree: &Tree, root: Option<Root>) -> Option<Root>
    ensures { IfSome result (λ r. r.0 < length tree.now.nodes) }
{
    match root {
        Some(root) if root.0 < tree.nodes() => Some(root),
        _ => None,
    }
}

/// An epoch's root, and the number of its new nodes.
#[derive(Clone, Copy, Debug)]
pub struct Added {
    pub root: Root,
    pub nodes: usize,
}

/// Puts the part and the records of an epoch into a tree.
///
/// # Errors
///
/// `OutOfMemory` if an allocation fails. The tree is unchanged.
pub fn add<H: Hash32>(
    tree: &mut Tree,
    h: &H,
    part: Part,
    records: Vec<Record>,
) -> Result<Added, OutOfMemory>
    requires fits { Fits (length tree.old.nodes) 0 part }
    requires placed { Placed (tree.old.records ++ records.items) part }
    ensures { IfOk result (λ added. added.root.0 < length tree.new.nodes) }
{
    let nodes = tree.new_nodes(&part);
    tree.reserve(&part, records.len())?;
    let root = tree.attach(h, &NONCE, part, records);
    Ok(Added { root, nodes })
}
