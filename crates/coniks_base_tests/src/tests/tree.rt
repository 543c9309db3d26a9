//! Trees of epochs: pages of the entries, allocations that fail, and the size of a node.

use crate::{Epochs, index_of};
use coniks_proof::{Flat, Index};
use coniks_tree::packed::PackedNode;
use coniks_tree::{Change, RecordNo, Root};
use std::alloc::Global;
use std::process::Abort;

/// A node has at most 48 bytes: a hash of 32 bytes, two numbers of 6 bytes, and its kind.
#[test]
fn a_node_is_small(rt: HostRuntime) {
    assert!(rt; size_of::<PackedNode>() <= 48);
}

/// Returns a tree with 100,000 names, whose indices are evenly spread, and its root.
fn large_tree(rt: &impl Abort, alloc: Global) -> (Epochs<Flat>, Root) {
    let mut bindings = Vec::new(alloc);
    for number in 0..100_000u32 {
        let mut index = Index([0; 32]);
        index.0[..4].copy_from_slice(&number.wrapping_mul(42_949).to_be_bytes());
        bindings.push((index, b'n', b'k')).expect(rt, "memory");
    }
    let mut epochs = Epochs::new(alloc, Flat);
    let root = epochs.add(None, 0, &bindings).expect(rt, "memory").root;
    (epochs, root)
}

/// Appends the indices of changes and the numbers of their records.
fn list(rt: &impl Abort, changes: &[Change], found: &mut Vec<(Index, RecordNo)>) {
    for change in changes {
        let entry = (change.index, change.place);
        found.push(entry).expect(rt, "memory");
    }
}

/// Returns what the pages of a size list together, each after the last index of the one before, up to an empty page.
fn all_pages(
    rt: &impl Abort,
    alloc: Global,
    epochs: &Epochs<Flat>,
    root: Root,
    most: usize,
) -> Vec<(Index, RecordNo)> {
    let mut found = Vec::new(alloc);
    let mut after = None;
    for _ in 0..=epochs.sizes().1 {
        let page = epochs.page(root, after, most).expect(rt, "memory");
        let Some(last) = page.last() else { break };
        after = Some(last.index);
        list(rt, &page, &mut found);
    }
    found
}

/// 1,000 pages of 100, 100,000 of 1, and one of any number list a tree of 100,000 names. If a page cost as much as the tree,
/// the test would take minutes.
#[test]
fn pages_of_a_large_tree(rt: HostRuntime) {
    let (epochs, root) = large_tree(&rt, rt.alloc());
    let mut entries = Vec::new(rt.alloc());
    list(
        &rt,
        &epochs.entries(root).expect(&rt, "memory"),
        &mut entries,
    );
    for most in [100, 1, usize::MAX] {
        assert!(rt; all_pages(&rt, rt.alloc(), &epochs, root, most) == entries);
    }
}

/// Returns the root of an epoch that binds names at three indices. If an allocation fails, the tree is unchanged and a
/// second call succeeds.
fn bound(rt: &impl Abort, epochs: &mut Epochs<Flat>, [a, b, c]: [Index; 3]) -> Root {
    let names = [(a, b'a', b'k'), (b, b'b', b'k'), (c, b'c', b'k')];
    if let Ok(added) = epochs.add(None, 0, &names) {
        return added.root;
    }
    assert!(rt; epochs.sizes() == (0, 0));
    epochs.add(None, 0, &names).expect(rt, "memory").root
}

/// Returns the number of siblings of the path to an index, and whether an allocation failed. Then a second call returns
/// the path.
fn siblings_at_last(
    rt: &impl Abort,
    epochs: &Epochs<Flat>,
    root: Root,
    index: &Index,
) -> (usize, bool) {
    let (path, is_refused) = match epochs.path(root, index) {
        Ok(path) => (path, false),
        Err(_) => (epochs.path(root, index).expect(rt, "memory"), true),
    };
    (path.siblings.as_slice().len(), is_refused)
}

/// Returns the entries that a root shows, and whether an allocation failed. Then a second call returns them.
fn entries_at_last(rt: &impl Abort, epochs: &Epochs<Flat>, root: Root) -> (Vec<Change>, bool) {
    match epochs.entries(root) {
        Ok(entries) => (entries, false),
        Err(_) => (epochs.entries(root).expect(rt, "memory"), true),
    }
}

/// Returns the page of a size after an index, and whether an allocation failed. Then a second call returns the page.
fn page_at_last(
    rt: &impl Abort,
    epochs: &Epochs<Flat>,
    root: Root,
    after: Option<Index>,
    most: usize,
) -> (Vec<Change>, bool) {
    match epochs.page(root, after, most) {
        Ok(page) => (page, false),
        Err(_) => (epochs.page(root, after, most).expect(rt, "memory"), true),
    }
}

/// `path`, `entries` and `page` return the same after a failed allocation. `faults/run` makes each allocation fail in
/// turn, and reads from the output whether it was one of these calls.
#[test]
fn refused_in_turn(rt: HostRuntime) {
    let [a, b, c] = [index_of(0, 0), index_of(0x40, 0), index_of(0x80, 0)];
    let mut epochs = Epochs::new(rt.alloc(), Flat);
    let root = bound(&rt, &mut epochs, [a, b, c]);
    let (siblings, in_path) = siblings_at_last(&rt, &epochs, root, &a);
    assert!(rt; siblings == 2);
    let (entries, in_entries) = entries_at_last(&rt, &epochs, root);
    assert!(rt; entries.len() == 3);
    let mut is_refused = in_path || in_entries;
    for (after, most, first, count) in [
        (None, 2, a, 2),
        (Some(a), 2, b, 2),
        (Some(b), usize::MAX, c, 1),
    ] {
        let (page, refused) = page_at_last(&rt, &epochs, root, after, most);
        assert!(rt; page.len() == count);
        assert!(rt; page.first().is_some_and(|change| change.index == first));
        is_refused = is_refused || refused;
    }
    let _ = println!(rt; "{}", if is_refused { "refused" } else { "answered" });
}
