//! Pages of bindings and restores, each of whose allocations fails in turn.

ghost use Rattle.std.specs.Prelude.{◌≡◌, length};

use crate::tests::clerk::{Clerk, Letters};
use crate::tests::refused::{FIRST, batch, first_epoch, tell};
use crate::tests::runs::finish_first;
use coniks_chain::Entry;
use coniks_directory::{
    BatchFault, BindingsFault, IndexSource, OwnedBindings, RestoreFault, Restoring, SuppliedIndices,
};
use coniks_proof::Sha256Hash;
use coniks_threads::{Parallelism, Wanted};
use std::alloc::Global;
use std::process::Abort;
use std::thread::Threads;

/// Lists the two bindings by a page of any number, and lists them again if an allocation fails. Returns whether one failed.
fn list_at_last(rt: &impl Abort, clerk: &Clerk) -> bool {
    let fault = match clerk.directory.bindings(1, None, usize::MAX) {
        Ok(page) => {
            assert!(rt; page.len() == FIRST.len());
            return false;
        }
        Err(fault) => fault,
    };
    assert!(rt; fault == BindingsFault::OutOfMemory, "{fault}");
    assert!(rt; clerk.directory.bindings(1, None, usize::MAX).is_ok());
    true
}

/// A page of any number of bindings returns all of them, or `OutOfMemory` if an allocation fails.
#[test]
fn page(rt: HostRuntime) {
    tell(&rt, |clerk| {
        first_epoch(&rt, clerk);
        list_at_last(&rt, clerk)
    });
}

/// Begins a restore over supplied indices, and begins it again if an allocation fails.
fn begun_at_last(
    rt: &impl Abort,
    alloc: Global,
    entry: Entry,
) -> Restoring<Sha256Hash, SuppliedIndices> {
    let source = SuppliedIndices::new(alloc);
    match Restoring::new(alloc, Sha256Hash, source, entry) {
        Ok(begun) => begun,
        Err(fault) => {
            assert!(rt; fault == RestoreFault::OutOfMemory, "{fault}");
            let source = SuppliedIndices::new(alloc);
            Restoring::new(alloc, Sha256Hash, source, entry).expect(rt, "a restore")
        }
    }
}

/// Returns the two bindings with their indices.
fn first_bindings(rt: &impl Abort, alloc: Global) -> OwnedBindings
    ensures { length result.bindings.items ≡ length result.indices.items }
{
    let bindings = batch(rt, alloc, &FIRST);
    let letters = [b"a", b"b"].map(|name| Letters.index(name));
    let indices = match Vec::from_slice(alloc, &letters) {
        Ok(indices) => indices,
        Err(_) => Vec::from_slice(alloc, &letters).expect(rt, "memory"),
    };
    assert!(rt; bindings.len() == indices.len());
    OwnedBindings { bindings, indices }
}

/// Adds the two bindings, and adds them again if an allocation fails. Returns whether one failed. Some of the indices can
/// be stored by then.
fn add_at_last(
    rt: &impl Abort,
    alloc: Global,
    begun: &mut Restoring<Sha256Hash, SuppliedIndices>,
) -> bool {
    let Err(fault) = begun.add_supplied(first_bindings(rt, alloc)) else {
        return false;
    };
    assert!(rt; fault == BatchFault::OutOfMemory, "{fault}");
    assert!(rt; begun.add_supplied(first_bindings(rt, alloc)).is_ok());
    true
}

/// Restores the directory of the first epoch. Returns whether an allocation fails while bindings are added, and whether one
/// fails in `finish`.
fn restore_at_last<R: Threads + Sync + Abort>(rt: &R, clerk: &mut Clerk) -> (bool, bool) {
    first_epoch(rt, clerk);
    let entry = *clerk.directory.chain().last().expect(rt, "an entry");
    let mut begun = begun_at_last(rt, clerk.alloc, entry);
    let in_add = add_at_last(rt, clerk.alloc, &mut begun);
    match finish_first(
        rt,
        begun,
        Parallelism::nearest(Wanted {
            workers: 2,
            depth: 1,
        }),
    ) {
        Ok(again) => {
            assert!(rt; again.latest_link() == clerk.directory.latest_link());
            (in_add, false)
        }
        Err(fault) => {
            assert!(rt; fault == RestoreFault::OutOfMemory, "{fault}");
            (in_add, true)
        }
    }
}

/// If bindings are out of memory, they can be added again.
#[test]
fn add(rt: HostRuntime) {
    tell(&rt, |clerk| restore_at_last(&rt, clerk).0);
}

/// A restore returns `OutOfMemory` if an allocation fails in `finish`.
#[test]
fn finish(rt: HostRuntime) {
    tell(&rt, |clerk| restore_at_last(&rt, clerk).1);
}
