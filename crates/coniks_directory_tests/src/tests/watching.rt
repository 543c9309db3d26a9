//! Lookups and watchers on other threads while a batch is prepared or installed.

ghost use Rattle.std.specs.Prelude.{◌≡◌, ◌<◌, length, All};

use crate::tests::answers::{Reported, requested};
use crate::tests::clerk::{A, B, Clerk, Letters, ops_of, with_clerk};
use coniks_base_tests::{Meeting, Watch, watch_each, watches_of};
use coniks_chain::link;
use coniks_directory::Directory;
use coniks_proof::{Head, Sha256Hash};
use coniks_threads::Board;
use std::process::Abort;
use std::sync::atomic::{AtomicU64, Ordering};
use std::thread;
use std::thread::Threads;

/// Prepares a batch whose workers pass the gate. Returns whether it is accepted.
fn prepares<R: Threads + Sync + AllocGlobal>(
    rt: &R,
    directory: &Directory<Sha256Hash, Letters>,
    gate: &Meeting,
) -> bool {
    match ops_of(rt.alloc(), &[B]) {
        Ok(ops) => directory.prepare(rt, &ops, 1, 2, gate).is_ok(),
        Err(_) => false,
    }
}

/// Looks up the name once, and counts an arrival at the gate. Returns whether the result is right.
fn looks_up(directory: &Directory<Sha256Hash, Letters>, gate: &Meeting) -> bool {
    let reported = requested(directory, 1, "a");
    gate.come();
    reported == Reported::Key(0, b'k')
}

/// Commits an epoch, and prepares the next batch while two threads look up the name.
fn prepare_stored<R: Threads + Sync + Abort + AllocGlobal>(rt: &R, clerk: &mut Clerk) {
    assert!(rt; clerk.commit(rt, 1, &[A]).is_ok());
    let gate = Meeting::of(3);
    let directory = &clerk.directory;
    let (prepared, (one, other)) = thread::join(
        rt,
        || prepares(rt, directory, &gate),
        || {
            thread::join(
                rt,
                || looks_up(directory, &gate),
                || looks_up(directory, &gate),
            )
        },
    );
    assert!(rt; prepared && one && other && gate.met());
}

/// Two threads look up a name while the first job of a batch is stored.
#[test]
fn look_up_while_preparing(rt: HostRuntime) {
    with_clerk(&rt, 4, |clerk| prepare_stored(&rt, clerk));
}

/// Commits an epoch, and asserts that a watcher returns its head while the next batch is prepared.
fn watch_stored<R: Threads + Sync + Abort + AllocGlobal>(rt: &R, clerk: &mut Clerk) {
    let entry = clerk.commit(rt, 1, &[A]).expect(rt, "an epoch");
    let made = clerk.publisher.watcher(clerk.board);
    let watcher = &mut made.expect(rt, "a watcher");
    let gate = Meeting::of(2);
    let (directory, board) = (&clerk.directory, clerk.board);
    let (prepared, seen) = thread::join(
        rt,
        || prepares(rt, directory, &gate),
        ||
            requires { watcher.now.table ≡ board.now.table }
        {
            let seen = watcher.latest(board);
            gate.come();
            seen
        },
    );
    let link = link(&Sha256Hash, &entry);
    assert!(rt; prepared && seen == Some(Head { epoch: 1, link }));
    assert!(rt; gate.met());
}

/// While the first job of a batch is stored, a watcher returns the latest installed head.
#[test]
fn watch_while_preparing(rt: HostRuntime) {
    with_clerk(&rt, 4, |clerk| watch_stored(&rt, clerk));
}

/// Installs epochs 1 to 40, and then sets `over` to 1, which ends the watchers.
fn commit_forty<R: Threads + Sync>(rt: &R, clerk: &mut Clerk, over: &AtomicU64) -> bool
    ensures { clerk.new.board.now.table ≡ clerk.old.board.now.table }
{
    let mut right = true;
    for t in 1..41u64 {
        right = clerk.commit(rt, t, &[]).is_ok() && right;
    }
    over.store(1, Ordering::SeqCst);
    right
}

/// Installs forty epochs while the watchers look.
fn commit_beside<R: Threads + Sync>(
    rt: &R,
    board: &Board,
    clerk: &mut Clerk,
    watches: &mut [Watch],
) -> bool
    requires own { All (λ w. w.watcher.table ≡ board.now.table) watches.old }
    requires some { 0 < length watches.old }
{
    let over = AtomicU64::new(0);
    let (right, _) = thread::join_mut(
        rt,
        &mut || commit_forty(rt, clerk, &over),
        &mut ||
            requires { (0 < length watches.now) × All (λ w. w.watcher.table ≡ board.now.table) watches.now }
        {
            watch_each(rt, board, watches, &over);
        },
    );
    right
}

/// Installs forty epochs while four watchers look. Each looks once more after the last epoch.
fn commit_watched<R: Threads + Sync + Abort>(rt: &R, clerk: &mut Clerk) {
    let board = clerk.board;
    let watches = watches_of(clerk.alloc, 4, &mut clerk.publisher, board);
    let mut watches = watches.expect(rt, "watchers");
    assert!(rt; commit_beside(rt, board, clerk, watches.as_mut_slice()));
    for one in &watches {
        assert!(rt; one.wrong(clerk.directory.chain()) == 0);
        assert!(rt; one.answers.last().copied() == clerk.publisher.last());
    }
}

/// No watcher sees a head that is not in the chain, or one of an earlier epoch than the head before.
#[test]
fn four_watchers(rt: HostRuntime) {
    with_clerk(&rt, 64, |clerk| commit_watched(&rt, clerk));
}
