//! Watchers, each on its own thread, and the heads that they see.

ghost use Rattle.std.specs.Prelude.{◌≡◌, ◌<◌, length, All, IfOk};

use coniks_chain::{Entry, link};
use coniks_proof::{Head, Sha256Hash};
use coniks_threads::{Board, Publisher, Watcher};
use std::alloc::{AllocError, Global};
use std::sync::atomic::{AtomicU64, Ordering};
use std::thread;
use std::thread::Threads;

/// A limit above the number of looks of any watcher.
const MANY: u64 = 1 << 40;

/// A watcher with the heads that it saw, each once, and the number of its looks.
#[derive(Drop)]
pub struct Watch {
    pub watcher: Watcher,
    pub answers: Vec<Head>,
    pub looks: u64,
    /// The number of heads that are not stored because an allocation failed.
    pub lost: u64,
}

impl Watch {
    /// Returns the number of wrong heads: not in the chain under SHA-256, of an earlier epoch than the head before, or
    /// lost. The chain's epochs are 1, 2 and so on.
    pub fn wrong(&self, chain: &[Entry]) -> u64 {
        let mut last = 0;
        let mut wrong = self.lost;
        for head in &self.answers {
            if head.epoch < last || !is_of_chain(head, chain) {
                wrong = wrong.wrapping_add(1);
            }
            last = head.epoch;
        }
        wrong
    }
}

/// Returns whether a head is that of the chain's entry for its epoch. The epochs are 1, 2 and so on.
fn is_of_chain(head: &Head, chain: &[Entry]) -> bool {
    let place = head.epoch.wrapping_sub(1) as usize;
    match chain.get(place) {
        Some(entry) => entry.body.t == head.epoch && link(&Sha256Hash, entry) == head.link,
        None => false,
    }
}

/// Returns this many watchers of a board, which have not looked.
pub fn watches_of(
    alloc: Global,
    count: usize,
    publisher: &mut Publisher,
    board: &Board,
) -> Result<Vec<Watch>, AllocError>
    requires { publisher.old.table ≡ board.now.table }
    ensures own { IfOk result (λ v. All (λ w. w.watcher.table ≡ board.now.table) v.items) }
    ensures some { IfOk result (λ v. length v.items ≡ count) }
    ensures same { publisher.new ≡ publisher.old }
{
    let mut watches = Vec::new(alloc);
    for _ in 0..count {
        let Ok(watcher) = publisher.watcher(board) else {
            return Err(AllocError);
        };
        watches.push(Watch {
            watcher,
            answers: Vec::new(alloc),
            looks: 0,
            lost: 0,
        })?;
    }
    Ok(watches)
}

/// Counts a look, and stores its head unless it is the last one stored.
fn keep(watch: &mut Watch, answer: Option<Head>)
    ensures { watch.new.watcher ≡ watch.old.watcher }
{
    watch.looks = watch.looks.wrapping_add(1);
    let Some(head) = answer else {
        return;
    };
    if watch.answers.last() == Some(&head) {
        return;
    }
    if watch.answers.push(head).is_err() {
        watch.lost = watch.lost.wrapping_add(1);
    }
}

/// Looks until `over` is 1, and once more after that.
fn look_until(watch: &mut Watch, board: &Board, over: &AtomicU64)
    requires { watch.old.watcher.table ≡ board.now.table }
    ensures { watch.new.watcher.table ≡ watch.old.watcher.table }
{
    for _ in 0..MANY {
        let is_over = over.load(Ordering::SeqCst) == 1;
        let answer = watch.watcher.latest(board);
        keep(watch, answer);
        if is_over {
            return;
        }
    }
}

/// Runs each watcher on its own thread until `over` is 1. Each looks at least once after that.
pub fn watch_each<R: Threads + Sync>(rt: &R, board: &Board, watches: &mut [Watch], over: &AtomicU64)
    requires own { All (λ w. w.watcher.table ≡ board.now.table) watches.old }
    requires some { 0 < length watches.old }
    ensures { All (λ w. w.watcher.table ≡ board.now.table) watches.new }
{
    let threads = watches.len();
    thread::for_each_mut(
        rt,
        watches,
        threads,
        &|_place, one: &mut Watch|
            requires { one.now.watcher.table ≡ board.now.table }
            ensures { one.exit.now.watcher.table ≡ one.entry.now.watcher.table }
        {
            look_until(one, board, over);
        },
    );
}
