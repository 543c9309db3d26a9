//! Rounds: a batch is prepared while readers look names up, and then installed.

ghost use Rattle.std.specs.Prelude.{◌≡◌, ◌<◌, ◌≤◌, length, All};

use crate::soak::names::registrations;
use crate::soak::plan::Plan;
use crate::soak::provider::{Names, Provider, prepared};
use crate::soak::reading::wrong_lookups;
use anyhow::Result;
use coniks_base_tests::{Watch, watch_each, watches_of};
use coniks_chain::Entry;
use coniks_threads::Board;
use std::alloc::{AllocError, Global};
use std::sync::atomic::{AtomicU64, Ordering};
use std::thread;
use std::thread::Threads;

/// The results of a run.
#[derive(Clone, Copy)]
pub struct Counts {
    pub installs: u64,
    pub looks: u64,
    pub lookups: u64,
    pub wrong: u64,
}

/// Returns the number of wrong lookups of these readers, each on its own thread. Before the first epoch there are none.
fn wrong_of_readers<R: Threads + Sync>(
    rt: &R,
    alloc: Global,
    directory: &Names,
    latest: u64,
    plan: &Plan,
) -> Result<u64, AllocError> {
    if latest == 0 {
        return Ok(0);
    }
    let (batch, lookups) = (plan.batch as u64, plan.lookups);
    let each = thread::map_indices(
        rt,
        alloc,
        plan.readers,
        &|reader| { wrong_lookups(directory, reader as u64, latest, batch, lookups) },
    )?;
    let mut wrong = 0u64;
    for one in &each {
        wrong = wrong.wrapping_add(*one);
    }
    Ok(wrong)
}

/// Prepares the batch of the epoch after `latest` while readers look names up, and installs it. Returns the number of
/// wrong results.
fn round<R: Threads + Sync>(
    rt: &R,
    alloc: Global,
    provider: &mut Provider<'_>,
    plan: &Plan,
    latest: u64,
) -> u64
    ensures { provider.new.board.now.table ≡ provider.old.board.now.table }
{
    let first = latest.wrapping_mul(plan.batch as u64);
    let Ok(ops) = registrations(alloc, first, plan.batch) else {
        return 1;
    };
    let directory = &provider.directory;
    let (update, wrong) = thread::join(
        rt,
        || prepared(rt, directory, &ops, plan.workers),
        || wrong_of_readers(rt, alloc, directory, latest, plan).unwrap_or(1),
    );
    let Some(update) = update else {
        return wrong.wrapping_add(1);
    };
    let installed = provider.install(update, latest.wrapping_add(1));
    wrong.wrapping_add(installed.is_none() as u64)
}

/// Commits all epochs, then sets the flag that ends the watchers. Returns the number of wrong results.
fn commit_all<R: Threads + Sync>(
    rt: &R,
    alloc: Global,
    provider: &mut Provider<'_>,
    plan: &Plan,
    over: &AtomicU64,
) -> u64
    ensures { provider.new.board.now.table ≡ provider.old.board.now.table }
{
    let mut wrong = 0u64;
    for latest in 0..plan.epochs as u64 {
        wrong = wrong.wrapping_add(round(rt, alloc, provider, plan, latest));
    }
    over.store(1, Ordering::SeqCst);
    wrong
}

/// Commits all epochs beside the watchers. Returns the number of wrong results.
fn commit_watched<R: Threads + Sync>(
    rt: &R,
    alloc: Global,
    provider: &mut Provider<'_>,
    plan: &Plan,
    watches: &mut [Watch],
) -> u64
    requires own { All (λ w. w.watcher.table ≡ provider.old.board.now.table) watches.old }
    requires some { 0 < length watches.old }
{
    let over = AtomicU64::new(0);
    let board = provider.board;
    let (wrong, _) = thread::join_mut(
        rt,
        &mut || commit_all(rt, alloc, provider, plan, &over),
        &mut ||
            requires { (0 < length watches.now) × All (λ w. w.watcher.table ≡ board.now.table) watches.now }
        {
            watch_each(rt, board, watches, &over);
        },
    );
    wrong
}

/// Returns the number of looks of all watchers, and of wrong heads. A watcher that did not see the chain's last head
/// counts as one more.
fn looks_and_wrong(watches: &[Watch], chain: &[Entry]) -> (u64, u64) {
    let (mut looks, mut wrong) = (0u64, 0u64);
    for one in watches {
        looks = looks.wrapping_add(one.looks);
        let ends = one.answers.last().map(|head| head.epoch) == Some(chain.len() as u64);
        wrong = wrong
            .wrapping_add(one.wrong(chain))
            .wrapping_add(!ends as u64);
    }
    (looks, wrong)
}

/// Commits the epochs of a plan beside its watchers and readers.
pub fn commit_rounds<R: Threads + Sync>(rt: &R, alloc: Global, plan: &Plan) -> Result<Counts> {
    let (board, publisher) = Board::new(alloc, plan.epochs)?;
    let mut provider = Provider::new(alloc, &board, publisher);
    let mut watches = watches_of(alloc, plan.watchers, &mut provider.publisher, &board)?;
    let wrong = commit_watched(rt, alloc, &mut provider, plan, watches.as_mut_slice());
    let chain = provider.directory.chain();
    let (looks, of_watchers) = looks_and_wrong(&watches, chain);
    let rounds = (plan.epochs as u64).saturating_sub(1);
    let each = (plan.readers as u64).wrapping_mul(plan.lookups as u64);
    Ok(Counts {
        installs: chain.len() as u64,
        looks,
        lookups: rounds.wrapping_mul(each),
        wrong: wrong.wrapping_add(of_watchers),
    })
}
