//! A directory with its signer and its board.

ghost use Rattle.std.specs.Prelude.{◌≡◌, ◌≤◌, [], IfSome};
ghost use Rattle.coniks_directory.specs.Chain.{heads_of};
ghost use Rattle.coniks_directory.specs.Updates.{IsUpdateOf};

use coniks_chain::{Entry, Sign};
use coniks_directory::laws::updates_stay;
use coniks_directory::{Directory, IndexSource, Op, Prepared};
use coniks_proof::{Hash32, Nonce, Sha256Hash};
use coniks_threads::{Board, Open, Publisher};
use coniks_tool::{DemoIndex, DemoSeal};
use std::alloc::Global;
use std::thread::Threads;

/// The nonce of each tree.
pub const NONCE: Nonce = Nonce([0x11; 32]);

const KEY: [u8; 32] = [0; 32];

/// The directory that is under load.
pub type Names = Directory<Sha256Hash, DemoIndex>;

/// The index source of the directory.
pub fn source() -> DemoIndex {
    DemoIndex::new(KEY)
}

/// A directory with its signer and its publisher.
#[derive(Drop)]
pub struct Provider<'a> {
    pub directory: Names,
    signer: DemoSeal,
    pub publisher: Publisher,
    pub board: &'a Board,
    ghost tabled: { publisher.table ≡ board.now.table },
    ghost headed: { publisher.heads ≡ heads_of (⟦<Sha256Hash as Hash32>⟧.digest_of directory.hash) directory.state.chain },
}

impl<'a> Provider<'a> {
    /// Returns a provider without epochs.
    pub fn new(alloc: Global, board: &'a Board, publisher: Publisher) -> Provider<'a>
        requires tabled { publisher.table ≡ board.now.table }
        requires headed { publisher.heads ≡ [] }
        ensures { result.board.now.table ≡ board.now.table }
    {
        Provider {
            directory: Directory::open(alloc, Sha256Hash, source(), NONCE, [0x33; 32]),
            signer: DemoSeal::new(KEY),
            publisher,
            board,
        }
    }

    /// Installs an update. Returns `None` if it is refused.
    pub fn install(&mut self, update: Prepared, t: u64) -> Option<Entry>
        requires { IsUpdateOf (⟦<Sha256Hash as Hash32>⟧.digest_of self.old.directory.hash)
            (⟦<DemoIndex as IndexSource>⟧.index_of self.old.directory.index) self.old.directory.state update }
        ensures { self.new.board.now.table ≡ self.old.board.now.table }
    {
        if self.signer.made() == u64::MAX {
            return None;
        }
        let installed = self.directory.install(
            update,
            t,
            &mut self.signer,
            &mut self.publisher,
            self.board,
        );
        installed.ok()
    }
}

/// Prepares a batch with this many workers, at a split depth of 8. Returns `None` if it is refused.
pub fn prepared<R: Threads + Sync>(
    rt: &R,
    directory: &Names,
    ops: &[Op],
    workers: usize,
) -> Option<Prepared>
    ensures { IfSome result (IsUpdateOf (⟦<Sha256Hash as Hash32>⟧.digest_of directory.now.hash)
        (⟦<DemoIndex as IndexSource>⟧.index_of directory.now.index) directory.now.state) }
{
    updates_stay();
    directory.prepare(rt, ops, 8, workers, &Open).ok()
}
