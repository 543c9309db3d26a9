//! A directory with its signer and its board, for tests.

ghost use Rattle.std.specs.Prelude.{◌≡◌, [], IfErr};
ghost use Rattle.coniks_directory.specs.Chain.{heads_of};
ghost use Rattle.coniks_directory_tests.specs.Letters.{high as high_of};
ghost use Rattle.coniks_directory.specs.Updates.{Grows, IsUpdateOf};

use crate::tests::runs::{commit_next, install_next, may_sign};
use coniks_base_tests::{NEVER, NONCE, OPENING, POLICY, Stamp};
use coniks_chain::{Entry, Sign, Signature, Signer};
use coniks_directory::laws::updates_stay;
use coniks_directory::{
    BatchFault, CommitFault, Directory, IndexSource, InstallFault, Op, OpKind, Prepared,
};
use coniks_proof::{Bytes, Hash32, Index, Sha256Hash};
use coniks_threads::{Board, MAX_HEADS, Publisher};
use std::alloc::{AllocError, Global};
use std::process::Abort;
use std::thread::Threads;

/// A source that gives `b`, `c` and `d` of the worked examples their own indices. Every other name has that of `a`.
#[derive(Clone, Copy, Drop)]
pub struct Letters;

fn high(name: &[u8]) -> u8
    ensures { result ≡ high_of name.now }
{
    if name == b"b".as_slice() {
        0x80
    } else if name == b"c".as_slice() {
        0x40
    } else if name == b"d".as_slice() {
        0x20
    } else {
        0
    }
}

impl IndexSource for Letters {
    ghost use Rattle.coniks_directory_tests.specs.Letters.{index_of_letter};

    ghost index_of = { λ source name. index_of_letter name };

    fn index(&self, name: &[u8]) -> Index {
        let mut bytes = [0; 32];
        bytes[0] = high(name);
        Index(bytes)
    }
}

/// Returns a signer that refuses nothing.
pub fn stamping() -> Signer<Stamp>
    ensures made { result.signings.made ≡ 0 }
    ensures refused { result.signings.refused ≡ 0 }
{
    let signature = Signature([0x55; 64]);
    Signer::new(Stamp::new(Some(signature), signature, NEVER))
}

/// An operation of the tests: its kind, a name of one letter and a key of one letter.
pub type Written = (OpKind, u8, u8);

/// The registration of `a` with the key `k`.
pub const A: Written = (OpKind::Register, b'a', b'k');

/// The registration of `b` with the key `k`.
pub const B: Written = (OpKind::Register, b'b', b'k');

/// Returns the operations, each with the opening `OPENING`.
pub fn ops_of(alloc: Global, written: &[Written]) -> Result<Vec<Op>, AllocError> {
    let mut ops = Vec::new(alloc);
    for &(kind, name, key) in written {
        ops.push(Op {
            kind,
            name: Bytes::copy_of(alloc, &[name])?,
            key: Bytes::copy_of(alloc, &[key])?,
            opening: OPENING,
        })?;
    }
    Ok(ops)
}

/// A directory with its signer, and its board with the publisher of its heads.
#[derive(Drop)]
pub struct Provider<'a, H: Hash32, X: IndexSource, S> {
    pub alloc: Global,
    pub directory: Directory<H, X>,
    pub signer: S,
    pub publisher: Publisher,
    pub board: &'a Board,
    ghost tabled: { publisher.table ≡ board.now.table },
    ghost headed: { publisher.heads ≡ heads_of (H.digest_of directory.hash) directory.state.chain },
}

/// The provider of a directory over `Letters`.
pub type Clerk<'a> = Provider<'a, Sha256Hash, Letters, Signer<Stamp>>;

impl<'a, H: Hash32 + Sync, X: IndexSource, S: Sign> Provider<'a, H, X, S> {
    /// Commits a batch at depth 1 with two workers. Returns `BatchTooLong` if the allocation of the operations fails.
    pub fn commit<R: Threads + Sync>(
        &mut self,
        rt: &R,
        t: u64,
        written: &[Written],
    ) -> Result<Entry, CommitFault>
        ensures { self.new.board.now.table ≡ self.old.board.now.table }
    {
        let Ok(ops) = ops_of(self.alloc, written) else {
            return Err(CommitFault::Batch(BatchFault::BatchTooLong));
        };
        self.commit_ops(rt, t, &ops, 2)
    }

    /// Commits operations at depth 1 with a number of workers.
    pub fn commit_ops<R: Threads + Sync>(
        &mut self,
        rt: &R,
        t: u64,
        ops: &[Op],
        workers: usize,
    ) -> Result<Entry, CommitFault>
        ensures { self.new.board.now.table ≡ self.old.board.now.table }
    {
        if !may_sign(&self.signer) {
            return Err(CommitFault::Batch(BatchFault::BatchTooLong));
        }
        commit_next(rt, self, ops, workers, t)
    }
}

impl<'a, H: Hash32, X: IndexSource, S: Sign> Provider<'a, H, X, S> {
    /// Installs an update.
    pub fn install(&mut self, update: Prepared, t: u64) -> Result<Entry, (InstallFault, Prepared)>
        requires { IsUpdateOf (H.digest_of self.old.directory.hash) (X.index_of self.old.directory.index) self.old.directory.state update }
        ensures grows { Grows self.old.directory.state self.new.directory.state }
        ensures same { (self.new.directory.hash ≡ self.old.directory.hash) × (self.new.directory.index ≡ self.old.directory.index) }
        ensures still { IfErr result (λ r. IsUpdateOf (H.digest_of self.new.directory.hash) (X.index_of self.new.directory.index) self.new.directory.state r.1) }
    {
        if !may_sign(&self.signer) {
            return Err((InstallFault::SignerRefused, update));
        }
        install_next(self, update, t)
    }

    /// Installs an update, and then tries twice to install another one of the same base. Returns the errors of these
    /// two, or `None` if the first install fails or one of the two succeeds.
    pub fn install_both(
        &mut self,
        first: Prepared,
        second: Prepared,
        t: u64,
    ) -> Option<(InstallFault, InstallFault)>
        requires first { IsUpdateOf (H.digest_of self.old.directory.hash) (X.index_of self.old.directory.index) self.old.directory.state first }
        requires second { IsUpdateOf (H.digest_of self.old.directory.hash) (X.index_of self.old.directory.index) self.old.directory.state second }
    {
        updates_stay();
        if self.install(first, t).is_err() {
            return None;
        }
        let Err((fault, second)) = self.install(second, t.saturating_add(1)) else {
            return None;
        };
        let Err((again, _)) = self.install(second, t.saturating_add(1)) else {
            return None;
        };
        Some((fault, again))
    }
}

/// Returns the provider of a new directory over a source of indices.
pub fn provider_of<'a, X: IndexSource, S: Sign>(
    alloc: Global,
    source: X,
    signer: S,
    board: &'a Board,
    publisher: Publisher,
) -> Provider<'a, Sha256Hash, X, S>
    requires tabled { publisher.table ≡ board.now.table }
    requires headed { publisher.heads ≡ [] }
{
    Provider {
        alloc,
        directory: Directory::open(alloc, Sha256Hash, source, NONCE, POLICY),
        signer,
        publisher,
        board,
    }
}

/// Returns a board that takes `heads` heads, at least 1, with its publisher. If an allocation fails, it is tried again.
pub fn new_board(rt: &impl Abort, alloc: Global, heads: usize) -> (Board, Publisher)
    ensures tabled { result.1.table ≡ result.0.table }
    ensures headed { result.1.heads ≡ [] }
{
    assert!(rt; 1 <= heads && heads <= MAX_HEADS);
    let made = match Board::new(alloc, heads) {
        Err(_) => Board::new(alloc, heads),
        made => made,
    };
    made.expect(rt, "a board")
}

/// Runs steps with the clerk of a new directory. Its board takes `heads` heads, at least 1.
pub fn with_clerk<T, F: FnOnce(&mut Clerk) -> T, R: Abort + AllocGlobal>(
    rt: &R,
    heads: usize,
    steps: F,
) -> T
    requires { F.IsAlwaysCallable steps }
{
    let (board, publisher) = new_board(rt, rt.alloc(), heads);
    let mut clerk = provider_of(rt.alloc(), Letters, stamping(), &board, publisher);
    steps(&mut clerk)
}
