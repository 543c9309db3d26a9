//! Calls of a directory with indices or a signer of its caller's own.

ghost use Rattle.std.specs.Prelude.{◌≡◌, ◌++◌};
ghost use Rattle.coniks_proof.specs.Sha256.{sha256};

use crate::tests::answers::{Reported, requested};
use crate::tests::clerk::{
    A, B, Clerk, Letters, Written, ops_of, provider_of, stamping, with_clerk,
};
use crate::tests::runs::prepare_next;
use coniks_base_tests::{NONCE, OPENING, POLICY};
use coniks_chain::{Body, Sign, Signature, SignatureSource, Signer, Verify};
use coniks_directory::OpKind::{Change, Register};
use coniks_directory::{BatchFault, Directory, IndexSource, InstallFault, Op, OpFault};
use coniks_proof::{Bytes, CheckFault, Hash32, Index, Sha256Hash};
use coniks_threads::{Board, Open};
use std::alloc::Global;
use std::cell::Cell;
use std::process::Abort;
use std::thread::Threads;

/// A source that gives every name the same index, and counts its calls.
#[derive(Drop)]
struct Requested<'a> {
    calls: &'a Cell<u64>,
}

impl<'a> IndexSource for Requested<'a> {
    ghost use Rattle.coniks_proof.specs.Preimages.{zeros};

    ghost index_of = { λ source name. zeros };

    fn index(&self, _name: &[u8]) -> Index {
        self.calls.set(self.calls.get().wrapping_add(1));
        Index([0; 32])
    }
}

/// The lengths of a name and a key, at most 16,385.
#[derive(Clone, Copy)]
struct Lengths {
    name: usize,
    key: usize,
}

/// Returns an operation whose name and key are bytes `b` of these lengths.
fn sized(rt: &impl Abort, alloc: Global, lengths: Lengths) -> Op {
    let letters = [b'b'; 16_385];
    let (name, key) = (letters.get(..lengths.name), letters.get(..lengths.key));
    Op {
        kind: Register,
        name: Bytes::copy_of(alloc, name.unwrap_or(&[])).expect(rt, "memory"),
        key: Bytes::copy_of(alloc, key.unwrap_or(&[])).expect(rt, "memory"),
        opening: OPENING,
    }
}

/// The source of indices is called once for each operation and each lookup that has no error before that, and not at
/// all for a name or a key of a wrong length or an unknown epoch.
#[test]
fn requested_once(rt: HostRuntime) {
    let alloc = rt.alloc();
    let calls = Cell::new(0);
    let source = Requested { calls: &calls };
    let (board, mut publisher) = Board::new(alloc, 1).expect(&rt, "a board");
    let mut signer = stamping();
    let mut directory = Directory::open(alloc, Sha256Hash, source, NONCE, POLICY);
    for (name, key, requested) in [(256, 1, 0), (0, 1, 0), (1, 16_385, 0), (255, 16_384, 1)] {
        calls.set(0);
        let ops = [sized(&rt, alloc, Lengths { name, key })];
        let is_taken = directory.prepare(&rt, &ops, 0, 1, &Open).is_ok();
        assert!(rt; is_taken == (requested == 1));
        assert!(rt; calls.get() == requested);
    }
    let ops = ops_of(alloc, &[B]).expect(&rt, "operations");
    let entry = directory.commit(
        &rt,
        &ops,
        0,
        1,
        &Open,
        2,
        &mut signer,
        &mut publisher,
        &board,
    );
    assert!(rt; entry.is_ok());
    let letters = [b'b'; 256];
    for (t, length, requested) in [(1, 1, 0), (3, 1, 0), (2, 0, 0), (2, 256, 0), (2, 255, 1)] {
        calls.set(0);
        let name = letters.get(..length).unwrap_or(&[]);
        let is_found = directory.lookup(t, name).is_ok();
        assert!(rt; is_found == (requested == 1));
        assert!(rt; calls.get() == requested);
    }
}

/// Asserts the errors of batches after `a` is registered, and that a lookup of a name at the index of `a` ends at the leaf
/// of `a`.
fn refuse<R: Threads + Sync + Abort>(rt: &R, clerk: &mut Clerk) {
    assert!(rt; clerk.commit(rt, 1, &[A]).is_ok());
    let (c, d, q) = (
        (Register, b'c', b'k'),
        (Register, b'd', b'k'),
        (Register, b'q', b'k'),
    );
    let batches: [(&[Written], usize, OpFault); 4] = [
        (&[B, B, A], 1, OpFault::NameTwice),
        (&[A], 0, OpFault::NameTaken),
        (&[(Change, b'b', b'l')], 0, OpFault::NameUnknown),
        (&[B, c, d, q], 3, OpFault::IndexClash),
    ];
    for &(written, position, fault) in &batches {
        let ops = ops_of(clerk.alloc, written).expect(rt, "operations");
        let found = prepare_next(rt, &clerk.directory, None, &ops, 1).err();
        assert!(rt;
            found == Some(BatchFault::At { position, fault }),
            "of {written:?}"
        );
    }
    let wrong = Reported::Refused(Some(CheckFault::WrongName));
    assert!(rt; requested(&clerk.directory, 1, "q") == wrong);
}

/// No two names can have one index.
#[test]
fn two_names_at_one_index(rt: HostRuntime) {
    with_clerk(&rt, 1, |clerk| refuse(&rt, clerk));
}

/// Returns the signature that another process makes of a body: twice its SHA-256 hash.
fn made_outside(body: &[u8; 145]) -> Signature
    ensures { result.0 ≡ sha256 body.now ++ sha256 body.now }
{
    let half = Sha256Hash.hash(&[body]);
    Signature::of_halves(&half.0, &half.0)
}

/// A source that stores the last body, and returns the signature that has arrived, if there is one.
#[derive(Drop)]
struct Desk {
    wanted: Option<[u8; 145]>,
    arrived: Option<Signature>,
}

impl Verify for Desk {
    ghost use Rattle.std.specs.Str.{bytes_eq};

    ghost verdict_of = { λ _ body signature. bytes_eq signature (sha256 body ++ sha256 body) };

    fn verdict(&self, body: &[u8; 145], signature: &Signature) -> bool {
        signature.0 == made_outside(body).0
    }
}

impl SignatureSource for Desk {
    ghost gives = { λ desk _ given _. given ≡ desk.arrived };

    fn signature(&mut self, body: &[u8; 145]) -> Option<Signature> {
        self.wanted = Some(*body);
        self.arrived.take()
    }
}

/// Stores the signature that a signer returns next.
fn arrive(signer: &mut Signer<Desk>, signature: Signature) {
    signer.source.arrived = Some(signature);
}

/// The signer stores the body and refuses. It refuses the signature of another body too. The update that came back is
/// installed with the body's own signature.
#[test]
fn signed_outside(rt: HostRuntime) {
    let signer = Signer::new(Desk {
        wanted: None,
        arrived: None,
    });
    let (board, publisher) = Board::new(rt.alloc(), 1).expect(&rt, "a board");
    let mut provider = provider_of(rt.alloc(), Letters, signer, &board, publisher);
    let ops = ops_of(rt.alloc(), &[A]).expect(&rt, "operations");
    let update = prepare_next(&rt, &provider.directory, None, &ops, 1).ok();
    let update = update.expect(&rt, "an update");

    let refused = provider.install(update, 1).err();
    let (fault, update) = refused.expect(&rt, "a refusal");
    assert!(rt; fault == InstallFault::SignerRefused);
    let body = provider.signer.source.wanted.expect(&rt, "a body");

    arrive(&mut provider.signer, made_outside(&[0; 145]));
    let refused = provider.install(update, 1).err();
    let (fault, update) = refused.expect(&rt, "a refusal");
    assert!(rt; fault == InstallFault::SignerRefused && provider.directory.chain().is_empty());

    arrive(&mut provider.signer, made_outside(&body));
    let entry = provider.install(update, 1).ok();
    let entry = entry.expect(&rt, "an entry");
    assert!(rt; entry.body == Body::read(&body) && entry.signature == made_outside(&body));
    assert!(rt; (provider.signer.made(), provider.signer.refused()) == (1, 2));
}

/// Commits before and after two updates from one base, and looks up the name that the second one changes.
fn commit_around<R: Threads + Sync + Abort>(rt: &R, clerk: &mut Clerk) {
    assert!(rt; clerk.commit(rt, 1, &[A]).is_ok());
    let change = ops_of(clerk.alloc, &[(Change, b'a', b'l')]).expect(rt, "operations");
    let other = ops_of(clerk.alloc, &[(Register, b'c', b'k')]).expect(rt, "operations");
    let second = prepare_next(rt, &clerk.directory, None, &change, 2);
    let second = second.expect(rt, "an update");
    let first = prepare_next(rt, &clerk.directory, None, &other, 2);
    let first = first.expect(rt, "an update");
    let stale = InstallFault::Stale { latest: 5 };
    assert!(rt; clerk.install_both(first, second, 5) == Some((stale, stale)));
    let anew = prepare_next(rt, &clerk.directory, None, &change, 2);
    assert!(rt; clerk.install(anew.expect(rt, "an update"), 6).is_ok());
    for (t, key) in [(5, b'k'), (6, b'l')] {
        assert!(rt; requested(&clerk.directory, t, "a") == Reported::Key(2, key));
    }
}

/// The second of two updates from one base is `Stale` at each install. The same batch, prepared again, is installed.
#[test]
fn stale_twice(rt: HostRuntime) {
    with_clerk(&rt, 4, |clerk| commit_around(&rt, clerk));
}
