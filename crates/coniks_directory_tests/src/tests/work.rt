//! Workers that do the jobs of one batch.

use coniks_base_tests::{
    Bound, Meeting, NONCE, changes_to, digest, index_below, index_of, records_of,
};
use coniks_proof::{Digest, Hash32, Sha256Hash};
use coniks_threads::{Gate, Parallelism, Wanted, build, split};
use coniks_tree::{Change, OutOfMemory, Tree};
use std::alloc::{AllocError, Global};
use std::sync::atomic::{AtomicU64, Ordering};
use std::thread::Threads;

/// Returns `a`, `d`, `c` and `b`, each with a key, in the order of their indices.
fn four() -> [Bound; 4] {
    [
        (index_of(0, 0), b'a', b'k'),
        (index_of(0x20, 0), b'd', b'k'),
        (index_of(0x40, 0), b'c', b'k'),
        (index_of(0x80, 0), b'b', b'k'),
    ]
}

/// The root of a first epoch that binds these.
const OF_FOUR: &str = "0d10d652bba80545e24f4d5e24bf33580588fb0d17ee964d3213748e6d7e6145";

/// Returns the changes of a first epoch that binds these.
fn changes_of(alloc: Global, bindings: &[Bound]) -> Result<Vec<Change>, AllocError> {
    let records = records_of(alloc, &Sha256Hash, bindings)?;
    Ok(changes_to(alloc, 0, &records)?)
}

/// Returns the number of nodes of a first epoch with these changes, and its root's hash.
fn first_epoch<H: Hash32 + Sync, G: Gate + Sync, R: Threads + Sync + AllocGlobal>(
    rt: &R,
    h: &H,
    changes: &[Change],
    parallelism: Parallelism,
    gate: &G,
) -> Result<(usize, Digest), OutOfMemory> {
    let alloc = rt.alloc();
    let tree = Tree::new(alloc);
    let (depth, workers) = (parallelism.depth(), parallelism.workers());
    let part = build(
        rt, alloc, h, &NONCE, &tree, None, changes, depth, workers, gate,
    )?;
    Ok((tree.new_nodes(&part), tree.part_hash(h, &NONCE, &part)))
}

/// Two jobs run on two threads at once: the gate holds the first job until the second arrives.
#[test]
fn two_jobs_at_once(rt: HostRuntime) {
    let both = [
        (index_of(0, 0), b'a', b'k'),
        (index_of(0x80, 0), b'b', b'k'),
    ];
    let changes = changes_of(rt.alloc(), &both).expect(&rt, "memory");
    let gate = Meeting::of(2);
    let parallelism = Parallelism::nearest(Wanted {
        workers: 2,
        depth: 1,
    });
    let built = first_epoch(&rt, &Sha256Hash, &changes, parallelism, &gate);
    assert!(rt; gate.met());
    let want = "46de554c28df523fe8bbcbf7cf90c45cc1f44d29be6fc4bf4fa5fd416437b6ba";
    assert!(rt; built.expect(&rt, "memory") == (3, digest(want)));
}

/// One of two workers draws the three remaining jobs while the gate holds the other worker at the first job.
#[test]
fn draws_move(rt: HostRuntime) {
    let changes = changes_of(rt.alloc(), &four()).expect(&rt, "memory");
    let gate = Meeting::of(4);
    let parallelism = Parallelism::nearest(Wanted {
        workers: 2,
        depth: 8,
    });
    let built = first_epoch(&rt, &Sha256Hash, &changes, parallelism, &gate);
    assert!(rt; gate.met());
    assert!(rt; built.expect(&rt, "memory") == (7, digest(OF_FOUR)));
}

/// The arrivals of each of the four jobs at their gate, and the leaves that were hashed before their job arrived.
#[derive(Drop)]
struct Arrivals {
    came: [AtomicU64; 4],
    wrong: AtomicU64,
}

impl Arrivals {
    /// Returns the count of a job, or `wrong` if it is none of the four.
    fn count(&self, job: usize) -> &AtomicU64 {
        self.came.get(job).unwrap_or(&self.wrong)
    }
}

impl Gate for Arrivals {
    fn enter(&self, job: usize) {
        self.count(job).fetch_add(1, Ordering::SeqCst);
    }
}

/// SHA-256, which counts the leaves of the four names that are hashed before their job arrived at the gate.
#[derive(Drop)]
struct Watched<'a>(&'a Arrivals);

impl<'a> Hash32 for Watched<'a> {
    ghost use Rattle.coniks_proof.specs.Sha256.{sha256};

    ghost digest_of = { λ h message. sha256 message };

    fn hash(&self, pieces: &[&[u8]]) -> Digest {
        // The third piece of a leaf is the index.
        if pieces.first() == Some(&b"L".as_slice()) {
            let job = match pieces.get(2).and_then(|index| index.first()) {
                Some(0) => 0,
                Some(0x20) => 1,
                Some(0x40) => 2,
                Some(0x80) => 3,
                _ => 4,
            };
            if self.0.count(job).load(Ordering::SeqCst) == 0 {
                self.0.wrong.fetch_add(1, Ordering::SeqCst);
            }
        }
        Sha256Hash.hash(pieces)
    }
}

/// Each job enters the gate once, before it runs, whether several workers draw the jobs or one worker does all of them.
#[test]
fn gate_before_job(rt: HostRuntime) {
    let changes = changes_of(rt.alloc(), &four()).expect(&rt, "memory");
    for workers in [1, 2, 3, 4] {
        let gate = Arrivals {
            came: [0; 4].map(|count| AtomicU64::new(count)),
            wrong: AtomicU64::new(0),
        };
        let parallelism = Parallelism::nearest(Wanted { workers, depth: 8 });
        let built = first_epoch(&rt, &Watched(&gate), &changes, parallelism, &gate);
        assert!(rt; built.expect(&rt, "memory") == (7, digest(OF_FOUR)));
        assert!(rt; gate.wrong.load(Ordering::SeqCst) == 0);
        for count in &gate.came {
            assert!(rt; count.load(Ordering::SeqCst) == 1);
        }
    }
}

/// Returns 16 names for each first byte, as many as the largest batch has, in the order of their indices.
fn most(alloc: Global) -> Result<Vec<Bound>, AllocError> {
    let mut names = Vec::new(alloc);
    for first in 0..=255u8 {
        for sixteenth in 0..16u8 {
            names.push((index_below(first, sixteenth * 16), b'a', b'k'))?;
        }
    }
    Ok(names)
}

/// A gate that counts the jobs.
#[derive(Drop)]
struct Jobs(AtomicU64);

impl Gate for Jobs {
    fn enter(&self, _job: usize) {
        self.0.fetch_add(1, Ordering::SeqCst);
    }
}

/// The largest batch is cut into 32 jobs for each worker, or 64 if there are 4,096 changes for each, and into as many as
/// the split depth has prefixes if these are fewer.
#[test]
fn jobs_of_each_worker(rt: HostRuntime) {
    let names = most(rt.alloc()).expect(&rt, "memory");
    let changes = changes_of(rt.alloc(), &names).expect(&rt, "memory");
    let want = "b4a78889400c2799436e930a02ccd8c935afe40650dc0310e44c38c9f2b67f96";
    for (workers, depth, jobs) in [
        (1, 12, 64),
        (4, 12, 128),
        (64, 12, 2048),
        (4, 3, 8),
        (64, 0, 1),
    ] {
        let gate = Jobs(AtomicU64::new(0));
        let parallelism = Parallelism::nearest(Wanted { workers, depth });
        let built = first_epoch(&rt, &Sha256Hash, &changes, parallelism, &gate);
        assert!(rt; built.expect(&rt, "memory") == (8191, digest(want)));
        let count = gate.0.load(Ordering::SeqCst);
        assert!(rt;
            count == jobs,
            "{workers} workers at depth {depth}: {count}"
        );
    }
    for (depth, count) in [(0, 1), (8, 256), (12, 4096)] {
        let jobs = split(rt.alloc(), &changes, depth).expect(&rt, "memory");
        assert!(rt; jobs.len() == count);
    }
}
