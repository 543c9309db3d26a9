//! The commitments of a batch's records, by worker threads. Each computes eight at a time, then four, and the rest one by one.

ghost use Rattle.std.specs.Prelude.{◌≡◌, ◌+◌, ◌*◌, ◌/◌, ◌<◌, ◌≤◌, List, Some, length, map, slice_get};
ghost use Rattle.coniks_proof.specs.Octets.{Octets};
ghost use Rattle.coniks_proof.specs.Preimages.{commitment_preimage};
ghost use Rattle.coniks_proof.specs.Registry.{AreWithin, Registered};
ghost use Rattle.coniks_directory.specs.Judged.{AreCommitmentsFrom, AreCommittedTo, IsCommitmentAt, committed_by};
ghost use Rattle.coniks_directory.specs.State.{registered_of};

use coniks_proof::{
    CommitmentPreimage, Digest, Hash32, commit_hash, commit_hash_eight, commit_hash_four,
};
use coniks_tree::Record;
use std::thread;
use std::thread::Threads;

/// The fewest records for each thread.
const FEWEST: usize = 512;

/// Returns the preimage of the commitment of the record at a position.
fn preimage_at(records: &[Record], place: usize) -> CommitmentPreimage<'_>
    requires there { place < length records.now }
    requires within { AreWithin (map registered_of records.now) }
    ensures { (b : Registered) → slice_get (map registered_of records.now) place ≡ Some b → result ≡ commitment_preimage b.opening b.name b.key }
{
    let draft = &records[place];
    CommitmentPreimage::of(
        &draft.opening,
        draft.binding.name.as_slice(),
        draft.binding.key.as_slice(),
    )
}

/// Returns the commitment of the record at a position.
fn commitment_at<H: Hash32>(h: &H, records: &[Record], place: usize) -> Digest
    requires there { place < length records.now }
    requires within { AreWithin (map registered_of records.now) }
    ensures { IsCommitmentAt (H.digest_of h.now) records.now place result.0 }
{
    let draft = &records[place];
    commit_hash(
        h,
        &draft.opening,
        draft.binding.name.as_slice(),
        draft.binding.key.as_slice(),
    )
}

/// Stores its commitment in the record at a position.
fn put(records: &mut [Record], place: usize, commitment: Digest)
    requires { place < length records.old }
    ensures binds { map registered_of records.new ≡ map registered_of records.old }
    ensures committed { (hash : Octets → Octets) (all : List Record) → IsCommitmentAt hash records.old place commitment.0 → AreCommittedTo hash all place records.old
        → AreCommittedTo hash all (place + 1) records.new }
{
    records[place].commitment = commitment;
}

/// Stores commitments in the records from a position on.
fn put_all(records: &mut [Record], place: usize, commitments: &[Digest])
    requires { place + length commitments.now ≤ length records.old }
    ensures binds { map registered_of records.new ≡ map registered_of records.old }
    ensures committed { (hash : Octets → Octets) (all : List Record) → AreCommitmentsFrom hash records.old place (map (λ d. d.0) commitments.now)
        → AreCommittedTo hash all place records.old → AreCommittedTo hash all (place + length commitments.now) records.new }
{
    for offset in 0..commitments.len() {
        let commitment = commitments[offset];
        put(records, place + offset, commitment);
    }
}

/// Stores the commitments of eight records from a position on.
fn commit_eight<H: Hash32>(h: &H, records: &mut [Record], place: usize)
    requires there { place + 8 ≤ length records.old }
    requires within { AreWithin (map registered_of records.old) }
    ensures binds { map registered_of records.new ≡ map registered_of records.old }
    ensures committed { (all : List Record) → AreCommittedTo (H.digest_of h.now) all place records.old → AreCommittedTo (H.digest_of h.now) all (place + 8) records.new }
{
    let commitments = commit_hash_eight(
        h,
        &[
            preimage_at(records, place),
            preimage_at(records, place + 1),
            preimage_at(records, place + 2),
            preimage_at(records, place + 3),
            preimage_at(records, place + 4),
            preimage_at(records, place + 5),
            preimage_at(records, place + 6),
            preimage_at(records, place + 7),
        ],
    );
    put_all(records, place, &commitments);
}

/// Stores the commitments of four records from a position on.
fn commit_four<H: Hash32>(h: &H, records: &mut [Record], place: usize)
    requires there { place + 4 ≤ length records.old }
    requires within { AreWithin (map registered_of records.old) }
    ensures binds { map registered_of records.new ≡ map registered_of records.old }
    ensures committed { (all : List Record) → AreCommittedTo (H.digest_of h.now) all place records.old → AreCommittedTo (H.digest_of h.now) all (place + 4) records.new }
{
    let (a, b, c, d) = commit_hash_four(
        h,
        &preimage_at(records, place),
        &preimage_at(records, place + 1),
        &preimage_at(records, place + 2),
        &preimage_at(records, place + 3),
    );
    put(records, place, a);
    put(records, place + 1, b);
    put(records, place + 2, c);
    put(records, place + 3, d);
}

/// Stores the commitments of the first `groups` groups of eight.
fn commit_groups<H: Hash32>(h: &H, records: &mut [Record], groups: usize)
    requires there { 8 * groups ≤ length records.old }
    requires within { AreWithin (map registered_of records.old) }
    ensures binds { map registered_of records.new ≡ map registered_of records.old }
    ensures committed { AreCommittedTo (H.digest_of h.now) records.old (8 * groups) records.new }
{
    for group in 0..groups {
        commit_eight(h, records, 8 * group);
    }
}

/// Stores the commitments of the records from a position on.
fn commit_rest<H: Hash32>(h: &H, records: &mut [Record], from: usize)
    requires there { from ≤ length records.old }
    requires within { AreWithin (map registered_of records.old) }
    ensures { (all : List Record) → AreCommittedTo (H.digest_of h.now) all from records.old → records.new ≡ map (committed_by (H.digest_of h.now)) all }
{
    for place in from..records.len() {
        let commitment = commitment_at(h, records, place);
        put(records, place, commitment);
    }
}

/// Stores the commitments of the records from a position on, of which there are at most seven.
fn commit_last<H: Hash32>(h: &H, records: &mut [Record], from: usize)
    requires there { from ≤ length records.old }
    requires within { AreWithin (map registered_of records.old) }
    ensures { (all : List Record) → AreCommittedTo (H.digest_of h.now) all from records.old → records.new ≡ map (committed_by (H.digest_of h.now)) all }
{
    if records.len() - from < 4 {
        commit_rest(h, records, from);
        return;
    }
    commit_four(h, records, from);
    commit_rest(h, records, from + 4);
}

/// Stores its commitment in each record.
fn commit_all<H: Hash32>(h: &H, records: &mut [Record])
    requires { AreWithin (map registered_of records.old) }
    ensures { records.new ≡ map (committed_by (H.digest_of h.now)) records.old }
{
    let groups = records.len() / 8;
    commit_groups(h, records, groups);
    commit_last(h, records, 8 * groups);
}

/// Stores its commitment in each record, by at most this number of worker threads. Each has an even share, and there are
/// fewer threads if a share were less than `FEWEST` records.
pub(crate) fn commit_apart<H: Hash32 + Sync, R: Threads + Sync>(
    rt: &R,
    workers: usize,
    h: &H,
    records: &mut [Record],
)
    requires workers { 0 < workers }
    requires within { AreWithin (map registered_of records.old) }
    ensures { records.new ≡ map (committed_by (H.digest_of h.now)) records.old }
{
    let threads = workers.min(records.len() / FEWEST).max(1);
    let size = records.len().div_ceil(threads).max(1);
    thread::for_each_chunk_mut(
        rt,
        records,
        size,
        &|_, chunk: &mut [Record]|
            requires { AreWithin (map registered_of chunk.now) }
            ensures { chunk.exit.now ≡ map (committed_by (H.digest_of h.entry.now)) chunk.entry.now }
        { commit_all(h, chunk) },
    );
}
