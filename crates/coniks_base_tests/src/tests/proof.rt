//! Hashes, collisions under a hash that maps every message to 32 zero bytes, and proofs in bytes.

use crate::tests::{after, copied, is_joined};
use crate::{NONCE, OPENING, digest, index_of};
use coniks_proof::{
    Collision, Digest, Digests, End, Flat, Hash32, MAX_KEY, MAX_NAME, Proof, Sha256Hash, extract,
};
use std::alloc::Global;
use std::process::Abort;

const ZERO: Digest = Digest([0; 32]);

const ONES: Digest = Digest([1; 32]);

/// SHA-256 of the examples of FIPS 180-4, of which one is in pieces. Four and eight messages under `Flat`, which has
/// only `hash`, are hashed by the methods that the trait has.
#[test]
fn hashes(rt: HostRuntime) {
    let abc = digest("ba7816bf8f01cfea414140de5dae2223b00361a396177a9cb410ff61f20015ad");
    assert!(rt; Sha256Hash.hash(&[b"a", b"", b"bc"]) == abc);
    let empty = digest("e3b0c44298fc1c149afbf4c8996fb92427ae41e4649b934ca495991b7852b855");
    assert!(rt; Sha256Hash.hash(&[]) == empty);
    assert!(rt; Flat.hash_four(&[], &[b"a"], &[], &[]) == (ZERO, ZERO, ZERO, ZERO));
    let eight = Flat.hash_eight(&[&[], &[b"a"], &[], &[], &[], &[], &[], &[]]);
    assert!(rt; eight == [ZERO; 8]);
}

/// Returns a name or a key of one repeated letter, and tries once more if an allocation fails.
fn repeated(rt: &impl Abort, alloc: Global, letter: u8, count: usize) -> Vec<u8> {
    match vec![in alloc; letter; count] {
        Ok(bytes) => bytes,
        Err(_) => vec![in alloc; letter; count].expect(rt, "memory"),
    }
}

/// Returns the end of a presence proof.
fn here(rt: &impl Abort, alloc: Global, name: &[u8], key: &[u8]) -> End {
    End::Here {
        name: copied(rt, alloc, name),
        key: copied(rt, alloc, key),
        opening: OPENING,
    }
}

/// Returns a proof with a given number of siblings, which are all ones, and tries once more if an allocation fails.
fn beside(rt: &impl Abort, alloc: Global, siblings: usize, end: End) -> Proof {
    let siblings = match vec![in alloc; ONES; siblings] {
        Ok(siblings) => siblings,
        Err(_) => vec![in alloc; ONES; siblings].expect(rt, "memory"),
    };
    Proof {
        siblings: Digests::new(siblings),
        end,
    }
}

/// Returns the collision that two proofs of a name of index 0 give, after one retry if an allocation fails, and whether
/// one failed.
fn found_at_last(
    rt: &impl Abort,
    alloc: Global,
    name: &[u8],
    a: &Proof,
    b: &Proof,
) -> (Collision, bool) {
    let index = index_of(0, 0);
    let (found, is_refused) = match extract(
        alloc,
        &Flat,
        &NONCE,
        &ZERO,
        &index,
        (name, a),
        (name, b),
    ) {
        Ok(found) => (found, false),
        Err(_) => {
            let again = extract(alloc, &Flat, &NONCE, &ZERO, &index, (name, a), (name, b));
            (again.expect(rt, "memory"), true)
        }
    };
    (found.expect(rt, "a collision"), is_refused)
}

/// A preimage: an empty node or a leaf at the deepest level, an empty root, an interior node, or the commitment to the
/// longest name and a key.
#[derive(Clone, Copy)]
enum Hashed<'a> {
    Empty,
    Leaf,
    EmptyRoot,
    Inner,
    Commitment { name: &'a [u8], key: &'a [u8] },
}

fn is_text(bytes: &[u8], text: Hashed<'_>) -> bool {
    match text {
        Hashed::Empty => is_joined(bytes, &[b"E", &NONCE.0, &ZERO.0, b"\x01\0"]),
        Hashed::Leaf => is_joined(bytes, &[b"L", &NONCE.0, &ZERO.0, b"\x01\0", &ZERO.0]),
        Hashed::EmptyRoot => is_joined(bytes, &[b"E", &NONCE.0, &ZERO.0, b"\0\0"]),
        Hashed::Inner => is_joined(bytes, &[b"I", &ZERO.0, &ONES.0]),
        Hashed::Commitment { name, key } => is_joined(
            bytes,
            &[b"C", &OPENING.0, b"\0\xff", name, b"\0\0\x40\0", key],
        ),
    }
}

/// `extract` returns the same collisions of proofs of the greatest size after a failed allocation. `faults/run` makes
/// each allocation fail in turn, and reads from the output whether it was one of `extract`.
#[test]
fn refused_in_turn(rt: HostRuntime) {
    let alloc = rt.alloc();
    let name = repeated(&rt, alloc, b'n', MAX_NAME);
    let (k, l) = (
        repeated(&rt, alloc, b'k', MAX_KEY),
        repeated(&rt, alloc, b'l', MAX_KEY),
    );
    let first = beside(&rt, alloc, 256, here(&rt, alloc, &name, &k));
    let second = beside(&rt, alloc, 256, here(&rt, alloc, &name, &l));
    let absent = beside(&rt, alloc, 256, End::Empty);
    let above = beside(&rt, alloc, 0, End::Empty);
    let of_k = Hashed::Commitment {
        name: &name,
        key: &k,
    };
    let of_l = Hashed::Commitment {
        name: &name,
        key: &l,
    };
    let mut is_refused = false;
    for (other, x, y) in [
        (&second, of_k, of_l),
        (&absent, Hashed::Leaf, Hashed::Empty),
        (&above, Hashed::Inner, Hashed::EmptyRoot),
    ] {
        let (found, refused) = found_at_last(&rt, alloc, &name, &first, other);
        assert!(rt; is_text(found.x.as_slice(), x) && is_text(&found.y.into_vec(), y));
        is_refused = is_refused || refused;
    }
    assert!(rt; absent.siblings.into_vec().len() == 256);
    let _ = println!(rt; "{}", if is_refused { "refused" } else { "answered" });
}

/// The end of a proof, and its encoding: the kind, and the pieces after the siblings.
#[derive(Drop)]
struct Encoded<'a> {
    end: End,
    kind: u8,
    pieces: &'a [&'a [u8]],
}

/// Returns whether a proof with this number of siblings, which are all ones, and with an end is encoded as the kind, the
/// number, the siblings and the pieces.
fn is_written(rt: &impl Abort, alloc: Global, siblings: u16, encoded: Encoded<'_>) -> bool {
    let Encoded { end, kind, pieces } = encoded;
    let proof = beside(rt, alloc, usize::from(siblings), end);
    let bytes = proof.bytes(alloc).expect(rt, "memory");
    let ones = repeated(rt, alloc, 1, usize::from(siblings) * 32);
    match after(&bytes, &[&[kind], &siblings.to_be_bytes(), &ones]) {
        Some(rest) => is_joined(rest, pieces),
        None => false,
    }
}

/// `Proof::bytes` encodes each kind of end, and a proof with the most siblings and the longest name that have room. The
/// bytes are written out by hand from the wire format.
#[test]
fn written(rt: HostRuntime) {
    let alloc = rt.alloc();
    let (index, commitment) = (index_of(0x40, 0), ONES);
    let name = repeated(&rt, alloc, b'n', 65_535);
    let key = repeated(&rt, alloc, b'k', 70_000);
    let empty = Encoded {
        end: End::Empty,
        kind: 0,
        pieces: &[],
    };
    let other = Encoded {
        end: End::Other { index, commitment },
        kind: 1,
        pieces: &[&index.0, &ONES.0],
    };
    let short = Encoded {
        end: here(&rt, alloc, b"a", b"kk"),
        kind: 2,
        pieces: &[&OPENING.0, b"\0\x01a\0\0\0\x02kk"],
    };
    let long = Encoded {
        end: here(&rt, alloc, &name, &key),
        kind: 2,
        pieces: &[&OPENING.0, b"\xff\xff", &name, b"\0\x01\x11\x70", &key],
    };
    assert!(rt; is_written(&rt, alloc, 2, empty));
    assert!(rt; is_written(&rt, alloc, 0, other));
    assert!(rt; is_written(&rt, alloc, 1, short));
    assert!(rt; is_written(&rt, alloc, 65_535, long));
}
