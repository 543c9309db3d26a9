//! Records under a hash that returns 32 zero bytes for every message. The expected strings are written out by hand.

mod clients;
mod directories;
mod worlds;

use crate::tests::directories::joined;
use crate::{ContactRecord, Finding, OwnerRecord, Preimage, Reason, ReplyVerifier, examine};
use coniks_chain::ENTRY_BYTES;
use coniks_client::{IndexScheme, StoredEntry, Watch};
use coniks_proof::{Digest, Flat, Head, Index};
use std::alloc::Global;
use std::process::Abort;

/// The index of any name is its VRF proof, if that has 32 bytes.
struct Proof32;

impl IndexScheme for Proof32 {
    ghost use Rattle.std.specs.Prelude.{Some, None, length, nat_eq, if◌then◌else◌};

    ghost index_of = { λ s name proof. if nat_eq (length proof) 32 then Some proof else None };

    fn index(&self, _name: &[u8], proof: &[u8]) -> Option<Index> {
        match <&[u8; 32]>::try_from(proof) {
            Ok(bytes) => Some(Index(*bytes)),
            Err(_) => None,
        }
    }
}

/// Returns the bytes of an entry of epoch 1, with the root and the link of zeros and a nonce of one byte 32 times.
fn entry(nonce: u8) -> [u8; ENTRY_BYTES] {
    let mut bytes = [0; ENTRY_BYTES];
    bytes[0] = 1;
    bytes[8] = 1;
    for place in 81..113 {
        bytes[place] = nonce;
    }
    bytes
}

fn stored(entry: [u8; ENTRY_BYTES]) -> StoredEntry {
    StoredEntry {
        entry,
        first_seen: [0; 8],
        seen: 1,
    }
}

/// How `alice` is registered in a reply: a key of one byte, and the byte that her index and her opening have 32 times.
#[derive(Clone, Copy)]
struct Registered {
    index: u8,
    opening: u8,
    key: u8,
}

/// How she is registered with the key that she expects.
const EXPECTED: Registered = Registered {
    index: 0,
    opening: 1,
    key: 7,
};

/// Returns a reply in which `alice` is registered.
fn reply(rt: &impl Abort, alloc: Global, entry: &[u8; ENTRY_BYTES], alice: Registered) -> Vec<u8> {
    joined(
        rt,
        alloc,
        &[
            &[1],
            entry,
            b"\0\x20",
            &[alice.index; 32],
            b"\x02\0\0",
            &[alice.opening; 32],
            b"\0\x05alice\0\0\0\x01",
            &[alice.key],
        ],
    )
}

/// Returns whether a string is written as these bytes, and the byte after it is left as it is.
fn is_written(string: &Preimage<'_>, parts: &[&[u8]]) -> bool {
    let mut buffer = [0xAA; 256];
    let size = string.size();
    if size >= 256 {
        return false;
    }
    string.write(&mut buffer);
    let mut at = 0;
    for part in parts {
        for byte in *part {
            if at >= size || buffer[at] != *byte {
                return false;
            }
            at += 1;
        }
    }
    at == size && buffer[size] == 0xAA
}

const ZEROS: Digest = Digest([0; 32]);

/// Returns what the records of `alice`, who expects the key 7, and of a contact contain.
fn found<'a>(
    hers: &'a [StoredEntry],
    mine: &'a [u8],
    his: &'a [StoredEntry],
    other: &'a [u8],
    epoch: u64,
) -> Finding<'a> {
    let watch = Watch {
        name: b"alice",
        since: 1,
        key: b"\x07",
    };
    let owner = OwnerRecord {
        stored: hers,
        watch,
        changes: &[],
        reply: mine,
    };
    let contact = ContactRecord {
        stored: his,
        reply: other,
    };
    let head = Head { epoch, link: ZEROS };
    let by = ReplyVerifier {
        hash: &Flat,
        indices: &Proof32,
    };
    examine(&by, &head, 1, &owner, &contact)
}

#[test]
fn two_keys_in_one_commitment(rt: HostRuntime) {
    let bytes = entry(0);
    let chain = [stored(bytes)];
    let mine = reply(&rt, rt.alloc(), &bytes, EXPECTED);
    let changed = Registered {
        opening: 2,
        key: 8,
        ..EXPECTED
    };
    let other = reply(&rt, rt.alloc(), &bytes, changed);
    let Finding::Nodes(pair) = found(&chain, &mine, &chain, &other, 1) else {
        panic!(rt; "no two nodes")
    };
    assert!(rt; is_written(&pair.x, &[b"C", &[1; 32], b"\0\x05alice\0\0\0\x01\x07"]));
    assert!(rt; is_written(&pair.y, &[b"C", &[2; 32], b"\0\x05alice\0\0\0\x01\x08"]));
}

#[test]
fn two_entries_with_one_link(rt: HostRuntime) {
    let hers = [stored(entry(0))];
    let his = [stored(entry(5))];
    let Finding::Links(pair) = found(&hers, b"", &his, b"", 1) else {
        panic!(rt; "no two links")
    };
    assert!(rt; is_written(&pair.x, &[b"S", &entry(0)]));
    assert!(rt; is_written(&pair.y, &[b"S", &entry(5)]));
}

#[test]
fn two_indices(rt: HostRuntime) {
    let bytes = entry(0);
    let chain = [stored(bytes)];
    let mine = reply(&rt, rt.alloc(), &bytes, EXPECTED);
    let moved = Registered {
        index: 3,
        ..EXPECTED
    };
    let other = reply(&rt, rt.alloc(), &bytes, moved);
    let Finding::Indices(a, b) = found(&chain, &mine, &chain, &other, 1) else {
        panic!(rt; "no two indices")
    };
    assert!(rt; a.index == Index([0; 32]));
    assert!(rt; b.index == Index([3; 32]));
}

#[test]
fn nothing_convicts(rt: HostRuntime) {
    let bytes = entry(0);
    let chain = [stored(bytes)];
    let mine = reply(&rt, rt.alloc(), &bytes, EXPECTED);
    let changed = Registered { key: 8, ..EXPECTED };
    let other = reply(&rt, rt.alloc(), &bytes, changed);
    assert!(rt; matches!(found(&chain, &mine, &chain, &mine, 1), Finding::Same));
    assert!(rt;
        matches!(
            found(&chain, &other, &chain, &other, 1),
            Finding::Nothing(Reason::Unexpected)
        )
    );
    assert!(rt;
        matches!(
            found(&chain, &mine, &chain, &mine, 2),
            Finding::Nothing(Reason::OwnerHead)
        )
    );
    assert!(rt;
        matches!(
            found(&chain, &mine, &chain, b"", 1),
            Finding::Nothing(Reason::ContactReply(_))
        )
    );
}
