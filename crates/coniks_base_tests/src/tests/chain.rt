//! Chains under a hash that maps every message to 32 zero bytes: audits, monitors, evidence, collisions and signers.

use crate::tests::{after, copied, is_joined};
use crate::{NONCE, OPENING, Only, POLICY, Stamp, Yes};
use coniks_chain::{
    AuditFault, Body, Entry, Evidence, EvidenceKind, Monitor, MonitorFault, Seen, Sign, Signature,
    Signer, Tally, Verify, audit, extract_history, find_evidence,
};
use coniks_proof::{CheckFault, Collision, Digest, Digests, End, Flat, Head, Index, Proof};
use std::alloc::Global;
use std::process::Abort;

const ZERO: Digest = Digest([0; 32]);

const SIGNATURE: Signature = Signature([7; 64]);

/// Returns an entry with these epochs and this first byte of the root.
fn entry(t: u64, t_prev: u64, root: u8) -> Entry {
    let mut bytes = [0; 32];
    bytes[0] = root;
    Entry {
        body: Body {
            version: 1,
            t,
            t_prev,
            root: Digest(bytes),
            previous: ZERO,
            nonce: NONCE,
            policy: POLICY,
        },
        signature: SIGNATURE,
    }
}

#[test]
fn audited(rt: HostRuntime) {
    let chain = [entry(1, 0, 0), entry(4, 1, 1), entry(5, 4, 0)];
    let head = Head {
        epoch: 5,
        link: ZERO,
    };
    assert!(rt; audit(&Flat, &chain, &Yes) == Ok(Some(head)));
}

/// Returns the proof that `a` has this key, or that it has none.
fn proof_of(rt: &impl Abort, alloc: Global, key: Option<u8>) -> Proof {
    let end = match key {
        Some(key) => End::Here {
            name: copied(rt, alloc, b"a"),
            key: copied(rt, alloc, &[key]),
            opening: OPENING,
        },
        None => End::Empty,
    };
    Proof {
        siblings: Digests::new(Vec::new(alloc)),
        end,
    }
}

/// A monitor makes a step. Another one that is resumed from its state expects another key, and runs over three entries.
#[test]
fn watched(rt: HostRuntime) {
    let alloc = rt.alloc();
    let only = Only(SIGNATURE);
    let (name, key) = (copied(&rt, alloc, b"a"), copied(&rt, alloc, b"k"));
    let mut first = Monitor::new(Flat, name, Index([0; 32]), Some(key));
    let seen = first.step(&entry(1, 0, 0), &proof_of(&rt, alloc, Some(b'k')), &only);
    assert!(rt; seen == Ok(Seen::Same));
    let name = copied(&rt, alloc, b"a");
    let mut next = Monitor::resume(Flat, first.state(), name, Index([0; 32]), None);
    next.expect(Some(copied(&rt, alloc, b"l")));
    let items = [
        (entry(2, 1, 0), proof_of(&rt, alloc, Some(b'l'))),
        (entry(3, 2, 0), proof_of(&rt, alloc, Some(b'k'))),
        (entry(4, 3, 0), proof_of(&rt, alloc, None)),
    ];
    let tally = Tally {
        same: 1,
        changed: 1,
        absent: 1,
    };
    assert!(rt; next.run(&items, &only) == Ok(tally));
    assert!(rt; next.state().is_some_and(|state| state.t == 4));
}

#[test]
fn texts_of_faults(rt: HostRuntime) {
    for (fault, want) in [
        (
            MonitorFault::Audit(AuditFault::NotLater),
            "the entry is refused: the epoch isn't later than that of the entry before",
        ),
        (
            MonitorFault::Check(CheckFault::RootMismatch),
            "the proof is refused: the root computed from the proof isn't the expected root",
        ),
    ] {
        let text = format!(in rt.alloc(); "{fault}").expect(&rt, "memory");
        assert!(rt; text.as_str() == want);
    }
}

/// One provider signs epoch 3 for one client and epoch 4 for another, both after epoch 2: no epoch is in both chains.
#[test]
fn chains_that_part(rt: HostRuntime) {
    let both = [entry(1, 0, 0), entry(2, 1, 0)];
    let ours = [both[0], both[1], entry(3, 2, 0)];
    let theirs = [both[0], both[1], entry(4, 2, 0), entry(5, 4, 0)];
    let wanted = Evidence {
        place: 2,
        kind: EvidenceKind::Overlap,
    };
    assert!(rt; find_evidence(&ours, &theirs) == Some(wanted));
    assert!(rt; find_evidence(&ours, &both).is_none());
}

/// Returns whether bytes are the preimage of the link of an entry with these epochs and this first byte of the root.
fn is_linked(bytes: &[u8], t: u64, t_prev: u64, root: u8) -> bool {
    let epochs: [&[u8]; 4] = [b"S", &[1], &t.to_be_bytes(), &t_prev.to_be_bytes()];
    match after(bytes, &epochs) {
        Some(rest) => is_joined(
            rest,
            &[&[root], &[0; 31], &ZERO.0, &NONCE.0, &POLICY, &SIGNATURE.0],
        ),
        None => false,
    }
}

/// Returns the collision of two histories, after one retry if an allocation fails, and whether one failed.
fn found_at_last(rt: &impl Abort, alloc: Global, a: &[Entry], b: &[Entry]) -> (Collision, bool) {
    let (found, is_refused) = match extract_history(alloc, &Flat, a, b) {
        Ok(found) => (found, false),
        Err(_) => (
            extract_history(alloc, &Flat, a, b).expect(rt, "memory"),
            true,
        ),
    };
    (found.expect(rt, "two texts"), is_refused)
}

/// `extract_history` returns the same collisions after a failed allocation, for histories of the same and of different
/// lengths. `faults/run` makes each allocation fail in turn, and reads from the output whether it was one of
/// `extract_history`.
#[test]
fn refused_in_turn(rt: HostRuntime) {
    let alloc = rt.alloc();
    let [one, other, two] = [entry(1, 0, 0), entry(1, 0, 1), entry(2, 1, 0)];
    let mut is_refused = false;
    for (a, b, t, t_prev, root) in [
        (&[one][..], &[other][..], 1, 0, 1),
        (&[one, two], &[other, two], 1, 0, 1),
        (&[one], &[one, two], 2, 1, 0),
    ] {
        let (found, refused) = found_at_last(&rt, alloc, a, b);
        assert!(rt; is_linked(found.x.as_slice(), 1, 0, 0));
        assert!(rt; is_linked(found.y.as_slice(), t, t_prev, root));
        is_refused = is_refused || refused;
    }
    let _ = println!(rt; "{}", if is_refused { "refused" } else { "answered" });
}

/// Returns a first entry and those of the epochs 2 to 65,536, as many entries as a board has heads.
fn long(rt: &impl Abort, alloc: Global, first: Entry) -> Vec<Entry> {
    let mut entries = Vec::new(alloc);
    entries.push(first).expect(rt, "memory");
    for t in 2..=65_536 {
        entries.push(entry(t, t - 1, 0)).expect(rt, "memory");
    }
    entries
}

/// `extract_history` finds the collision of histories of 65,536 entries that differ only in the first entry.
#[test]
fn long_histories(rt: HostRuntime) {
    let alloc = rt.alloc();
    let a = long(&rt, alloc, entry(1, 0, 0));
    let b = long(&rt, alloc, entry(1, 0, 1));
    let (found, _) = found_at_last(&rt, alloc, &a, &b);
    assert!(rt; is_linked(found.x.as_slice(), 1, 0, 0));
    assert!(rt; is_linked(found.y.as_slice(), 1, 0, 1));
}

/// A signer asks its source once for each body, and counts what the source refuses and signs.
#[test]
fn signed_or_refused(rt: HostRuntime) {
    let Entry { body, signature } = entry(1, 0, 0);
    let mut signer = Signer::new(Stamp::new(Some(signature), signature, 0));
    assert!(rt; signer.sign(&body.bytes()).is_none());
    assert!(rt; signer.last().is_none());
    assert!(rt; signer.sign(&body.bytes()) == Some(signature));
    assert!(rt; (signer.made(), signer.refused()) == (1, 1));
    assert!(rt; signer.last() == Some(Entry { body, signature }));
    assert!(rt; signer.source.calls == 2);
    assert!(rt; signer.source.requested == Some(body.bytes()));
    assert!(rt; signer.verdict(&body.bytes(), &signature));
}
