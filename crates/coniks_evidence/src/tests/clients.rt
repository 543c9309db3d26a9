//! The clients of Alice and of Bob, and what is found in their records.

use crate::tests::Proof32;
use crate::tests::directories::{ALICE, FIRST, Flawed, POLICY, Shown, Signed, entry_after, reply};
use crate::{
    Colliding, ContactRecord, Finding, OwnerRecord, Preimage, Reason, ReplyVerifier, examine,
};
use coniks_chain::{ENTRY_BYTES, link};
use coniks_client::watching::SAME;
use coniks_client::{
    Accepted, Asking, Change, Fed, IndexScheme, LookupFault, Present, StoredEntry, Verifier, Watch,
    expect, feed, latest_epoch, look_up, lookup,
};
use coniks_proof::{Answer, Hash32, Head, Sha256Hash};
use std::alloc::Global;
use std::process::Abort;

/// What a client is shown at an epoch: the entry, a reply, and the key in it, which has no byte if it shows none.
#[derive(Drop)]
pub(crate) struct Reported<'a> {
    pub(crate) epoch: u64,
    pub(crate) entry: [u8; ENTRY_BYTES],
    pub(crate) reply: Vec<u8>,
    pub(crate) key: &'a [u8],
}

/// Alice, whose client has watched her name since epoch 1 and was told `same` at each epoch.
#[derive(Drop)]
pub(crate) struct Owner<'a> {
    pub(crate) stored: Vec<StoredEntry>,
    pub(crate) watch: Watch<'a>,
    pub(crate) changes: Vec<Change<'a>>,
    pub(crate) reported: Vec<Reported<'a>>,
}

/// What Bob's client was shown.
#[derive(Clone, Copy, PartialEq, Eq)]
pub(crate) struct Counts {
    /// It refused a reply, or an entry after the one of another tree.
    pub(crate) refused: u64,
    /// Its chain has not the head that Alice's has.
    pub(crate) apart: u64,
    /// It accepted the key of Alice's timeline, and nothing convicts.
    pub(crate) same: u64,
    /// The same, and the directory is convicted.
    pub(crate) convicted: u64,
    /// It accepted another key, and the directory is convicted.
    pub(crate) other: u64,
}

pub(crate) const NO_COUNTS: Counts = Counts {
    refused: 0,
    apart: 0,
    same: 0,
    convicted: 0,
    other: 0,
};

/// The records of both clients under a hash: Alice's, with what she is shown at an epoch, and Bob's chain, with what he is shown
/// at that epoch.
#[derive(Clone, Copy)]
pub(crate) struct Records<'a> {
    pub(crate) h: &'a Flawed,
    pub(crate) owner: &'a Owner<'a>,
    pub(crate) mine: &'a Reported<'a>,
    pub(crate) stored: &'a [StoredEntry],
    pub(crate) other: &'a Reported<'a>,
}

/// Returns whether an answer is a key, or none if that has no byte.
fn is_key(answer: &Answer<'_>, key: &[u8]) -> bool {
    match answer {
        Answer::Absent => key.is_empty(),
        Answer::Key(shown) => **shown == *key,
    }
}

/// Writes a string to the first bytes of a buffer. Returns its length, or 0 if it is longer than the buffer.
fn written(string: &Preimage<'_>, buffer: &mut [u8; 256]) -> usize {
    let size = string.size();
    if size > 256 {
        return 0;
    }
    string.write(buffer);
    size
}

/// Returns whether two strings are those that collide: they differ and have one hash.
fn are_merged(h: &Flawed, pair: &Colliding<'_>) -> bool {
    let (mut x, mut y) = ([0; 256], [0; 256]);
    let sizes = (written(&pair.x, &mut x), written(&pair.y, &mut y));
    let (Some(x), Some(y)) = (x.get(..sizes.0), y.get(..sizes.1)) else {
        return false;
    };
    let (a, b) = (Sha256Hash.hash(&[x]), Sha256Hash.hash(&[y]));
    let is_pair = (a == h.from && b == h.to) || (a == h.to && b == h.from);
    is_pair && *x != *y && h.hash(&[x]) == h.hash(&[y])
}

/// Returns whether a finding convicts, by the strings that collide or by two indices of the name.
fn convicts(h: &Flawed, finding: &Finding<'_>) -> bool {
    match finding {
        Finding::Links(pair) => are_merged(h, pair),
        Finding::Nodes(pair) => are_merged(h, pair),
        Finding::Indices(a, b) => {
            let indices = (Proof32.index(&ALICE, a.vrf), Proof32.index(&ALICE, b.vrf));
            indices == (Some(a.index), Some(b.index)) && a.index != b.index
        }
        _ => false,
    }
}

impl Counts {
    pub(crate) fn count_refused(&mut self) {
        self.refused = self.refused.saturating_add(1);
    }

    /// Counts what convicts, if Bob's client accepted the key of Alice's timeline or another one.
    fn count_convicted(&mut self, is_same: bool) {
        if is_same {
            self.convicted = self.convicted.saturating_add(1);
        } else {
            self.other = self.other.saturating_add(1);
        }
    }

    /// Counts a finding, if Bob's client accepted the key of Alice's timeline or another one.
    fn count(&mut self, rt: &impl Abort, h: &Flawed, finding: &Finding<'_>, is_same: bool) {
        match finding {
            Finding::Nothing(Reason::ContactHead) => self.apart = self.apart.saturating_add(1),
            Finding::Same => {
                assert!(rt; is_same);
                self.same = self.same.saturating_add(1);
            }
            _ => {
                assert!(rt; convicts(h, finding));
                self.count_convicted(is_same);
            }
        }
    }

    /// Counts what is found if Bob's client accepted a reply at an epoch, with each head from the epoch on.
    pub(crate) fn count_heads(&mut self, rt: &impl Abort, records: &Records<'_>) {
        let Records {
            h,
            owner,
            mine,
            stored,
            other,
        } = *records;
        let record = OwnerRecord {
            stored: &owner.stored,
            watch: owner.watch,
            changes: &owner.changes,
            reply: &mine.reply,
        };
        let contact = ContactRecord {
            stored,
            reply: &other.reply,
        };
        let by = ReplyVerifier {
            hash: h,
            indices: &Proof32,
        };
        for last in owner
            .stored
            .iter()
            .filter(|last| mine.epoch <= last.epoch())
        {
            let head = Head {
                epoch: last.epoch(),
                link: link(h, &last.entry()),
            };
            let finding = examine(&by, &head, mine.epoch, &record, &contact);
            self.count(rt, h, &finding, *other.key == *mine.key);
        }
    }

    /// Adds other counts.
    pub(crate) fn add(&mut self, other: &Counts) {
        self.refused = self.refused.saturating_add(other.refused);
        self.apart = self.apart.saturating_add(other.apart);
        self.same = self.same.saturating_add(other.same);
        self.convicted = self.convicted.saturating_add(other.convicted);
        self.other = self.other.saturating_add(other.other);
    }
}

fn verifier<'a, S: IndexScheme>(h: &'a Flawed, indices: &'a S) -> Verifier<'a, Flawed, Signed, S> {
    Verifier {
        hash: h,
        signatures: &Signed,
        indices,
        policy: &POLICY,
        present: Present {
            clock: None,
            time: 0,
        },
    }
}

fn asking(epoch: u64, reply: &[u8]) -> Asking<'_> {
    Asking {
        name: &ALICE,
        epoch: Some(epoch),
        reply,
    }
}

/// Feeds a client an entry. Returns whether its chain goes on with it.
pub(crate) fn goes_on(
    rt: &impl Abort,
    h: &Flawed,
    stored: &mut Vec<StoredEntry>,
    watch: &Option<Watch<'_>>,
    entry: &[u8; ENTRY_BYTES],
) -> bool {
    let fed = Fed {
        policy: &POLICY,
        entry,
        time: 0,
    };
    match feed(*h, &Signed, stored, watch, &fed) {
        Ok(Accepted::Next(next)) => {
            stored.push(next).expect(rt, "memory");
            true
        }
        _ => false,
    }
}

impl<'a> Owner<'a> {
    /// Returns Alice before the first epoch, whose tree is to show this.
    pub(crate) fn new(alloc: Global, first: &'a Shown) -> Owner<'a> {
        let watch = Watch {
            name: &ALICE,
            since: 1,
            key: first.tree.key(),
        };
        Owner {
            stored: Vec::new(alloc),
            watch,
            changes: Vec::new(alloc),
            reported: Vec::new(alloc),
        }
    }

    /// Feeds her client the entry of a tree, and looks her name up. If her key changes, she has announced it before.
    pub(crate) fn see(&mut self, rt: &impl Abort, alloc: Global, h: &Flawed, shown: &'a Shown) {
        let entry = entry_after(h, &self.stored, &shown.root);
        let latest = latest_epoch(&self.stored);
        let key = shown.tree.key();
        if let Ok(change) = expect(self.watch.key, &self.changes, latest, key, u64::MAX) {
            self.changes.push(change).expect(rt, "memory");
        }
        let watch = Some(self.watch);
        assert!(rt; goes_on(rt, h, &mut self.stored, &watch, &entry));
        let epoch = latest_epoch(&self.stored);
        let reply = reply(rt, alloc, &entry, &FIRST, &shown.proof);
        let asking = asking(epoch, &reply);
        match look_up(
            &verifier(h, &Proof32),
            &mut self.stored,
            &watch,
            &mut self.changes,
            &asking,
        ) {
            Ok(seen) => assert!(rt; seen.number == Some(SAME)),
            Err(_) => assert!(rt; false),
        }
        let reported = Reported {
            epoch,
            entry,
            reply,
            key,
        };
        self.reported.push(reported).expect(rt, "memory");
    }
}

/// Returns why Bob's client refuses a reply. If it accepts the reply, the answer has the key.
pub(crate) fn refusal<S: IndexScheme>(
    rt: &impl Abort,
    h: &Flawed,
    indices: &S,
    stored: &[StoredEntry],
    reported: &Reported<'_>,
) -> Option<LookupFault> {
    match lookup(
        &verifier(h, indices),
        stored,
        &asking(reported.epoch, &reported.reply),
    ) {
        Ok(found) => {
            assert!(rt; is_key(&found.answer, reported.key));
            None
        }
        Err(fault) => Some(fault),
    }
}
