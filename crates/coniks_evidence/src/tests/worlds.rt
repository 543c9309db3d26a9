//! All small worlds: what a directory can show Bob of `alice` in place of what it shows Alice, under a hash that has one collision or
//! none, and with a VRF that has two indices of her name.
//!
//! The expected counts follow from the numbers of trees, keys and strings.

use crate::tests::Proof32;
use crate::tests::clients::{Counts, NO_COUNTS, Owner, Records, Reported, goes_on, refusal};
use crate::tests::directories::{
    ALICE, Bound, CAROL, FIRST, Flawed, SHA256, Shown, all_shown, colliding, entry_after, hashes,
    reply, second,
};
use coniks_chain::{Entry, link};
use coniks_client::{IndexScheme, LookupFault, StoredEntry};
use coniks_proof::{CheckFault, Index, Sha256Hash};
use std::alloc::Global;
use std::process::Abort;

/// The number of trees.
const TREES: usize = 8;

const WITH_CAROL: Bound = Bound {
    name: CAROL,
    key: *b"A",
};

/// A history of Alice's directory: the number of its epochs, and a number whose digits to the base `TREES` are the trees of the
/// epochs, the lowest digit first.
#[derive(Clone, Copy)]
struct History {
    epochs: usize,
    trees: usize,
}

/// Returns the number of histories of some epochs.
fn histories(epochs: usize) -> usize {
    let mut count = 1usize;
    for _ in 0..epochs {
        count = count.saturating_mul(TREES);
    }
    count
}

/// A hash, what a directory can show with each tree under it, and Alice after a history.
#[derive(Drop)]
struct World<'a> {
    h: &'a Flawed,
    all: &'a [Shown],
    history: History,
    owner: Owner<'a>,
}

impl<'a> World<'a> {
    /// Returns the world in which Alice is shown a history.
    fn new(
        rt: &impl Abort,
        alloc: Global,
        h: &'a Flawed,
        all: &'a [Shown],
        history: History,
    ) -> World<'a> {
        assert!(rt; all.len() == TREES);
        let mut rest = history.trees;
        let mut owner = Owner::new(alloc, &all[rest % TREES]);
        for _ in 0..history.epochs {
            owner.see(rt, alloc, h, &all[rest % TREES]);
            rest /= TREES;
        }
        World {
            h,
            all,
            history,
            owner,
        }
    }

    /// Counts what is found if Bob has Alice's chain and is shown `other` at the epoch of `mine`.
    fn count_heads(
        &self,
        rt: &impl Abort,
        mine: &Reported<'_>,
        other: &Reported<'_>,
        counts: &mut Counts,
    ) {
        let records = Records {
            h: self.h,
            owner: &self.owner,
            mine,
            stored: &self.owner.stored,
            other,
        };
        counts.count_heads(rt, &records);
    }

    /// Shows Bob each tree under the entry of one epoch.
    fn show_each(&self, rt: &impl Abort, alloc: Global, mine: &Reported<'_>, counts: &mut Counts) {
        for shown in self.all {
            let other = Reported {
                epoch: mine.epoch,
                entry: mine.entry,
                reply: reply(rt, alloc, &mine.entry, &FIRST, &shown.proof),
                key: shown.tree.key(),
            };
            match refusal(rt, self.h, &Proof32, &self.owner.stored, &other) {
                None => self.count_heads(rt, mine, &other, counts),
                Some(fault) => {
                    assert!(rt; fault == LookupFault::Check(CheckFault::RootMismatch));
                    counts.count_refused();
                }
            }
        }
    }

    /// Shows Bob each tree at each epoch of the history.
    fn show_at_each(&self, rt: &impl Abort, alloc: Global, counts: &mut Counts) {
        for mine in &self.owner.reported {
            self.show_each(rt, alloc, mine, counts);
        }
    }
}

/// Returns the counts of all histories of some epochs in which Bob is shown each tree at each epoch.
fn counts_of(rt: &impl Abort, alloc: Global, h: &Flawed, epochs: usize) -> Counts {
    let all = all_shown(rt, alloc, h, WITH_CAROL);
    let mut counts = NO_COUNTS;
    for trees in 0..histories(epochs) {
        let world = World::new(rt, alloc, h, &all, History { epochs, trees });
        world.show_at_each(rt, alloc, &mut counts);
    }
    counts
}

/// Without a collision Bob's client accepts the reply with Alice's tree and no other. From each of three epochs on there are 3, 2 or
/// 1 heads.
#[test]
fn no_collision(rt: HostRuntime) {
    let counts = counts_of(&rt, rt.alloc(), &SHA256, 3);
    let wanted = Counts {
        refused: 512 * 3 * 7,
        same: 512 * 6,
        ..NO_COUNTS
    };
    assert!(rt; counts == wanted);
}

/// Adds the counts of all histories of one epoch under a hash, and of three epochs if two trees have one root.
fn add_counts(rt: &impl Abort, alloc: Global, h: &Flawed, one: &mut Counts, three: &mut Counts) {
    let counts = counts_of(rt, alloc, h, 1);
    one.add(&counts);
    if counts.refused < 56 {
        three.add(&counts_of(rt, alloc, h, 3));
    }
}

/// Each two of the 24 strings that are hashed for the trees collide in turn. Two trees get one root by
///
/// - the commitments of two keys, 3 pairs, with `carol` and without;
/// - the leaves of two keys beside `carol`, or the nodes of level 2 or 1 over these, 9 pairs;
/// - two of the 8 strings at the root, 28 pairs, of which 4 show one key.
#[test]
fn each_two_strings(rt: HostRuntime) {
    let alloc = rt.alloc();
    let hashes = hashes(&rt, alloc, &Sha256Hash, WITH_CAROL);
    let (mut one, mut three) = (NO_COUNTS, NO_COUNTS);
    for (place, from) in hashes.iter().enumerate() {
        for to in &hashes[..place] {
            let h = colliding(*from, *to);
            add_counts(&rt, alloc, &h, &mut one, &mut three);
        }
    }
    let wanted_of_one = Counts {
        refused: 276 * 8 * 7 - 4 * 2 - (3 * 4 + 33 * 2),
        same: 276 * 8 + 4 * 2,
        other: 3 * 4 + 33 * 2,
        ..NO_COUNTS
    };
    assert!(rt; one == wanted_of_one);
    let wanted_of_three = Counts {
        refused: 40 * 512 * 3 * 7 - (4 * 2 + 3 * 4 + 33 * 2) * 64 * 3,
        same: 40 * 512 * 6 + 4 * 2 * 64 * 6,
        other: (3 * 4 + 33 * 2) * 64 * 6,
        ..NO_COUNTS
    };
    assert!(rt; three == wanted_of_three);
}

/// Alice, another entry and its tree that Bob is shown at one epoch, and the hash of both entries' links.
#[derive(Clone, Copy)]
struct Fork<'a> {
    h: &'a Flawed,
    owner: &'a Owner<'a>,
    other: &'a Reported<'a>,
}

impl<'a> Fork<'a> {
    /// Returns what Bob is shown at the epoch of `mine`: `other`, if it is of this epoch, else what Alice is shown.
    fn shown_to_bob(&self, mine: &'a Reported<'a>) -> &'a Reported<'a> {
        if mine.epoch == self.other.epoch {
            self.other
        } else {
            mine
        }
    }

    /// Returns Bob's chain, which has another entry than Alice's at one epoch, as far as his client accepts it.
    fn chain_of_bob(
        &self,
        rt: &impl Abort,
        alloc: Global,
        counts: &mut Counts,
    ) -> Vec<StoredEntry> {
        let mut stored = Vec::new(alloc);
        for mine in &self.owner.reported {
            let entry = self.shown_to_bob(mine).entry;
            if !goes_on(rt, self.h, &mut stored, &None, &entry) {
                counts.count_refused();
                break;
            }
        }
        stored
    }

    /// Shows Bob the other entry and its tree, and counts what is found.
    fn counts(&self, rt: &impl Abort, alloc: Global) -> Counts {
        let mut counts = NO_COUNTS;
        let stored = self.chain_of_bob(rt, alloc, &mut counts);
        for mine in self.owner.reported.iter().take(stored.len()) {
            let other = self.shown_to_bob(mine);
            assert!(rt; refusal(rt, self.h, &Proof32, &stored, other).is_none());
            let records = Records {
                h: self.h,
                owner: self.owner,
                mine,
                stored: &stored,
                other,
            };
            counts.count_heads(rt, &records);
        }
        counts
    }
}

/// What is shown to Bob: with SHA-256, and with a hash under which the links of both entries collide.
#[derive(Drop)]
struct ForkCounts {
    apart: Counts,
    joined: Counts,
}

impl<'a> World<'a> {
    /// Returns the counts if Bob is shown `other` at its epoch, and the links are those of a hash.
    fn fork_counts(
        &self,
        rt: &impl Abort,
        alloc: Global,
        h: &Flawed,
        other: &Reported<'_>,
    ) -> Counts {
        let owner = &self.owner;
        Fork { h, owner, other }.counts(rt, alloc)
    }

    /// Shows Bob each other tree at a place of Alice's chain, in an entry of its own.
    fn show_forks(&self, rt: &impl Abort, alloc: Global, place: usize, counts: &mut ForkCounts) {
        let owner = &self.owner;
        assert!(rt; place < owner.stored.len());
        let mine = &owner.stored[place];
        for shown in self.all {
            let entry = entry_after(self.h, &owner.stored[..place], &shown.root);
            if entry == mine.entry {
                continue;
            }
            let other = Reported {
                epoch: mine.epoch(),
                entry,
                reply: reply(rt, alloc, &entry, &FIRST, &shown.proof),
                key: shown.tree.key(),
            };
            let from = link(self.h, &Entry::read(&entry));
            let merged = colliding(from, link(self.h, &mine.entry()));
            let apart = self.fork_counts(rt, alloc, self.h, &other);
            counts.apart.add(&apart);
            let joined = self.fork_counts(rt, alloc, &merged, &other);
            counts.joined.add(&joined);
        }
    }

    /// Shows Bob each other entry at each place of Alice's chain.
    fn show_all_forks(&self, rt: &impl Abort, alloc: Global, counts: &mut ForkCounts) {
        for place in 0..self.owner.stored.len() {
            self.show_forks(rt, alloc, place, counts);
        }
    }
}

/// Each two entries of one epoch. With SHA-256 no head is in both chains from the epoch on, and the entry after it is refused by one
/// of them. If their links collide, each head is in both.
#[test]
fn each_two_entries(rt: HostRuntime) {
    let alloc = rt.alloc();
    let all = all_shown(&rt, alloc, &SHA256, WITH_CAROL);
    let mut counts = ForkCounts {
        apart: NO_COUNTS,
        joined: NO_COUNTS,
    };
    for trees in 0..histories(3) {
        let history = History { epochs: 3, trees };
        let world = World::new(&rt, alloc, &SHA256, &all, history);
        world.show_all_forks(&rt, alloc, &mut counts);
    }
    let wanted_apart = Counts {
        refused: 512 * 7 * 2,
        apart: 512 * 7 * (3 + 4 + 3),
        same: 512 * 7 * (0 + 1 + 3),
        ..NO_COUNTS
    };
    assert!(rt; counts.apart == wanted_apart);
    let wanted_joined = Counts {
        same: 512 * 7 * (0 + 1 + 3),
        convicted: 512 * 7 * (6 + 5 + 3) - 64 * 8 * 6 * 6,
        other: 64 * 8 * 6 * 6,
        ..NO_COUNTS
    };
    assert!(rt; counts.joined == wanted_joined);
}

/// A VRF with one index of each name, that of the first place.
struct OneIndex;

impl IndexScheme for OneIndex {
    ghost use Rattle.std.specs.Prelude.{Some, None, if◌then◌else◌};
    ghost use Rattle.std.specs.Str.{bytes_eq};
    ghost use Rattle.coniks_proof.specs.Preimages.{zeros};

    ghost index_of = { λ s name proof. if bytes_eq proof zeros then Some zeros else None };

    fn index(&self, _name: &[u8], proof: &[u8]) -> Option<Index> {
        if *proof == *FIRST.0.as_slice() {
            Some(FIRST)
        } else {
            None
        }
    }
}

impl<'a> World<'a> {
    /// Shows Bob at each epoch of the history what is at the second place of the tree, as another index of `alice`.
    fn show_second(&self, rt: &impl Abort, alloc: Global, counts: &mut Counts) {
        let World {
            h,
            all,
            history,
            ..
        } = self;
        assert!(rt; all.len() == TREES);
        let stored = &self.owner.stored;
        let mut rest = history.trees;
        for mine in &self.owner.reported {
            let tree = &all[rest % TREES].tree;
            rest /= TREES;
            let proof = tree.second_proof(rt, alloc, *h);
            let other = Reported {
                epoch: mine.epoch,
                entry: mine.entry,
                reply: reply(rt, alloc, &mine.entry, &second(), &proof),
                key: tree.second_key(),
            };
            let refused = refusal(rt, *h, &OneIndex, stored, &other);
            assert!(rt; refused == Some(LookupFault::VrfProof));
            assert!(rt; refusal(rt, *h, &Proof32, stored, &other).is_none());
            self.count_heads(rt, mine, &other, counts);
        }
    }
}

/// Bob is shown the second place of each tree, which has `B` or nothing. In one of four trees this is the key of the first place.
#[test]
fn each_second_index(rt: HostRuntime) {
    let alloc = rt.alloc();
    let other = Bound {
        name: ALICE,
        key: *b"B",
    };
    let all = all_shown(&rt, alloc, &SHA256, other);
    let mut counts = NO_COUNTS;
    for trees in 0..histories(3) {
        let history = History { epochs: 3, trees };
        let world = World::new(&rt, alloc, &SHA256, &all, history);
        world.show_second(&rt, alloc, &mut counts);
    }
    let wanted = Counts {
        convicted: 512 / 4 * 6,
        other: 512 / 4 * 3 * 6,
        ..NO_COUNTS
    };
    assert!(rt; counts == wanted);
}
