//! Where two chains of stored epochs part.

ghost use Rattle.std.specs.Prelude.{◌<◌, IfNone, IfSome, length};
ghost use Rattle.coniks_chain.specs.Fork.{HasNoFork};
ghost use Rattle.coniks_client.specs.StoredEntry.{entries_in};
ghost use Rattle.coniks_evidence.specs.Forks.{Compares, ForksAt};

use coniks_chain::link;
use coniks_client::StoredEntry;
use coniks_proof::Hash32;

/// Two stored entries, side by side.
#[derive(Clone, Copy, Debug, PartialEq, Eq)]
enum Pair {
    /// They are one entry.
    Same,
    /// Their links differ.
    LinksDiffer,
    /// They differ and have one link.
    Fork,
}

/// The places of two entries, one in each chain.
#[derive(Clone, Copy)]
pub(crate) struct Places {
    pub(crate) first: usize,
    pub(crate) second: usize,
}

/// Compares two stored entries. Hashes nothing if they are equal.
fn compare<H: Hash32>(h: &H, mine: &StoredEntry, other: &StoredEntry) -> Pair
    ensures { Compares (H.digest_of h.now) mine.now other.now result }
{
    let e = mine.entry();
    let f = other.entry();
    if e == f {
        return Pair::Same;
    }
    if link(h, &e) == link(h, &f) {
        Pair::Fork
    } else {
        Pair::LinksDiffer
    }
}

/// From the ends, the places of the first two entries that differ, if they have one link.
pub(crate) fn fork<H: Hash32>(h: &H, a: &[StoredEntry], b: &[StoredEntry]) -> Option<Places>
    ensures none { IfNone result (HasNoFork (H.digest_of h.now) (entries_in a.now) (entries_in b.now)) }
    ensures some { IfSome result (λ places. ForksAt (H.digest_of h.now) a.now b.now places) }
    ensures first { IfSome result (λ places. places.first < length a.now) }
    ensures second { IfSome result (λ places. places.second < length b.now) }
{
    for k in 0..a.len().min(b.len()) {
        let first = a.len() - 1 - k;
        let second = b.len() - 1 - k;
        match compare(h, &a[first], &b[second]) {
            Pair::Same => {}
            Pair::LinksDiffer => return None,
            Pair::Fork => return Some(Places { first, second }),
        }
    }
    None
}
