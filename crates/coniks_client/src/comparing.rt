//! A head, compared with a client's chain.

ghost use Rattle.std.specs.Prelude.{◌≡◌, ◌↔◌, ℕ, IsTrue, IfSome, IfNone, Some, slice_get};
ghost use Rattle.coniks_client.specs.declared.stored.StoredEntry.{StoredEntry as StoredOne};
ghost use Rattle.coniks_chain.specs.Evidence.{Covers};
ghost use Rattle.coniks_client.specs.Comparing.{Compares, EndsThere, HasHead};
ghost use Rattle.coniks_client.specs.StoredEntry.{entry_in};

use crate::lookups::stored_of;
use crate::stored::StoredEntry;
use coniks_chain::link;
use coniks_proof::{Hash32, Head};

/// Whether a head is one of the client's chain.
#[derive(Clone, Copy, Debug, PartialEq, Eq)]
pub enum Comparison {
    /// The epoch at this place has the head.
    Equal(usize),
    /// Another entry covers the head's epoch.
    Differs,
    /// None covers it.
    Unknown,
}

/// Returns whether a stored epoch of the head's number has the head's link.
fn has_link<H: Hash32>(h: &H, mine: &StoredEntry, head: &Head) -> bool
    requires { (entry_in mine.now).body.t ≡ head.now.epoch }
    ensures { IsTrue result ↔ HasHead (H.digest_of h.now) mine.now head.now }
{
    link(h, &mine.entry()) == head.link
}

/// Returns whether an entry covers an epoch number.
fn covers(mine: &StoredEntry, number: u64) -> bool
    ensures { IsTrue result ↔ Covers (entry_in mine.now).body number }
{
    let body = mine.entry().body;
    body.t_prev < number && number <= body.t
}

/// Returns the place of a stored epoch that covers an epoch number.
fn covering(stored: &[StoredEntry], number: u64) -> Option<usize>
    ensures some { IfSome result (λ place. (mine : StoredOne) × (slice_get stored.now place ≡ Some mine) × Covers (entry_in mine).body number) }
    ensures none { IfNone result ((k : ℕ) (mine : StoredOne) → slice_get stored.now k ≡ Some mine → ¬ Covers (entry_in mine).body number) }
{
    for (place, mine) in stored.iter().enumerate() {
        if covers(mine, number) {
            return Some(place);
        }
    }
    None
}

/// Returns whether a head is one of the chain, as far as its entries are stored.
pub fn compare<H: Hash32>(h: &H, stored: &[StoredEntry], head: &Head) -> Comparison
    ensures compares { Compares (H.digest_of h.now) stored.now head.now result }

    // The stored epochs up to an equal head end in it, which is what the owner law asks of both chains.
    ensures ends { EndsThere (H.digest_of h.now) stored.now head.now result }
{
    match stored_of(stored, head.epoch) {
        Some(found) => {
            if has_link(h, &found.mine, head) {
                Comparison::Equal(found.place)
            } else {
                Comparison::Differs
            }
        }
        None => match covering(stored, head.epoch) {
            Some(_) => Comparison::Differs,
            None => Comparison::Unknown,
        },
    }
}
