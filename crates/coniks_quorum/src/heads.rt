//! The epoch that a quorum confirms, from at most one head of each auditor.

ghost use Rattle.std.specs.Prelude.{◌≡◌, ◌<◌, ◌≤◌, IfNone, IfSome, drop, length, take};
ghost use Rattle.std.specs.List.{list_any};
ghost use Rattle.coniks_quorum.specs.Marks.{IsGreatest, ReachesNone, has_head, mark_of, marks_of};

use crate::marks::confirmed;
use coniks_chain::link;
use coniks_client::stored::StoredEntry;
use coniks_proof::{Hash32, Head};

/// The greatest number of auditors whose heads are counted at once.
pub const MAX_AUDITORS: usize = 64;

/// Returns whether a stored entry has a head.
fn is_equal<H: Hash32>(h: &H, stored: &[StoredEntry], head: &Head) -> bool
    ensures { result ≡ list_any (has_head (H.digest_of h.now) head.now) stored.now }
{
    stored.iter().any(|mine| {
        let entry = mine.entry();
        entry.body.t == head.epoch && link(h, &entry) == head.link
    })
}

/// Returns the mark that an auditor's head gives.
fn mark_of<H: Hash32>(h: &H, stored: &[StoredEntry], head: &Option<Head>) -> u64
    ensures { result ≡ mark_of (H.digest_of h.now) stored.now head.now }
{
    let Some(head) = head else {
        return 0;
    };
    if is_equal(h, stored, head) {
        head.epoch
    } else {
        0
    }
}

/// Writes the mark of each head, in the order of the heads: its epoch if the head is equal, else 0.
///
/// Marks after them stay as they are.
pub fn write_marks<H: Hash32>(
    h: &H,
    stored: &[StoredEntry],
    heads: &[Option<Head>],
    marks: &mut [u64],
)
    requires { length heads.now ≤ length marks.old }
    ensures size { length marks.new ≡ length marks.old }
    ensures rest { drop (length heads.now) marks.new ≡ drop (length heads.now) marks.old }
    ensures written { take (length heads.now) marks.new ≡ marks_of (H.digest_of h.now) stored.now heads.now }
{
    for (place, head) in heads.iter().enumerate() {
        marks[place] = mark_of(h, stored, head);
    }
}

/// Returns the greatest epoch that a quorum of the auditors' heads confirms, or `None` if a quorum confirms none.
///
/// There is at most one head of each auditor. Only heads at stored epochs count. To count heads at dropped epochs too, keep marks
/// by `marks::mark`.
pub fn confirmed_by<H: Hash32>(
    h: &H,
    stored: &[StoredEntry],
    heads: &[Option<Head>],
    quorum: usize,
) -> Option<u64>
    requires few { length heads.now ≤ MAX_AUDITORS }
    requires some { 0 < quorum }
    ensures some { IfSome result (λ epoch. IsGreatest (marks_of (H.digest_of h.now) stored.now heads.now) quorum epoch) }
    ensures none { IfNone result (ReachesNone (marks_of (H.digest_of h.now) stored.now heads.now) quorum) }
{
    let mut marks = [0; MAX_AUDITORS];
    write_marks(h, stored, heads, &mut marks);
    confirmed(&marks[..heads.len()], quorum)
}
