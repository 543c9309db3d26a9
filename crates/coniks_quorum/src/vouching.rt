//! The first entry of a client that starts late.

ghost use Rattle.std.specs.Prelude.{◌≡◌, ◌<◌, [], ◌∷◌, IfErr, IfNone, IfOk, IfSome, OnOk};
ghost use Rattle.std.specs.Int.{to_be_bytes, w64};
ghost use Rattle.coniks_client.specs.StoredEntry.{epoch_in};
ghost use Rattle.coniks_quorum.specs.Marks.{IsGreatest, marks_of};
ghost use Rattle.coniks_quorum.specs.Vouching.{Begins, IsRefusedStart, IsUnvouched, IsVouched, differing, has_other, has_same, head_of, vouching};

use coniks_chain::{ENTRY_BYTES, Entry, Verify, link};
use coniks_client::feeding::{EntryFault, verified};
use coniks_client::stored::StoredEntry;
use coniks_client::watching::UNWATCHED;
use coniks_proof::{Hash32, Head};

/// Why a client refuses its first entry. The first error in declaration order is returned.
#[derive(Clone, Copy)]
pub enum StartFault {
    /// The bytes are no entry of this directory.
    OfEntry(EntryFault),
    /// An auditor has another link for the entry's epoch. This is the place of the first such auditor.
    AuditorsDiffer(usize),
    /// Fewer auditors than a quorum have the entry's head.
    NotVouched,
}

/// The heads of the auditors, and how many auditors must have the entry's head.
#[derive(Clone, Copy)]
pub struct Vouchers<'a> {
    /// The head that each auditor cosigned, `None` if the client has none of this auditor.
    pub heads: &'a [Option<Head>],
    /// The quorum of the auditors, as `quorum_of` returns it.
    pub quorum: usize,
}

/// Who verifies the first entry of a client: the caller's hash and signature scheme, for a policy.
#[derive(Drop)]
pub struct StartVerifier<'a, H, V> {
    pub hash: &'a H,
    pub signatures: &'a V,
    /// The policy digest of the directory.
    pub policy: &'a [u8; 32],
}

/// Returns the head of an entry.
pub(crate) fn head_of<H: Hash32>(h: &H, entry: &Entry) -> Head
    ensures { result ≡ head_of (H.digest_of h.now) entry.now }
{
    Head {
        epoch: entry.body.t,
        link: link(h, entry),
    }
}

/// Returns whether an auditor has a head.
fn has_same(own: &Head, head: &Option<Head>) -> bool
    ensures { result ≡ has_same own.now head.now }
{
    match head {
        None => false,
        Some(head) => own.epoch == head.epoch && own.link == head.link,
    }
}

/// Returns whether an auditor has a head of the same epoch with another link.
fn has_other(own: &Head, head: &Option<Head>) -> bool
    ensures { result ≡ has_other own.now head.now }
{
    match head {
        None => false,
        Some(head) => own.epoch == head.epoch && own.link != head.link,
    }
}

/// Returns the place of the first auditor that has another link.
fn differing(own: &Head, heads: &[Option<Head>]) -> Option<usize>
    ensures { result ≡ differing own.now heads.now }
{
    heads.iter().position(|head| has_other(own, head))
}

/// Returns the number of auditors that have a head.
fn vouching(own: &Head, heads: &[Option<Head>]) -> usize
    ensures { result ≡ vouching own.now heads.now }
{
    heads.iter().filter(|head| has_same(own, head)).count()
}

/// Returns the error of a head that no quorum has, or that an auditor contradicts.
fn vouch_fault(own: &Head, vouchers: &Vouchers<'_>) -> Option<StartFault>
    ensures none { IfNone result (IsVouched own.now vouchers.now.heads.now vouchers.now.quorum) }
    ensures some { IfSome result (λ fault. IsUnvouched own.now vouchers.now.heads.now vouchers.now.quorum fault) }
{
    if let Some(place) = differing(own, vouchers.heads) {
        return Some(StartFault::AuditorsDiffer(place));
    }
    if vouching(own, vouchers.heads) < vouchers.quorum {
        return Some(StartFault::NotVouched);
    }
    None
}

/// Returns what a client that starts late keeps of its first entry. A quorum of auditors must have the entry's head.
///
/// `now` is the Unix time in seconds. The entry's epoch is confirmed at once: `heads::write_marks` writes the marks. No name is
/// watched at the epoch until `begin_watch`.
///
/// # Errors
///
/// `OfEntry` if the bytes are no entry of this directory, then `AuditorsDiffer`, then `NotVouched`.
pub fn vouched<H: Hash32, V: Verify>(
    by: &StartVerifier<'_, H, V>,
    vouchers: &Vouchers<'_>,
    bytes: &[u8],
    now: u64,
) -> Result<StoredEntry, StartFault>
    requires { 0 < vouchers.now.quorum }
    ensures ok { OnOk result (Begins (H.digest_of by.now.hash.now) (V.verdict_of by.now.signatures.now) by.now.policy.now vouchers.now.heads.now vouchers.now.quorum bytes.now) }
    ensures entry { IfOk result (λ mine. mine.entry ≡ bytes.now) }
    ensures time { IfOk result (λ mine. mine.first_seen ≡ to_be_bytes w64 now) }
    ensures seen { IfOk result (λ mine. mine.seen ≡ 0) }
    ensures err { IfErr result (λ fault. IsRefusedStart (H.digest_of by.now.hash.now) (V.verdict_of by.now.signatures.now) by.now.policy.now vouchers.now.heads.now vouchers.now.quorum bytes.now fault) }

    // The greatest epoch that the marks of these heads confirm is that of the entry.
    ensures confirmed { IfOk result (λ mine. IsGreatest (marks_of (H.digest_of by.now.hash.now) (mine ∷ []) vouchers.now.heads.now) vouchers.now.quorum (epoch_in mine)) }
{
    let Ok(whole) = <&[u8; ENTRY_BYTES]>::try_from(bytes) else {
        return Err(StartFault::OfEntry(EntryFault::EntryLength));
    };
    let entry = match verified(by.policy, &[], bytes, by.signatures) {
        Ok(entry) => entry,
        Err(fault) => return Err(StartFault::OfEntry(fault)),
    };
    match vouch_fault(&head_of(by.hash, &entry), vouchers) {
        Some(fault) => Err(fault),
        None => Ok(StoredEntry {
            entry: *whole,
            first_seen: now.to_be_bytes(),
            seen: UNWATCHED,
        }),
    }
}
