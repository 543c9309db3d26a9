//! What a saved reply shows of a name at an epoch.

ghost use Rattle.std.specs.Prelude.{◌≡◌, Option, IfErr, IfOk, IsOkAnd};
ghost use Rattle.coniks_proof.specs.Octets.{Octets};
ghost use Rattle.coniks_proof.specs.Proofs.{stated};
ghost use Rattle.coniks_client.specs.Lookups.{Answers, AnswersBy};
ghost use Rattle.coniks_chain.specs.Entries.{entry_from};
ghost use Rattle.coniks_evidence.specs.Records.{IsFound, IsShownIn, IsUnaccepted, IsNotFound};

use coniks_chain::Entry;
use coniks_client::lookups::{Saved, same_body, saved_answer, stored_of};
use coniks_client::{IndexScheme, LookupFault, Reply, StoredEntry};
use coniks_proof::Hash32;

/// Who verifies saved replies: the caller's hash and index scheme.
#[derive(Drop)]
pub struct ReplyVerifier<'h, H, S> {
    pub hash: &'h H,
    pub indices: &'h S,
}

/// A stored epoch, and what a saved reply shows there.
#[derive(Drop)]
pub(crate) struct FoundReply<'a> {
    pub(crate) mine: StoredEntry,
    pub(crate) saved: Saved<'a>,
}

/// Returns what the parts of a reply show of a name under an entry.
fn saved_under<'a, H: Hash32, S: IndexScheme>(
    by: &ReplyVerifier<'_, H, S>,
    entry: &Entry,
    name: &[u8],
    reply: &Reply<'a>,
) -> Result<Saved<'a>, LookupFault>
    ensures same { IfOk result (λ _. (entry_from reply.now.entry.now).body ≡ entry.now.body) }
    ensures ok { IfOk result (λ saved. AnswersBy (H.digest_of by.now.hash.now) (S.index_of by.now.indices.now) entry.now name.now reply.now.vrf.now reply.now.proof.now saved) }
    ensures exact { (answer : Option Octets) → (entry_from reply.now.entry.now).body ≡ entry.now.body
        → Answers (H.digest_of by.now.hash.now) (S.index_of by.now.indices.now) entry.now name.now reply.now.vrf.now reply.now.proof.now answer
        → IsOkAnd result (λ saved. stated saved.answer ≡ answer) }
    ensures err { IfErr result (λ fault. IsUnaccepted (H.digest_of by.now.hash.now) (S.index_of by.now.indices.now) entry.now name.now
        (entry_from reply.now.entry.now).body reply.now.vrf.now reply.now.proof.now fault) }
{
    if !same_body(reply.entry, entry) {
        return Err(LookupFault::OtherEpoch);
    }
    saved_answer(by.hash, by.indices, entry, name, reply)
}

/// Returns what a saved reply shows of a name at an epoch of the stored ones.
pub(crate) fn found_at<'a, H: Hash32, S: IndexScheme>(
    by: &ReplyVerifier<'_, H, S>,
    stored: &[StoredEntry],
    epoch: u64,
    name: &[u8],
    bytes: &'a [u8],
) -> Result<FoundReply<'a>, LookupFault>
    ensures ok { IfOk result (λ found. IsFound (H.digest_of by.now.hash.now) (S.index_of by.now.indices.now) stored.now epoch name.now bytes.now found) }
    ensures exact { (answer : Option Octets) → IsShownIn (H.digest_of by.now.hash.now) (S.index_of by.now.indices.now) stored.now epoch name.now bytes.now answer
        → IsOkAnd result (λ found. stated found.saved.answer ≡ answer) }
    ensures err { IfErr result (λ fault. IsNotFound (H.digest_of by.now.hash.now) (S.index_of by.now.indices.now) stored.now epoch name.now bytes.now fault) }
{
    let reply = match Reply::read(bytes) {
        Ok(reply) => reply,
        Err(fault) => return Err(LookupFault::NoReply(fault)),
    };
    let Some(found) = stored_of(stored, epoch) else {
        return Err(LookupFault::UnknownEpoch);
    };
    match saved_under(by, &found.mine.entry(), name, &reply) {
        Ok(saved) => Ok(FoundReply {
            mine: found.mine,
            saved,
        }),
        Err(fault) => Err(fault),
    }
}
