//! Examines two records of one epoch.

ghost use Rattle.std.specs.Prelude.{◌≡◌, ◌≢◌, ◌<◌, ◌↔◌, Option, IsTrue, length};
ghost use Rattle.coniks_proof.specs.Collisions.{FirstDiffer, IsCollision, hashed};
ghost use Rattle.coniks_proof.specs.Hashing.{hashing};
ghost use Rattle.coniks_proof.specs.Octets.{Octets};
ghost use Rattle.coniks_proof.specs.ProofRefs.{listed, owned};
ghost use Rattle.coniks_proof.specs.Proofs.{stated};
ghost use Rattle.coniks_chain.specs.Entries.{IsEntry, link_preimage};
ghost use Rattle.coniks_client.specs.Changes.{wanted};
ghost use Rattle.coniks_client.specs.StoredEntry.{entry_in};
ghost use Rattle.coniks_evidence.specs.Forks.{ForksAt};
ghost use Rattle.coniks_evidence.specs.Findings.{Collides, Convicts, Finds, FindsFork, FindsIn, FindsOf, HaveOneEntry, IsTrueOf};
ghost use Rattle.coniks_evidence.specs.Honest.{AreHonest, IsCalm};
ghost use Rattle.coniks_evidence.specs.Records.{IsAcceptedAt, IsContactRecord, IsOwnerRecord, IsShownIn, expected_by};

use crate::findings::{Finding, Indexed, Reason};
use crate::forks::{Places, fork};
use crate::parting::parted;
use crate::paths::Path;
use crate::preimages::{Colliding, Preimage};
use crate::records::{ContactRecord, OwnerRecord, place_of, up_to};
use crate::replies::{FoundReply, ReplyVerifier, found_at};
use coniks_chain::Entry;
use coniks_client::lookups::Saved;
use coniks_client::{IndexScheme, StoredEntry, settle};
use coniks_proof::{Answer, Hash32, Head, ProofRef, same_answer};

/// Returns whether an answer is a key, or none if there is none.
fn is_key(answer: &Answer<'_>, key: &[u8]) -> bool
    ensures { IsTrue result ↔ (stated answer.now ≡ wanted key.now) }
{
    match answer {
        Answer::Absent => key.is_empty(),
        Answer::Key(shown) => !key.is_empty() && **shown == *key,
    }
}

/// Returns whether two stored entries have one body.
fn same_body(mine: &StoredEntry, other: &StoredEntry) -> bool
    ensures { IsTrue result ↔ ((entry_in mine.now).body ≡ (entry_in other.now).body) }
{
    mine.entry().body == other.entry().body
}

/// Returns the path of a proof.
fn path_of<'a>(proof: &ProofRef<'a>) -> Path<'a>
    ensures siblings { listed result.siblings ≡ proof.now.siblings }
    ensures end { owned result.end ≡ proof.now.end }
{
    Path {
        siblings: proof.siblings(),
        end: proof.end(),
    }
}

/// Returns the first two strings that differ on the paths of two proofs that are accepted under one entry, at one index, with
/// different answers.
fn parted_answers<'a, H: Hash32>(
    h: &H,
    mine: &StoredEntry,
    a: &Saved<'a>,
    b: &Saved<'a>,
    name: &[u8],
) -> Colliding<'a>
    requires left { IsAcceptedAt (H.digest_of h.now) (entry_in mine.now) a.now.index name.now a.now }
    requires right { IsAcceptedAt (H.digest_of h.now) (entry_in mine.now) a.now.index name.now b.now }
    requires differ { stated a.now.answer ≢ stated b.now.answer }
    ensures collision { IsCollision (H.digest_of h.now) result.x result.y }
    ensures place { FirstDiffer
        (hashed (hashing (H.digest_of h.now) (entry_in mine.now).body.nonce.0) a.now.index.0 0 a.now.proof.siblings a.now.proof.end)
        (hashed (hashing (H.digest_of h.now) (entry_in mine.now).body.nonce.0) a.now.index.0 0 b.now.proof.siblings b.now.proof.end)
        result.x result.y }
{
    let nonce = mine.entry().body.nonce;
    parted(h, &nonce, &a.index, &path_of(&a.proof), &path_of(&b.proof))
}

/// Compares what two accepted replies show of a name, with the key that is expected.
fn compare_found<'a, H: Hash32>(
    h: &H,
    name: &[u8],
    key: &[u8],
    a: &FoundReply<'a>,
    b: &FoundReply<'a>,
) -> Finding<'a>
    requires left { IsAcceptedAt (H.digest_of h.now) (entry_in a.now.mine) a.now.saved.index name.now a.now.saved }
    requires right { IsAcceptedAt (H.digest_of h.now) (entry_in b.now.mine) b.now.saved.index name.now b.now.saved }
    ensures finds { FindsOf (H.digest_of h.now) (wanted key.now) a.now b.now result }
    ensures collides { Collides (H.digest_of h.now) result }
{
    if !same_body(&a.mine, &b.mine) {
        return Finding::Nothing(Reason::OtherBody);
    }
    if a.saved.index != b.saved.index {
        return Finding::Indices(indexed(&a.saved), indexed(&b.saved));
    }
    if !same_answer(&a.saved.answer, &b.saved.answer) {
        return Finding::Nodes(parted_answers(h, &a.mine, &a.saved, &b.saved, name));
    }
    if is_key(&a.saved.answer, key) {
        Finding::Same
    } else {
        Finding::Nothing(Reason::Unexpected)
    }
}

/// Returns the VRF proof of a reply, with its index.
fn indexed<'a>(saved: &Saved<'a>) -> Indexed<'a>
    ensures vrf { result.vrf.now ≡ saved.now.vrf.now }
    ensures index { result.index ≡ saved.now.index }
{
    Indexed {
        vrf: saved.vrf,
        index: saved.index,
    }
}

/// The stored epochs of an owner and of a contact, up to one head.
#[derive(Clone, Copy)]
struct Chains<'k> {
    owner: &'k [StoredEntry],
    contact: &'k [StoredEntry],
}

/// Compares what the replies of two records show, in two chains up to one head that do not fork.
fn compare_replies<'a, H: Hash32, S: IndexScheme>(
    by: &ReplyVerifier<'_, H, S>,
    epoch: u64,
    owner: &OwnerRecord<'a>,
    reply: &'a [u8],
    chains: &Chains<'_>,
) -> Finding<'a>
    ensures finds { FindsIn (H.digest_of by.now.hash.now) (S.index_of by.now.indices.now) epoch owner.now reply.now chains.now.owner.now chains.now.contact.now result }
    ensures true_of { IsTrueOf (H.digest_of by.now.hash.now) (S.index_of by.now.indices.now) owner.now.watch.name.now result }
    ensures convicts { (answer : Option Octets) → HaveOneEntry epoch chains.now.owner.now chains.now.contact.now
        → IsShownIn (H.digest_of by.now.hash.now) (S.index_of by.now.indices.now) chains.now.owner.now epoch owner.now.watch.name.now owner.now.reply.now (expected_by owner.now epoch)
        → IsShownIn (H.digest_of by.now.hash.now) (S.index_of by.now.indices.now) chains.now.contact.now epoch owner.now.watch.name.now reply.now answer
        → answer ≢ expected_by owner.now epoch → Convicts (H.digest_of by.now.hash.now) (S.index_of by.now.indices.now) owner.now.watch.name.now result }
{
    let a = match found_at(by, chains.owner, epoch, owner.watch.name, owner.reply) {
        Ok(found) => found,
        Err(fault) => return Finding::Nothing(Reason::OwnerReply(fault)),
    };
    let b = match found_at(by, chains.contact, epoch, owner.watch.name, reply) {
        Ok(found) => found,
        Err(fault) => return Finding::Nothing(Reason::ContactReply(fault)),
    };
    let stage = settle(owner.watch.key, owner.changes, epoch);
    compare_found(by.hash, owner.watch.name, stage.key, &a, &b)
}

/// Returns what is hashed to the link of a stored entry.
fn link_of<'a>(mine: &'a StoredEntry) -> Preimage<'a>
    ensures string { result ≡ link_preimage (entry_in mine.now) }
    ensures entry { IsEntry (entry_in mine.now) }
{
    let entry = Entry::read(&mine.entry);
    entry.known();
    Preimage::link(&mine.entry)
}

/// Returns what is hashed to the links of two entries that differ and have one link.
fn links<'a>(xs: &'a [StoredEntry], ys: &'a [StoredEntry], places: &Places) -> Colliding<'a>
    requires first { places.now.first < length xs.now }
    requires second { places.now.second < length ys.now }
    ensures finds { (hash : Octets → Octets) → ForksAt hash xs.now ys.now places.now → FindsFork hash xs.now ys.now result }
    ensures collides { (hash : Octets → Octets) → ForksAt hash xs.now ys.now places.now → IsCollision hash result.x result.y }
{
    let x = link_of(&xs[places.first]);
    let y = link_of(&ys[places.second]);
    Colliding { x, y }
}

/// Examines the records of the owner of a name and of somebody who looked it up, of one epoch, in chains that have one head.
///
/// If both records are sound and the replies show different keys, what is returned convicts: two byte strings with one hash, or
/// two VRF proofs of the name with different indices. Signatures are not verified, since two strings with one hash convict
/// without them. Allocates nothing.
pub fn examine<'a, H: Hash32, S: IndexScheme>(
    by: &ReplyVerifier<'_, H, S>,
    head: &Head,
    epoch: u64,
    owner: &OwnerRecord<'a>,
    contact: &ContactRecord<'a>,
) -> Finding<'a>
    ensures finds { Finds (H.digest_of by.now.hash.now) (S.index_of by.now.indices.now) head.now epoch owner.now contact.now result }

    // What convicts does so whatever the records are.
    ensures true_of { IsTrueOf (H.digest_of by.now.hash.now) (S.index_of by.now.indices.now) owner.now.watch.name.now result }

    // The owner law: two sound records that show different keys convict.
    ensures convicts { (answer : Option Octets) → IsOwnerRecord (H.digest_of by.now.hash.now) (S.index_of by.now.indices.now) head.now epoch owner.now
        → IsContactRecord (H.digest_of by.now.hash.now) (S.index_of by.now.indices.now) head.now epoch owner.now.watch.name.now contact.now answer
        → answer ≢ expected_by owner.now epoch → Convicts (H.digest_of by.now.hash.now) (S.index_of by.now.indices.now) owner.now.watch.name.now result }

    // Nothing that an honest directory shows convicts it.
    ensures calm { AreHonest (H.digest_of by.now.hash.now) (S.index_of by.now.indices.now) owner.now contact.now → IsCalm result }
{
    let Some(first) = place_of(by.hash, owner.stored, head) else {
        return Finding::Nothing(Reason::OwnerHead);
    };
    let Some(second) = place_of(by.hash, contact.stored, head) else {
        return Finding::Nothing(Reason::ContactHead);
    };
    let xs = up_to(owner.stored, first);
    let ys = up_to(contact.stored, second);
    match fork(by.hash, xs, ys) {
        Some(places) => Finding::Links(links(xs, ys, &places)),
        None => {
            let chains = Chains {
                owner: xs,
                contact: ys,
            };
            compare_replies(by, epoch, owner, contact.reply, &chains)
        }
    }
}
