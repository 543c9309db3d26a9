//! The steps of an install.

ghost use Rattle.std.specs.Prelude.{◌≡◌, ◌≢◌, ◌<◌, ◌+◌, ◌-◌, ◌^◌, ◌++◌, ◌∷◌, [], ℕ, IfErr, IfOk, OnOk, length, vec_len, vec_capacity};
ghost use Rattle.coniks_proof.specs.Octets.{Octets};
ghost use Rattle.coniks_chain.specs.Entries.{link_preimage};
ghost use Rattle.coniks_chain.specs.declared.entry.Body.{Body};
ghost use Rattle.coniks_threads.specs.Boards.{board_end};
ghost use Rattle.coniks_tree.specs.Parts.{Fits, Placed};
ghost use Rattle.coniks_directory.specs.Chain.{head_at};
ghost use Rattle.coniks_directory.specs.Installed.{HasRoom, IsAttached, IsEntered, IsSigned};
ghost use Rattle.coniks_directory.specs.Installs.{HasSigned};
ghost use Rattle.coniks_directory.specs.State.{IsLinked, State, state_of};
ghost use Rattle.coniks_directory.specs.Updates.{HasRefused, IsNotNext, IsRefused, LeavesSigner, ComesNext, MayInstall, nodes_added, refusals};

use crate::epochs::Epoch;
use crate::state::DirectoryState;
use crate::update::{InstallFault, Prepared};
use coniks_chain::{Body, Entry, Sign};
use coniks_proof::{Digest, Hash32, Head};
use coniks_threads::{Board, Publisher};
use coniks_tree::OutOfMemory;

/// Checks that an update comes next under a number. There were `base` epochs when it was prepared.
pub(crate) fn check_next(stored: &DirectoryState, base: usize, t: u64) -> Result<(), InstallFault>
    ensures ok { OnOk result (ComesNext (state_of stored.now) base t) }
    ensures refused { IfErr result (IsNotNext (state_of stored.now) base t) }
    ensures uninstalled { IfErr result (λ fault. (published capacity : ℕ) → IsRefused (state_of stored.now) base t published capacity fault) }
    ensures unsigned { IfErr result (λ fault. refusals fault ≡ 0) }
{
    let latest = stored.latest();
    if base != stored.count() {
        return Err(InstallFault::Stale { latest });
    }
    if t <= latest {
        return Err(InstallFault::EpochNotLater { latest });
    }
    Ok(())
}

/// Checks that an update can be installed under a number, with its head on a board.
///
/// There were `base` epochs when it was prepared.
pub(crate) fn may_install(
    stored: &DirectoryState,
    base: usize,
    t: u64,
    publisher: &Publisher,
    board: &Board,
) -> Result<(), InstallFault>
    ensures ok { OnOk result (MayInstall (state_of stored.now) base t (length publisher.now.heads) board.now.capacity) }
    ensures refused { IfErr result (IsRefused (state_of stored.now) base t (length publisher.now.heads) board.now.capacity) }
    ensures unsigned { IfErr result (λ fault. refusals fault ≡ 0) }
{
    if let Err(fault) = check_next(stored, base, t) {
        return Err(fault);
    }
    if publisher.published() == board.capacity() {
        return Err(InstallFault::BoardFull);
    }
    Ok(())
}

/// Reserves room for an update's nodes and records, and for one more epoch and entry.
pub(crate) fn make_room(stored: &mut DirectoryState, update: &Prepared) -> Result<(), OutOfMemory>
    requires { Fits (length stored.old.tree.nodes) 0 update.now.part }
    ensures same { state_of stored.new ≡ state_of stored.old }
    ensures link { stored.new.link ≡ stored.old.link }
    ensures room { OnOk result (HasRoom stored.new update.now) }
{
    stored.tree.reserve(&update.part, update.records.len())?;
    stored.epochs.try_reserve(1)?;
    stored.chain.try_reserve(1)?;
    Ok(())
}

/// Returns the body of the epoch that an update makes under a number.
pub(crate) fn make_body<H: Hash32>(
    stored: &DirectoryState,
    h: &H,
    update: &Prepared,
    t: u64,
) -> Body
    requires fits { Fits (length stored.now.tree.nodes) 0 update.now.part }
    requires linked { IsLinked (H.digest_of h.now) stored.now }
    ensures { IsSigned (H.digest_of h.now) (state_of stored.now) update.now t result }
{
    Body {
        version: update.version,
        t,
        t_prev: stored.latest(),
        root: stored.tree.part_hash(h, &update.nonce, &update.part),
        previous: stored.link,
        nonce: update.nonce,
        policy: stored.policy,
    }
}

/// Reserves room for an update, and returns the signed entry of the epoch that it makes under a number.
///
/// The signer is not called if there is no room.
pub(crate) fn signed<H: Hash32, S: Sign>(
    stored: &mut DirectoryState,
    h: &H,
    update: &Prepared,
    t: u64,
    signer: &mut S,
) -> Result<Entry, InstallFault>
    requires fits { Fits (length stored.old.tree.nodes) 0 update.now.part }
    requires linked { IsLinked (H.digest_of h.now) stored.old }
    requires made_below { S.made_of signer.old < 2 ^ 64 - 1 }
    requires refused_below { S.refused_of signer.old < 2 ^ 64 - 1 }
    ensures same { state_of stored.new ≡ state_of stored.old }
    ensures link { stored.new.link ≡ stored.old.link }
    ensures room { OnOk result (HasRoom stored.new update.now) }
    ensures body { IfOk result (λ entry. IsSigned (H.digest_of h.now) (state_of stored.old) update.now t entry.body) }
    ensures signed { IfOk result (HasSigned S.made_of S.refused_of S.last_of S.signs S.verdict_of signer.old signer.new) }
    ensures unrequested { IfErr result
        (λ fault. (wanted : Body) → ((body : Body) → IsSigned (H.digest_of h.now) (state_of stored.old) update.now t body → body ≡ wanted)
        → LeavesSigner S.signs wanted signer.old signer.new fault) }
    ensures verdicts_retained { (bytes signature : Octets) → S.verdict_of signer.new bytes signature ≡ S.verdict_of signer.old bytes signature }
    ensures refused { IfErr result
        (λ fault. (s : State) (base published capacity : ℕ) → MayInstall s base t published capacity → IsRefused s base t published capacity fault) }
    ensures unsigned { IfErr result (λ fault. HasRefused S.made_of S.refused_of S.last_of signer.old signer.new (refusals fault)) }
{
    if make_room(stored, update).is_err() {
        return Err(InstallFault::OutOfMemory);
    }
    let body = make_body(stored, h, update, t);
    body.known();
    match signer.sign(&body.bytes()) {
        Some(signature) => Ok(Entry { body, signature }),
        None => Err(InstallFault::SignerRefused),
    }
}

/// Returns the head of a chain that ends with this entry, which has this link.
pub(crate) fn head_of(entry: &Entry, link: Digest) -> Head
    ensures { (hash : Octets → Octets) → link.0 ≡ hash (link_preimage entry.now) → result ≡ head_at hash entry.now }
{
    Head {
        epoch: entry.body.t,
        link,
    }
}

/// Publishes a head, for which the board has room.
pub(crate) fn put_head(publisher: &mut Publisher, board: &Board, head: Head)
    requires table { publisher.old.table ≡ board.now.table }
    requires room { length publisher.old.heads ≢ board.now.capacity }
    ensures { publisher.new ≡ board_end publisher.old.table (publisher.old.heads ++ head ∷ []) }
{
    let _ = publisher.publish(board, head);
}

/// Appends an epoch, for which there is room.
fn put_epoch(epochs: &mut Vec<Epoch>, epoch: Epoch)
    requires { vec_len epochs.old < vec_capacity epochs.old }
    ensures { epochs.new.items ≡ epochs.old.items ++ epoch ∷ [] }
{
    let _ = epochs.push(epoch);
}

/// Appends an entry, for which there is room.
fn put_entry(chain: &mut Vec<Entry>, entry: Entry)
    requires { vec_len chain.old < vec_capacity chain.old }
    ensures { chain.new.items ≡ chain.old.items ++ entry ∷ [] }
{
    let _ = chain.push(entry);
}

/// A signed entry, and its link.
#[derive(Drop)]
pub(crate) struct SignedEntry {
    pub(crate) entry: Entry,
    pub(crate) link: Digest,
}

/// Attaches an update, for which there is room, adds its epoch and its entry, and stores the entry's link.
pub(crate) fn enter<H: Hash32>(
    stored: &mut DirectoryState,
    h: &H,
    update: Prepared,
    t: u64,
    signed: SignedEntry,
)
    requires link { signed.link.0 ≡ H.digest_of h.now (link_preimage signed.entry) }
    requires fits { Fits (length stored.old.tree.nodes) 0 update.part }
    requires placed { Placed (stored.old.tree.records ++ update.records.items) update.part }
    requires room { HasRoom stored.old update }
    ensures count { length stored.new.tree.nodes ≡ length stored.old.tree.nodes + nodes_added update }
    ensures last { stored.new.chain.items ≡ stored.old.chain.items ++ signed.entry ∷ [] }
    ensures linked { IsLinked (H.digest_of h.now) stored.new }
    ensures attached { (s : State) → state_of stored.old ≡ s → IsAttached (H.digest_of h.now) s (state_of stored.new) update t signed.entry }
    ensures entered { (s : State) → state_of stored.old ≡ s → IsEntered (H.digest_of h.now) s (state_of stored.new) update t signed.entry }
{
    let Prepared {
        version,
        nonce,
        part,
        records,
        ..
    } = update;
    let root = stored.tree.attach(h, &nonce, part, records);
    let count = stored.tree.records();
    let epoch = Epoch {
        t,
        version,
        nonce,
        root,
        count,
    };
    put_epoch(&mut stored.epochs, epoch);
    put_entry(&mut stored.chain, signed.entry);
    stored.link = signed.link;
}
