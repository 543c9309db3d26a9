//! The steps of a history, checked under the stored epochs.

ghost use Rattle.std.specs.Prelude.{◌<◌, ◌≤◌, IfErr, IfOk, OnOk, length};
ghost use Rattle.coniks_proof.specs.ProofRefs.{owned};
ghost use Rattle.coniks_proof.specs.Proofs.{answer_of};
ghost use Rattle.coniks_client.specs.HistoryChecking.{AreChecked, AreUnchecked, IsAcceptedUnder, IsRefusedUnder, NextPassesNot, Passes, PassesNot, answer_in};
ghost use Rattle.coniks_client.specs.HistorySteps.{IsStep, past_in, step_in};

use crate::histories::faults::AcceptFault;
use crate::histories::reading::{left_by, no_step};
use crate::histories::shown::{ShownStep, key_at, set_shown};
use crate::histories::steps::{Before, Read, Step, read_step};
use crate::lookups::stored_of;
use crate::stored::StoredEntry;
use coniks_chain::Entry;
use coniks_proof::{CheckFault, Hash32, Index, ProofRef, Siblings, check_ref};

/// Who checks the steps of a history: the caller's hash, for the stored epochs and a name at its index.
#[derive(Drop)]
pub(crate) struct StepChecker<'k, H> {
    pub(crate) hash: &'k H,
    pub(crate) stored: &'k [StoredEntry],
    pub(crate) name: &'k [u8],
    pub(crate) index: Index,
}

/// Checks the proof of a step under an entry.
fn check_step<H: Hash32>(
    by: &StepChecker<'_, H>,
    entry: &Entry,
    siblings: &[[u8; 32]],
    step: &Step<'_>,
) -> Result<(), CheckFault>
    requires { step.now.count ≤ length siblings.now }
    ensures ok { OnOk result (IsAcceptedUnder (H.digest_of by.now.hash.now) by.now.index.0 entry.now by.now.name.now (step_in siblings.now step.now) (answer_of (owned step.now.end))) }
    ensures err { IfErr result (λ fault. IsRefusedUnder (H.digest_of by.now.hash.now) by.now.index.0 entry.now by.now.name.now (step_in siblings.now step.now) fault) }
{
    let body = &entry.body;
    let proof = ProofRef::new(Siblings::Wire(&siblings[..step.count]), step.end);
    match check_ref(by.hash, &body.nonce, &body.root, &by.index, by.name, &proof) {
        Ok(_) => Ok(()),
        Err(fault) => Err(fault),
    }
}

/// Returns what a step shows under the stored epochs.
fn shown_step<'a, H: Hash32>(
    by: &StepChecker<'_, H>,
    siblings: &[[u8; 32]],
    step: &Step<'a>,
) -> Result<ShownStep<'a>, AcceptFault>
    requires { step.now.count ≤ length siblings.now }
    ensures ok { IfOk result (λ one. Passes (H.digest_of by.now.hash.now) by.now.index.0 by.now.stored.now by.now.name.now (step_in siblings.now step.now) one.place (answer_in one)) }
    ensures err { IfErr result (λ fault. PassesNot (H.digest_of by.now.hash.now) by.now.index.0 by.now.stored.now by.now.name.now (step_in siblings.now step.now) fault) }
{
    let Some(found) = stored_of(by.stored, step.epoch) else {
        return Err(AcceptFault::UnknownEpoch);
    };
    match check_step(by, &found.mine.entry(), siblings, step) {
        Ok(()) => Ok(ShownStep {
            place: found.place,
            key: key_at(&step.end),
            shows: 0,
            seen: 0,
        }),
        Err(fault) => Err(AcceptFault::Check(fault)),
    }
}

/// A step, the bytes after it, and what it showed.
#[derive(Clone, Copy)]
struct Passed<'a> {
    read: Read<'a>,
    shown: ShownStep<'a>,
}

/// Reads a step, and returns what it shows under the stored epochs.
fn check_next<'a, H: Hash32>(
    by: &StepChecker<'_, H>,
    siblings: &mut [[u8; 32]],
    before: &Before<'a>,
    bytes: &'a [u8],
) -> Result<Passed<'a>, AcceptFault>
    requires memory { 256 ≤ length siblings.old }
    requires before { before.now.count ≤ 256 }
    ensures step { IfOk result (λ passed. IsStep (past_in siblings.old before.now) bytes.now (step_in siblings.new passed.read.step) passed.read.rest.now) }
    ensures shown { IfOk result (λ passed. Passes (H.digest_of by.now.hash.now) by.now.index.0 by.now.stored.now by.now.name.now
        (step_in siblings.new passed.read.step) passed.shown.place (answer_in passed.shown)) }
    ensures few { IfOk result (λ passed. passed.read.step.count ≤ 256) }
    ensures shorter { IfOk result (λ passed. length passed.read.rest.now < length bytes.now) }
    ensures err { IfErr result (λ fault. NextPassesNot (H.digest_of by.now.hash.now) by.now.index.0 by.now.stored.now by.now.name.now (past_in siblings.old before.now) bytes.now fault) }
{
    let read = match read_step(siblings, before, bytes) {
        Ok(read) => read,
        Err(fault) => return Err(AcceptFault::NoHistory(fault)),
    };
    match shown_step(by, siblings, &read.step) {
        Ok(shown) => Ok(Passed { read, shown }),
        Err(fault) => Err(fault),
    }
}

/// Reads steps, and writes what each of them shows under the stored epochs. Returns their number.
pub(crate) fn check_steps<'a, H: Hash32>(
    by: &StepChecker<'_, H>,
    siblings: &mut [[u8; 32]],
    shown: &mut [ShownStep<'a>],
    bytes: &'a [u8],
) -> Result<usize, AcceptFault>
    requires { 256 ≤ length siblings.old }
    ensures ok { IfOk result (λ count. AreChecked (H.digest_of by.now.hash.now) by.now.index.0 by.now.stored.now by.now.name.now bytes.now shown.new count) }
    ensures within { IfOk result (λ count. count ≤ length shown.new) }
    ensures err { IfErr result (λ fault. AreUnchecked (H.digest_of by.now.hash.now) by.now.index.0 by.now.stored.now by.now.name.now bytes.now (length shown.old) fault) }
{
    let mut before = no_step();
    let mut rest = bytes;
    let mut count = 0;
    'steps: while !rest.is_empty() {
        if count >= shown.len() {
            return Err(AcceptFault::NoRoom);
        }
        let passed = match check_next(by, siblings, &before, rest) {
            Ok(passed) => passed,
            Err(fault) => return Err(fault),
        };
        set_shown(shown, count, &passed.shown);
        before = left_by(&passed.read.step);
        rest = passed.read.rest;
        count += 1;
    }
    Ok(count)
}
