//! A client's monitor of one name.

ghost use Rattle.std.specs.Prelude.{◌≡◌, Some, None, OnOk, OnErr, IfOk, IfErr, length};
ghost use Rattle.coniks_proof.specs.Proofs.{answer_of, stated};
ghost use Rattle.coniks_chain.specs.Chain.{before_at, auditor_after};
ghost use Rattle.coniks_chain.specs.Seen.{key_shown, seen_of};
ghost use Rattle.coniks_chain.specs.Watch.{IsFirstStepFault, IsFirstUnsound, IsSoundRun, IsSoundStep, Watched, entries_watched, tally_of};

use crate::auditor::{Auditor, AuditorState};
use crate::entry::Entry;
use crate::seen::{MonitorFault, Seen, Tally};
use crate::signer::Verify;
use coniks_proof::{Answer, Bytes, Hash32, Index, Proof, ProofRef, check_ref};
use std::marker::Model;

/// Monitors one name over a chain, for a client that expects a key of it or none (CONIKS, section 4).
#[derive(Drop)]
pub struct Monitor<H> {
    auditor: Auditor<H>,
    name: Bytes,
    index: Index,
    expected: Option<Bytes>,
}

impl<H> Model for Monitor<H> {
    ghost use Rattle.coniks_chain.specs.Watch.{Watched};

    ghost Value = { Watched H };

    ghost view = { λ m. record { hasher = m.auditor.0; before = m.auditor.1; name = m.name; index = m.index.0; expected = m.expected } };
}

/// A client's name, the name's index and the key that the client expects, or `None` if it expects none.
///
/// Name and key are borrowed.
#[derive(Clone, Copy, Debug)]
pub struct Wanted<'a> {
    pub name: &'a [u8],
    pub index: Index,
    pub expected: Option<&'a [u8]>,
}

/// Compares an answer with the expected key.
fn seen(expected: &Option<&[u8]>, answer: &Answer) -> Seen
    ensures { result ≡ seen_of (key_shown expected.now) (stated answer.now) }
{
    match (expected, answer) {
        (None, Answer::Absent) => Seen::Same,
        (Some(_), Answer::Absent) => Seen::Absent,
        (None, Answer::Key(_)) => Seen::Changed,
        (Some(want), Answer::Key(key)) => {
            if *key == *want {
                Seen::Same
            } else {
                Seen::Changed
            }
        }
    }
}

impl<H: Hash32 + Drop> Auditor<H> {
    /// Makes one step of a monitor whose state the caller keeps, and returns what the proof shows.
    ///
    /// Audits the entry, then checks the proof for the wanted name against the entry's root and nonce. Allocates nothing.
    /// A client that keeps only an `AuditorState` makes one step with `Auditor::resume`, `watch` and `Auditor::state`.
    ///
    /// # Errors
    ///
    /// After an error the auditor is unchanged. `Audit` comes before `Check`.
    ///
    /// - `Audit` with the error of `Auditor::feed`, if the entry is not accepted.
    /// - `Check` with the error of `coniks_proof::check_ref`, if the proof is not accepted.
    pub fn watch<V: Verify>(
        &mut self,
        wanted: &Wanted<'_>,
        entry: &Entry,
        proof: &ProofRef<'_>,
        verify: &V,
    ) -> Result<Seen, MonitorFault>
        ensures ok { OnOk result (IsSoundStep (H.digest_of self.old.0) (V.verdict_of verify.now)
            self.old.1 wanted.now.name.now wanted.now.index.0 entry.now proof.now (answer_of proof.now.end)) }
        ensures seen { IfOk result (λ seen. seen ≡ seen_of (key_shown wanted.now.expected) (answer_of proof.now.end)) }
        ensures retained { OnOk result (self.new ≡ (self.old.0, Some (auditor_after (H.digest_of self.old.0) entry.now))) }
        ensures err { IfErr result (IsFirstStepFault (H.digest_of self.old.0) (V.verdict_of verify.now)
            self.old.1 wanted.now.name.now wanted.now.index.0 entry.now proof.now) }
        ensures unchanged { OnErr result (self.new ≡ self.old) }
    {
        if let Err(fault) = self.judge(entry, verify) {
            return Err(MonitorFault::Audit(fault));
        }
        let body = &entry.body;
        match check_ref(
            self.hasher(),
            &body.nonce,
            &body.root,
            &wanted.index,
            wanted.name,
            proof,
        ) {
            Ok(answer) => {
                let seen = seen(&wanted.expected, &answer);
                self.keep(entry);
                Ok(seen)
            }
            Err(fault) => Err(MonitorFault::Check(fault)),
        }
    }
}

impl<H: Hash32 + Drop> Monitor<H> {
    /// Returns a monitor that has seen no entry.
    ///
    /// A name that is empty or longer than 255 bytes is allowed, but then no proof is accepted.
    pub fn new(h: H, name: Bytes, index: Index, expected: Option<Bytes>) -> Self
        ensures { result ≡ record { hasher = h; before = None; name = name; index = index.0; expected = expected } }
    {
        Self::resume(h, None, name, index, expected)
    }

    /// Returns a monitor that continues from the state of another one of the same hash, name and index.
    ///
    /// The state is not checked, so the caller trusts its storage.
    pub fn resume(
        h: H,
        before: Option<AuditorState>,
        name: Bytes,
        index: Index,
        expected: Option<Bytes>,
    ) -> Self
        ensures { result ≡ record { hasher = h; before = before; name = name; index = index.0; expected = expected } }
    {
        Monitor {
            auditor: Auditor::resume(h, before),
            name,
            index,
            expected,
        }
    }

    /// Returns the state after the last accepted entry, for `resume`, or `None` before the first.
    ///
    /// The state does not contain the expected key.
    pub fn state(&self) -> Option<AuditorState>
        ensures { result ≡ self.now.before }
    {
        self.auditor.state()
    }

    /// Sets the expected key, or `None` if no key is expected. Nothing else changes it.
    pub fn expect(&mut self, expected: Option<Bytes>)
        ensures { self.new ≡ record self.old { expected = expected } }
    {
        self.expected = expected;
    }

    /// Audits an entry, then checks the proof for the monitor's name against the entry's root and nonce.
    ///
    /// Returns what the proof shows. Allocates nothing.
    ///
    /// # Errors
    ///
    /// After an error the monitor is unchanged. `Audit` comes before `Check`.
    ///
    /// - `Audit` with the error of `Auditor::feed`, if the entry is not accepted.
    /// - `Check` with the error of `coniks_proof::check`, if the proof is not accepted.
    pub fn step<V: Verify>(
        &mut self,
        entry: &Entry,
        proof: &Proof,
        verify: &V,
    ) -> Result<Seen, MonitorFault>
        ensures ok { OnOk result (IsSoundStep (H.digest_of self.old.hasher) (V.verdict_of verify.now)
            self.old.before self.old.name self.old.index entry.now proof.now (answer_of proof.now.end)) }
        ensures seen { IfOk result (λ seen. seen ≡ seen_of self.old.expected (answer_of proof.now.end)) }
        ensures retained { OnOk result (self.new ≡ record self.old { before = Some (auditor_after (H.digest_of self.old.hasher) entry.now) }) }
        ensures err { IfErr result (IsFirstStepFault (H.digest_of self.old.hasher)
            (V.verdict_of verify.now) self.old.before self.old.name self.old.index entry.now proof.now) }
        ensures unchanged { OnErr result (self.new ≡ self.old) }
    {
        let wanted = Wanted {
            name: self.name.as_slice(),
            index: self.index,
            expected: self.expected.as_ref().map(Bytes::as_slice),
        };
        let proof = proof.borrowed();
        self.auditor.watch(&wanted, entry, &proof, verify)
    }

    /// Steps over entries with their proofs, and counts what the proofs show.
    ///
    /// Allocates nothing.
    ///
    /// # Errors
    ///
    /// The position of the first step that is not accepted, counted from 0, and its error, as of `step`. The monitor then
    /// has the state after the steps before.
    pub fn run<V: Verify>(
        &mut self,
        items: &[(Entry, Proof)],
        verify: &V,
    ) -> Result<Tally, (usize, MonitorFault)>
        ensures ok { OnOk result (IsSoundRun (H.digest_of self.old.hasher) (V.verdict_of verify.now) self.old.before self.old.name self.old.index items.now) }
        ensures tally { IfOk result (λ tally. tally ≡ tally_of self.old.expected items.now) }
        ensures retained { OnOk result (self.new ≡ record
            self.old { before = before_at (H.digest_of self.old.hasher) self.old.before (entries_watched items.now) (length items.now) }) }
        ensures err { IfErr result (λ refused. IsFirstUnsound (H.digest_of self.old.hasher)
            (V.verdict_of verify.now) self.old.before self.old.name self.old.index items.now refused.0 refused.1) }

        // The monitor has the state after the steps before the refused one.
        ensures stands { IfErr result (λ refused. self.new ≡ record
            self.old { before = before_at (H.digest_of self.old.hasher) self.old.before (entries_watched items.now) refused.0 }) }
    {
        let mut tally = Tally {
            same: 0,
            changed: 0,
            absent: 0,
        };
        for (i, item) in items.iter().enumerate() {
            match self.step(&item.0, &item.1, verify) {
                Ok(seen) => tally.count(seen),
                Err(fault) => return Err((i, fault)),
            }
        }
        Ok(tally)
    }
}
