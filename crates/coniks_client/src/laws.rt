//! Lemmas about the definitions, each the contract of a function that only reads.

ghost use Rattle.std.specs.Prelude.{◌≡◌, ◌-◌, ℕ, List, Option, Some, drop, length, slice_get, take};
ghost use Rattle.coniks_proof.specs.Octets.{Octets};
ghost use Rattle.coniks_client.specs.StoredEntry.{IsChain, epoch_in};
ghost use Rattle.coniks_client.specs.Owner.{AreFrom, AreUpTo, IsWatched, IsWatcher, OwnerLaw, OwnerLawOfFunctions, Scheme};
ghost use Rattle.coniks_client.specs.Honest.{HonestChangeLaw, HonestLaw, HonestSettleLaw};
ghost use Rattle.coniks_client.specs.Runs.{OwnerRunLaw};
ghost use Rattle.coniks_client.specs.Steps.{GoesOnLaw, NoEvidenceLaw, NotNextLaw, ShownAgainLaw};
ghost use Rattle.coniks_client.specs.Reported.{AgainLaw, TimelineLaw, ReportedLaw, WindowLaw};
ghost use Rattle.coniks_client.specs.declared.changes.Change.{Change};
ghost use Rattle.coniks_client.specs.declared.stored.StoredEntry.{StoredEntry};

/// Proves that the owner of a name who watches it knows every key that others were shown, or the directory gave itself away.
pub fn owner()
    ensures law { OwnerLaw }
    ensures functions { OwnerLawOfFunctions }
    ensures runs { OwnerRunLaw }
{}

/// Proves that the first epochs of an owner's chain are an owner's, and that the last ones are a chain with proofs behind them.
///
/// So the law holds up to the head that both clients have, and of what is left after older epochs were dropped.
pub fn parts()
    ensures first_chain { (hash : Octets → Octets) (stored : List StoredEntry) (n : ℕ) → IsChain hash stored → IsChain hash (take n stored) }
    ensures first_owner { (hash : Octets → Octets) (scheme : Scheme) (name : Octets) (key : Option Octets) (changes : List Change) (first last : ℕ) (stored : List StoredEntry) (n : ℕ)
        → IsWatcher hash scheme name key changes first last stored → IsWatcher hash scheme name key changes first last (take n stored) }
    ensures last_chain { (hash : Octets → Octets) (stored : List StoredEntry) (n : ℕ) → IsChain hash stored → IsChain hash (drop n stored) }
    ensures last_watched { (hash : Octets → Octets) (scheme : Scheme) (name : Octets) (key : Option Octets) (changes : List Change) (stored : List StoredEntry) (n : ℕ)
        → IsWatched hash scheme name key changes stored → IsWatched hash scheme name key changes (drop n stored) }
{}

/// Proves that what an epoch seen as the same showed stays what is expected of it, and that the owner's changes say what is.
pub fn reported()
    ensures reported { ReportedLaw }
    ensures windows { WindowLaw }
    ensures timeline { TimelineLaw }
    ensures again { AgainLaw }
{}

/// Proves that the stored epochs of a chain are between the first one's and the last one's.
pub fn ends()
    ensures from { (hash : Octets → Octets) (stored : List StoredEntry) (first : StoredEntry) → IsChain hash stored → slice_get stored 0 ≡ Some first → AreFrom (epoch_in first) stored }
    ensures up_to { (hash : Octets → Octets) (stored : List StoredEntry) (last : StoredEntry) → IsChain hash stored → slice_get stored (length stored - 1) ≡ Some last → AreUpTo (epoch_in last) stored }
{}

/// Proves that a client never reports an honest directory as having changed a key.
pub fn honest()
    ensures shows { HonestLaw }
    ensures changes { HonestChangeLaw }
    ensures settles { HonestSettleLaw }
{}

/// Proves that an entry that is signed again is neither the next one nor evidence, shows the same, and that a client goes on from it.
pub fn signed_again()
    ensures not_next { NotNextLaw }
    ensures no_evidence { NoEvidenceLaw }
    ensures shown { ShownAgainLaw }
    ensures goes_on { GoesOnLaw }
{}
