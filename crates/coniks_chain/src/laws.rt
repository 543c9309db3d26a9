//! Lemmas about the definitions, each the contract of a function that only reads.

ghost use Rattle.std.specs.Prelude.{◌≡◌, ◌++◌, ◌∷◌, [], ℕ, List, Bool, Option, Some, None, length, slice_get};
ghost use Rattle.coniks_proof.specs.Octets.{Octets};
ghost use Rattle.coniks_proof.specs.declared.paths.Proof.{Proof};
ghost use Rattle.coniks_chain.specs.Chain.{Continues, Follows, GoodChain, IsFirstRefused, before_at};
ghost use Rattle.coniks_chain.specs.Clients.{TwoClients};
ghost use Rattle.coniks_chain.specs.Evidence.{Begins, Convicts, HasBodyOf, HasPolicy, IsFirstEvidence};
ghost use Rattle.coniks_chain.specs.GuardRun.{GuardLaw, GuardedNeverConvict, UsedLaw};
ghost use Rattle.coniks_chain.specs.Watch.{IsFirstUnsound, IsSoundRun, entries_watched};
ghost use Rattle.coniks_chain.specs.declared.auditor.AuditFault.{AuditFault};
ghost use Rattle.coniks_chain.specs.declared.auditor.AuditorState.{AuditorState};
ghost use Rattle.coniks_chain.specs.declared.entry.Entry.{Entry};
ghost use Rattle.coniks_chain.specs.declared.evidence.Evidence.{Evidence};
ghost use Rattle.coniks_chain.specs.declared.evidence.EvidenceKind.{EvidenceKind};
ghost use Rattle.coniks_chain.specs.declared.seen.MonitorFault.{MonitorFault};

/// Proves that a good chain with an entry that follows its last is a good chain.
pub fn chain_grows()
    ensures { (hash : Octets → Octets) (verdict : Octets → Octets → Bool) (entries : List Entry) (entry : Entry) → GoodChain hash verdict entries
        → Follows verdict (before_at hash None entries (length entries)) entry → GoodChain hash verdict (entries ++ entry ∷ []) }
{}

/// Proves that a good chain is one under every verification with the same results.
pub fn same_verdict_same_chain()
    ensures { (hash : Octets → Octets) (verdict other : Octets → Octets → Bool) → ((body signature : Octets) → other body signature ≡ verdict body signature)
        → (entries : List Entry) → GoodChain hash verdict entries → GoodChain hash other entries }
{}

/// Proves that version 1 entries have one nonce.
///
/// In a good chain each entry up to the last of version 1 has version 1 and the first one's nonce.
pub fn first_version_has_one_nonce()
    ensures { (hash : Octets → Octets) (verdict : Octets → Octets → Bool) (entries : List Entry) (k : ℕ) (first entry : Entry) → GoodChain hash verdict entries
        → slice_get entries 0 ≡ Some first → slice_get entries k ≡ Some entry → entry.body.version ≡ 1
        → (first.body.version ≡ 1) × (entry.body.nonce.0 ≡ first.body.nonce.0) }
{}

/// Proves that entries do not continue a chain if one of them is refused.
pub fn refused_is_no_chain()
    ensures { (hash : Octets → Octets) (verdict : Octets → Octets → Bool) (start : Option AuditorState) (entries : List Entry) (place : ℕ) (fault : AuditFault)
        → IsFirstRefused hash verdict start entries place fault → ¬ Continues hash verdict start entries }
{}

/// Proves that a run is not sound if one of its steps is refused.
pub fn refused_is_no_sound_run()
    ensures { (hash : Octets → Octets) (verdict : Octets → Octets → Bool) (start : Option AuditorState)
        (name index : Octets) (items : List (Entry × Proof)) (place : ℕ) (fault : MonitorFault)
        → IsFirstUnsound hash verdict start name index items place fault → ¬ IsSoundRun hash verdict start name index items }
{}

/// Proves that the entries of a sound run from the start are a good chain.
pub fn sound_run_is_a_chain()
    ensures { (hash : Octets → Octets) (verdict : Octets → Octets → Bool) (name index : Octets) (items : List (Entry × Proof))
        → IsSoundRun hash verdict None name index items → GoodChain hash verdict (entries_watched items) }
{}

/// Proves that two clients that saw different answers hold evidence of it.
///
/// Both clients start anew and end in one link, and saw different answers at one epoch for one index. Then they hold two
/// different chains, from which `extract_history` returns a collision. Or they hold one chain, and two accepted proofs
/// with different answers under one of its roots.
pub fn two_clients()
    ensures { TwoClients }
{}

/// Proves that two chains that part contain evidence, whatever their epochs are.
///
/// If of two good chains neither begins the other by bodies, the entries at one place of both are evidence, and
/// `find_evidence` returns the first such place.
pub fn forks_convict()
    ensures { (hash : Octets → Octets) (verdict other : Octets → Octets → Bool) (xs ys : List Entry) → GoodChain hash verdict xs → GoodChain hash other ys
        → ¬ Begins xs ys → ¬ Begins ys xs → (evidence : Evidence) × IsFirstEvidence xs ys evidence }
{}

/// Proves that a signer of one chain signs no evidence.
///
/// If all bodies that were ever signed are those of one good chain under one policy, no two signed entries are evidence.
pub fn one_chain_never_convicts()
    ensures { (hash : Octets → Octets) (verdict : Octets → Octets → Bool) (chain : List Entry) (policy : Octets) (a b : Entry) → GoodChain hash verdict chain
        → HasPolicy policy chain → HasBodyOf chain a → HasBodyOf chain b → (kind : EvidenceKind) → ¬ Convicts a b kind }
{}

/// Proves that a key behind a guard signs one good chain under one policy, and that no two entries whose signatures were returned
/// are evidence.
///
/// This holds over all steps of any processes on one record. Each body of which a signature was returned is in the chain, and no body
/// that was ever abandoned is.
pub fn guard_signs_one_chain()
    ensures chain { GuardLaw }
    ensures evidence { GuardedNeverConvict }
{}

/// Proves that a guard's records lose no body for which the key may have been used.
///
/// A body that was open is signed or abandoned later, or is still open.
pub fn guard_accounts_for_bodies()
    ensures { UsedLaw }
{}
