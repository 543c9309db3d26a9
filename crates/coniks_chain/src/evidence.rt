//! Evidence that a signer equivocated: two entries, signed with one key, that one chain can't have.

ghost use Rattle.std.specs.Prelude.{◌≡◌, ◌⊎◌, ◌↔◌, Bool, true, IfSome, IfNone, IsNone};
ghost use Rattle.coniks_proof.specs.Octets.{Octets};
ghost use Rattle.coniks_chain.specs.Chain.{GoodChain};
ghost use Rattle.coniks_chain.specs.Evidence.{Begins, Convicts, HasNoEvidence, HaveSameBodiesTo, IsFirstEvidence, IsOfFirstKind, IsWellFormed, Overlaps};
ghost use Rattle.coniks_chain.specs.declared.evidence.EvidenceKind.{EvidenceKind};
ghost use Rattle.coniks_chain.specs.declared.evidence.EvidenceKind.TheVariants.{Overlap};

use crate::entry::{Body, Entry};

/// Why two entries are evidence. If several kinds apply, the first in declaration order is returned.
#[derive(Clone, Copy, Debug, PartialEq, Eq)]
pub enum EvidenceKind {
    /// The bodies differ, and their intervals (epoch before, epoch] overlap. So do those of two entries of one epoch, and
    /// of two entries that follow the same one, whatever their epochs are.
    Overlap,
    /// The policy digests differ. A directory never changes its policy.
    OtherPolicy,
    /// One of the entries is in no chain: its version is neither 1 nor 2, its epoch is not later than the epoch before, or it
    /// is a first entry and its previous link is not 32 zero bytes.
    Malformed,
}

/// The first place at which two chains have entries that are evidence, and the kind.
#[derive(Clone, Copy, Debug, PartialEq, Eq)]
pub struct Evidence {
    /// The place in both chains, counted from 0.
    pub place: usize,
    /// The kind of the evidence.
    pub kind: EvidenceKind,
}

/// Returns whether a good chain can contain a body, whatever entry is before it.
pub fn is_well_formed(body: &Body) -> bool
    ensures { result ≡ true ↔ IsWellFormed body.now }
{
    let has_version = body.version == 1 || body.version == 2;
    let has_link = body.t_prev != 0 || body.previous.0 == [0; 32];
    has_version && body.t_prev < body.t && has_link
}

/// Returns whether two bodies differ and their intervals (epoch before, epoch] overlap.
fn overlap(a: &Body, b: &Body) -> bool
    ensures { result ≡ true ↔ Overlaps a.now b.now }
{
    a.t_prev.max(b.t_prev) < a.t.min(b.t) && a != b
}

/// Returns the kind of evidence that two entries are, or `None` if they are no evidence (CONIKS, section 4).
///
/// Evidence shows that the owner of a signing key equivocated. Verify both signatures first, with the directory's public
/// key. A signer that signs the bodies of one chain under one policy, and nothing else, never signs evidence
/// (`laws::one_chain_never_convicts`). The order of the two entries does not matter. An entry that follows another one with
/// a wrong previous link is no evidence.
pub fn convicts(a: &Entry, b: &Entry) -> Option<EvidenceKind>
    ensures some { IfSome result (λ kind. IsOfFirstKind a.now b.now kind) }
    ensures none { IfNone result ((kind : EvidenceKind) → ¬ Convicts a.now b.now kind) }
{
    if overlap(&a.body, &b.body) {
        return Some(EvidenceKind::Overlap);
    }
    if a.body.policy != b.body.policy {
        return Some(EvidenceKind::OtherPolicy);
    }
    if !is_well_formed(&a.body) || !is_well_formed(&b.body) {
        return Some(EvidenceKind::Malformed);
    }
    None
}

/// Returns the first place at which two chains have entries that are evidence, or `None` if there is none.
///
/// Compares the entries at each place of both, from the first on. Verify all signatures first. If both chains are good,
/// `None` means that the bodies of one begin the other. So chains that part contain evidence, whatever their epochs are.
/// Allocates nothing.
pub fn find_evidence(a: &[Entry], b: &[Entry]) -> Option<Evidence>
    ensures some { IfSome result (λ found. IsFirstEvidence a.now b.now found) }
    ensures none { IfNone result (HasNoEvidence a.now b.now) }

    // Of two good chains one begins the other, or the first entries with different bodies overlap.
    ensures good { (hash : Octets → Octets) (verdict other : Octets → Octets → Bool) → GoodChain hash verdict a.now → GoodChain hash other b.now
        → IsNone result ↔ Begins a.now b.now ⊎ Begins b.now a.now }
    ensures fork { IfSome result (λ found. (hash : Octets → Octets) (verdict other : Octets → Octets → Bool)
        → GoodChain hash verdict a.now → GoodChain hash other b.now → (found.kind ≡ Overlap) × HaveSameBodiesTo a.now b.now found.place) }
{
    for place in 0..a.len().min(b.len()) {
        match convicts(&a[place], &b[place]) {
            Some(kind) => return Some(Evidence { place, kind }),
            None => {}
        }
    }
    None
}
