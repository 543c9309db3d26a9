//! The statuses that a call returns to C.

ghost use Rattle.std.specs.Prelude.{◌≡◌, ◌+◌};
ghost use Rattle.coniks_proof.specs.Faults.{number};
ghost use Rattle.coniks_proof.specs.Wire.{order};
ghost use Rattle.coniks_chain.specs.Chain.{place_of};
ghost use Rattle.coniks_c.specs.Statuses.{number_of_kind, status_of_seen};

use crate::numbers;
use coniks_chain::{AuditFault, EvidenceKind, Seen};
use coniks_proof::{CheckFault, WireFault};

/// The status of an error of a proof, 2 to 8.
pub fn check_status(fault: CheckFault) -> u32
    ensures { result ≡ number fault + 1 }
{
    match fault {
        CheckFault::TooDeep => numbers::TOO_DEEP,
        CheckFault::NameLength => numbers::NAME_LENGTH,
        CheckFault::KeyLength => numbers::KEY_LENGTH,
        CheckFault::WrongName => numbers::WRONG_NAME,
        CheckFault::OtherIsSame => numbers::OTHER_IS_SAME,
        CheckFault::OtherOffPath => numbers::OTHER_OFF_PATH,
        CheckFault::RootMismatch => numbers::ROOT_MISMATCH,
    }
}

/// The status of bytes that are no proof's, 17 to 25.
pub fn wire_status(fault: WireFault) -> u32
    ensures { result ≡ order fault + 16 }
{
    match fault {
        WireFault::NoBytes => numbers::NO_BYTES,
        WireFault::UnknownKind => numbers::UNKNOWN_KIND,
        WireFault::CutInCount => numbers::CUT_IN_COUNT,
        WireFault::CutInSiblings => numbers::CUT_IN_SIBLINGS,
        WireFault::CutInOther => numbers::CUT_IN_OTHER,
        WireFault::CutInOpening => numbers::CUT_IN_OPENING,
        WireFault::CutInName => numbers::CUT_IN_NAME,
        WireFault::CutInKey => numbers::CUT_IN_KEY,
        WireFault::BytesFollow => numbers::BYTES_FOLLOW,
    }
}

/// The status of an error of an entry, 33 to 40.
pub fn audit_status(fault: AuditFault) -> u32
    ensures { result ≡ place_of fault + 33 }
{
    match fault {
        AuditFault::Version => numbers::VERSION_UNKNOWN,
        AuditFault::VersionBack => numbers::VERSION_BACK,
        AuditFault::FirstEpoch => numbers::FIRST_EPOCH,
        AuditFault::NotLater => numbers::NOT_LATER,
        AuditFault::PreviousEpoch => numbers::PREVIOUS_EPOCH,
        AuditFault::PreviousLink => numbers::PREVIOUS_LINK,
        AuditFault::NonceChanged => numbers::NONCE_CHANGED,
        AuditFault::Verdict => numbers::SIGNATURE,
    }
}

/// The status of what a client sees.
pub fn seen_status(seen: Seen) -> u32
    ensures { result ≡ status_of_seen seen }
{
    match seen {
        Seen::Same => numbers::GOOD,
        Seen::Absent => numbers::ABSENT,
        Seen::Changed => numbers::CHANGED,
    }
}

/// The number of a kind of evidence, 1 to 3.
pub fn kind_number(kind: EvidenceKind) -> u32
    ensures { result ≡ number_of_kind kind }
{
    match kind {
        EvidenceKind::Overlap => numbers::EVIDENCE_OVERLAP,
        EvidenceKind::OtherPolicy => numbers::EVIDENCE_OTHER_POLICY,
        EvidenceKind::Malformed => numbers::EVIDENCE_MALFORMED,
    }
}
