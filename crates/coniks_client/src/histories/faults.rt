//! The errors of a history.

use coniks_proof::CheckFault;

/// Why bytes are no history. The first in the order of the bytes is returned.
#[derive(Clone, Copy)]
pub enum HistoryFault {
    /// There is no byte.
    NoHistory,
    /// The first byte is not `01`.
    HistoryVersion,
    /// The bytes end before the VRF proof or its length does.
    CutInVrf,
    /// They end within a step.
    CutInStep,
    /// A step's epoch is not greater than the one before, 0 for the first.
    EpochOrder,
    /// The kind of an end is greater than 3, or 3 in the first step.
    UnknownEnd,
    /// A step has more than 256 siblings.
    TooDeep,
    /// A bit of a map is set after those of the siblings, or a sibling is neither sent nor in the step before.
    SiblingMap,
    /// A sibling is sent that equals the one in its place of the step before.
    SiblingRepeated,
    /// An end is sent that equals that of the step before.
    EndRepeated,
}

/// Why a history is refused. The first of these is returned: of its bytes, the VRF proof, and then of its steps, one after
/// another.
#[derive(Clone, Copy)]
pub enum AcceptFault {
    /// Its bytes are no history.
    NoHistory(HistoryFault),
    /// The VRF proof is not one of this name.
    VrfProof,
    /// The slice for what the steps showed has no place for this one.
    NoRoom,
    /// The step's epoch is not stored.
    UnknownEpoch,
    /// The step's proof is refused.
    Check(CheckFault),
}
