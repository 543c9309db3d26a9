//! Why a line is refused.

ghost use Rattle.std.specs.Prelude.{◌≡◌, IfOk, OnErr, Some};
ghost use Rattle.serde_json.specs.Written.{compact_text};
ghost use Rattle.coniks_programs.specs.Refusals.{IsRefusable, refusal_data, refusal_of, refused_as};

use crate::printable::Printable;
use crate::printing::{Member, bad_member, fault, member_text};
use crate::replies::{bad_element, epoch_not_later, fault_text, placed_fault};
use coniks_directory::{BatchFault, OpFault};
use std::alloc::{AllocError, Global};

/// Why a line is refused, for the reasons that several engines have.
#[derive(Clone, Copy)]
pub enum Refusal {
    /// The line is not a JSON object.
    NotJson,
    /// The line has no known command.
    NoCommand,
    /// A member is missing, of another kind or of a wrong text.
    BadMember(Member),
    /// The element of this member at this position is no operation, or no binding.
    BadElement(Member, usize),
    /// The directory is not open.
    NotOpen,
    /// The directory is open already, or a restore has begun.
    AlreadyOpen,
    /// A line has too many operations or bindings.
    BatchTooLong,
    /// The operation or the binding at this position has an error.
    BadBatch { position: usize, fault: OpFault },
    /// The epoch is not later than the latest one.
    EpochNotLater { latest: u64 },
    /// The board has no room for another head.
    BoardFull,
    /// No epoch has exactly the number requested.
    UnknownEpoch,
    /// The name requested is empty or too long.
    NameLength,
}

impl Refusal {
    /// Returns the object that is printed.
    ///
    /// # Errors
    ///
    /// `AllocError` if an allocation fails.
    pub fn object(self, alloc: Global) -> Result<Printable, AllocError>
        ensures { IfOk result (λ object. object.text.items ≡ compact_text (refusal_data (refusal_of self))) }
    {
        match self {
            Refusal::NotJson => fault(alloc, "Json"),
            Refusal::NoCommand => fault(alloc, "Command"),
            Refusal::BadMember(member) => bad_member(alloc, member_text(member)),
            Refusal::BadElement(member, place) => bad_element(alloc, member_text(member), place),
            Refusal::NotOpen => fault(alloc, "NotOpen"),
            Refusal::AlreadyOpen => fault(alloc, "AlreadyOpen"),
            Refusal::BatchTooLong => fault(alloc, "BatchTooLong"),
            Refusal::BadBatch { position, fault } => {
                placed_fault(alloc, fault_text(fault), position)
            }
            Refusal::EpochNotLater { latest } => epoch_not_later(alloc, latest),
            Refusal::BoardFull => fault(alloc, "BoardFull"),
            Refusal::UnknownEpoch => fault(alloc, "UnknownEpoch"),
            Refusal::NameLength => fault(alloc, "NameLength"),
        }
    }
}

/// Returns why a batch is refused, from its error. Workers and split depth are within their limits.
///
/// # Errors
///
/// `AllocError` if the error is that an allocation failed.
pub fn batch_refusal(fault: BatchFault) -> Result<Refusal, AllocError>
    requires { IsRefusable fault }
    ensures refusal { IfOk result (λ why. refused_as fault ≡ Some (refusal_of why)) }
    ensures memory { OnErr result (fault ≡ BatchFault.OutOfMemory) }
{
    match fault {
        BatchFault::BatchTooLong => Ok(Refusal::BatchTooLong),
        BatchFault::At { position, fault } => Ok(Refusal::BadBatch { position, fault }),
        BatchFault::OutOfMemory => Err(AllocError),
        BatchFault::Workers | BatchFault::Depth => unreachable!(),
    }
}
