//! The statuses that a guard's calls return to C.

ghost use Rattle.std.specs.Prelude.{◌≡◌};
ghost use Rattle.coniks_c.specs.Guarding.{abandon_status, adopt_status, answer_number, ask_status, sign_status};

use crate::numbers;
use coniks_chain::guard::{AbandonFault, AdoptFault, AskFault, SignFault};
use coniks_chain::guard_record::Answer;

/// Returns the status of a body that the key must not sign, 112 to 122.
pub fn ask_status(fault: AskFault) -> u32
    ensures { result ≡ ask_status fault }
{
    match fault {
        AskFault::Malformed => numbers::GUARD_MALFORMED,
        AskFault::NothingRecorded => numbers::GUARD_NOTHING_RECORDED,
        AskFault::BeginsUnasked => numbers::GUARD_BEGINS_UNASKED,
        AskFault::BeginsAgain => numbers::GUARD_BEGINS_AGAIN,
        AskFault::OtherPolicy => numbers::GUARD_OTHER_POLICY,
        AskFault::LogBehind => numbers::GUARD_LOG_BEHIND,
        AskFault::RecordBehind => numbers::GUARD_RECORD_BEHIND,
        AskFault::OtherLink => numbers::GUARD_OTHER_LINK,
        AskFault::VersionBack => numbers::GUARD_VERSION_BACK,
        AskFault::NonceChanged => numbers::GUARD_NONCE_CHANGED,
        AskFault::OtherOpen => numbers::GUARD_OTHER_OPEN,
    }
}

/// Returns the status of a signature that is not stored.
pub fn sign_status(fault: SignFault) -> u32
    ensures { result ≡ sign_status fault }
{
    match fault {
        SignFault::NotAsked => numbers::GUARD_NOT_ASKED,
        SignFault::OtherOpen => numbers::GUARD_OTHER_OPEN,
    }
}

/// Returns the status of a body that can't be abandoned.
pub fn abandon_status(fault: AbandonFault) -> u32
    ensures { result ≡ abandon_status fault }
{
    match fault {
        AbandonFault::MayBeSigned => numbers::GUARD_MAY_BE_SIGNED,
        AbandonFault::RecordOld => numbers::GUARD_RECORD_OLD,
    }
}

/// Returns the status of an entry that can't be adopted.
pub fn adopt_status(fault: AdoptFault) -> u32
    ensures { result ≡ adopt_status fault }
{
    match fault {
        AdoptFault::OtherBodies => numbers::GUARD_OTHER_BODIES,
        AdoptFault::NoEntry => numbers::GUARD_NO_ENTRY,
    }
}

/// Returns the number of what a record says of a body.
pub fn answer_number(answer: &Answer) -> u32
    ensures { result ≡ answer_number answer.now }
{
    match answer {
        Answer::Unsettled => 0,
        Answer::Signed(_) => 1,
        Answer::Abandoned => 2,
    }
}
