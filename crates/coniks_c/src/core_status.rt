//! The statuses that the client's calls return to C.

ghost use Rattle.std.specs.Prelude.{◌≡◌};
ghost use Rattle.coniks_c.specs.CoreStatuses.{accept_status, age_status, convicted, entry_status, expect_status, feed_status, history_status, lookup_status, no_more, reliance_status, reply_status, start_status, state_status, succession_status, why_of_conviction, why_of_entry, why_of_feed, why_of_lookup, why_of_start};

use crate::core_values::RawWhy;
use crate::numbers;
use crate::status::{audit_status, check_status, kind_number, wire_status};
use coniks_chain::Evidence;
use coniks_client::histories::{AcceptFault, HistoryFault};
use coniks_client::{
    AgeFault, Conviction, EntryFault, ExpectFault, FeedFault, LookupFault, ReplyFault,
};
use coniks_quorum::relying::Reliance;
use coniks_quorum::states::StateFault;
use coniks_quorum::successions::SuccessionFault;
use coniks_quorum::vouching::StartFault;

/// Returns the status of an entry that is none of the directory.
pub fn entry_status(fault: &EntryFault) -> u32
    ensures { result ≡ entry_status fault.now }
{
    match fault {
        EntryFault::EntryLength => numbers::ENTRY_LENGTH,
        EntryFault::Signature => numbers::SIGNATURE,
        EntryFault::OtherPolicy(_) => numbers::OTHER_POLICY,
        EntryFault::Malformed(_) => numbers::MALFORMED,
    }
}

/// Returns the status of an entry that does not continue the chain.
pub fn feed_status(fault: &FeedFault) -> u32
    ensures { result ≡ feed_status fault.now }
{
    match fault {
        FeedFault::OfEntry(fault) => entry_status(fault),
        FeedFault::Equivocation(_, _) => numbers::EQUIVOCATION,
        FeedFault::NotNext(fault) => audit_status(*fault),
    }
}

/// Returns the status of bytes that are no reply.
pub fn reply_status(fault: &ReplyFault) -> u32
    ensures { result ≡ reply_status fault.now }
{
    match fault {
        ReplyFault::NoReply => numbers::NO_REPLY,
        ReplyFault::ReplyVersion => numbers::REPLY_VERSION,
        ReplyFault::CutInEntry => numbers::CUT_IN_ENTRY,
        ReplyFault::CutInVrf => numbers::CUT_IN_VRF,
    }
}

/// Returns the status of a latest epoch that is not that of the present.
fn age_status(fault: &AgeFault) -> u32
    ensures { result ≡ age_status fault.now }
{
    match fault {
        AgeFault::Stale => numbers::STALE,
        AgeFault::Future => numbers::FUTURE,
    }
}

/// Returns the status of a refused reply.
pub fn lookup_status(fault: &LookupFault) -> u32
    ensures { result ≡ lookup_status fault.now }
{
    match fault {
        LookupFault::NoReply(fault) => reply_status(fault),
        LookupFault::OfEntry(fault) => entry_status(fault),
        LookupFault::Equivocation(_) => numbers::EQUIVOCATION,
        LookupFault::UnknownEpoch => numbers::UNKNOWN_EPOCH,
        LookupFault::OtherEpoch => numbers::OTHER_EPOCH,
        LookupFault::OffTime(fault) => age_status(fault),
        LookupFault::VrfProof => numbers::VRF_PROOF,
        LookupFault::Wire(fault) => wire_status(*fault),
        LookupFault::Check(fault) => check_status(*fault),
    }
}

/// Returns the status of bytes that are no history.
pub fn history_status(fault: &HistoryFault) -> u32
    ensures { result ≡ history_status fault.now }
{
    match fault {
        HistoryFault::NoHistory => numbers::NO_HISTORY,
        HistoryFault::HistoryVersion => numbers::HISTORY_VERSION,
        HistoryFault::CutInVrf => numbers::CUT_IN_VRF,
        HistoryFault::CutInStep => numbers::CUT_IN_STEP,
        HistoryFault::EpochOrder => numbers::EPOCH_ORDER,
        HistoryFault::UnknownEnd => numbers::UNKNOWN_END,
        HistoryFault::TooDeep => numbers::TOO_DEEP,
        HistoryFault::SiblingMap => numbers::SIBLING_MAP,
        HistoryFault::SiblingRepeated => numbers::SIBLING_REPEATED,
        HistoryFault::EndRepeated => numbers::END_REPEATED,
    }
}

/// Returns the status of a refused history.
pub fn accept_status(fault: &AcceptFault) -> u32
    ensures { result ≡ accept_status fault.now }
{
    match fault {
        AcceptFault::NoHistory(fault) => history_status(fault),
        AcceptFault::VrfProof => numbers::VRF_PROOF,
        AcceptFault::NoRoom => numbers::MISUSE_NO_ROOM,
        AcceptFault::UnknownEpoch => numbers::UNKNOWN_EPOCH,
        AcceptFault::Check(fault) => check_status(*fault),
    }
}

/// Returns the status of bytes that are no state.
pub fn state_status(fault: &StateFault) -> u32
    ensures { result ≡ state_status fault.now }
{
    match fault {
        StateFault::StateLength => numbers::STATE_LENGTH,
        StateFault::StateVersion => numbers::STATE_VERSION,
        StateFault::StateDamaged => numbers::STATE_DAMAGED,
        StateFault::StatePolicy => numbers::STATE_POLICY,
        StateFault::StateForm => numbers::STATE_FORM,
    }
}

/// Returns the status of a change that can't be expected.
pub fn expect_status(fault: &ExpectFault) -> u32
    ensures { result ≡ expect_status fault.now }
{
    match fault {
        ExpectFault::ChangeOpen => numbers::MISUSE_CHANGE_OPEN,
        ExpectFault::SameKey => numbers::MISUSE_SAME_KEY,
        ExpectFault::NotLater => numbers::MISUSE_NOT_LATER,
    }
}

/// Returns the status of a refused first entry of a client that starts late.
pub fn start_status(fault: &StartFault) -> u32
    ensures { result ≡ start_status fault.now }
{
    match fault {
        StartFault::OfEntry(fault) => entry_status(fault),
        StartFault::AuditorsDiffer(_) => numbers::AUDITORS_DIFFER,
        StartFault::NotVouched => numbers::NOT_VOUCHED,
    }
}

/// Returns the status of a succession by which a client does not go on.
pub fn succession_status(fault: &SuccessionFault) -> u32
    ensures { result ≡ succession_status fault.now }
{
    match fault {
        SuccessionFault::SuccessionPolicy => numbers::SUCCESSION_POLICY,
        SuccessionFault::SuccessionSignature => numbers::SUCCESSION_SIGNATURE,
        SuccessionFault::NextPolicy => numbers::NEXT_POLICY,
        SuccessionFault::UnknownEpoch => numbers::UNKNOWN_EPOCH,
        SuccessionFault::ChainDiffers => numbers::CHAIN_DIFFERS,
        SuccessionFault::OfEntry(fault) => entry_status(fault),
        SuccessionFault::OtherStart => numbers::OTHER_START,
    }
}

/// Returns the status of whether a client may rely on an epoch.
pub fn reliance_status(reliance: Reliance) -> u32
    ensures { result ≡ reliance_status reliance }
{
    match reliance {
        Reliance::ReliedOn => numbers::GOOD,
        Reliance::Unconfirmed => numbers::MISUSE_NOT_CONFIRMED,
    }
}

impl RawWhy {
    /// Returns what there is if nothing more is to be reported.
    fn nothing() -> RawWhy
        ensures { result ≡ no_more }
    {
        RawWhy {
            status: 0,
            kind: 0,
            mine: 0,
        }
    }

    /// Returns the stored entry that convicts with the refused one.
    pub(crate) fn convicted(status: u32, evidence: &Evidence) -> RawWhy
        ensures { result ≡ convicted status evidence.now }
    {
        RawWhy {
            status,
            kind: kind_number(evidence.kind),
            mine: evidence.place,
        }
    }

    /// Returns what convicts with a refused entry.
    fn of_conviction(conviction: &Conviction) -> RawWhy
        ensures { result ≡ why_of_conviction conviction.now }
    {
        match conviction {
            Conviction::With(evidence) => RawWhy::convicted(0, evidence),
            Conviction::Alone => RawWhy {
                status: 0,
                kind: numbers::EVIDENCE_MALFORMED,
                mine: usize::MAX,
            },
        }
    }

    /// Returns more on an entry that is none of the directory.
    fn of_entry(fault: &EntryFault) -> RawWhy
        ensures { result ≡ why_of_entry fault.now }
    {
        match fault {
            EntryFault::OtherPolicy(Some(conviction)) => RawWhy::of_conviction(conviction),
            EntryFault::Malformed(conviction) => RawWhy::of_conviction(conviction),
            _ => RawWhy::nothing(),
        }
    }

    /// Returns more on an entry that does not continue the chain.
    pub(crate) fn of_feed(fault: &FeedFault) -> RawWhy
        ensures { result ≡ why_of_feed fault.now }
    {
        match fault {
            FeedFault::OfEntry(fault) => RawWhy::of_entry(fault),
            FeedFault::Equivocation(evidence, fault) => {
                RawWhy::convicted(audit_status(*fault), evidence)
            }
            FeedFault::NotNext(_) => RawWhy::nothing(),
        }
    }

    /// Returns more on the entry of a refused reply.
    pub(crate) fn of_lookup(fault: &LookupFault) -> RawWhy
        ensures { result ≡ why_of_lookup fault.now }
    {
        match fault {
            LookupFault::OfEntry(fault) => RawWhy::of_entry(fault),
            LookupFault::Equivocation(evidence) => RawWhy::convicted(0, evidence),
            _ => RawWhy::nothing(),
        }
    }

    /// Returns more on a refused first entry of a client that starts late: the place of the first auditor that differs.
    pub(crate) fn of_start(fault: &StartFault) -> RawWhy
        ensures { result ≡ why_of_start fault.now }
    {
        match fault {
            StartFault::OfEntry(fault) => RawWhy::of_entry(fault),
            StartFault::AuditorsDiffer(place) => RawWhy {
                status: 0,
                kind: 0,
                mine: *place,
            },
            StartFault::NotVouched => RawWhy::nothing(),
        }
    }
}
