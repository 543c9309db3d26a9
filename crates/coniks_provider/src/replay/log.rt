//! The lines of a log.

ghost use Rattle.std.specs.Prelude.{◌≡◌, ◌<◌, ◌+◌, ◌^◌, IfSome, Some};
ghost use Rattle.serde_json.specs.View.{view};
ghost use Rattle.coniks_provider.specs.Replays.{after_first, check_named, check_skipped, is_below, log_after};

use crate::claims::claim_in;
use crate::replay::kind::Kind;
use crate::replay::refusal::Why;
use coniks_chain::BODY_BYTES;
use coniks_programs::members::{digits32, number};
use coniks_programs::printing::Member;
use serde_json::Value;

/// A log so far.
#[derive(Clone, Copy)]
pub(crate) struct Log {
    /// The position of the next line.
    pub(crate) next: u64,
    /// The position from which lines are replayed.
    pub(crate) from: u64,
    /// The link of the snapshot, which the line before that position has.
    pub(crate) link: [u8; 32],
    /// Whether no line of the log was taken, after a snapshot.
    pub(crate) is_first: bool,
}

/// Returns whether the next line is below the position from which lines are replayed.
pub(crate) fn is_below(log: &Log) -> bool
    ensures { result ≡ is_below log.now }
{
    log.next < log.from
}

/// Returns the log after its first line, which names the position of the line after it.
pub(crate) fn after_first(log: Log, object: &Value) -> Result<Log, Why>
    ensures { result ≡ after_first log (view object.now) }
{
    let Some(first) = number(object, "first") else {
        return Err(Why::Member(Member::First));
    };
    if first == 0 {
        return Err(Why::Member(Member::First));
    }
    if first > log.from {
        return Err(Why::Differs);
    }
    Ok(Log {
        next: first,
        is_first: false,
        ..log
    })
}

/// Checks a line that is not replayed: the last one has the link of the snapshot.
pub(crate) fn check_skipped(log: &Log, object: &Value) -> Result<(), Why>
    ensures { result ≡ check_skipped log.now (view object.now) }
{
    if log.from.saturating_sub(log.next) > 1 {
        return Ok(());
    }
    match digits32(object, "link") {
        Some(link) => {
            if link == log.link {
                return Ok(());
            }
            Err(Why::Differs)
        }
        None => Err(Why::Member(Member::Link)),
    }
}

/// Checks that a line names its body or its link.
pub(crate) fn check_named(kind: Kind, object: &Value) -> Result<(), Why>
    ensures { result ≡ check_named kind (view object.now) }
{
    match kind {
        Kind::Prepare => match claim_in::<BODY_BYTES>(object, "body") {
            Some(Some(_)) => Ok(()),
            _ => Err(Why::Member(Member::Body)),
        },
        Kind::Install => match claim_in::<32>(object, "link") {
            Some(Some(_)) => Ok(()),
            _ => Err(Why::Member(Member::Link)),
        },
        _ => Ok(()),
    }
}

/// Returns the log after a line that was taken, unless its position has no number of 64 bits.
pub(crate) fn log_after(log: Log) -> Option<Log>
    ensures after { IfSome result (λ after. after ≡ log_after log) }
    ensures fits { log.next + 1 < 2 ^ 64 → result ≡ Some (log_after log) }
{
    let next = log.next.checked_add(1)?;
    Some(Log {
        next,
        is_first: false,
        ..log
    })
}
