//! The steps of a history, one after another.

ghost use Rattle.std.specs.Prelude.{◌≡◌, ◌≢◌, ◌<◌, ◌≤◌, IfErr, IfNone, IfOk, IfSome, OnOk, OnSome, Some, None, true, false, length};
ghost use Rattle.std.specs.Option.{option_map};
ghost use Rattle.coniks_proof.specs.ProofRefs.{owned};
ghost use Rattle.coniks_proof.specs.Wire.{IsEndOf};
ghost use Rattle.coniks_client.specs.HistorySteps.{HasFront, HasNoFront, IsEnd, IsKnown, IsNoEnd, IsNoStep, IsStep, IsUnknown, after_count, count_part, epoch_part, kind_part, past_in, step_in};

use crate::histories::faults::HistoryFault;
use crate::histories::siblings::read_siblings;
use coniks_proof::{EndRef, MAX_LEVEL, read_end};

/// The kind of an end that is that of the step before.
const SAME_END: u8 = 3;

/// The number of kinds that a proof's end has. Each is below it.
const END_KINDS: u8 = 3;

/// A step of a history. The siblings of its proof are in memory of the caller.
#[derive(Clone, Copy)]
pub struct Step<'a> {
    /// The number of the epoch.
    pub epoch: u64,
    /// The number of siblings, which are at the front of the memory.
    pub count: usize,
    /// The end of the proof.
    pub end: EndRef<'a>,
}

/// What the step before left. Its siblings are in memory of the caller.
#[derive(Clone, Copy)]
pub struct Before<'a> {
    /// Its epoch, 0 before the first step.
    pub epoch: u64,
    /// The number of its siblings, which are at the front of the memory.
    pub count: usize,
    /// Its end, `None` before the first step.
    pub end: Option<EndRef<'a>>,
}

/// A step, and the bytes after it.
#[derive(Clone, Copy)]
pub struct Read<'a> {
    pub step: Step<'a>,
    pub rest: &'a [u8],
}

/// The numbers that a step begins with, and the bytes after them.
#[derive(Clone, Copy)]
struct Front<'a> {
    epoch: u64,
    kind: u8,
    count: usize,
    rest: &'a [u8],
}

/// Returns the numbers that a step begins with.
fn split_front(bytes: &[u8]) -> Option<Front<'_>>
    ensures epoch { IfSome result (λ front. front.epoch ≡ epoch_part bytes.now) }
    ensures kind { IfSome result (λ front. front.kind ≡ kind_part bytes.now) }
    ensures count { IfSome result (λ front. front.count ≡ count_part bytes.now) }
    ensures rest { IfSome result (λ front. front.rest.now ≡ after_count bytes.now) }
    ensures whole { OnSome result (11 ≤ length bytes.now) }
    ensures cut { IfNone result (length bytes.now < 11) }
{
    let (epoch, rest) = bytes.split_first_chunk::<8>()?;
    let (kind, rest) = rest.split_first()?;
    let (count, rest) = rest.split_first_chunk::<2>()?;
    Some(Front {
        epoch: u64::from_be_bytes(*epoch),
        kind: *kind,
        count: usize::from(u16::from_be_bytes(*count)),
        rest,
    })
}

/// Returns whether an end may have a kind, after a step with this end.
fn is_known(end: &Option<EndRef<'_>>, kind: u8) -> bool
    ensures yes { result ≡ true → IsKnown (option_map owned end.now) kind }
    ensures no { result ≡ false → IsUnknown (option_map owned end.now) kind }
{
    match end {
        None => kind < END_KINDS,
        Some(_) => kind <= SAME_END,
    }
}

/// Returns the numbers that a step begins with, after a step with this epoch and this end.
fn read_front<'a>(
    epoch: u64,
    end: &Option<EndRef<'_>>,
    bytes: &'a [u8],
) -> Result<Front<'a>, HistoryFault>
    ensures epoch { IfOk result (λ front. front.epoch ≡ epoch_part bytes.now) }
    ensures kind { IfOk result (λ front. front.kind ≡ kind_part bytes.now) }
    ensures count { IfOk result (λ front. front.count ≡ count_part bytes.now) }
    ensures rest { IfOk result (λ front. front.rest.now ≡ after_count bytes.now) }
    ensures ok { OnOk result (HasFront epoch (option_map owned end.now) bytes.now) }
    ensures err { IfErr result (λ fault. HasNoFront epoch (option_map owned end.now) bytes.now fault) }
{
    let Some(front) = split_front(bytes) else {
        return Err(HistoryFault::CutInStep);
    };
    if front.epoch <= epoch {
        return Err(HistoryFault::EpochOrder);
    }
    if !is_known(end, front.kind) {
        return Err(HistoryFault::UnknownEnd);
    }
    if front.count > MAX_LEVEL {
        return Err(HistoryFault::TooDeep);
    }
    Ok(front)
}

/// Returns whether two ends are equal.
fn is_same_end(one: &EndRef<'_>, other: &EndRef<'_>) -> bool
    ensures yes { result ≡ true → owned one.now ≡ owned other.now }
    ensures no { result ≡ false → owned one.now ≢ owned other.now }
{
    match (one, other) {
        (EndRef::Empty, EndRef::Empty) => true,
        (
            EndRef::Other { index, commitment },
            EndRef::Other {
                index: index_2,
                commitment: commitment_2,
            },
        ) => *index == *index_2 && *commitment == *commitment_2,
        (
            EndRef::Here { name, key, opening },
            EndRef::Here {
                name: name_2,
                key: key_2,
                opening: opening_2,
            },
        ) => *name == *name_2 && *key == *key_2 && *opening == *opening_2,
        _ => false,
    }
}

/// An end, and the bytes after it.
#[derive(Clone, Copy)]
struct Ending<'a> {
    end: EndRef<'a>,
    rest: &'a [u8],
}

/// Returns the end of a kind that bytes begin with.
fn sent_end(kind: u8, bytes: &[u8]) -> Result<Ending<'_>, HistoryFault>
    requires { kind < 3 }
    ensures found { IfOk result (λ ending. IsEndOf bytes.now kind (owned ending.end) ending.rest.now) }
    ensures refused { IfErr result (λ fault. IsNoEnd None kind bytes.now fault) }
{
    match read_end(kind, bytes) {
        Ok((end, rest)) => Ok(Ending { end, rest }),
        Err(_) => Err(HistoryFault::CutInStep),
    }
}

/// Returns the end of a kind that bytes begin with, if it is another one than that of the step before.
fn other_end<'a>(before: &EndRef<'_>, kind: u8, bytes: &'a [u8]) -> Result<Ending<'a>, HistoryFault>
    requires { kind < 3 }
    ensures found { IfOk result (λ ending. IsEnd (Some (owned before.now)) kind bytes.now (owned ending.end) ending.rest.now) }
    ensures refused { IfErr result (λ fault. IsNoEnd (Some (owned before.now)) kind bytes.now fault) }
{
    let ending = sent_end(kind, bytes)?;
    if is_same_end(before, &ending.end) {
        return Err(HistoryFault::EndRepeated);
    }
    Ok(ending)
}

/// Returns the end of a step, after a step with another one.
fn read_ending<'a>(
    before: &Option<EndRef<'a>>,
    kind: u8,
    bytes: &'a [u8],
) -> Result<Ending<'a>, HistoryFault>
    requires { IsKnown (option_map owned before.now) kind }
    ensures found { IfOk result (λ ending. IsEnd (option_map owned before.now) kind bytes.now (owned ending.end) ending.rest.now) }
    ensures refused { IfErr result (λ fault. IsNoEnd (option_map owned before.now) kind bytes.now fault) }
{
    match before {
        None => sent_end(kind, bytes),
        Some(end) => {
            if kind == SAME_END {
                Ok(Ending {
                    end: *end,
                    rest: bytes,
                })
            } else {
                other_end(end, kind, bytes)
            }
        }
    }
}

/// Returns the step that bytes begin with, and the bytes after it. The step's siblings are written over those of the step
/// before. After an error the memory contains any siblings. Allocates nothing.
///
/// # Errors
///
/// If several apply, the first in this order is returned.
///
/// - `CutInStep` if the bytes end before the number of siblings does.
/// - `EpochOrder` if the epoch is not greater than the one before.
/// - `UnknownEnd` if the kind is greater than 3, or 3 in the first step.
/// - `TooDeep` if the step has more than `MAX_LEVEL` siblings.
/// - `CutInStep` if the bytes end before the map does.
/// - `SiblingMap` if a bit is set after those of the siblings, or a sibling is neither sent nor in the step before.
/// - `CutInStep` if the bytes end before the siblings that are sent do.
/// - `SiblingRepeated` if a sibling is sent that equals the one in its place of the step before.
/// - `CutInStep` if the bytes end before the end does.
/// - `EndRepeated` if an end is sent that equals that of the step before.
pub fn read_step<'a>(
    siblings: &mut [[u8; 32]],
    before: &Before<'a>,
    bytes: &'a [u8],
) -> Result<Read<'a>, HistoryFault>
    requires memory { 256 ≤ length siblings.old }
    requires before { before.now.count ≤ 256 }
    ensures ok { IfOk result (λ read. IsStep (past_in siblings.old before.now) bytes.now (step_in siblings.new read.step) read.rest.now) }
    ensures few { IfOk result (λ read. read.step.count ≤ 256) }
    ensures shorter { IfOk result (λ read. length read.rest.now < length bytes.now) }
    ensures err { IfErr result (λ fault. IsNoStep (past_in siblings.old before.now) bytes.now fault) }
{
    let front = match read_front(before.epoch, &before.end, bytes) {
        Ok(front) => front,
        Err(fault) => return Err(fault),
    };
    let rest = match read_siblings(siblings, before, front.count, front.rest) {
        Ok(rest) => rest,
        Err(fault) => return Err(fault),
    };
    let ending = match read_ending(&before.end, front.kind, rest) {
        Ok(ending) => ending,
        Err(fault) => return Err(fault),
    };
    Ok(Read {
        step: Step {
            epoch: front.epoch,
            count: front.count,
            end: ending.end,
        },
        rest: ending.rest,
    })
}
