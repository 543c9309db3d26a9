//! The bytes of a history as a whole.

ghost use Rattle.std.specs.Prelude.{◌≡◌, ◌<◌, ◌≤◌, List, Some, None, IfErr, IfOk, OnOk, length};
ghost use Rattle.coniks_client.specs.Histories.{AreNoSteps, HasSteps, IsHistory, IsNoHistory, IsOpened, IsUnopened, steps_part, vrf_part};
ghost use Rattle.coniks_client.specs.HistorySteps.{EpochProof};

use crate::histories::faults::HistoryFault;
use crate::histories::steps::{Before, Step, read_step};
use crate::replies::split_sized;

/// The version that a history begins with.
const HISTORY_VERSION: u8 = 1;

/// The parts of a history, of which nothing is verified.
#[derive(Clone, Copy)]
pub struct History<'a> {
    /// The VRF proof.
    pub vrf: &'a [u8],
    /// The bytes of the steps.
    pub steps: &'a [u8],
    /// The number of steps.
    pub count: usize,
}

/// Returns what is before the first step.
pub(crate) fn no_step<'a>() -> Before<'a>
    ensures { result ≡ record { epoch = 0; count = 0; end = None } }
{
    Before {
        epoch: 0,
        count: 0,
        end: None,
    }
}

/// Returns what a step left.
pub(crate) fn left_by<'a>(step: &Step<'a>) -> Before<'a>
    ensures { result ≡ record { epoch = step.now.epoch; count = step.now.count; end = Some step.now.end } }
{
    Before {
        epoch: step.epoch,
        count: step.count,
        end: Some(step.end),
    }
}

/// The bytes of the parts of a history, whose steps are not read.
#[derive(Clone, Copy)]
pub struct HistoryParts<'a> {
    /// The VRF proof.
    pub vrf: &'a [u8],
    /// The bytes after it.
    pub steps: &'a [u8],
}

/// Returns the bytes of the parts of a history. Reads no step.
///
/// # Errors
///
/// If several apply, the first in this order is returned.
///
/// - `NoHistory` if there is no byte.
/// - `HistoryVersion` if the first byte is not 1.
/// - `CutInVrf` if the bytes end before the VRF proof or its length does.
pub fn history_parts(bytes: &[u8]) -> Result<HistoryParts<'_>, HistoryFault>
    ensures vrf { IfOk result (λ parts. parts.vrf.now ≡ vrf_part bytes.now) }
    ensures steps { IfOk result (λ parts. parts.steps.now ≡ steps_part bytes.now) }
    ensures ok { OnOk result (IsOpened bytes.now) }
    ensures err { IfErr result (λ fault. IsUnopened bytes.now fault) }
{
    let (version, rest) = bytes.split_first().ok_or(HistoryFault::NoHistory)?;
    if *version != HISTORY_VERSION {
        return Err(HistoryFault::HistoryVersion);
    }
    let (vrf, steps) = split_sized(rest).ok_or(HistoryFault::CutInVrf)?;
    Ok(HistoryParts { vrf, steps })
}

/// Returns the number of steps that bytes are.
fn read_steps(siblings: &mut [[u8; 32]], bytes: &[u8]) -> Result<usize, HistoryFault>
    requires { 256 ≤ length siblings.old }
    ensures ok { IfOk result (λ count. HasSteps bytes.now count) }
    ensures err { IfErr result (λ fault. AreNoSteps bytes.now fault) }
{
    let mut before = no_step();
    let mut rest = bytes;
    let mut count = 0;
    'steps: while !rest.is_empty() {
        let read = match read_step(siblings, &before, rest) {
            Ok(read) => read,
            Err(fault) => return Err(fault),
        };
        before = left_by(&read.step);
        rest = read.rest;
        count += 1;
    }
    Ok(count)
}

/// Reads the parts of a history, all of whose steps are well formed. Verifies nothing.
///
/// The siblings of each step are written to memory of the caller for at least 256 siblings. Afterwards it contains any
/// siblings. Allocates nothing.
///
/// # Errors
///
/// The first error in the order of the bytes. Within a step it is that of [`read_step`].
///
/// - `NoHistory` if there is no byte.
/// - `HistoryVersion` if the first byte is not 1.
/// - `CutInVrf` if the bytes end before the VRF proof or its length does.
/// - An error of `read_step`.
pub fn read_history<'a>(
    siblings: &mut [[u8; 32]],
    bytes: &'a [u8],
) -> Result<History<'a>, HistoryFault>
    requires { 256 ≤ length siblings.old }
    ensures ok { IfOk result (λ history. (steps : List EpochProof) × IsHistory bytes.now steps × (length steps ≡ history.count)) }
    ensures vrf { IfOk result (λ history. history.vrf.now ≡ vrf_part bytes.now) }
    ensures steps { IfOk result (λ history. history.steps.now ≡ steps_part bytes.now) }
    ensures err { IfErr result (λ fault. IsNoHistory bytes.now fault) }
{
    let parts = history_parts(bytes)?;
    let count = read_steps(siblings, parts.steps)?;
    Ok(History {
        vrf: parts.vrf,
        steps: parts.steps,
        count,
    })
}
