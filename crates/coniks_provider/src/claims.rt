//! The members that a log adds to a line.

ghost use Rattle.std.specs.Prelude.{◌≡◌};
ghost use Rattle.serde_json.specs.View.{view};
ghost use Rattle.coniks_provider.specs.Claims.{agrees, claim_in, is_named, log_in};

use coniks_programs::members::{bytes_of_digits, number, text};
use serde_json::Value;

/// The format of a log whose rules hold.
const LOG: u64 = 2;

/// The N bytes that a member names, in hexadecimal digits of either case.
///
/// They are `Some(None)` if it is missing, and `None` if it is there without such a text.
pub(crate) fn claim_in<const N: usize>(object: &Value, name: &str) -> Option<Option<[u8; N]>>
    ensures { result ≡ claim_in N name.now (view object.now) }
{
    if object.get(name).is_none() {
        return Some(None);
    }
    let digits = text(object, name)?;
    match bytes_of_digits(digits) {
        Some(bytes) => Some(Some(bytes)),
        None => None,
    }
}

/// Returns whether a line names no other bytes than these.
pub(crate) fn agrees<const N: usize>(claim: &Option<Option<[u8; N]>>, bytes: &[u8; N]) -> bool
    ensures { result ≡ agrees claim.now bytes.now }
{
    match claim {
        None => false,
        Some(None) => true,
        Some(Some(stated)) => stated == bytes,
    }
}

/// Returns whether a line names these bytes, or none if there are none.
pub(crate) fn is_named<const N: usize>(
    claim: &Option<Option<[u8; N]>>,
    bytes: &Option<[u8; N]>,
) -> bool
    ensures { result ≡ is_named claim.now bytes.now }
{
    match (claim, bytes) {
        (Some(None), None) => true,
        (Some(Some(stated)), Some(bytes)) => stated == bytes,
        _ => false,
    }
}

/// Returns whether the rules of a log hold, or `None` if it has another format.
pub(crate) fn log_in(object: &Value) -> Option<bool>
    ensures { result ≡ log_in (view object.now) }
{
    if object.get("log").is_none() {
        return Some(false);
    }
    let format = number(object, "log")?;
    if format == LOG { Some(true) } else { None }
}
