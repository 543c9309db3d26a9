//! The expectation of a client: a key of its name, or none.

ghost use Rattle.std.specs.Prelude.{◌≡◌, IfOk, option_map};
ghost use Rattle.serde_json.specs.View.{view};
ghost use Rattle.coniks_tool.specs.Expectations.{expectation_in, expectation_of, expected_in};

use coniks_programs::members::bytes_of_base64;
use coniks_proof::Bytes;
use serde_json::Value;
use std::alloc::{AllocError, Global};

/// Returns the expectation of a text, in base64 of the standard alphabet with its padding.
///
/// No text expects no key. The empty text expects the empty key, which no accepted proof shows. Returns `None` if the
/// text is not base64.
///
/// # Errors
///
/// `AllocError` if an allocation fails.
pub fn expectation(alloc: Global, text: Option<&str>) -> Result<Option<Option<Bytes>>, AllocError>
    ensures { IfOk result (λ expected. expected ≡ expectation_in (option_map (λ t. t.now) text.entry)) }
{
    let Some(text) = text else {
        return Ok(Some(None));
    };
    match bytes_of_base64(alloc, text)? {
        Some(key) => Ok(Some(Some(Bytes::new(key)))),
        None => Ok(None),
    }
}

/// Reads the expectation of the member `key` of a line: `null` expects no key, and a text its bytes.
///
/// Returns `None` if the member is missing, of another kind or not base64.
///
/// # Errors
///
/// `AllocError` if an allocation fails.
pub fn read_expectation(alloc: Global, object: &Value) -> Result<Option<Option<Bytes>>, AllocError>
    ensures { IfOk result (λ expected. expected ≡ expected_in (view object.now)) }
{
    match object.get("key") {
        Some(value) => expectation_at(alloc, value),
        None => Ok(None),
    }
}

/// Reads an expectation: a key in base64, or `null` for none.
fn expectation_at(alloc: Global, value: &Value) -> Result<Option<Option<Bytes>>, AllocError>
    ensures { IfOk result (λ expected. expected ≡ expectation_of (view value.now)) }
{
    if value.is_null() {
        return Ok(Some(None));
    }
    let Some(text) = value.as_str() else {
        return Ok(None);
    };
    match bytes_of_base64(alloc, text)? {
        Some(key) => Ok(Some(Some(Bytes::new(key)))),
        None => Ok(None),
    }
}
