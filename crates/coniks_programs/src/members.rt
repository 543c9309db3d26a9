//! The members of a line of JSON.

ghost use Rattle.std.specs.Prelude.{◌≡◌, ℕ, IfOk, option_map};
ghost use Rattle.std.specs.Result.{result_ok};
ghost use Rattle.serde_json.specs.View.{view, items_view};
ghost use Rattle.hex.specs.Hex.{decode_sized, hex_digit_value, pair_value};
ghost use Rattle.std.specs.Option.{unwrap_or};
ghost use Rattle.coniks_directory.specs.History.{nonce_bytes};
ghost use Rattle.coniks_programs.specs.Members.{object_in, text_in, number_in, array_in, digits_in, if_there, base64_in, bytes_in};

use base64::DecodeAllocError;
use base64::engine::general_purpose::STANDARD;
use coniks_proof::Nonce;
use serde_json::Value;
use std::alloc::{AllocError, Global};

/// Reads the object of a line.
///
/// Returns `None` if the line is not UTF-8, is not a JSON text, nests deeper than 127 or is another value. A carriage
/// return at the line's end is white space.
///
/// # Errors
///
/// `AllocError` if an allocation fails.
pub fn read_object(alloc: Global, line: &[u8]) -> Result<Option<Value>, AllocError>
    ensures { IfOk result (λ object. option_map view object ≡ object_in line.now) }
{
    match Value::from_slice(alloc, line) {
        Ok(value) => {
            if value.is_object() {
                return Ok(Some(value));
            }
            Ok(None)
        }
        Err(error) => {
            if error.is_memory() {
                return Err(AllocError);
            }
            Ok(None)
        }
    }
}

/// Returns the text of a member. If a member occurs twice, the last one counts, here and below.
pub fn text<'v>(object: &'v Value, name: &str) -> Option<&'v str>
    ensures { option_map (λ text. text.now) result ≡ text_in name.now (view object.now) }
{
    object.get(name)?.as_str()
}

/// Returns the number of a member that is written as a whole number from 0 to 2^64 - 1.
///
/// `1.0`, `1e3` and `-0` are not.
pub fn number(object: &Value, name: &str) -> Option<u64>
    ensures { result ≡ number_in name.now (view object.now) }
{
    object.get(name)?.as_u64()
}

/// Returns the elements of a member that is an array.
pub fn array<'v>(object: &'v Value, name: &str) -> Option<&'v [Value]>
    ensures { option_map (λ elements. items_view elements.now) result ≡ array_in name.now (view object.now) }
{
    let elements = object.get(name)?.as_array()?;
    Some(elements.as_slice())
}

/// Returns the 32 bytes of a member, in 64 hexadecimal digits of either case.
pub fn digits32(object: &Value, name: &str) -> Option<[u8; 32]>
    ensures { result ≡ digits_in 32 name.now (view object.now) }
{
    let digits = text(object, name)?;
    bytes_of_digits(digits)
}

/// Returns the 32 bytes of an optional member, as `digits32` does.
///
/// Returns `Some(None)` if the member is missing, and `None` if it is there without such a text.
pub fn digits32_if_there(object: &Value, name: &str) -> Option<Option<[u8; 32]>>
    ensures { result ≡ if_there name.now (view object.now) (digits_in 32 name.now (view object.now)) }
{
    if object.get(name).is_none() {
        return Some(None);
    }
    match digits32(object, name) {
        Some(bytes) => Some(Some(bytes)),
        None => None,
    }
}

/// Returns the value of a hexadecimal digit of either case, or 255 for another character.
// One character in each arm makes this a table. Ranges would be jumps that depend on the digit.
fn digit_value(digit: u8) -> u8
    ensures { result ≡ unwrap_or (hex_digit_value digit) 255 }
{
    match digit {
        b'0' => 0,
        b'1' => 1,
        b'2' => 2,
        b'3' => 3,
        b'4' => 4,
        b'5' => 5,
        b'6' => 6,
        b'7' => 7,
        b'8' => 8,
        b'9' => 9,
        b'A' | b'a' => 10,
        b'B' | b'b' => 11,
        b'C' | b'c' => 12,
        b'D' | b'd' => 13,
        b'E' | b'e' => 14,
        b'F' | b'f' => 15,
        _ => 255,
    }
}

/// Returns the byte of two hexadecimal digits of either case.
fn pair(high: u8, low: u8) -> Option<u8>
    ensures { (place : ℕ) → result ≡ result_ok (pair_value high low place) }
{
    let (high, low) = (digit_value(high), digit_value(low));
    if high > 15 || low > 15 {
        return None;
    }
    Some(high * 16 + low)
}

/// Returns the N bytes of 2N hexadecimal digits of either case.
pub fn bytes_of_digits<const N: usize>(digits: &str) -> Option<[u8; N]>
    ensures { result ≡ result_ok (decode_sized digits.now N) }
{
    let digits = digits.as_bytes();
    if digits.len() % 2 != 0 || digits.len() / 2 != N {
        return None;
    }
    let mut bytes = [0; N];
    for i in 0..N {
        bytes[i] = pair(digits[2 * i], digits[2 * i + 1])?;
    }
    Some(bytes)
}

/// Returns the bytes of a member, in base64 of the standard alphabet with its padding.
///
/// # Errors
///
/// `AllocError` if an allocation fails.
pub fn base64(alloc: Global, object: &Value, name: &str) -> Result<Option<Vec<u8>>, AllocError>
    ensures { IfOk result (λ bytes. option_map (λ found. found.items) bytes ≡ base64_in name.now (view object.now)) }
{
    match text(object, name) {
        Some(text) => bytes_of_base64(alloc, text),
        None => Ok(None),
    }
}

/// Returns the bytes of a text in base64 of the standard alphabet with its padding.
///
/// # Errors
///
/// `AllocError` if an allocation fails.
pub fn bytes_of_base64(alloc: Global, text: &str) -> Result<Option<Vec<u8>>, AllocError>
    ensures { IfOk result (λ bytes. option_map (λ found. found.items) bytes ≡ bytes_in text.now) }
{
    match STANDARD.decode(alloc, text.as_bytes()) {
        Ok(bytes) => Ok(Some(bytes)),
        Err(DecodeAllocError::OutOfMemory) => Err(AllocError),
        Err(DecodeAllocError::DecodeError(_)) => Ok(None),
    }
}

/// Returns the nonce of these bytes, if there are any.
pub fn nonce_of(bytes: Option<[u8; 32]>) -> Option<Nonce>
    ensures { nonce_bytes result ≡ bytes }
{
    match bytes {
        Some(bytes) => Some(Nonce(bytes)),
        None => None,
    }
}
