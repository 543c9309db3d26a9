//! The parts that bytes of a state begin with.

ghost use Rattle.std.specs.Prelude.{◌≡◌, ◌<◌, ◌^◌, ◌++◌, ◌∷◌, ℕ, List, IfNone, IfSome, length, map};
ghost use Rattle.std.specs.Int.{to_be_bytes, w32, w64};
ghost use Rattle.coniks_client.specs.declared.stored.StoredEntry.{StoredEntry as StoredOne};
ghost use Rattle.coniks_proof.specs.Octets.{Octets};
ghost use Rattle.coniks_quorum.specs.declared.alarms.Alarm.{Alarm as AlarmOne};
ghost use Rattle.coniks_quorum.specs.StateCodes.{IsCode};
ghost use Rattle.coniks_quorum.specs.StateReading.{BeginsWithChange, BeginsWithCount, BeginsWithFront, BeginsWithKey, BeginsWithName, BeginsWithParts};
ghost use Rattle.coniks_quorum.specs.Saved.{SavedChange, alarm_from, stored_from, mark_from, saved_change};

use crate::alarms::Alarm;
use crate::states::forms::FromBytes;
use crate::states::writing::Part;
use coniks_client::changes::Change;
use coniks_client::stored::StoredEntry;

/// The number of bytes of a stored epoch.
pub const STORED_BYTES: usize = 218;

/// The number of bytes of an alarm.
pub const ALARM_BYTES: usize = 9;

/// The number of bytes of a mark.
pub const MARK_BYTES: usize = 8;

/// Returns a number of 8 bytes, and the bytes after it.
fn split_number(bytes: &[u8]) -> Option<(u64, &[u8])>
    ensures whole { IfSome result (λ parts. bytes.now ≡ to_be_bytes w64 parts.0 ++ parts.1.now) }
    ensures small { IfSome result (λ parts. parts.0 < 2 ^ 64) }
    ensures cut { IfNone result (length bytes.now < 8) }
{
    let (number, rest) = bytes.split_first_chunk::<8>()?;
    Some((u64::from_be_bytes(*number), rest))
}

/// Returns a count of 4 bytes, and the bytes after it.
fn split_count(bytes: &[u8]) -> Option<(u32, &[u8])>
    ensures whole { IfSome result (λ parts. bytes.now ≡ to_be_bytes w32 parts.0 ++ parts.1.now) }
    ensures small { IfSome result (λ parts. parts.0 < 2 ^ 32) }
    ensures cut { IfNone result (length bytes.now < 4) }
{
    let (count, rest) = bytes.split_first_chunk::<4>()?;
    Some((u32::from_be_bytes(*count), rest))
}

/// Returns the first `count` bytes, and the bytes after them.
fn split_bytes(bytes: &[u8], count: usize) -> Option<(&[u8], &[u8])>
    ensures whole { IfSome result (λ parts. bytes.now ≡ parts.0.now ++ parts.1.now) }
    ensures size { IfSome result (λ parts. length parts.0.now ≡ count) }
    ensures cut { IfNone result (length bytes.now < count) }
{
    bytes.split_at_checked(count)
}

/// Returns a key that follows its length in 4 bytes, and the bytes after it.
fn split_key(bytes: &[u8]) -> Option<(&[u8], &[u8])>
    ensures some { IfSome result (λ parts. BeginsWithKey bytes.now parts.0.now parts.1.now) }
    ensures none { IfNone result ((key rest : Octets) → ¬ BeginsWithKey bytes.now key rest) }
{
    let (size, rest) = split_count(bytes)?;
    split_bytes(rest, size as usize)
}

/// Returns the change that bytes begin with, and the bytes after it.
pub(crate) fn split_change(bytes: &[u8]) -> Option<(Change<'_>, &[u8])>
    ensures some { IfSome result (λ parts. BeginsWithChange bytes.now (saved_change parts.0) parts.1.now) }
    ensures none { IfNone result ((change : SavedChange) (rest : Octets) → ¬ BeginsWithChange bytes.now change rest) }
{
    let (last_old, rest) = split_number(bytes)?;
    let (first_new, rest) = split_number(rest)?;
    let (key, rest) = split_key(rest)?;
    let change = Change {
        last_old,
        first_new,
        key,
    };
    Some((change, rest))
}

/// Returns the bytes of parts of one size that follow their number, and the bytes after them.
fn split_counted(bytes: &[u8], one: usize) -> Option<(&[u8], &[u8])>
    requires { one < 256 }
    ensures some { IfSome result (λ parts. (count : ℕ) × BeginsWithCount one bytes.now count parts.0.now parts.1.now) }
    ensures none { IfNone result ((count : ℕ) (parts rest : Octets) → ¬ BeginsWithCount one bytes.now count parts rest) }
{
    let (count, rest) = split_count(bytes)?;
    split_bytes(rest, count as usize * one)
}

/// Returns the parts of one size that bytes begin with, each as `N` bytes, and the bytes after them.
fn split_parts<const N: usize, P: Part + FromBytes<N>>(bytes: &[u8]) -> Option<(&[[u8; N]], &[u8])>
    requires code { IsCode P.one_bytes P.one_from P.is_part N }
    requires some { 0 < N }
    requires small { N < 256 }
    ensures some { IfSome result (λ parts. BeginsWithParts P.one_bytes P.is_part bytes.now (map P.one_from parts.0.now) parts.1.now) }
    ensures none { IfNone result ((parts : List P) (rest : Octets) → ¬ BeginsWithParts P.one_bytes P.is_part bytes.now parts rest) }
{
    let (parts, rest) = split_counted(bytes, N)?;
    Some((parts.as_chunks::<N>().0, rest))
}

/// Returns the hash of a trust document that bytes begin with, and the bytes after it.
fn split_trust(bytes: &[u8]) -> Option<(&[u8; 32], &[u8])>
    ensures whole { IfSome result (λ parts. bytes.now ≡ parts.0.now ++ parts.1.now) }
    ensures size { IfSome result (λ parts. length parts.0.now ≡ 32) }
    ensures cut { IfNone result (length bytes.now < 32) }
{
    let (trust, rest) = bytes.split_first_chunk::<32>()?;
    Some((trust, rest))
}

/// The parts of a state before the watch.
#[derive(Clone, Copy)]
pub(crate) struct Front<'a> {
    pub stored: &'a [[u8; STORED_BYTES]],
    pub alarms: &'a [[u8; ALARM_BYTES]],
    pub trust: &'a [u8; 32],
    pub marks: &'a [[u8; MARK_BYTES]],
}

/// Returns the parts before the watch that bytes begin with, and the bytes after them.
pub(crate) fn split_front(bytes: &[u8]) -> Option<(Front<'_>, &[u8])>
    ensures some { IfSome result (λ parts. BeginsWithFront bytes.now (map stored_from parts.0.stored.now) (map alarm_from parts.0.alarms.now)
        parts.0.trust.now (map mark_from parts.0.marks.now) parts.1.now) }
    ensures none { IfNone result ((stored : List StoredOne) (alarms : List AlarmOne) (trust : Octets) (marks : List ℕ) (rest : Octets)
        → ¬ BeginsWithFront bytes.now stored alarms trust marks rest) }
{
    let (stored, rest) = split_parts::<STORED_BYTES, StoredEntry>(bytes)?;
    let (alarms, rest) = split_parts::<ALARM_BYTES, Alarm>(rest)?;
    let (trust, rest) = split_trust(rest)?;
    let (marks, rest) = split_parts::<MARK_BYTES, u64>(rest)?;
    let front = Front {
        stored,
        alarms,
        trust,
        marks,
    };
    Some((front, rest))
}

/// A name, the first watched epoch, the key, and the number of its changes.
#[derive(Clone, Copy)]
pub(crate) struct Named<'a> {
    pub name: &'a [u8],
    pub since: u64,
    pub key: &'a [u8],
    pub count: usize,
}

/// Returns a name of 1 to 255 bytes that follows its length, and the bytes after it.
fn split_name(bytes: &[u8]) -> Option<(&[u8], &[u8])>
    ensures whole { IfSome result (λ parts. bytes.now ≡ length parts.0.now ∷ parts.0.now ++ parts.1.now) }
    ensures some { IfSome result (λ parts. 0 < length parts.0.now) }
    ensures short { IfSome result (λ parts. length parts.0.now < 256) }
    ensures none { IfNone result ((name rest : Octets) → 0 < length name → bytes.now ≡ length name ∷ name ++ rest → ⊥) }
{
    let (size, rest) = bytes.split_first()?;
    if *size == 0 {
        return None;
    }
    split_bytes(rest, usize::from(*size))
}

/// Returns the name that bytes begin with, with the first epoch, the key and the number of changes, and the bytes after it.
pub(crate) fn split_named(bytes: &[u8]) -> Option<(Named<'_>, &[u8])>
    ensures some { IfSome result (λ parts. BeginsWithName bytes.now parts.0.name.now parts.0.since parts.0.key.now parts.0.count parts.1.now) }
    ensures none { IfNone result ((name : Octets) (since : ℕ) (key : Octets) (count : ℕ) (rest : Octets) → ¬ BeginsWithName bytes.now name since key count rest) }
{
    let (name, rest) = split_name(bytes)?;
    let (since, rest) = split_number(rest)?;
    let (key, rest) = split_key(rest)?;
    let (count, rest) = split_count(rest)?;
    let named = Named {
        name,
        since,
        key,
        count: count as usize,
    };
    Some((named, rest))
}
