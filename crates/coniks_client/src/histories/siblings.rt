//! The siblings of a step, without a heap: they are written over those of the step before.

ghost use Rattle.std.specs.Prelude.{◌≡◌, ◌<◌, ◌≤◌, ◌*◌, ◌↔◌, IfErr, IfNone, IfOk, IfSome, IsTrue, OnOk, OnSome, Some, true, false, drop, length, slice_get, take};
ghost use Rattle.coniks_client.specs.SiblingMaps.{map_size, rank};
ghost use Rattle.coniks_client.specs.Siblings.{AreGiven, AreNew, AreRepeated, AreUnpacked, HasNoSiblings, HasSiblings, IsPut, after_map, after_sent, map_part, sent_part, strings};

use crate::histories::faults::HistoryFault;
use crate::histories::maps::{bit_of, is_map, rank};
use crate::histories::steps::Before;

/// Writes a sibling.
fn put(siblings: &mut [[u8; 32]], place: usize, value: [u8; 32])
    requires { place < length siblings.old }
    ensures { IsPut siblings.old siblings.new place value }
{
    siblings[place] = value;
}

/// Returns the string at a place.
fn string_at(strings: &[[u8; 32]], place: usize) -> [u8; 32]
    requires { place < length strings.now }
    ensures { slice_get strings.now place ≡ Some result }
{
    strings[place]
}

/// Writes the siblings of a step over those of the step before.
fn unpack(siblings: &mut [[u8; 32]], map: &[u8], n: usize, sent: &[[u8; 32]])
    requires room { n ≤ length siblings.old }
    requires bits { n ≤ 8 * length map.now }
    requires sent { length sent.now ≡ rank map.now n }
    ensures { AreUnpacked map.now n sent.now siblings.old siblings.new }
{
    let mut taken = 0;
    for i in 0..n {
        if bit_of(map, i) {
            put(siblings, i, string_at(sent, taken));
            taken += 1;
        }
    }
}

/// Returns whether the sibling of the step before at a place equals one that was sent.
fn is_repeated(old: &[[u8; 32]], place: usize, value: &[u8; 32]) -> bool
    ensures { IsTrue result ↔ (slice_get old.now place ≡ Some value.now) }
{
    if place >= old.len() {
        return false;
    }
    string_at(old, place) == *value
}

/// Returns whether a sibling was sent that equals the one in its place of the step before.
fn are_repeated(old: &[[u8; 32]], map: &[u8], n: usize, sent: &[[u8; 32]]) -> bool
    requires bits { n ≤ 8 * length map.now }
    requires sent { length sent.now ≡ rank map.now n }
    ensures yes { result ≡ true → AreRepeated old.now map.now n sent.now }
    ensures no { result ≡ false → AreNew old.now map.now n sent.now }
{
    let mut taken = 0;
    for i in 0..n {
        if bit_of(map, i) {
            let value = string_at(sent, taken);
            if is_repeated(old, i, &value) {
                return true;
            }
            taken += 1;
        }
    }
    false
}

/// Returns the map of `n` siblings that bytes begin with, and the bytes after it.
fn split_map(bytes: &[u8], n: usize) -> Option<(&[u8], &[u8])>
    requires { n ≤ 256 }
    ensures map { IfSome result (λ parts. parts.0.now ≡ map_part n bytes.now) }
    ensures rest { IfSome result (λ parts. parts.1.now ≡ after_map n bytes.now) }
    ensures size { IfSome result (λ parts. length parts.0.now ≡ map_size n) }
    ensures whole { OnSome result (map_size n ≤ length bytes.now) }
    ensures cut { IfNone result (length bytes.now < map_size n) }
{
    bytes.split_at_checked((n + 7) / 8)
}

/// Returns the strings of 32 bytes that bytes begin with, and the bytes after them.
fn split_strings(bytes: &[u8], count: usize) -> Option<(&[[u8; 32]], &[u8])>
    requires { count ≤ 256 }
    ensures strings { IfSome result (λ parts. parts.0.now ≡ strings count bytes.now) }
    ensures rest { IfSome result (λ parts. parts.1.now ≡ drop (count * 32) bytes.now) }
    ensures size { IfSome result (λ parts. length parts.0.now ≡ count) }
    ensures whole { OnSome result (count * 32 ≤ length bytes.now) }
    ensures cut { IfNone result (length bytes.now < count * 32) }
{
    let (strings, rest) = bytes.split_at_checked(count * 32)?;
    Some((strings.as_chunks::<32>().0, rest))
}

/// The map of a step and the siblings that are sent, and the bytes after them.
#[derive(Clone, Copy)]
struct Sent<'a> {
    map: &'a [u8],
    siblings: &'a [[u8; 32]],
    rest: &'a [u8],
}

/// Returns the map of `n` siblings that bytes begin with, and those that are sent, after a step with the old siblings.
fn split_siblings<'a>(old: &[[u8; 32]], n: usize, bytes: &'a [u8]) -> Result<Sent<'a>, HistoryFault>
    requires { n ≤ 256 }
    ensures map { IfOk result (λ sent. sent.map.now ≡ map_part n bytes.now) }
    ensures siblings { IfOk result (λ sent. sent.siblings.now ≡ sent_part n bytes.now) }
    ensures rest { IfOk result (λ sent. sent.rest.now ≡ after_sent n bytes.now) }
    ensures bits { IfOk result (λ sent. n ≤ 8 * length sent.map.now) }
    ensures count { IfOk result (λ sent. length sent.siblings.now ≡ rank sent.map.now n) }
    ensures ok { OnOk result (HasSiblings old.now n bytes.now) }
    ensures err { IfErr result (λ fault. HasNoSiblings old.now n bytes.now fault) }
{
    let Some((map, rest)) = split_map(bytes, n) else {
        return Err(HistoryFault::CutInStep);
    };
    if !is_map(map, n, old) {
        return Err(HistoryFault::SiblingMap);
    }
    let Some((sent, rest)) = split_strings(rest, rank(map, n)) else {
        return Err(HistoryFault::CutInStep);
    };
    if are_repeated(old, map, n, sent) {
        return Err(HistoryFault::SiblingRepeated);
    }
    Ok(Sent {
        map,
        siblings: sent,
        rest,
    })
}

/// Writes the `n` siblings of a step over those of the step before, and returns the bytes after those that are sent.
pub(crate) fn read_siblings<'a>(
    siblings: &mut [[u8; 32]],
    before: &Before<'_>,
    n: usize,
    bytes: &'a [u8],
) -> Result<&'a [u8], HistoryFault>
    requires room { before.now.count ≤ length siblings.old }
    requires memory { 256 ≤ length siblings.old }
    requires few { n ≤ 256 }
    ensures given { OnOk result (AreGiven (take before.now.count siblings.old) (map_part n bytes.now) n (sent_part n bytes.now) (take n siblings.new)) }
    ensures rest { IfOk result (λ rest. rest.now ≡ after_sent n bytes.now) }
    ensures ok { OnOk result (HasSiblings (take before.now.count siblings.old) n bytes.now) }
    ensures err { IfErr result (λ fault. HasNoSiblings (take before.now.count siblings.old) n bytes.now fault) }
{
    let sent = split_siblings(&siblings[..before.count], n, bytes)?;
    unpack(siblings, sent.map, n, sent.siblings);
    Ok(sent.rest)
}
