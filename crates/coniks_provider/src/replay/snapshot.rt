//! The lines of a snapshot that are none of `provider`.

ghost use Rattle.std.specs.Prelude.{◌≡◌, option_map};
ghost use Rattle.serde_json.specs.View.{items_view, view};
ghost use Rattle.coniks_provider.specs.Replays.{after_bodies, after_entries, bodies_in, digits_of, entries_in, expected, group_in, header_in, is_next_entry, may_restore, with_body, with_entry};

use crate::claims::log_in;
use crate::replay::refusal::Why;
use coniks_chain::{BODY_BYTES, Entry, link};
use coniks_programs::members::{array, bytes_of_digits, digits32, number};
use coniks_programs::printing::Member;
use coniks_proof::Sha256Hash;
use serde_json::Value;

/// The format of snapshots.
const FORMAT: u64 = 1;

/// The largest number of entries or bodies of a line.
const GROUP: usize = 1000;

/// The kind of the last line of a snapshot.
#[derive(Clone, Copy)]
pub(crate) enum Part {
    Header,
    Entries,
    Replaced,
    Restore,
}

/// A snapshot so far.
#[derive(Clone, Copy)]
pub(crate) struct Snapshot {
    /// The position from which the log is replayed.
    pub(crate) position: u64,
    /// How many names its epoch has.
    pub(crate) names: u64,
    pub(crate) policy: [u8; 32],
    /// Whether the rules of a log hold.
    pub(crate) is_logged: bool,
    pub(crate) part: Part,
    /// How many entries and how many replaced bodies are still to come.
    pub(crate) entries: u64,
    pub(crate) replaced: u64,
    /// The last entry so far.
    pub(crate) last: Option<Entry>,
}

/// Returns the number of replaced bodies of a snapshot: below its position are `open`, a `prepare` for each entry and for
/// each replaced body, and an `install` for each entry.
fn expected(position: u64, epochs: u64) -> Option<u64>
    ensures { result ≡ expected position epochs }
{
    position.checked_sub(epochs.checked_mul(2)?.checked_add(1)?)
}

/// Returns the snapshot that a header begins.
pub(crate) fn header_in(object: &Value) -> Result<Snapshot, Why>
    ensures { result ≡ header_in (view object.now) }
{
    let Some(format) = number(object, "snapshot") else {
        return Err(Why::Member(Member::Snapshot));
    };
    if format != FORMAT {
        return Err(Why::Differs);
    }
    let Some(position) = number(object, "position") else {
        return Err(Why::Member(Member::Position));
    };
    let Some(epochs) = number(object, "epochs") else {
        return Err(Why::Member(Member::Epochs));
    };
    let Some(names) = number(object, "names") else {
        return Err(Why::Member(Member::Names));
    };
    if digits32(object, "nonce").is_none() {
        return Err(Why::Member(Member::Nonce));
    }
    let Some(policy) = digits32(object, "policy") else {
        return Err(Why::Member(Member::Policy));
    };
    let Some(is_logged) = log_in(object) else {
        return Err(Why::Member(Member::Log));
    };
    let Some(replaced) = expected(position, epochs) else {
        return Err(Why::Differs);
    };
    Ok(Snapshot {
        position,
        names,
        policy,
        is_logged,
        part: Part::Header,
        entries: epochs,
        replaced,
        last: None,
    })
}

/// Returns whether an entry follows another one, or begins a chain, its signature aside.
fn is_next_entry(before: &Option<Entry>, entry: &Entry) -> bool
    ensures { result ≡ is_next_entry before.now entry.now }
{
    let body = &entry.body;
    if body.version != 1 && body.version != 2 {
        return false;
    }
    match before {
        None => body.t > 0 && body.t_prev == 0 && body.previous.0 == [0; 32],
        Some(before) => {
            body.version >= before.body.version
                && body.t > before.body.t
                && body.t_prev == before.body.t
                && body.previous.0 == link(&Sha256Hash, before).0
                && (body.version == 2 || body.nonce.0 == before.body.nonce.0)
        }
    }
}

/// Returns a snapshot with an entry more, if the entry follows.
fn with_entry(snapshot: Snapshot, entry: Entry) -> Option<Snapshot>
    ensures { result ≡ with_entry snapshot entry }
{
    if !is_next_entry(&snapshot.last, &entry) || entry.body.policy != snapshot.policy {
        return None;
    }
    let entries = snapshot.entries.checked_sub(1)?;
    Some(Snapshot {
        part: Part::Entries,
        entries,
        last: Some(entry),
        ..snapshot
    })
}

/// Returns the N bytes of an element, in hexadecimal digits of either case.
fn digits_of<const N: usize>(element: &Value) -> Option<[u8; N]>
    ensures { result ≡ digits_of N (view element.now) }
{
    bytes_of_digits(element.as_str()?)
}

/// Returns the elements of a member: 1 to 1,000.
fn group_in<'v>(object: &'v Value, name: &str) -> Option<&'v [Value]>
    ensures { option_map (λ elements. items_view elements.now) result ≡ group_in name.now (view object.now) }
{
    let elements = array(object, name)?;
    if elements.is_empty() || elements.len() > GROUP {
        return None;
    }
    Some(elements)
}

/// Returns the snapshot after the entries of a line.
fn after_entries(snapshot: Snapshot, elements: &[Value]) -> Result<Snapshot, Why>
    ensures { result ≡ after_entries snapshot (items_view elements.now) }
{
    let mut after = snapshot;
    for element in elements {
        let Some(bytes) = digits_of(element) else {
            return Err(Why::Member(Member::Entries));
        };
        let Some(next) = with_entry(after, Entry::read(&bytes)) else {
            return Err(Why::Differs);
        };
        after = next;
    }
    Ok(after)
}

/// Returns the snapshot after a line with entries.
pub(crate) fn entries_in(snapshot: Snapshot, object: &Value) -> Result<Snapshot, Why>
    ensures { result ≡ entries_in snapshot (view object.now) }
{
    match group_in(object, "entries") {
        Some(elements) => after_entries(snapshot, elements),
        None => Err(Why::Member(Member::Entries)),
    }
}

/// Returns a snapshot with a replaced body more, unless it is one too many.
fn with_body(snapshot: Snapshot) -> Option<Snapshot>
    ensures { result ≡ with_body snapshot }
{
    let replaced = snapshot.replaced.checked_sub(1)?;
    Some(Snapshot {
        part: Part::Replaced,
        replaced,
        ..snapshot
    })
}

/// Returns the snapshot after the bodies of a line.
fn after_bodies(snapshot: Snapshot, elements: &[Value]) -> Result<Snapshot, Why>
    ensures { result ≡ after_bodies snapshot (items_view elements.now) }
{
    let mut after = snapshot;
    for element in elements {
        if digits_of::<BODY_BYTES>(element).is_none() {
            return Err(Why::Member(Member::Replaced));
        }
        let Some(next) = with_body(after) else {
            return Err(Why::Differs);
        };
        after = next;
    }
    Ok(after)
}

/// Returns the snapshot after a line with replaced bodies.
pub(crate) fn bodies_in(snapshot: Snapshot, object: &Value) -> Result<Snapshot, Why>
    ensures { result ≡ bodies_in snapshot (view object.now) }
{
    match group_in(object, "replaced") {
        Some(elements) => after_bodies(snapshot, elements),
        None => Err(Why::Member(Member::Replaced)),
    }
}

/// Returns whether the entry to restore is the last one, and nothing of the snapshot before it is missing.
pub(crate) fn may_restore(snapshot: &Snapshot, entry: &Entry) -> bool
    ensures { result ≡ may_restore snapshot.now entry.now }
{
    match &snapshot.last {
        Some(last) => {
            snapshot.entries == 0 && snapshot.replaced == 0 && last.bytes() == entry.bytes()
        }
        None => false,
    }
}
