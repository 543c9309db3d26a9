//! The record of a guard: what a signing key has signed, and which bodies it must not sign.

ghost use Rattle.std.specs.Prelude.{◌≡◌, ◌≤◌, ◌↔◌, Some, length, take, true};
ghost use Rattle.coniks_chain.specs.Entries.{body_from, entry_from};
ghost use Rattle.coniks_chain.specs.Guard.{Answers, ClosesTo, Has, IsLast, Settles, asked_in, bodies_in, empty, has_same_before, guard_state_in, last_epoch, raw_body, rivals, signed_in, with_abandoned};

use crate::entry::{BODY_BYTES, Body, ENTRY_BYTES, Entry, Signature, full};

/// The bytes of a body, as an array of abandoned bodies has them.
#[repr(C)]
#[derive(Clone, Copy, Debug, PartialEq, Eq)]
pub struct RawBody {
    pub bytes: [u8; BODY_BYTES],
}

/// A guard's record without its abandoned bodies, which the caller has in a slice.
#[derive(Clone, Copy, Debug, PartialEq, Eq)]
pub struct GuardState {
    /// The last entry signed.
    pub signed: Option<Entry>,
    /// The open body: the key may be used for it, and it is neither signed nor abandoned.
    pub asked: Option<Body>,
}

/// The same as bytes.
#[repr(C)]
#[derive(Clone, Copy, Debug, PartialEq, Eq)]
pub struct RawGuardState {
    /// 0 if the key has signed nothing. `entry` is not read then.
    pub has_entry: u32,
    /// 0 if no body is open. `asked` is not read then.
    pub has_asked: u32,
    /// The last entry signed.
    pub entry: [u8; ENTRY_BYTES],
    /// The open body.
    pub asked: [u8; BODY_BYTES],
}

/// What a stored record says of a body.
#[derive(Clone, Copy, Debug, PartialEq, Eq)]
pub enum Answer {
    /// It is abandoned: no signature of it is returned.
    Abandoned,
    /// It is that of the last entry signed, which has this signature.
    Signed(Signature),
    /// Neither.
    Unsettled,
}

/// Returns the body that has these bytes.
fn read_body(bytes: &[u8; BODY_BYTES]) -> Body
    ensures { result ≡ body_from bytes.now }
{
    let body = Body::read(bytes);
    body.known();
    body
}

/// Returns the bytes of a body, from which it is read again.
fn body_array(body: &Body) -> [u8; BODY_BYTES]
    ensures { body_from result ≡ body.now }
{
    body.known();
    body.bytes()
}

/// Returns the bytes of an entry, from which it is read again.
fn entry_array(entry: &Entry) -> [u8; ENTRY_BYTES]
    ensures { entry_from result ≡ entry.now }
{
    entry.known();
    let bytes = entry.bytes();
    full(&bytes);
    bytes
}

/// Returns what a record has for the last entry signed: whether there is one, and its bytes.
fn signed_parts(signed: &Option<Entry>) -> (u32, [u8; ENTRY_BYTES])
    ensures { signed_in result.0 result.1 ≡ signed.now }
{
    match signed {
        None => (0, [0; ENTRY_BYTES]),
        Some(entry) => (1, entry_array(entry)),
    }
}

/// Returns what a record has for the open body: whether there is one, and its bytes.
fn asked_parts(asked: &Option<Body>) -> (u32, [u8; BODY_BYTES])
    ensures { asked_in result.0 result.1 ≡ asked.now }
{
    match asked {
        None => (0, [0; BODY_BYTES]),
        Some(body) => (1, body_array(body)),
    }
}

/// Returns the last entry signed, by what a record has for it.
fn signed_of(has_entry: u32, bytes: &[u8; ENTRY_BYTES]) -> Option<Entry>
    ensures { result ≡ signed_in has_entry bytes.now }
{
    if has_entry == 0 {
        None
    } else {
        Some(Entry::read(bytes))
    }
}

/// Returns the open body, by what a record has for it.
fn asked_of(has_asked: u32, bytes: &[u8; BODY_BYTES]) -> Option<Body>
    ensures { result ≡ asked_in has_asked bytes.now }
{
    if has_asked == 0 {
        None
    } else {
        Some(read_body(bytes))
    }
}

impl RawGuardState {
    /// Returns the bytes of a record.
    pub fn of(guard_state: &GuardState) -> RawGuardState
        ensures { guard_state_in result ≡ guard_state.now }
    {
        let (has_entry, entry) = signed_parts(&guard_state.signed);
        let (has_asked, asked) = asked_parts(&guard_state.asked);
        RawGuardState {
            has_entry,
            has_asked,
            entry,
            asked,
        }
    }

    /// Returns the record that has these bytes.
    pub fn guard_state(&self) -> GuardState
        ensures { result ≡ guard_state_in self.now }
    {
        GuardState {
            signed: signed_of(self.has_entry, &self.entry),
            asked: asked_of(self.has_asked, &self.asked),
        }
    }
}

impl RawBody {
    /// Returns the body that has these bytes.
    pub fn body(&self) -> Body
        ensures { result ≡ raw_body self.now }
    {
        read_body(&self.bytes)
    }
}

/// Returns whether two bodies are the same.
fn is_same(a: &Body, b: &Body) -> bool
    ensures { result ≡ true ↔ a.now ≡ b.now }
{
    *a == *b
}

/// Returns whether a body is one of a list.
fn has(bodies: &[RawBody], body: &Body) -> bool
    ensures { result ≡ true ↔ Has (bodies_in bodies.now) body.now }
{
    for place in 0..bodies.len() {
        if is_same(&bodies[place].body(), body) {
            return true;
        }
    }
    false
}

/// Returns whether a body names the same entry as the one before it as another body does.
fn has_same_before(body: &Body, other: &Body) -> bool
    ensures { result ≡ has_same_before body.now other.now }
{
    other.t_prev == body.t_prev && other.previous.0 == body.previous.0
}

/// Moves the bodies that name the same entry as the one before them as `body` does to the front, in their order.
///
/// Returns how many there are. What is after them is unspecified.
pub fn keep_rivals(bodies: &mut [RawBody], body: &Body) -> usize
    ensures within { result ≤ length bodies.old }
    ensures size { length bodies.new ≡ length bodies.old }
    ensures retained { bodies_in (take result bodies.new) ≡ rivals body.now (bodies_in bodies.old) }
{
    let mut retained = 0;
    for place in 0..bodies.len() {
        let raw = bodies[place];
        if has_same_before(body, &raw.body()) {
            bodies[retained] = raw;
            retained += 1;
        }
    }
    retained
}

impl GuardState {
    /// Returns whether the last entry signed has a body.
    pub(crate) fn is_last(&self, body: &Body) -> bool
        ensures { result ≡ true ↔ IsLast self.now.signed body.now }
    {
        match &self.signed {
            None => false,
            Some(last) => last.body == *body,
        }
    }

    /// Returns whether an entry is the last one signed.
    pub(crate) fn has_signed(&self, entry: &Entry) -> bool
        ensures { result ≡ true ↔ self.now.signed ≡ Some entry.now }
    {
        match &self.signed {
            None => false,
            Some(last) => *last == *entry,
        }
    }

    /// Returns whether a body is the open one.
    pub(crate) fn is_open(&self, body: &Body) -> bool
        ensures { result ≡ true ↔ self.now.asked ≡ Some body.now }
    {
        match &self.asked {
            None => false,
            Some(asked) => *asked == *body,
        }
    }

    /// Returns what is open once a body is abandoned.
    pub(crate) fn closed(&self, body: &Body) -> Option<Body>
        ensures { ClosesTo self.now.asked body.now result }
    {
        match self.asked {
            None => None,
            Some(asked) => { if asked == *body { None } else { Some(asked) } }
        }
    }

    /// Returns the epoch of the last entry signed, 0 if there is none.
    pub(crate) fn last_epoch(&self) -> u64
        ensures { result ≡ last_epoch self.now.signed }
    {
        match &self.signed {
            None => 0,
            Some(last) => last.body.t,
        }
    }

    /// Returns whether a record is that of a key that has signed nothing.
    pub(crate) fn is_empty(&self, abandoned: &[RawBody]) -> bool
        ensures { result ≡ true ↔ with_abandoned self.now (bodies_in abandoned.now) ≡ empty }
    {
        self.signed.is_none() && self.asked.is_none() && abandoned.is_empty()
    }

    /// Returns whether a body is abandoned, or is that of the last entry signed.
    pub(crate) fn settles(&self, abandoned: &[RawBody], body: &Body) -> bool
        ensures { result ≡ true ↔ Settles (with_abandoned self.now (bodies_in abandoned.now)) body.now }
    {
        has(abandoned, body) || self.is_last(body)
    }
}

/// Returns what a stored record says of a body.
///
/// A guard returns the signature that this returns, never the one that its key has just made. It asks after the record is durable.
pub fn answer_of(guard_state: &GuardState, abandoned: &[RawBody], body: &Body) -> Answer
    ensures { Answers (with_abandoned guard_state.now (bodies_in abandoned.now)) body.now result }
{
    if has(abandoned, body) {
        return Answer::Abandoned;
    }
    match &guard_state.signed {
        None => Answer::Unsettled,
        Some(last) => {
            if last.body == *body {
                Answer::Signed(last.signature)
            } else {
                Answer::Unsettled
            }
        }
    }
}
