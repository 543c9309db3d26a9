//! A client in memory of the caller: what its policy fixes, the watched name, and the arrays that the calls read and write.

ghost use Rattle.std.specs.Prelude.{◌≡◌, ◌↔◌, IsTrue, take};
ghost use Rattle.coniks_c.specs.CoreReported.{watch_in};
ghost use Rattle.coniks_c.specs.Core.{IsWithin, alarms_in, changes_in, present_in, promise_in, stored_in};

use crate::core_values::RawWatch;
use crate::values::Bytes32;
use coniks_client::{Change, Clock, Present, StoredEntry, Watch};
use coniks_quorum::alarms::Alarm;
use coniks_quorum::lost::Promise;

/// The policy's clock and the client's limits, in seconds.
#[repr(C)]
#[derive(Clone, Copy)]
pub struct RawClock {
    /// 1 if the policy has a clock. Nothing else is read if not.
    pub is_there: u32,
    pub start: u64,
    pub period: u64,
    pub max_age: u64,
    pub skew: u64,
}

/// How long the policy promises proofs of a past epoch.
#[repr(C)]
#[derive(Clone, Copy)]
pub struct RawPromise {
    /// 1 if proofs are promised for `seconds` after the next stored epoch begins. Nothing else is read if not: they are promised forever.
    pub is_limited: u32,
    pub seconds: u64,
}

/// What the policy and the trust document of a client fix.
#[repr(C)]
#[derive(Clone, Copy)]
pub struct RawRules {
    /// The SHA-256 of the policy.
    pub policy: Bytes32,
    /// The SHA-256 of the trust document, 32 zero bytes without one.
    pub trust: Bytes32,
    pub clock: RawClock,
    pub promise: RawPromise,
    /// How many auditors are a quorum; 0 is none, and confirms nothing.
    pub quorum: usize,
}

/// The stored epochs: the first `count` of `items`, or all of them if the count is greater. So it is for the other arrays.
#[repr(C)]
#[derive(Drop)]
pub struct RawStored<'m> {
    pub items: &'m mut [StoredEntry],
    pub count: usize,
}

/// The changes of the watched key.
#[repr(C)]
#[derive(Drop)]
pub struct RawChanges<'m, 'k> {
    pub items: &'m mut [Change<'k>],
    pub count: usize,
}

/// The alarms of dropped epochs.
#[repr(C)]
#[derive(Drop)]
pub struct RawAlarms<'m> {
    pub items: &'m mut [Alarm],
    pub count: usize,
}

/// The mark of each auditor, in the order of the trust document.
#[repr(C)]
#[derive(Drop)]
pub struct RawMarks<'m> {
    pub items: &'m mut [u64],
}

/// A client.
#[repr(C)]
#[derive(Drop)]
pub struct RawCore<'m, 'k> {
    pub rules: RawRules,
    pub watch: RawWatch<'k>,
    pub stored: RawStored<'m>,
    pub changes: RawChanges<'m, 'k>,
    pub alarms: RawAlarms<'m>,
    pub marks: RawMarks<'m>,
}

/// How many stored epochs and changes a client has, and its watched name.
#[derive(Clone, Copy)]
pub(crate) struct Used<'k> {
    pub stored: usize,
    pub changes: usize,
    pub watch: Option<Watch<'k>>,
}

/// Returns the first elements of an array, this many, or all of them if there are fewer.
pub(crate) fn first<T>(items: &[T], count: usize) -> &[T]
    ensures { result.now ≡ take count items.now }
{
    &items[..count.min(items.len())]
}

impl RawCore<'_, '_> {
    /// Returns the stored epochs.
    pub(crate) fn stored(&self) -> &[StoredEntry]
        ensures { result.now ≡ stored_in self.now }
    {
        first(self.stored.items, self.stored.count)
    }

    /// Returns whether no count is greater than its room.
    pub(crate) fn is_within(&self) -> bool
        ensures { IsTrue result ↔ IsWithin self.now }
    {
        self.stored.count <= self.stored.items.len()
            && self.changes.count <= self.changes.items.len()
            && self.alarms.count <= self.alarms.items.len()
    }

    /// Returns the alarms.
    pub(crate) fn alarms(&self) -> &[Alarm]
        ensures { result.now ≡ alarms_in self.now }
    {
        first(self.alarms.items, self.alarms.count)
    }
}

impl<'k> RawCore<'_, 'k> {
    /// Returns the watched name, if there is one.
    pub(crate) fn watched(&self) -> Option<Watch<'k>>
        ensures { result ≡ watch_in self.now.watch }
    {
        let watch = self.watch;
        watch.watch()
    }

    /// Returns the changes of the watched key.
    pub(crate) fn changes(&self) -> &[Change<'k>]
        ensures { result.now ≡ changes_in self.now }
    {
        first(self.changes.items, self.changes.count)
    }
}

impl RawRules {
    /// Returns the clock, if there is one, and the time.
    pub(crate) fn present(&self, time: u64) -> Present
        ensures { result ≡ present_in self.now time }
    {
        let clock = if self.clock.is_there == 1 {
            Some(Clock {
                start: self.clock.start,
                period: self.clock.period,
                max_age: self.clock.max_age,
                skew: self.clock.skew,
            })
        } else {
            None
        };
        Present { clock, time }
    }

    /// Returns how long proofs are promised.
    pub(crate) fn promise(&self) -> Promise
        ensures { result ≡ promise_in self.now }
    {
        if self.promise.is_limited == 1 {
            Promise::Seconds(self.promise.seconds)
        } else {
            Promise::Forever
        }
    }
}
