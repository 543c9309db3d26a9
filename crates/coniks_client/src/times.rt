//! The policy's clock.

ghost use Rattle.std.specs.Prelude.{◌≡◌, ◌<◌, ◌^◌, ◌-◌, IfNone, IfSome};
ghost use Rattle.coniks_client.specs.Times.{IsInTime, IsLate, IsOffTime, IsOnTime, begins_at};

use thiserror::Error;

/// The policy's clock, and the limits of the client. All are in seconds.
#[derive(Clone, Copy, Debug, PartialEq, Eq)]
pub struct Clock {
    /// The Unix time at which epoch 1 begins.
    pub start: u64,
    /// How long an epoch lasts.
    pub period: u64,
    /// How long ago the latest epoch may have begun.
    pub max_age: u64,
    /// How far from now it may begin.
    pub skew: u64,
}

/// The error of a latest epoch that is not that of the present.
#[derive(Clone, Copy, Debug, Drop, PartialEq, Eq, Error)]
pub enum AgeFault {
    #[error("the latest epoch began more than max_age seconds ago")]
    Stale,
    #[error("the latest epoch begins more than skew seconds from now")]
    Future,
}

/// Returns the Unix time at which an epoch begins.
pub fn begins_at(clock: &Clock, epoch: u64) -> u128
    ensures time { result ≡ begins_at clock.now epoch }
    ensures small { result < 2 ^ 128 - 2 ^ 64 }
{
    let before = u128::from(epoch.saturating_sub(1));
    u128::from(clock.start) + before * u128::from(clock.period)
}

/// Returns why an epoch is not that of the present, if it is not.
pub fn age_fault(clock: &Clock, now: u64, epoch: u64) -> Option<AgeFault>
    ensures none { IfNone result (IsOnTime clock.now now epoch) }
    ensures some { IfSome result (λ fault. IsOffTime clock.now now epoch fault) }
{
    let begins = begins_at(clock, epoch);
    if begins + u128::from(clock.max_age) < u128::from(now) {
        return Some(AgeFault::Stale);
    }
    if u128::from(now) + u128::from(clock.skew) < begins {
        return Some(AgeFault::Future);
    }
    None
}

/// The policy's clock, if it has one, and the Unix time in seconds.
#[derive(Clone, Copy, Debug, PartialEq, Eq)]
pub struct Present {
    pub clock: Option<Clock>,
    pub time: u64,
}

/// Returns why the latest epoch is not that of the present, if it is not, and none was requested by its number.
pub(crate) fn lateness(present: &Present, requested: Option<u64>, epoch: u64) -> Option<AgeFault>
    ensures none { IfNone result (IsInTime present.now requested epoch) }
    ensures some { IfSome result (λ fault. IsLate present.now requested epoch fault) }
{
    match (requested, &present.clock) {
        (None, Some(clock)) => age_fault(clock, present.time, epoch),
        _ => None,
    }
}
