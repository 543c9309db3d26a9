//! What a client's monitor sees, and its errors.

ghost use Rattle.std.specs.Prelude.{◌≡◌, ◌<◌, ◌+◌};
ghost use Rattle.coniks_chain.specs.Seen.{counted};

use crate::auditor::AuditFault;
use coniks_proof::CheckFault;
use thiserror::Error;

/// What a proof shows about the client's name, compared with the key that the client expects.
#[derive(Clone, Copy, Debug, PartialEq, Eq)]
pub enum Seen {
    /// The expected key, or no key if none is expected.
    Same,
    /// A key other than the expected one, or a key if none is expected.
    Changed,
    /// No key, although one is expected.
    Absent,
}

/// The number of steps with each result.
#[derive(Clone, Copy, Debug, PartialEq, Eq)]
pub struct Tally {
    pub same: usize,
    pub changed: usize,
    pub absent: usize,
}

impl Tally {
    /// Counts a result.
    pub(crate) fn count(&mut self, seen: Seen)
        requires same { self.old.same < usize.MAX }
        requires changed { self.old.changed < usize.MAX }
        requires absent { self.old.absent < usize.MAX }
        ensures { self.new ≡ counted self.old seen }
    {
        match seen {
            Seen::Same => self.same += 1,
            Seen::Changed => self.changed += 1,
            Seen::Absent => self.absent += 1,
        }
    }
}

/// The error of a monitor's step. The entry's error comes before the proof's.
#[derive(Clone, Copy, Debug, Drop, PartialEq, Eq, Error)]
pub enum MonitorFault {
    #[error("the entry is refused: {0}")]
    Audit(AuditFault),
    #[error("the proof is refused: {0}")]
    Check(CheckFault),
}
