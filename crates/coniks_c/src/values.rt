//! What crosses between C and the libraries.

ghost use Rattle.std.specs.Prelude.{◌≡◌, ◌<◌, Some, None, replicate};
ghost use Rattle.coniks_c.specs.Crossing.{before_in, body_in, IsZero};

use coniks_chain::{AuditorState, BODY_BYTES, Body};
use coniks_proof::{Digest, Nonce};

/// 32 bytes.
#[repr(C)]
#[derive(Clone, Copy, Drop)]
pub struct Bytes32 {
    pub bytes: [u8; 32],
}

/// The bytes of an entry's body, which are signed.
#[repr(C)]
#[derive(Clone, Copy, Drop)]
pub struct Bytes145 {
    pub bytes: [u8; BODY_BYTES],
}

/// What an auditor keeps between entries. It holds no pointer and no padding, so it can be copied, stored and compared as
/// bytes. Before the first entry all of them are 0.
#[repr(C)]
#[derive(Clone, Copy, Drop)]
pub struct RawAuditorState {
    /// The epoch of the last entry accepted, from 1 on; 0 before the first.
    pub epoch: u64,
    /// The link of that entry.
    pub link: Bytes32,
    /// The nonce of that entry.
    pub nonce: Bytes32,
    /// The version of that entry.
    pub version: u8,
    /// Written as 0, and not read.
    pub unused: [u8; 7],
}

/// What an entry says, without its signature (CONIKS, section 3: the signed tree root).
#[repr(C)]
#[derive(Clone, Copy, Drop)]
pub struct EntryBody {
    /// The epoch, from 1 on.
    pub epoch: u64,
    /// The epoch of the entry before, 0 for the first.
    pub previous_epoch: u64,
    /// The root of the tree at this epoch.
    pub root: Bytes32,
    /// The link of the entry before, 32 zero bytes for the first.
    pub previous_link: Bytes32,
    /// The nonce under which the tree is hashed.
    pub nonce: Bytes32,
    /// The digest of the directory's policy.
    pub policy: Bytes32,
    /// The version of the format, 1 or 2.
    pub version: u8,
    /// Written as 0, and not read.
    pub unused: [u8; 7],
}

impl RawAuditorState {
    /// The state before the first entry.
    pub(crate) fn empty() -> RawAuditorState
        ensures none { before_in result ≡ None }
        ensures zero { IsZero result }
    {
        let zeros = Bytes32 { bytes: [0; 32] };
        RawAuditorState {
            epoch: 0,
            link: zeros,
            nonce: zeros,
            version: 0,
            unused: [0; 7],
        }
    }

    /// The state after an entry.
    pub(crate) fn after(before: &AuditorState) -> RawAuditorState
        requires { 0 < before.now.t }
        ensures retained { before_in result ≡ Some before.now }
        ensures unused { result.unused ≡ replicate 7 0 }
    {
        RawAuditorState {
            epoch: before.t,
            link: Bytes32 {
                bytes: before.link.0,
            },
            nonce: Bytes32 {
                bytes: before.nonce.0,
            },
            version: before.version,
            unused: [0; 7],
        }
    }

    /// What the next entry is compared with.
    pub(crate) fn state(&self) -> Option<AuditorState>
        ensures { result ≡ before_in self.now }
    {
        if self.epoch == 0 {
            return None;
        }
        Some(AuditorState {
            t: self.epoch,
            link: Digest(self.link.bytes),
            version: self.version,
            nonce: Nonce(self.nonce.bytes),
        })
    }
}

impl EntryBody {
    /// The body in the form that C reads.
    pub(crate) fn of(body: &Body) -> EntryBody
        ensures body { body_in result ≡ body.now }
        ensures unused { result.unused ≡ replicate 7 0 }
    {
        EntryBody {
            epoch: body.t,
            previous_epoch: body.t_prev,
            root: Bytes32 { bytes: body.root.0 },
            previous_link: Bytes32 {
                bytes: body.previous.0,
            },
            nonce: Bytes32 {
                bytes: body.nonce.0,
            },
            policy: Bytes32 { bytes: body.policy },
            version: body.version,
            unused: [0; 7],
        }
    }

    /// The body that C filled in.
    pub(crate) fn body(&self) -> Body
        ensures { result ≡ body_in self.now }
    {
        Body {
            version: self.version,
            t: self.epoch,
            t_prev: self.previous_epoch,
            root: Digest(self.root.bytes),
            previous: Digest(self.previous_link.bytes),
            nonce: Nonce(self.nonce.bytes),
            policy: self.policy.bytes,
        }
    }
}
