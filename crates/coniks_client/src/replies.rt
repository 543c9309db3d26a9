//! Replies: what a provider's service sends for a name at one epoch.

ghost use Rattle.std.specs.Prelude.{◌≡◌, ◌<◌, ◌≤◌, ◌+◌, IfErr, IfNone, IfOk, IfSome, OnOk, OnSome, length};
ghost use Rattle.coniks_proof.specs.Wire.{after_name, short_length};
ghost use Rattle.coniks_client.specs.Replies.{IsNoReply, IsReply, entry_part, proof_part, sized_part, vrf_part};

use coniks_chain::ENTRY_BYTES;
use thiserror::Error;

/// The version that a reply begins with.
const REPLY_VERSION: u8 = 1;

/// The error of bytes that are no reply. If several apply, the first in declaration order is returned.
#[derive(Clone, Copy, Debug, Drop, PartialEq, Eq, Error)]
pub enum ReplyFault {
    #[error("there are no bytes")]
    NoReply,
    #[error("the reply has another version than 1")]
    ReplyVersion,
    #[error("the bytes end within the entry")]
    CutInEntry,
    #[error("the bytes end within the VRF proof or its length")]
    CutInVrf,
}

/// The parts of a reply, of which nothing is verified.
#[derive(Clone, Copy)]
pub struct Reply<'a> {
    /// The entry of the epoch.
    pub entry: &'a [u8; ENTRY_BYTES],
    /// The VRF proof that the index is the name's; empty without a VRF.
    pub vrf: &'a [u8],
    /// The bytes of the path to the index.
    pub proof: &'a [u8],
}

/// Returns bytes that follow their length in 2 bytes, and the bytes after them.
pub fn split_sized(bytes: &[u8]) -> Option<(&[u8], &[u8])>
    ensures part { IfSome result (λ parts. parts.0.now ≡ sized_part bytes.now) }
    ensures rest { IfSome result (λ parts. parts.1.now ≡ after_name bytes.now) }
    ensures whole { OnSome result (2 + short_length bytes.now ≤ length bytes.now) }
    ensures cut { IfNone result (length bytes.now < 2 + short_length bytes.now) }
{
    let (length, rest) = bytes.split_first_chunk::<2>()?;
    rest.split_at_checked(usize::from(u16::from_be_bytes(*length)))
}

impl<'a> Reply<'a> {
    /// Reads the parts of a reply. Nothing is verified.
    ///
    /// # Errors
    ///
    /// If several apply, the first in the order of [`ReplyFault`] is returned.
    pub fn read(bytes: &'a [u8]) -> Result<Reply<'a>, ReplyFault>
        ensures entry { IfOk result (λ reply. reply.entry.now ≡ entry_part bytes.now) }
        ensures vrf { IfOk result (λ reply. reply.vrf.now ≡ vrf_part bytes.now) }
        ensures proof { IfOk result (λ reply. reply.proof.now ≡ proof_part bytes.now) }
        ensures ok { OnOk result (IsReply bytes.now) }
        ensures err { IfErr result (λ fault. IsNoReply bytes.now fault) }
    {
        let (version, rest) = bytes.split_first().ok_or(ReplyFault::NoReply)?;
        if *version != REPLY_VERSION {
            return Err(ReplyFault::ReplyVersion);
        }
        let (entry, rest) = rest
            .split_first_chunk::<ENTRY_BYTES>()
            .ok_or(ReplyFault::CutInEntry)?;
        let (vrf, proof) = split_sized(rest).ok_or(ReplyFault::CutInVrf)?;
        Ok(Reply { entry, vrf, proof })
    }
}
