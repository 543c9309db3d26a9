//! The lengths of names and keys.

ghost use Rattle.std.specs.Prelude.{◌≡◌, List, IfSome, None, Some, true};
ghost use Rattle.coniks_proof.specs.Batches.{fault_of, fits};
ghost use Rattle.coniks_proof.specs.Octets.{Octets};
ghost use Rattle.coniks_proof.specs.Registry.{IsLength, Registered, Registry};
ghost use Rattle.coniks_directory.specs.Batches.{fault_is, operation_of};

use crate::batch::{Op, OpFault};
use coniks_proof::{MAX_KEY, MAX_NAME};

/// Returns whether there are 1 to `most` bytes.
pub(crate) fn is_length(bytes: &[u8], most: usize) -> bool
    ensures value { result ≡ fits most bytes.now }
    ensures holds { result ≡ true → IsLength most bytes.now }
{
    !bytes.is_empty() && bytes.len() <= most
}

/// Returns whether there are 1 to `MAX_NAME` bytes, as a name has.
pub(crate) fn is_name(bytes: &[u8]) -> bool
    ensures value { result ≡ fits MAX_NAME bytes.now }
    ensures holds { result ≡ true → IsLength MAX_NAME bytes.now }
{
    is_length(bytes, MAX_NAME)
}

/// Returns the error of an operation's lengths, the name's before the key's.
pub(crate) fn length_fault(op: &Op) -> Option<OpFault>
    ensures fault { IfSome result (λ fault. (index_of : Octets → Octets) (registry : Registry) (before : List Registered)
        → fault_of index_of registry before (operation_of op.now) ≡ Some (fault_is fault)) }
    ensures named { result ≡ None → fits MAX_NAME op.now.name ≡ true }
    ensures keyed { result ≡ None → fits MAX_KEY op.now.key ≡ true }
    ensures lengths { result ≡ None → IsLength MAX_NAME op.now.name × IsLength MAX_KEY op.now.key }
{
    if !is_length(op.name.as_slice(), MAX_NAME) {
        return Some(OpFault::NameLength);
    }
    if !is_length(op.key.as_slice(), MAX_KEY) {
        return Some(OpFault::KeyLength);
    }
    None
}
