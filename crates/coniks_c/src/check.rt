//! A proof, checked.

ghost use Rattle.std.specs.Prelude.{◌≡◌, ◌≢◌, ◌⊎◌, ◌+◌, ◌≤◌, Option, Some, None, length};
ghost use Rattle.coniks_c.specs.Checked.{IsRefusedCheck, ShowsAnswer, part};
ghost use Rattle.coniks_c.specs.Statuses.{IsCheckStatus, IsWireStatus, status_of_answer};
ghost use Rattle.coniks_proof.specs.Faults.{number};
ghost use Rattle.coniks_proof.specs.Octets.{Octets};
ghost use Rattle.coniks_proof.specs.Wire.{IsFirstFault, WireHas, order};
ghost use Rattle.coniks_proof.specs.declared.checker.CheckFault.{CheckFault as Fault};
ghost use Rattle.coniks_proof.specs.declared.wire.WireFault.{WireFault as Unread};

use crate::numbers;
use crate::status::{check_status, wire_status};
use crate::values::Bytes32;
use coniks_proof::{Answer, Digest, Index, Nonce, ProofRef, Sha256Hash, check_ref};

/// Checks the bytes of a proof for a name at its index, under a root and a nonce, with SHA-256 (CONIKS, section 3.1).
///
/// Returns 0 if they show a key, which is the part of the proof at `key_start` of `key_length` bytes; 1 if they show that
/// the name is bound to none; 2 to 8 for the first error of the proof; 17 to 25 for the first error of its bytes. Writes only
/// for 0.
#[unsafe(no_mangle)]
pub extern "C" fn coniks_check(
    nonce: &Bytes32,
    root: &Bytes32,
    index: &Bytes32,
    name: &[u8],
    proof: &[u8],
    key_start: &mut usize,
    key_length: &mut usize,
) -> u32
    ensures key { result ≡ 0 → ShowsAnswer nonce.now.bytes root.now.bytes index.now.bytes
        name.now proof.now (Some (part proof.now key_start.new key_length.new)) }
    ensures within { result ≡ 0 → key_start.new + key_length.new ≤ length proof.now }
    ensures absent { result ≡ 1 → ShowsAnswer nonce.now.bytes root.now.bytes index.now.bytes name.now proof.now None }
    ensures exact { (answer : Option Octets)
        → ShowsAnswer nonce.now.bytes root.now.bytes index.now.bytes name.now proof.now answer → result ≡ status_of_answer answer }
    ensures refused { (fault : Fault) → result ≡ number fault + 1 → IsRefusedCheck nonce.now.bytes root.now.bytes index.now.bytes name.now proof.now fault }
    ensures unread { (fault : Unread) → result ≡ order fault + 16 → IsFirstFault (WireHas proof.now) fault }
    ensures known { (result ≡ 0) ⊎ (result ≡ 1) ⊎ IsCheckStatus result ⊎ IsWireStatus result }
    ensures unwritten { result ≢ 0 → (key_start.new ≡ key_start.old) × (key_length.new ≡ key_length.old) }
{
    let read = match ProofRef::read(proof) {
        Ok(read) => read,
        Err(fault) => return wire_status(fault),
    };
    let (nonce, root, index) = (Nonce(nonce.bytes), Digest(root.bytes), Index(index.bytes));
    match check_ref(&Sha256Hash, &nonce, &root, &index, name, &read) {
        Ok(Answer::Key(key)) => {
            *key_start = proof.len() - key.len();
            *key_length = key.len();
            numbers::GOOD
        }
        Ok(Answer::Absent) => numbers::ABSENT,
        Err(fault) => check_status(fault),
    }
}
