//! A guard of a signing key, over a record of the caller.

ghost use Rattle.std.specs.Prelude.{◌==◌, ◌≡◌, ◌≢◌, ◌⊎◌, ◌↔◌, ◌<◌, ◌≤◌, ◌+◌, ◌++◌, ◌∷◌, [], length, take, true};
ghost use Rattle.coniks_proof.specs.Sha256.{sha256};
ghost use Rattle.coniks_chain.specs.Entries.{entry_from};
ghost use Rattle.coniks_chain.specs.Guard.{Abandons, Adopts, Answers, Asks, IsRefusedAbandon, IsRefusedAdopt, IsRefusedAsk, IsRefusedSign, Signs, bodies_in, raw_body, rivals};
ghost use Rattle.coniks_chain.specs.declared.guard.AbandonFault.{AbandonFault as Unabandoned};
ghost use Rattle.coniks_chain.specs.declared.guard.AdoptFault.{AdoptFault as Unadopted};
ghost use Rattle.coniks_chain.specs.declared.guard.AskFault.{AskFault as Unrequested};
ghost use Rattle.coniks_chain.specs.declared.guard.Effect.TheVariants.{Added, Narrowed};
ghost use Rattle.coniks_chain.specs.declared.guard.SignFault.{SignFault as Unsigned};
ghost use Rattle.coniks_chain.specs.declared.guard_record.Answer.{Answer as Stated};
ghost use Rattle.coniks_c.specs.Guarding.{IfSigned, abandon_status, adopt_status, answer_number, ask_status, record_in, sign_status};

use crate::entries::entry_of;
use crate::guard_status::{abandon_status, adopt_status, answer_number, ask_status, sign_status};
use crate::numbers;
use coniks_chain::Signature;
use coniks_chain::guard::{Effect, abandon, adopt, ask, sign};
use coniks_chain::guard_record::{Answer, RawBody, RawGuardState, answer_of, keep_rivals};
use coniks_proof::Sha256Hash;

/// The 64 bytes of a signature.
#[repr(C)]
#[derive(Clone, Copy)]
pub struct RawSignature {
    pub bytes: [u8; 64],
}

/// Returns whether a step keeps only some of the abandoned bodies.
fn is_narrowed(effect: Effect) -> bool
    ensures { result ≡ true ↔ effect ≡ Narrowed }
{
    effect == Effect::Narrowed
}

/// Returns whether a step adds its body to the abandoned ones.
fn is_added(effect: Effect) -> bool
    ensures { result ≡ true ↔ effect ≡ Added }
{
    effect == Effect::Added
}

/// Keeps of the first `count` bodies those that name the same entry as the one before them as `body` does, and returns how many there are.
fn narrow(abandoned: &mut [RawBody], count: usize, body: &RawBody) -> usize
    requires { count ≤ length abandoned.old }
    ensures within { result ≤ length abandoned.old }
    ensures retained { bodies_in (take result abandoned.new) ≡ rivals (raw_body body.now) (bodies_in (take count abandoned.old)) }
{
    keep_rivals(&mut abandoned[..count], &body.body())
}

/// Writes a body after the first `count` ones.
fn append(abandoned: &mut [RawBody], count: usize, body: &RawBody)
    requires { count < length abandoned.old }
    ensures { bodies_in (take (count + 1) abandoned.new) ≡ bodies_in (take count abandoned.old) ++ raw_body body.now ∷ [] }
{
    abandoned[count] = *body;
}

/// Returns what a stored record says of a body: 0 if the body is not settled, so that the key may be used for it if it is open; 1 if it
/// was signed, and writes the signature; 2 if it is abandoned. `signature` is written only with 1.
///
/// Return no other signature to anybody.
#[unsafe(no_mangle)]
pub extern "C" fn coniks_guard_answer(
    stored: &RawGuardState,
    abandoned: &[RawBody],
    body: &RawBody,
    signature: &mut RawSignature,
) -> u32
    ensures answers { (stated : Stated) × (result ≡ answer_number stated) × Answers (record_in stored.now abandoned.now) (raw_body body.now) stated
        × IfSigned stated (λ found. signature.new.bytes ≡ found.0) }
    ensures unwritten { result ≢ 1 → signature.new ≡ signature.old }
{
    let stated = answer_of(&stored.guard_state(), abandoned, &body.body());
    if let Answer::Signed(found) = stated {
        let bytes = found.0;
        *signature = RawSignature { bytes };
    }
    answer_number(&stated)
}

/// Asks for the signature of a body. A body that is signed or abandoned changes nothing; another one is open in the record then.
/// `may_begin` is 1 if the body may be the first one of a directory.
///
/// Store the record durably, in the place of the one that was read. Use the key only if `coniks_guard_answer` returns 0 for what is stored.
///
/// Returns 0, or the first reason why the key must not sign the body, 112 to 122. Then the record is unchanged.
#[unsafe(no_mangle)]
pub extern "C" fn coniks_guard_ask(
    stored: &mut RawGuardState,
    abandoned: &[RawBody],
    may_begin: u32,
    body: &RawBody,
) -> u32
    ensures asks { result ≡ 0 → Asks sha256 (may_begin == 1) (record_in stored.old abandoned.now) (raw_body body.now) (record_in stored.new abandoned.now) }
    ensures refused { (fault : Unrequested) → result ≡ ask_status fault → IsRefusedAsk sha256 (may_begin == 1) (record_in stored.old abandoned.now) (raw_body body.now) fault }
    ensures known { (result ≡ 0) ⊎ ((fault : Unrequested) × (result ≡ ask_status fault)) }
    ensures unchanged { result ≢ 0 → stored.new ≡ stored.old }
{
    match ask(
        &Sha256Hash,
        may_begin == 1,
        &stored.guard_state(),
        abandoned,
        &body.body(),
    ) {
        Ok(next) => {
            *stored = RawGuardState::of(&next.guard_state);
            numbers::GOOD
        }
        Err(fault) => ask_status(fault),
    }
}

/// Stores the signature of the open body, which the caller has verified. The body is the last one signed then. Of the abandoned bodies
/// those stay that follow the same entry; they are moved to the front, and the count is set.
///
/// A body that is signed or abandoned changes nothing. But if `replaces` is 1, and the body is the last one signed, the signature takes
/// the place of the stored one: pass 1 only if that one is not valid.
///
/// Returns 0, or the first error: 137 if the count is greater than the array's length, 122 if a signature would be replaced while a body is
/// open, 123 if the body is not open. Then nothing is changed.
#[unsafe(no_mangle)]
pub extern "C" fn coniks_guard_sign(
    stored: &mut RawGuardState,
    abandoned: &mut [RawBody],
    count: &mut usize,
    replaces: u32,
    body: &RawBody,
    signature: &RawSignature,
) -> u32
    ensures signs { result ≡ 0 → Signs (record_in stored.old (take count.old abandoned.old)) (replaces == 1) (raw_body body.now)
        (record { 0 = signature.now.bytes }) (record_in stored.new (take count.new abandoned.new)) }
    ensures refused { (fault : Unsigned) → result ≡ sign_status fault
        → IsRefusedSign (record_in stored.old (take count.old abandoned.old)) (replaces == 1) (raw_body body.now) fault }
    ensures full { result ≡ 137 ↔ length abandoned.old < count.old }
    ensures room { result ≡ 0 → count.new ≤ length abandoned.new }
    ensures known { (result ≡ 0) ⊎ (result ≡ 137) ⊎ ((fault : Unsigned) × (result ≡ sign_status fault)) }
    ensures unchanged { result ≢ 0 → (stored.new ≡ stored.old) × (abandoned.new ≡ abandoned.old) × (count.new ≡ count.old) }
{
    if *count > abandoned.len() {
        return numbers::MISUSE_NO_ROOM;
    }
    let next = match sign(
        &stored.guard_state(),
        &abandoned[..*count],
        replaces == 1,
        &body.body(),
        &Signature(signature.bytes),
    ) {
        Ok(next) => next,
        Err(fault) => return sign_status(fault),
    };
    *stored = RawGuardState::of(&next.guard_state);
    if is_narrowed(next.effect) {
        *count = narrow(abandoned, *count, body);
    }
    numbers::GOOD
}

/// Abandons a body, which is written after the first `count` abandoned ones, and is not open any more. A body that is signed or abandoned
/// changes nothing.
///
/// Returns 0, or the first error: 137 if the count is greater than the array's length, 124 or 125 if the epoch before the body is not the
/// last one signed, 137 if there is no room for a body more. Then nothing is changed.
#[unsafe(no_mangle)]
pub extern "C" fn coniks_guard_abandon(
    stored: &mut RawGuardState,
    abandoned: &mut [RawBody],
    count: &mut usize,
    body: &RawBody,
) -> u32
    ensures abandons { result ≡ 0 → Abandons (record_in stored.old (take count.old abandoned.old)) (raw_body body.now) (record_in stored.new (take count.new abandoned.new)) }
    ensures refused { (fault : Unabandoned) → result ≡ abandon_status fault
        → IsRefusedAbandon (record_in stored.old (take count.old abandoned.old)) (raw_body body.now) fault }
    ensures full { result ≡ 137 → length abandoned.old ≤ count.old }
    ensures room { result ≡ 0 → count.new ≤ length abandoned.new }
    ensures known { (result ≡ 0) ⊎ (result ≡ 137) ⊎ ((fault : Unabandoned) × (result ≡ abandon_status fault)) }
    ensures unchanged { result ≢ 0 → (stored.new ≡ stored.old) × (abandoned.new ≡ abandoned.old) × (count.new ≡ count.old) }
{
    if *count > abandoned.len() {
        return numbers::MISUSE_NO_ROOM;
    }
    let next = match abandon(&stored.guard_state(), &abandoned[..*count], &body.body()) {
        Ok(next) => next,
        Err(fault) => return abandon_status(fault),
    };
    if is_added(next.effect) {
        if *count == abandoned.len() {
            return numbers::MISUSE_NO_ROOM;
        }
        append(abandoned, *count, body);
        *count += 1;
    }
    *stored = RawGuardState::of(&next.guard_state);
    numbers::GOOD
}

/// Adopts the last entry that a key has signed without a guard, which the caller has verified.
///
/// Returns 0, or the first error: 48 for another number of bytes than 209, 126 if the record has anything but this entry, 127 if no chain
/// has such an entry. Then the record is unchanged.
#[unsafe(no_mangle)]
pub extern "C" fn coniks_guard_adopt(
    stored: &mut RawGuardState,
    abandoned: &[RawBody],
    entry: &[u8],
) -> u32
    ensures adopts { result ≡ 0 → (length entry.now ≡ 209) × Adopts (record_in stored.old abandoned.now) (entry_from entry.now) (record_in stored.new abandoned.now) }
    ensures refused { (fault : Unadopted) → result ≡ adopt_status fault → IsRefusedAdopt (record_in stored.old abandoned.now) (entry_from entry.now) fault }
    ensures other { result ≡ 48 ↔ length entry.now ≢ 209 }
    ensures known { (result ≡ 0) ⊎ (result ≡ 48) ⊎ ((fault : Unadopted) × (result ≡ adopt_status fault)) }
    ensures unchanged { result ≢ 0 → stored.new ≡ stored.old }
{
    let Some(entry) = entry_of(entry) else {
        return numbers::ENTRY_LENGTH;
    };
    match adopt(&stored.guard_state(), abandoned, &entry) {
        Ok(next) => {
            *stored = RawGuardState::of(&next.guard_state);
            numbers::GOOD
        }
        Err(fault) => adopt_status(fault),
    }
}
