//! The texts of errors.

ghost use Rattle.std.specs.Prelude.{◌≡◌, ◌≢◌, [], IfNone, IfSome, length};
ghost use Rattle.coniks_c.specs.Statuses.{refusal_status};
ghost use Rattle.coniks_c.specs.Texts.{audit_text, check_text, refusal_text, wire_text, written};
ghost use Rattle.coniks_c.specs.declared.text.Refusal.{Refusal as Fault};

use crate::numbers;
use coniks_chain::AuditFault;
use coniks_proof::{CheckFault, WireFault};
use std::cmp::min;

/// Why a call refuses what it was given.
#[derive(Clone, Copy, Drop)]
pub(crate) enum Refusal {
    Check(CheckFault),
    Wire(WireFault),
    Audit(AuditFault),
    EntryLength,
    NoEntry,
}

/// What has this status.
fn refusal_of(status: u32) -> Option<Refusal>
    ensures found { IfSome result (λ fault. refusal_status fault ≡ status) }
    ensures none { IfNone result ((fault : Fault) → refusal_status fault ≢ status) }
{
    Some(match status {
        numbers::TOO_DEEP => Refusal::Check(CheckFault::TooDeep),
        numbers::NAME_LENGTH => Refusal::Check(CheckFault::NameLength),
        numbers::KEY_LENGTH => Refusal::Check(CheckFault::KeyLength),
        numbers::WRONG_NAME => Refusal::Check(CheckFault::WrongName),
        numbers::OTHER_IS_SAME => Refusal::Check(CheckFault::OtherIsSame),
        numbers::OTHER_OFF_PATH => Refusal::Check(CheckFault::OtherOffPath),
        numbers::ROOT_MISMATCH => Refusal::Check(CheckFault::RootMismatch),
        numbers::NO_BYTES => Refusal::Wire(WireFault::NoBytes),
        numbers::UNKNOWN_KIND => Refusal::Wire(WireFault::UnknownKind),
        numbers::CUT_IN_COUNT => Refusal::Wire(WireFault::CutInCount),
        numbers::CUT_IN_SIBLINGS => Refusal::Wire(WireFault::CutInSiblings),
        numbers::CUT_IN_OTHER => Refusal::Wire(WireFault::CutInOther),
        numbers::CUT_IN_OPENING => Refusal::Wire(WireFault::CutInOpening),
        numbers::CUT_IN_NAME => Refusal::Wire(WireFault::CutInName),
        numbers::CUT_IN_KEY => Refusal::Wire(WireFault::CutInKey),
        numbers::BYTES_FOLLOW => Refusal::Wire(WireFault::BytesFollow),
        numbers::VERSION_UNKNOWN => Refusal::Audit(AuditFault::Version),
        numbers::VERSION_BACK => Refusal::Audit(AuditFault::VersionBack),
        numbers::FIRST_EPOCH => Refusal::Audit(AuditFault::FirstEpoch),
        numbers::NOT_LATER => Refusal::Audit(AuditFault::NotLater),
        numbers::PREVIOUS_EPOCH => Refusal::Audit(AuditFault::PreviousEpoch),
        numbers::PREVIOUS_LINK => Refusal::Audit(AuditFault::PreviousLink),
        numbers::NONCE_CHANGED => Refusal::Audit(AuditFault::NonceChanged),
        numbers::SIGNATURE => Refusal::Audit(AuditFault::Verdict),
        numbers::ENTRY_LENGTH => Refusal::EntryLength,
        numbers::NO_ENTRY => Refusal::NoEntry,
        _ => return None,
    })
}

/// Returns the text of an error of a proof.
fn check_text(fault: CheckFault) -> &'static str
    ensures { result.now ≡ check_text fault }
{
    match fault {
        // formats.toml: proof
        CheckFault::TooDeep => "the proof has more than 256 siblings",
        CheckFault::NameLength => "the name is empty or longer than 255 bytes",
        CheckFault::KeyLength => "the proof's key is empty or longer than 16384 bytes",
        CheckFault::WrongName => "the proof's leaf contains another name",
        CheckFault::OtherIsSame => "the proof's other index is the requested index",
        CheckFault::OtherOffPath =>
            "the proof's other index isn't on the path to the requested index",
        CheckFault::RootMismatch => "the root computed from the proof isn't the expected root",
        // formats.toml: end
    }
}

/// What is stated about bytes that are no proof's.
fn wire_text(fault: WireFault) -> &'static str
    ensures { result.now ≡ wire_text fault }
{
    match fault {
        // formats.toml: wire
        WireFault::NoBytes => "there are no bytes",
        WireFault::UnknownKind => "the first byte is no kind of proof",
        WireFault::CutInCount => "the bytes end within the number of siblings",
        WireFault::CutInSiblings => "the bytes end within the siblings",
        WireFault::CutInOther => "the bytes end within the other index or its commitment",
        WireFault::CutInOpening => "the bytes end within the opening",
        WireFault::CutInName => "the bytes end within the name or its length",
        WireFault::CutInKey => "the bytes end within the key or its length",
        WireFault::BytesFollow => "bytes follow the proof",
        // formats.toml: end
    }
}

/// Returns the text of an error of an entry.
fn audit_text(fault: AuditFault) -> &'static str
    ensures { result.now ≡ audit_text fault }
{
    match fault {
        // formats.toml: chain
        AuditFault::Version => "the version is neither 1 nor 2",
        AuditFault::VersionBack => "the version is lower than that of the entry before",
        AuditFault::FirstEpoch => "the first epoch is 0",
        AuditFault::NotLater => "the epoch isn't later than that of the entry before",
        AuditFault::PreviousEpoch => "the previous epoch isn't that of the entry before",
        AuditFault::PreviousLink => "the previous link isn't that of the entry before",
        AuditFault::NonceChanged => "the version is 1 and the nonce isn't that of the entry before",
        AuditFault::Verdict => "the signature isn't valid for this body",
        // formats.toml: end
    }
}

/// What is stated about a refusal.
fn text_of(refusal: Refusal) -> &'static str
    ensures { result.now ≡ refusal_text refusal }
{
    match refusal {
        Refusal::Check(fault) => check_text(fault),
        Refusal::Wire(fault) => wire_text(fault),
        Refusal::Audit(fault) => audit_text(fault),
        // formats.toml: others
        Refusal::EntryLength => "the entry isn't 209 bytes long",
        Refusal::NoEntry => "no entry was accepted yet",
        // formats.toml: end
    }
}

/// Writes a text and a zero byte after it, the text cut to the room that is left for it.
fn write(text: &[u8], place: &mut [u8])
    ensures { place.new ≡ written place.old text.now }
{
    if place.is_empty() {
        return;
    }
    let count = min(text.len(), place.len() - 1);
    place[..count].copy_from_slice(&text[..count]);
    place[count] = 0;
}

/// Writes the text of a status, in English and ASCII, and a zero byte after it, as `snprintf` does: at most as many bytes as
/// the place has, the last one 0. Returns the length of the whole text without its zero byte. The text of a number that is
/// no error's status is empty.
#[unsafe(no_mangle)]
pub extern "C" fn coniks_text(status: u32, text: &mut [u8]) -> usize
    ensures stated { (fault : Fault) → refusal_status fault ≡ status
        → (result ≡ length (refusal_text fault)) × (text.new ≡ written text.old (refusal_text fault)) }
    ensures nothing { ((fault : Fault) → refusal_status fault ≢ status) → (result ≡ 0) × (text.new ≡ written text.old []) }
{
    let Some(refusal) = refusal_of(status) else {
        write(b"", text);
        return 0;
    };
    let whole = text_of(refusal).as_bytes();
    write(whole, text);
    whole.len()
}
