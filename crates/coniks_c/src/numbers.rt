//! The numbers that the calls return. Generated from formats.toml by scripts/tables.

/// Success: a key is shown, an entry follows, the expected key is seen, or bytes were written.
pub const GOOD: u32 = 0;

/// The proof is accepted; the name is bound to no key.
pub const ABSENT: u32 = 1;

/// Of coniks_monitor_step: the proof is accepted, and does not show what is expected.
pub const CHANGED: u32 = 9;

/// Of coniks_convicts: the entries are no evidence of equivocation.
pub const NO_EVIDENCE: u32 = 50;

/// The proof has more than 256 siblings.
pub const TOO_DEEP: u32 = 2;

/// The name is empty or longer than 255 bytes.
pub const NAME_LENGTH: u32 = 3;

/// The proof's key is empty or longer than 16384 bytes.
pub const KEY_LENGTH: u32 = 4;

/// The proof's leaf contains another name.
pub const WRONG_NAME: u32 = 5;

/// The proof's other index is the requested index.
pub const OTHER_IS_SAME: u32 = 6;

/// The proof's other index isn't on the path to the requested index.
pub const OTHER_OFF_PATH: u32 = 7;

/// The root computed from the proof isn't the expected root.
pub const ROOT_MISMATCH: u32 = 8;

/// There are no bytes.
pub const NO_BYTES: u32 = 17;

/// The first byte is not 0, 1 or 2.
pub const UNKNOWN_KIND: u32 = 18;

/// The bytes end within the number of siblings.
pub const CUT_IN_COUNT: u32 = 19;

/// The bytes end within the siblings.
pub const CUT_IN_SIBLINGS: u32 = 20;

/// The bytes end within the other index or its commitment.
pub const CUT_IN_OTHER: u32 = 21;

/// The bytes end within the opening.
pub const CUT_IN_OPENING: u32 = 22;

/// The bytes end within the name or its length.
pub const CUT_IN_NAME: u32 = 23;

/// The bytes end within the key or its length.
pub const CUT_IN_KEY: u32 = 24;

/// Bytes follow the proof.
pub const BYTES_FOLLOW: u32 = 25;

/// The version is neither 1 nor 2.
pub const VERSION_UNKNOWN: u32 = 33;

/// The version is lower than that of the entry before.
pub const VERSION_BACK: u32 = 34;

/// The first epoch is 0.
pub const FIRST_EPOCH: u32 = 35;

/// The epoch isn't later than that of the entry before.
pub const NOT_LATER: u32 = 36;

/// The previous epoch isn't that of the entry before.
pub const PREVIOUS_EPOCH: u32 = 37;

/// The previous link isn't that of the entry before.
pub const PREVIOUS_LINK: u32 = 38;

/// The version is 1 and the nonce isn't that of the entry before.
pub const NONCE_CHANGED: u32 = 39;

/// The signature isn't valid for the body, as the caller has verified it.
pub const SIGNATURE: u32 = 40;

/// The entry isn't 209 bytes long.
pub const ENTRY_LENGTH: u32 = 48;

/// No entry was accepted yet.
pub const NO_ENTRY: u32 = 49;

/// The reply has no byte.
pub const NO_REPLY: u32 = 64;

/// The reply's first byte is not 1.
pub const REPLY_VERSION: u32 = 65;

/// The reply ends before its entry does.
pub const CUT_IN_ENTRY: u32 = 66;

/// The reply or the history ends within the VRF proof or its length.
pub const CUT_IN_VRF: u32 = 67;

/// The number of a catch-up's bytes is not a multiple of 209.
pub const CATCH_UP_LENGTH: u32 = 68;

/// The history has no byte.
pub const NO_HISTORY: u32 = 69;

/// The history's first byte is not 1.
pub const HISTORY_VERSION: u32 = 70;

/// The history ends within a step.
pub const CUT_IN_STEP: u32 = 71;

/// A step's epoch is not greater than the one before.
pub const EPOCH_ORDER: u32 = 72;

/// The kind of a step's end is greater than 3, or 3 in the first step.
pub const UNKNOWN_END: u32 = 73;

/// A map has a spare bit, or a sibling is neither sent nor in the step before.
pub const SIBLING_MAP: u32 = 74;

/// A sibling is sent that equals the one in its place of the step before.
pub const SIBLING_REPEATED: u32 = 75;

/// An end is sent that equals the one of the step before.
pub const END_REPEATED: u32 = 76;

/// The signed entry has another policy digest than the directory's.
pub const OTHER_POLICY: u32 = 80;

/// No chain has the signed entry.
pub const MALFORMED: u32 = 81;

/// The signed entry and a stored one are evidence.
pub const EQUIVOCATION: u32 = 82;

/// The chain has no entry at this epoch.
pub const UNKNOWN_EPOCH: u32 = 83;

/// The reply's body is not that of the client's entry at the requested epoch.
pub const OTHER_EPOCH: u32 = 84;

/// The latest epoch began too long ago.
pub const STALE: u32 = 85;

/// The latest epoch begins too far in the future.
pub const FUTURE: u32 = 86;

/// The VRF proof is not one of this name.
pub const VRF_PROOF: u32 = 87;

/// The succession ends another policy.
pub const SUCCESSION_POLICY: u32 = 88;

/// The signature of the succession is not valid, or the policy has no such key.
pub const SUCCESSION_SIGNATURE: u32 = 89;

/// The succession names another policy to go on.
pub const NEXT_POLICY: u32 = 90;

/// Another stored entry covers the last epoch.
pub const CHAIN_DIFFERS: u32 = 91;

/// The succession names another first entry of the next chain.
pub const OTHER_START: u32 = 92;

/// The state has fewer than 110 bytes.
pub const STATE_LENGTH: u32 = 96;

/// The state's first byte is not 3.
pub const STATE_VERSION: u32 = 97;

/// The state's digest is not that of the bytes before it.
pub const STATE_DAMAGED: u32 = 98;

/// The state's policy digest is not that of the client.
pub const STATE_POLICY: u32 = 99;

/// A part of the state has a form that no state has, or bytes follow.
pub const STATE_FORM: u32 = 100;

/// The entries in the state are no chain of this directory.
pub const STATE_CHAIN: u32 = 101;

/// Fewer auditors than a quorum have the entry's head.
pub const NOT_VOUCHED: u32 = 104;

/// An auditor has another link for the entry's epoch.
pub const AUDITORS_DIFFER: u32 = 105;

/// A watched name has no byte, or more than 255.
pub const MISUSE_NAME: u32 = 130;

/// An expected key has 2^32 bytes or more.
pub const MISUSE_EXPECTED_KEY: u32 = 131;

/// Another name, another key, or from another epoch on is watched.
pub const MISUSE_OTHER_WATCH: u32 = 132;

/// No name is watched.
pub const MISUSE_NOT_WATCHING: u32 = 133;

/// Another change of the key is open.
pub const MISUSE_CHANGE_OPEN: u32 = 134;

/// The new key is the one that is expected already.
pub const MISUSE_SAME_KEY: u32 = 135;

/// The epoch by which the new key is expected is not after the latest one.
pub const MISUSE_NOT_LATER: u32 = 136;

/// The caller's memory has no room for what is written.
pub const MISUSE_NO_ROOM: u32 = 137;

/// There is no mark at the place.
pub const MISUSE_NO_AUDITOR: u32 = 138;

/// No quorum of auditors confirms an epoch, or this one.
pub const MISUSE_NOT_CONFIRMED: u32 = 139;

/// The client that starts has an entry already.
pub const MISUSE_HAS_ENTRIES: u32 = 140;

/// The quorum is 0.
pub const MISUSE_NO_QUORUM: u32 = 141;

/// There are more than 64 heads.
pub const MISUSE_MANY_HEADS: u32 = 142;

/// A state has no room for the client: see coniks_core_state_size.
pub const MISUSE_NO_STATE: u32 = 143;

/// No chain has such a body.
pub const GUARD_MALFORMED: u32 = 112;

/// It follows an epoch, and there is no signed entry.
pub const GUARD_NOTHING_RECORDED: u32 = 113;

/// It is a first body, nothing is signed, and the caller allows none.
pub const GUARD_BEGINS_UNASKED: u32 = 114;

/// It is a first body, and there is a signed entry.
pub const GUARD_BEGINS_AGAIN: u32 = 115;

/// Its policy digest is not that of the signed entry.
pub const GUARD_OTHER_POLICY: u32 = 116;

/// The epoch before it is earlier than that of the signed entry.
pub const GUARD_LOG_BEHIND: u32 = 117;

/// The epoch before it is later than that of the signed entry.
pub const GUARD_RECORD_BEHIND: u32 = 118;

/// Its previous link is not that of the signed entry.
pub const GUARD_OTHER_LINK: u32 = 119;

/// Its version is lower than that of the signed entry.
pub const GUARD_VERSION_BACK: u32 = 120;

/// Its version is 1, and its nonce is not that of the signed entry.
pub const GUARD_NONCE_CHANGED: u32 = 121;

/// Another body is open; also of a signature that is to be replaced.
pub const GUARD_OTHER_OPEN: u32 = 122;

/// The body is not open: another step came between.
pub const GUARD_NOT_ASKED: u32 = 123;

/// The epoch before it is earlier than that of the signed entry.
pub const GUARD_MAY_BE_SIGNED: u32 = 124;

/// The epoch before it is later than that of the signed entry.
pub const GUARD_RECORD_OLD: u32 = 125;

/// The record has anything but this entry.
pub const GUARD_OTHER_BODIES: u32 = 126;

/// No chain has such an entry.
pub const GUARD_NO_ENTRY: u32 = 127;

/// Different bodies whose intervals (previous epoch, epoch] overlap.
pub const EVIDENCE_OVERLAP: u32 = 1;

/// Different policy digests.
pub const EVIDENCE_OTHER_POLICY: u32 = 2;

/// One is in no chain: its version, its epochs or its first link is wrong.
pub const EVIDENCE_MALFORMED: u32 = 3;
