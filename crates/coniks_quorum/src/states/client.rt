//! What a client consists of, as its state has it.

use crate::alarms::Alarm;
use coniks_client::changes::Change;
use coniks_client::stored::StoredEntry;
use coniks_client::watching::Watch;

/// A client of a policy: the stored epochs, the alarms of dropped ones, the marks of its auditors, and the watched name, if there is one,
/// with the changes of its key.
///
/// Without a watched name there are no changes and no alarms.
#[derive(Clone, Copy)]
pub struct Client<'a> {
    /// The digest of the policy.
    pub policy: &'a [u8; 32],
    /// The stored epochs, in the order of the chain.
    pub stored: &'a [StoredEntry],
    /// The alarms, in the order of their epochs.
    pub alarms: &'a [Alarm],
    /// The SHA-256 of the trust document, 32 zero bytes without one.
    pub trust: &'a [u8; 32],
    /// The mark of each auditor, in the order of the trust document.
    pub marks: &'a [u64],
    /// The watched name.
    pub watch: Option<Watch<'a>>,
    /// The changes of its key, in their order.
    pub changes: &'a [Change<'a>],
}
