//! Results of lookups, as a client checks them.

use crate::tests::clerk::Letters;
use coniks_base_tests::NONCE;
use coniks_directory::{Directory, IndexSource, LookupFault};
use coniks_proof::{Answer, CheckFault, Sha256Hash, check};

/// The result of a lookup, after its proof is checked against the epoch's root.
#[derive(Clone, Copy, Debug, PartialEq, Eq)]
pub enum Reported {
    /// The lookup returns this error.
    Missed(LookupFault),
    /// There is no root, or the proof is refused with this error.
    Refused(Option<CheckFault>),
    /// The name is absent. The proof has this number of siblings.
    Absent(usize),
    /// The name has a key. The proof has this number of siblings, and the key begins with this byte.
    Key(usize, u8),
}

/// Looks up a name at an epoch, and checks the proof under the nonce of `open`.
pub fn requested(directory: &Directory<Sha256Hash, Letters>, t: u64, name: &str) -> Reported {
    let name = name.as_bytes();
    let proof = match directory.lookup(t, name) {
        Ok(proof) => proof,
        Err(fault) => return Reported::Missed(fault),
    };
    let Some(root) = directory.root_at(t) else {
        return Reported::Refused(None);
    };
    let siblings = proof.siblings.as_slice().len();
    match check(
        &Sha256Hash,
        &NONCE,
        &root,
        &Letters.index(name),
        name,
        &proof,
    ) {
        Err(fault) => Reported::Refused(Some(fault)),
        Ok(Answer::Absent) => Reported::Absent(siblings),
        Ok(Answer::Key(key)) => Reported::Key(siblings, key.first().copied().unwrap_or(0)),
    }
}
