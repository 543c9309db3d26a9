//! The state of a directory at its latest epoch.

use coniks_proof::Digest;

/// The latest epoch, its entry's link, and the numbers of names and nodes.
#[derive(Clone, Copy)]
pub(crate) struct Latest {
    pub(crate) epoch: u64,
    pub(crate) link: Digest,
    pub(crate) names: usize,
    pub(crate) nodes: usize,
}
