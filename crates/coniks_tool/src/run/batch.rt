//! A batch that was read.

use coniks_directory::Op;

/// A batch of a line: the epoch that it is to be, the new nonce, if it has one, and its operations.
#[derive(Drop)]
pub struct Batch {
    pub epoch: u64,
    pub new_nonce: Option<[u8; 32]>,
    pub ops: Vec<Op>,
}
