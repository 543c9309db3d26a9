//! A batch that was read.

ghost use Rattle.std.specs.Prelude.{◌≡◌, length};

use coniks_chain::BODY_BYTES;
use coniks_directory::{Op, OwnedBatch};
use coniks_proof::Index;

/// Operations, and the index of each one's name.
#[derive(Drop)]
pub(crate) struct Operations {
    pub(crate) ops: Vec<Op>,
    pub(crate) indices: Vec<Index>,
    pub(crate) ghost paired: { length ops.items ≡ length indices.items },
}

/// A batch with its epoch, and what its line says of the body and of the update that it abandons.
#[derive(Drop)]
pub(crate) struct ReadBatch {
    pub(crate) epoch: u64,
    pub(crate) batch: OwnedBatch,
    pub(crate) body: Option<Option<[u8; BODY_BYTES]>>,
    pub(crate) abandons: Option<Option<[u8; BODY_BYTES]>>,
    pub(crate) ghost paired: { length batch.ops.items ≡ length batch.indices.items },
}
