//! The directory of a CONIKS service: names bound to keys, epoch by epoch.
//!
//! It has a signed chain of roots, presence proofs and absence proofs (Melara, Blankstein, Bonneau, Felten, Freedman:
//! CONIKS, USENIX Security 2015, sections 3 and 4).
//!
//! `prepare` checks a batch of operations and builds its epoch's tree with several worker threads, and only reads the
//! directory. `install` installs the update. It allocates all memory before it requests the signature, and nothing can
//! fail after that. Every epoch is retained: `lookup`, `root_at` and `chain` return what was installed for an epoch.
//! `prepare_with` rotates the nonce, and rehashes the tree under the new nonce. `Restoring` restores a directory from an
//! entry and the bindings at its epoch. It continues the same chain, without the epochs before.
//!
//! You provide the hash, the index source and the signer. The publisher is that of a board (`coniks_threads`):
//!
//! ```rust
//! let mut signer = Signer::new(DemoKey { key: [8; 32] });
//! let mut directory = Directory::open(alloc, TaggedHash, INDEX, NONCE, POLICY);
//!
//! // Two workers build an epoch, apart for each prefix of one bit. The directory is only read meanwhile.
//! let update = directory.prepare(rt, &first_batch(alloc)?, 1, 2, &Open)?;
//! let nodes = update.new_nodes();
//! match directory.install(update, 1, &mut signer, &mut publisher, &board) {
//!     Ok(entry) => {
//!         let root = hex::encode(alloc, &entry.body.root.0)?;
//!         println!(rt; "epoch 1: {nodes} nodes, root {root}")?;
//!     }
//!     Err((fault, _)) => bail!("epoch 1: {fault}"),
//! }
//! ```
//!
//! A lookup returns the proof for a name at an epoch. `root_at` returns the root that the proof leads to.
//! `library_example` contains the whole program:
//!
//! ```rust
//! let proof = provider.directory.lookup(epoch, requested)?;
//! let Some(root) = provider.directory.root_at(epoch) else {
//!     bail!("there is no epoch {epoch}");
//! };
//! ```
//!
//! A provider's indices can come from another process (a VRF, RFC 9381). A batch then comes with the index of each
//! operation's name, and a lookup takes the index of its name along:
//!
//! ```rust
//! let source = SuppliedIndices::new(alloc);
//! let mut directory = Directory::open(alloc, TaggedHash, source, NONCE, POLICY);
//!
//! // Each operation comes with the index of its name. The install stores these indices.
//! let batch = OwnedBatch {
//!     nonce: None,
//!     ops,
//!     indices,
//! };
//! let parallelism = Parallelism::new(Wanted {
//!     workers: 2,
//!     depth: 1,
//! })?;
//! let update = directory.prepare_owned(rt, batch, parallelism, &Open)?;
//!
//! // The body is signed, here or elsewhere.
//! let body = directory.next_body(&update, 1);
//! let Some(signature) = key.signature(&body.bytes()) else {
//!     bail!("epoch 1 is not signed");
//! };
//! if let Err((fault, _)) = directory.install_supplied(update, Entry { body, signature }) {
//!     bail!("epoch 1: {fault}");
//! }
//! ```
//!
//! ```rust
//! // A lookup takes the index along and stores nothing.
//! let index = INDEX.index(b"mallory");
//! let found = directory.signed_lookup_at(1, b"mallory", index)?;
//! ```
#![tactic(auto)]

pub mod batch;
pub mod bindings;
pub mod build;
mod changes;
mod commitments;
mod conflicts;
pub mod directory;
pub mod epochs;
mod growth;
mod install;
mod judge;
pub mod laws;
mod lengths;
pub mod linked;
pub mod lookup;
mod name_key;
mod pending;
mod preparing;
pub mod restoring;
pub mod source;
mod state;
pub mod supplied;
pub mod supplied_batch;
mod supplied_bindings;
pub mod update;

pub use batch::{BatchFault, EpochBatch, Op, OpFault, OpKind};
pub use bindings::{BindingsFault, IndexedBinding};
pub use build::Build;
pub use directory::{Directory, Restoring};
pub use linked::LinkedEntry;
pub use lookup::{LookupAtFault, LookupFault, SignedProof};
pub use restoring::RestoreFault;
pub use source::IndexSource;
pub use supplied::{SuppliedIndices, SupplyFault, SupplyIndex};
pub use supplied_batch::{OwnedBatch, OwnedBindings, SuppliedBatchFault};
pub use update::{CommitFault, InstallFault, Prepared};
