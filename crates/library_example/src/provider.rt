//! A provider: a directory with two epochs, and the board that its watchers read.

ghost use Rattle.std.specs.Prelude.{◌≡◌, IfOk, length};

use crate::own::{DemoKey, KeyedIndex, TaggedHash};
use anyhow::{Result, bail};
use coniks_chain::Signer;
use coniks_directory::{Directory, Op, OpKind};
use coniks_proof::{Bytes, Nonce, Opening};
use coniks_threads::{Board, Open};
use std::alloc::{AllocError, Global};
use std::thread::Threads;

/// The nonce that is hashed into each leaf and each empty node of the provider's trees.
pub const NONCE: Nonce = Nonce([4; 32]);

/// The source of the indices of the provider's names.
pub const INDEX: KeyedIndex = KeyedIndex { key: [5; 32] };

/// The digest of a policy, which each entry contains.
pub const POLICY: [u8; 32] = [6; 32];

/// A directory, and the signer of its entries.
#[derive(Drop)]
pub struct Provider {
    pub directory: Directory<TaggedHash, KeyedIndex>,
    pub signer: Signer<DemoKey>,
}

/// Returns an operation that registers a name, or changes its key.
fn operation(alloc: Global, kind: OpKind, name: &str, key: &str) -> Result<Op, AllocError> {
    Ok(Op {
        kind,
        name: Bytes::copy_of(alloc, name.as_bytes())?,
        key: Bytes::copy_of(alloc, key.as_bytes())?,
        opening: Opening([7; 32]),
    })
}

/// Returns the batch of the first epoch, which has two operations.
pub fn first_batch(alloc: Global) -> Result<Vec<Op>, AllocError>
    ensures { IfOk result (λ ops. length ops.items ≡ 2) }
{
    let alice = operation(alloc, OpKind::Register, "alice", "alice's key")?;
    let bob = operation(alloc, OpKind::Register, "bob", "bob's key")?;
    Ok(vec![in alloc; alice, bob]?)
}

/// Returns the batch of the second epoch.
fn second_batch(alloc: Global) -> Result<Vec<Op>, AllocError> {
    let bob = operation(alloc, OpKind::Change, "bob", "bob's new key")?;
    Ok(vec![in alloc; bob]?)
}

/// Opens a directory and installs two epochs, while a watcher reads the board.
pub fn two_epochs<R: Threads + Sync + Print + AllocGlobal>(rt: &R) -> Result<Provider> {
    let alloc = rt.alloc();
    let (board, mut publisher) = Board::new(alloc, 8)?;
    let mut watcher = publisher.watcher(&board)?;

    let mut signer = Signer::new(DemoKey { key: [8; 32] });
    let mut directory = Directory::open(alloc, TaggedHash, INDEX, NONCE, POLICY);

    // Two workers build an epoch, apart for each prefix of one bit. The directory is only read meanwhile.
    let update = directory.prepare(rt, &first_batch(alloc)?, 1, 2, &Open)?;
    let nodes = update.new_nodes();
    match directory.install(update, 1, &mut signer, &mut publisher, &board) {
        Ok(entry) => {
            let root = hex::encode(alloc, &entry.body.root.0)?;
            println!(rt; "epoch 1: {nodes} nodes, root {root}")?;
        }
        Err((fault, _)) => bail!("epoch 1: {fault}"),
    }
    if let Some(head) = watcher.latest(&board) {
        println!(rt; "the watcher saw epoch {}", head.epoch)?;
    }

    // `commit` prepares and installs in one call.
    let (ops, depth, workers, epoch) = (second_batch(alloc)?, 1, 2, 2);
    let entry = directory.commit(
        rt,
        &ops,
        depth,
        workers,
        &Open,
        epoch,
        &mut signer,
        &mut publisher,
        &board,
    )?;
    let root = hex::encode(alloc, &entry.body.root.0)?;
    println!(rt; "epoch 2: root {root}")?;
    if let Some(head) = watcher.latest(&board) {
        println!(rt; "the watcher saw epoch {}", head.epoch)?;
    }
    Ok(Provider { directory, signer })
}
