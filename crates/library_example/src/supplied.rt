//! A provider whose indices another process computes: they come with the batches.

use crate::own::{DemoKey, TaggedHash};
use crate::provider::{INDEX, NONCE, POLICY, first_batch};
use anyhow::{Result, bail};
use coniks_chain::{Entry, SignatureSource};
use coniks_directory::{Directory, IndexSource, OwnedBatch, SuppliedIndices};
use coniks_proof::{Answer, check};
use coniks_threads::{Open, Parallelism, Wanted};
use std::thread::Threads;

/// Registers two names at the indices that come with their batch, and looks up a third one, whose index isn't stored.
pub fn supplied_indices<R: Threads + Sync + Print + AllocGlobal>(rt: &R) -> Result<()> {
    let alloc = rt.alloc();
    let mut key = DemoKey { key: [8; 32] };
    let indices = [INDEX.index(b"alice"), INDEX.index(b"bob")];
    let indices = Vec::from_slice(alloc, &indices)?;
    let ops = first_batch(alloc)?;

    let source = SuppliedIndices::new(alloc);
    let mut directory = Directory::open(alloc, TaggedHash, source, NONCE, POLICY);

    // Each operation comes with the index of its name. The install stores these indices.
    let batch = OwnedBatch {
        nonce: None,
        ops,
        indices,
    };
    let parallelism = Parallelism::new(Wanted {
        workers: 2,
        depth: 1,
    })?;
    let update = directory.prepare_owned(rt, batch, parallelism, &Open)?;

    // The body is signed, here or elsewhere.
    let body = directory.next_body(&update, 1);
    let Some(signature) = key.signature(&body.bytes()) else {
        bail!("epoch 1 is not signed");
    };
    if let Err((fault, _)) = directory.install_supplied(update, Entry { body, signature }) {
        bail!("epoch 1: {fault}");
    }

    // A lookup takes the index along and stores nothing.
    let index = INDEX.index(b"mallory");
    let found = directory.signed_lookup_at(1, b"mallory", index)?;
    let Some(root) = directory.root_at(1) else {
        bail!("there is no epoch 1");
    };
    match check(&TaggedHash, &NONCE, &root, &index, b"mallory", &found.proof)? {
        Answer::Key(key) => println!(rt; "by supplied indices: a key of {} bytes", key.len())?,
        Answer::Absent => {
            let root = hex::encode(alloc, &root.0)?;
            println!(rt; "by supplied indices: root {root}, mallory is not registered")?;
        }
    }
    Ok(())
}
