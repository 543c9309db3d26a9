//! What clients and auditors do: check proofs, audit the chain and watch a name.

use crate::own::TaggedHash;
use crate::provider::{INDEX, NONCE, Provider};
use anyhow::{Result, bail};
use coniks_chain::{Auditor, Monitor, Seen};
use coniks_directory::IndexSource;
use coniks_proof::{Answer, Bytes, check};
use std::alloc::Global;

/// Looks a name up at an epoch, and checks the proof against the epoch's root.
pub fn look_up<R: Print>(rt: &R, provider: &Provider, epoch: u64, name: &str) -> Result<()> {
    let requested = name.as_bytes();
    let proof = provider.directory.lookup(epoch, requested)?;
    let Some(root) = provider.directory.root_at(epoch) else {
        bail!("there is no epoch {epoch}");
    };

    // A client computes the index itself, and has the root from an entry that it has audited.
    let index = INDEX.index(requested);
    match check(&TaggedHash, &NONCE, &root, &index, requested, &proof)? {
        Answer::Key(key) => println!(rt; "{name} at epoch {epoch}: a key of {} bytes", key.len())?,
        Answer::Absent => println!(rt; "{name} at epoch {epoch}: not registered")?,
    }
    Ok(())
}

/// Audits the provider's chain, entry by entry.
pub fn audit<R: Print + AllocGlobal>(rt: &R, provider: &Provider) -> Result<()> {
    let mut auditor = Auditor::new(TaggedHash);
    for entry in provider.directory.chain() {
        auditor.feed(entry, &provider.signer)?;
    }
    if let Some(head) = auditor.head() {
        let link = hex::encode(rt.alloc(), &head.link.0)?;
        println!(rt; "the chain is good up to epoch {}, link {link}", head.epoch)?;
    }
    Ok(())
}

/// Returns a monitor of a name, for a client that expects a key.
fn monitor_of(alloc: Global, name: &str, key: &str) -> Result<Monitor<TaggedHash>> {
    let index = INDEX.index(name.as_bytes());
    let name = Bytes::copy_of(alloc, name.as_bytes())?;
    let key = Bytes::copy_of(alloc, key.as_bytes())?;
    Ok(Monitor::new(TaggedHash, name, index, Some(key)))
}

/// Watches a name over the chain: each entry is audited, and the proof for the name is checked under it.
pub fn watch<R: Print + AllocGlobal>(rt: &R, provider: &Provider, name: &str) -> Result<()> {
    let mut monitor = monitor_of(rt.alloc(), name, "bob's key")?;
    for entry in provider.directory.chain() {
        let epoch = entry.body.t;
        let proof = provider.directory.lookup(epoch, name.as_bytes())?;
        match monitor.step(entry, &proof, &provider.signer)? {
            Seen::Same => println!(rt; "{name} at epoch {epoch}: the expected key")?,
            Seen::Changed => println!(rt; "{name} at epoch {epoch}: another key")?,
            Seen::Absent => println!(rt; "{name} at epoch {epoch}: no key")?,
        }
    }
    Ok(())
}
