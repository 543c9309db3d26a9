//! A collision from two histories that part.

ghost use Rattle.std.specs.Prelude.{◌≡◌, ◌↔◌, Bool, IfOk, IfSome, IfNone, IsNone, IsOk};
ghost use Rattle.coniks_proof.specs.Collisions.{IsCollision};
ghost use Rattle.coniks_proof.specs.Octets.{Octets};
ghost use Rattle.coniks_chain.specs.Chain.{GoodChain};
ghost use Rattle.coniks_chain.specs.Entries.{link_preimage};
ghost use Rattle.coniks_chain.specs.Fork.{EndsWith, IsFork, HasNoFork};
ghost use Rattle.coniks_chain.specs.Pair.{Compares};
ghost use Rattle.coniks_chain.specs.declared.entry.Entry.{Entry};

use crate::entry::{Entry, LINK_BYTES, LINK_TAG, link};
use coniks_proof::{Bytes, Collision, Hash32, OutOfMemory};
use std::alloc::{AllocError, Global};

/// Two entries, side by side.
#[derive(Clone, Copy, Debug, PartialEq, Eq)]
enum Pair {
    /// They are one entry.
    Same,
    /// Their links differ.
    LinksDiffer,
    /// They differ and have one link.
    Fork,
}

/// Compares two entries.
fn compare<H: Hash32>(h: &H, e: &Entry, f: &Entry) -> Pair
    ensures { Compares (H.digest_of h.now) e.now f.now result }
{
    if link(h, e) != link(h, f) {
        return Pair::LinksDiffer;
    }
    if e == f { Pair::Same } else { Pair::Fork }
}

/// From the ends, the first two entries that differ, if they have one link.
fn fork<H: Hash32>(h: &H, a: &[Entry], b: &[Entry]) -> Option<(Entry, Entry)>
    ensures none { IfNone result (HasNoFork (H.digest_of h.now) a.now b.now) }
    ensures some { IfSome result (λ pair. IsFork (H.digest_of h.now) a.now b.now pair.0 pair.1) }
{
    for k in 0..a.len().min(b.len()) {
        let e = a[a.len() - 1 - k];
        let f = b[b.len() - 1 - k];
        match compare(h, &e, &f) {
            Pair::Same => {}
            Pair::LinksDiffer => return None,
            Pair::Fork => return Some((e, f)),
        }
    }
    None
}

/// The 210 bytes that are hashed to an entry's link.
fn preimage(alloc: Global, entry: &Entry) -> Result<Bytes, AllocError>
    ensures { IfOk result (λ bytes. bytes ≡ link_preimage entry.now) }
{
    let mut bytes = Vec::with_capacity(alloc, LINK_BYTES)?;
    bytes.push(LINK_TAG)?;
    bytes.extend_from_slice(&entry.body.bytes())?;
    bytes.extend_from_slice(&entry.signature.0)?;
    Ok(Bytes::new(bytes))
}

/// Walks two lists of entries from their ends. At the first two entries that differ under one link, it returns the preimages
/// of their links, `x` from `a` and `y` from `b`. At two entries with different links, or at the end of a list, it returns
/// `None`. What it returns is a collision. If both lists are good chains that end in one link, `None` says that they are the
/// same: a link binds the directory to one history (CONIKS, section 3).
///
/// # Errors
///
/// `OutOfMemory` if an allocation fails. If nothing is found, none is made.
pub fn extract_history<H: Hash32>(
    alloc: Global,
    h: &H,
    a: &[Entry],
    b: &[Entry],
) -> Result<Option<Collision>, OutOfMemory>
    ensures none { IfOk result (λ found. IfNone found (HasNoFork (H.digest_of h.now) a.now b.now)) }
    ensures preimages { IfOk result
        (λ found. IfSome found (λ c. (e f : Entry) × IsFork (H.digest_of h.now) a.now b.now e f × (c.x ≡ link_preimage e) × (c.y ≡ link_preimage f))) }
    ensures collision { IfOk result (λ found. IfSome found (λ c. IsCollision (H.digest_of h.now) c.x c.y)) }
    ensures calm { HasNoFork (H.digest_of h.now) a.now b.now → IsOk result }

    // For two good chains that end in one link there is a collision, unless the chains are the same.
    ensures good { IfOk result (λ found. (verdict : Octets → Octets → Bool) (link : Octets)
        → GoodChain (H.digest_of h.now) verdict a.now → GoodChain (H.digest_of h.now) verdict b.now
        → EndsWith (H.digest_of h.now) a.now link → EndsWith (H.digest_of h.now) b.now link → IsNone found ↔ (a.now ≡ b.now)) }
{
    let (e, f) = match fork(h, a, b) {
        Some(pair) => pair,
        None => return Ok(None),
    };
    e.known();
    f.known();
    let x = preimage(alloc, &e)?;
    let y = preimage(alloc, &f)?;
    Ok(Some(Collision { x, y }))
}
