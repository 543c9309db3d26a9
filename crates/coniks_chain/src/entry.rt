//! Signed entries, their bytes and their links.

ghost use Rattle.std.specs.Prelude.{◌≡◌, ◌++◌, ◌≤◌, ◌+◌, length, take};
ghost use Rattle.coniks_chain.specs.Entries.{IsBody, IsEntry, body_bytes, entry_bytes, entry_from, link_preimage};

use coniks_proof::{Digest, Hash32, Nonce};

/// The number of bytes of a body, which a signer signs.
pub const BODY_BYTES: usize = 145;

/// The number of bytes of an entry: those of its body and the 64 of its signature.
pub const ENTRY_BYTES: usize = 209;

/// The number of bytes that are hashed to a link: the tag and those of an entry.
pub(crate) const LINK_BYTES: usize = 210;

/// The signed tree root (STR) of one epoch, without its signature (CONIKS, section 3).
#[derive(Clone, Copy, Debug, PartialEq, Eq)]
pub struct Body {
    /// The version of the format: 1, or 2 from the first entry on that can have a new nonce.
    pub version: u8,
    /// The epoch, at least 1.
    pub t: u64,
    /// The epoch of the entry before, or 0 for the first.
    pub t_prev: u64,
    /// The root of the tree at this epoch.
    pub root: Digest,
    /// The link of the entry before, or 32 zero bytes for the first.
    pub previous: Digest,
    /// The nonce under which the tree is hashed.
    pub nonce: Nonce,
    /// The digest of the directory's policy. It can be any 32 bytes.
    pub policy: [u8; 32],
}

/// A signature of the bytes of a body.
#[derive(Clone, Copy, Debug, PartialEq, Eq)]
pub struct Signature(pub [u8; 64]);

/// A body with its signature.
#[derive(Clone, Copy, Debug, PartialEq, Eq)]
pub struct Entry {
    pub body: Body,
    pub signature: Signature,
}

/// The tag of a link's preimage.
pub(crate) const LINK_TAG: u8 = 0x53;

/// Proves that an array has its length.
pub(crate) fn full<const N: usize>(bytes: &[u8; N])
    ensures { length bytes.now ≡ N }
{
    let _ = bytes;
}

/// Writes a part after the first `at` bytes. The bytes after the part are unspecified.
fn put(bytes: &mut [u8], at: usize, part: &[u8])
    requires { at + length part.now ≤ length bytes.old }
    ensures { take (at + length part.now) bytes.new ≡ take at bytes.old ++ part.now }
{
    bytes[at..at + part.len()].copy_from_slice(part);
}

/// Returns the bytes of a slice as an array.
fn part<const N: usize>(bytes: &[u8]) -> [u8; N]
    requires { length bytes.now ≡ N }
    ensures { result ≡ bytes.now }
{
    let mut array = [0; N];
    array.copy_from_slice(bytes);
    array
}

/// Returns a body's bytes, followed by a signature's.
fn joined(body: &[u8; BODY_BYTES], signature: &[u8; 64]) -> [u8; ENTRY_BYTES]
    ensures { result ≡ body.now ++ signature.now }
{
    let mut bytes = [0; ENTRY_BYTES];
    put(&mut bytes, 0, body);
    put(&mut bytes, BODY_BYTES, signature);
    bytes
}

impl Signature {
    /// Returns the signature of two halves, one after the other, as R and S of Ed25519 (RFC 8032, section 5.1.6).
    pub fn of_halves(first: &[u8; 32], second: &[u8; 32]) -> Signature
        ensures { result.0 ≡ first.now ++ second.now }
    {
        let mut bytes = [0; 64];
        put(&mut bytes, 0, first);
        put(&mut bytes, 32, second);
        Signature(bytes)
    }
}

impl Body {
    /// Returns the 145 bytes that are signed.
    ///
    /// They are the version, the epoch, the epoch before, the root, the link before, the nonce and the policy, in this
    /// order. Numbers have their most significant byte first.
    #[tactic(auto, unfolding(crate::specs::Entries::body_bytes))]
    pub fn bytes(&self) -> [u8; BODY_BYTES]
        ensures { result ≡ body_bytes self.now }
    {
        let mut bytes = [0; BODY_BYTES];
        bytes[0] = self.version;
        put(&mut bytes, 1, &self.t.to_be_bytes());
        put(&mut bytes, 9, &self.t_prev.to_be_bytes());
        put(&mut bytes, 17, &self.root.0);
        put(&mut bytes, 49, &self.previous.0);
        put(&mut bytes, 81, &self.nonce.0);
        put(&mut bytes, 113, &self.policy);
        bytes
    }

    /// Reads the one body that has these bytes.
    ///
    /// Any 145 bytes are those of a body, whatever the version.
    pub fn read(bytes: &[u8; BODY_BYTES]) -> Body
        ensures bytes { body_bytes result ≡ bytes.now }
        ensures same { (body : Body) → IsBody body → body_bytes body ≡ bytes.now → result ≡ body }
    {
        Body {
            version: bytes[0],
            t: u64::from_be_bytes(part(&bytes[1..9])),
            t_prev: u64::from_be_bytes(part(&bytes[9..17])),
            root: Digest(part(&bytes[17..49])),
            previous: Digest(part(&bytes[49..81])),
            nonce: Nonce(part(&bytes[81..113])),
            policy: part(&bytes[113..BODY_BYTES]),
        }
    }

    /// Proves that the numbers and arrays have the sizes of their types.
    pub fn known(&self)
        ensures { IsBody self.now }
    {
        let _t = self.t;
        let _t_prev = self.t_prev;
        full(&self.root.0);
        full(&self.previous.0);
        full(&self.nonce.0);
        full(&self.policy);
    }
}

impl Entry {
    /// Returns the 209 bytes of an entry: its body's 145, and its signature's 64.
    pub fn bytes(&self) -> [u8; ENTRY_BYTES]
        ensures { result ≡ entry_bytes self.now }
    {
        joined(&self.body.bytes(), &self.signature.0)
    }

    /// Reads the one entry that has these bytes. Any 209 bytes are those of an entry.
    pub fn read(bytes: &[u8; ENTRY_BYTES]) -> Entry
        ensures from { result ≡ entry_from bytes.now }
        ensures bytes { entry_bytes result ≡ bytes.now }
        ensures same { (entry : Entry) → IsEntry entry → entry_bytes entry ≡ bytes.now → result ≡ entry }
    {
        let body = Body::read(&part(&bytes[..BODY_BYTES]));
        body.known();
        let signature = Signature(part(&bytes[BODY_BYTES..]));
        Entry { body, signature }
    }

    /// Proves that the numbers and arrays have the sizes of their types.
    pub fn known(&self)
        ensures { IsEntry self.now }
    {
        self.body.known();
        full(&self.signature.0);
    }
}

/// Returns the hash of three pieces, taken as one message.
fn hash_of_three<'a, H: Hash32>(h: &H, a: &'a [u8], b: &'a [u8], c: &'a [u8]) -> Digest
    ensures { result.0 ≡ H.digest_of h.now (a.now ++ b.now ++ c.now) }
{
    h.hash(&[a, b, c])
}

/// Returns the link of an entry, which the next entry contains.
///
/// The link is the hash of a tag, the body's bytes and the signature, 210 bytes in all.
pub fn link<H: Hash32>(h: &H, entry: &Entry) -> Digest
    ensures { result.0 ≡ H.digest_of h.now (link_preimage entry.now) }
{
    hash_of_three(h, &[LINK_TAG], &entry.body.bytes(), &entry.signature.0)
}
