//! What a user of the libraries provides: a hash, an index source and a source of signatures.
//!
//! Each of the three is SHA-256 with a different tag. The index and the signature are for demonstrations and claim no
//! security. A provider uses a verifiable random function (VRF) and a signature scheme instead.

ghost use Rattle.std.specs.Prelude.{◌≡◌, ◌++◌, ◌∷◌, []};
ghost use Rattle.coniks_proof.specs.Sha256.{sha256};

use coniks_chain::{BODY_BYTES, Signature, SignatureSource, Verify};
use coniks_directory::IndexSource;
use coniks_proof::{Digest, Hash32, Index, Sha256Hash};

/// SHA-256 of the byte 01 and the SHA-256 of the message.
#[derive(Clone, Copy, Drop)]
pub struct TaggedHash;

impl Hash32 for TaggedHash {
    ghost digest_of = { λ _ message. sha256 (1 ∷ sha256 message) };

    fn hash(&self, pieces: &[&[u8]]) -> Digest {
        let inner = Sha256Hash.hash(pieces);
        Sha256Hash.hash(&[&[1], &inner.0])
    }
}

/// SHA-256 of the byte 02, a key and the name.
#[derive(Clone, Copy, Drop)]
pub struct KeyedIndex {
    pub key: [u8; 32],
}

impl IndexSource for KeyedIndex {
    ghost index_of = { λ source name. sha256 (2 ∷ source.key ++ name) };

    fn index(&self, name: &[u8]) -> Index {
        Index(Sha256Hash.hash(&[&[2], &self.key, name]).0)
    }
}

/// A key whose signature is SHA-256 of the byte 03, the key and the body, written twice. Anyone who can verify it can
/// forge it.
#[derive(Clone, Copy, Drop)]
pub struct DemoKey {
    pub key: [u8; 32],
}

impl DemoKey {
    /// Returns the signature of a body's bytes.
    fn seal(&self, body: &[u8; BODY_BYTES]) -> Signature
        ensures { result.0 ≡ sha256 (3 ∷ self.now.key ++ body.now) ++ sha256 (3 ∷ self.now.key ++ body.now) }
    {
        let half = Sha256Hash.hash(&[&[3], &self.key, body]);
        Signature::of_halves(&half.0, &half.0)
    }
}

impl Verify for DemoKey {
    ghost use Rattle.std.specs.Str.{bytes_eq};

    ghost verdict_of = { λ demo body signature. bytes_eq signature (sha256 (3 ∷ demo.key ++ body) ++ sha256 (3 ∷ demo.key ++ body)) };

    fn verdict(&self, body: &[u8; BODY_BYTES], signature: &Signature) -> bool {
        signature.0 == self.seal(body).0
    }
}

impl SignatureSource for DemoKey {
    ghost use Rattle.std.specs.Prelude.{IfSome};

    ghost gives = { λ demo body given _. IfSome given (λ signature. signature.0 ≡ sha256 (3 ∷ demo.key ++ body) ++ sha256 (3 ∷ demo.key ++ body)) };

    fn signature(&mut self, body: &[u8; BODY_BYTES]) -> Option<Signature> {
        Some(self.seal(body))
    }
}
