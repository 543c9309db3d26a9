//! The demonstration seal, which claims no security.

ghost use Rattle.std.specs.Prelude.{◌≡◌, ◌<◌, ◌+◌, ◌-◌, ◌^◌, ◌∷◌, ◌++◌, None, Some, IsSome, IfSome};
ghost use Rattle.coniks_proof.specs.Sha256.{sha256};
ghost use Rattle.coniks_chain.specs.Entries.{IsBody, body_bytes, signed};
ghost use Rattle.coniks_chain.specs.declared.entry.Body.{Body};
ghost use Rattle.coniks_tool.specs.Seal.{is_seal, seal_of};

use coniks_chain::{BODY_BYTES, Entry, Sign, Signature, Signings, Verify};
use coniks_proof::{Digest, Hash32, Sha256Hash};
use std::marker::Model;

/// The byte before the preimage of the first half of a seal.
const LOW_TAG: u8 = 0x41;

/// The byte before the preimage of the second half.
const HIGH_TAG: u8 = 0x42;

/// A demonstration signer, which signs bodies under a key and verifies such signatures. It claims no security.
///
/// Anyone who can verify a signature can forge it. It never refuses. That its own signatures verify is proved, so none is
/// verified twice. Contracts see its key, the number of signatures that it made, and the last entry.
#[derive(Drop)]
pub struct DemoSeal {
    key: [u8; 32],
    signings: Signings,
}

impl Model for DemoSeal {
    ghost use Rattle.coniks_tool.specs.Seal.{Sealer};

    ghost Value = { Sealer };

    ghost view = { λ seal. record { key = seal.key; made = seal.signings.made; last = seal.signings.last } };
}

impl DemoSeal {
    /// Returns the seal of a key, which has signed nothing.
    pub fn new(key: [u8; 32]) -> DemoSeal
        ensures { result ≡ record { key = key; made = 0; last = None } }
    {
        DemoSeal {
            key,
            signings: Signings::none(),
        }
    }

    /// Returns SHA-256 of a tag, the key and a body.
    fn half(&self, tag: u8, body: &[u8; BODY_BYTES]) -> Digest
        ensures { result.0 ≡ sha256 (tag ∷ self.now.key ++ body.now) }
    {
        Sha256Hash.hash(&[&[tag], &self.key, body])
    }

    /// Returns the seal of a body's bytes.
    fn seal(&self, body: &[u8; BODY_BYTES]) -> Signature
        ensures { result.0 ≡ seal_of self.now.key body.now }
    {
        let low = self.half(LOW_TAG, body);
        let high = self.half(HIGH_TAG, body);
        Signature::of_halves(&low.0, &high.0)
    }
}

impl Verify for DemoSeal {
    ghost use Rattle.coniks_tool.specs.Seal.{is_seal};

    ghost verdict_of = { λ seal body signature. is_seal seal.key body signature };

    /// Returns whether the signature is the seal of the body.
    ///
    /// The first half of the seal is SHA-256 of the byte 41 (hexadecimal), the key and the body. The second half is
    /// SHA-256 of the byte 42, the key and the body.
    fn verdict(&self, body: &[u8; BODY_BYTES], signature: &Signature) -> bool {
        signature.0 == self.seal(body).0
    }
}

impl Sign for DemoSeal {
    ghost use Rattle.std.specs.Prelude.{IfSome};
    ghost use Rattle.coniks_tool.specs.Seal.{seal_of};

    ghost signs = { λ seal body result _. IfSome result (λ signature. signature.0 ≡ seal_of seal.key body) };

    ghost made_of = { λ seal. seal.made };

    ghost refused_of = { λ _. 0 };

    ghost last_of = { λ seal. seal.last };

    /// Returns the one signature that verifies.
    fn sign(&mut self, body: &[u8; BODY_BYTES]) -> Option<Signature>
        requires made_below { self.old.made < 2 ^ 64 - 1 }
        ensures given { IsSome result }
        ensures seal { IfSome result (λ signature. signature.0 ≡ seal_of self.old.key body.now) }
        ensures made { self.new.made ≡ self.old.made + 1 }
        ensures key { self.new.key ≡ self.old.key }
        ensures last { IfSome result (λ signature. (b : Body) → IsBody b → body_bytes b ≡ body.now → self.new.last ≡ Some (signed b signature)) }
    {
        let signature = self.seal(body);
        self.signings.signed(body, signature);
        Some(signature)
    }

    fn made(&self) -> u64 {
        self.signings.made
    }

    fn refused(&self) -> u64 {
        0
    }

    fn last(&self) -> Option<Entry> {
        self.signings.last
    }
}
