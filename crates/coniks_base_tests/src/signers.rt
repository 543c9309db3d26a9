//! Verifiers and sources of signatures.

use coniks_chain::{BODY_BYTES, Signature, SignatureSource, Verify};

/// A verifier that accepts every signature.
pub struct Yes;

impl Verify for Yes {
    ghost use Rattle.std.specs.Prelude.{true};

    ghost verdict_of = { λ _ _ _. true };

    fn verdict(&self, _body: &[u8; BODY_BYTES], _signature: &Signature) -> bool {
        true
    }
}

/// A verifier that accepts one signature, for every body.
#[derive(Drop)]
pub struct Only(pub Signature);

impl Verify for Only {
    ghost use Rattle.std.specs.Str.{bytes_eq};

    ghost verdict_of = { λ only _ signature. bytes_eq signature only.0.0 };

    fn verdict(&self, _body: &[u8; BODY_BYTES], signature: &Signature) -> bool {
        signature.0 == self.0.0
    }
}

/// A source that returns the same for every body, but refuses one call, and accepts one signature. It counts its calls
/// and stores the body of the last one.
#[derive(Drop)]
pub struct Stamp {
    pub given: Option<Signature>,
    pub taken: Only,
    /// The number of the call, from 0, that returns `None`.
    pub refused_call: u64,
    pub calls: u64,
    pub requested: Option<[u8; BODY_BYTES]>,
}

impl Stamp {
    /// Returns a source that returns `given`, accepts `taken` and has not been called.
    pub fn new(given: Option<Signature>, taken: Signature, refused_call: u64) -> Stamp {
        Stamp {
            given,
            taken: Only(taken),
            refused_call,
            calls: 0,
            requested: None,
        }
    }
}

impl Verify for Stamp {
    ghost use Rattle.std.specs.Str.{bytes_eq};

    ghost verdict_of = { λ stamp _ signature. bytes_eq signature stamp.taken.0.0 };

    fn verdict(&self, body: &[u8; BODY_BYTES], signature: &Signature) -> bool {
        self.taken.verdict(body, signature)
    }
}

impl SignatureSource for Stamp {
    ghost gives = { λ _ _ _ _. Unit {0} };

    fn signature(&mut self, body: &[u8; BODY_BYTES]) -> Option<Signature> {
        let call = self.calls;
        self.calls = call.wrapping_add(1);
        self.requested = Some(*body);
        if call == self.refused_call {
            None
        } else {
            self.given
        }
    }
}
