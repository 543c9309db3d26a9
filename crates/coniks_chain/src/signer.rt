//! Signers of bodies, and the verification of their signatures.

ghost use Rattle.std.specs.Prelude.{◌≡◌, ◌<◌, ◌+◌, ◌-◌, ◌^◌, ℕ, Bool, true, Option, Some, None, IfSome, IfNone};
ghost use Rattle.coniks_proof.specs.Octets.{Octets};
ghost use Rattle.coniks_chain.specs.Entries.{IsBody, body_bytes, signed};
ghost use Rattle.coniks_chain.specs.Signing.{verified};
ghost use Rattle.coniks_chain.specs.declared.entry.Signature.{Signature};

use crate::entry::{BODY_BYTES, Body, Entry, Signature};

/// Verifies signatures.
pub trait Verify {
    /// The verification result for a body's bytes and a signature.
    ghost verdict_of: { Self → Octets → Octets → Bool };

    /// Returns whether the signature is one for the bytes of the body.
    fn verdict(&self, body: &[u8; BODY_BYTES], signature: &Signature) -> bool
        ensures { result ≡ verdict_of self.now body.now signature.now.0 };
}

/// Signs bodies or refuses to, and counts both.
///
/// A type that implements this trait proves the verification result of each signature that it returns. Most types
/// implement `SignatureSource` instead, and `Signer` makes a signer of them.
pub trait Sign: Verify {
    ghost use Rattle.coniks_chain.specs.declared.entry.Body.{Body};
    ghost use Rattle.coniks_chain.specs.declared.entry.Entry.{Entry};
    ghost use Rattle.coniks_chain.specs.declared.entry.Signature.{Signature};

    /// One call of `sign`: the signer, the bytes, the signature that it returns or `None`, and the signer after the call.
    ghost signs: { Self → Octets → Option Signature → Self → Type 0 };

    /// The number of signatures that it returned.
    ghost made_of: { Self → ℕ };

    /// The number of calls in which it returned none.
    ghost refused_of: { Self → ℕ };

    /// The last body that it signed, with the signature.
    ghost last_of: { Self → Option Entry };

    /// Signs the bytes of a body, or returns `None` if the signer refuses.
    ///
    /// One of the two counts increases by 1, and both are below 2^64 - 1 before the call. No verification result changes.
    fn sign(&mut self, body: &[u8; BODY_BYTES]) -> Option<Signature>
        requires made_below { made_of self.old < 2 ^ 64 - 1 }
        requires refused_below { refused_of self.old < 2 ^ 64 - 1 }
        ensures signs { signs self.old body.now result self.new }
        ensures made { IfSome result (λ _. (made_of self.new ≡ made_of self.old + 1) × (refused_of self.new ≡ refused_of self.old)) }
        ensures refused { IfNone result ((refused_of self.new ≡ refused_of self.old + 1) × (made_of self.new ≡ made_of self.old)) }
        ensures verdict { IfSome result (λ signature. Self.verdict_of self.new body.now signature.0 ≡ true) }

        // The body is the one that has these bytes.
        ensures last { IfSome result (λ signature. (b : Body) → IsBody b → body_bytes b ≡ body.now → last_of self.new ≡ Some (signed b signature)) }
        ensures last_retained { IfNone result (last_of self.new ≡ last_of self.old) }
        ensures verdicts_retained { (bytes signature : Octets) → Self.verdict_of self.new bytes signature ≡ Self.verdict_of self.old bytes signature };

    /// Returns the number of signatures that it returned.
    fn made(&self) -> u64
        ensures { result ≡ made_of self.now };

    /// Returns the number of calls in which it returned none.
    fn refused(&self) -> u64
        ensures { result ≡ refused_of self.now };

    /// Returns the last body that it signed, with the signature, or `None` before the first.
    fn last(&self) -> Option<Entry>
        ensures { result ≡ last_of self.now };
}

/// The counts of a signer, and the last body that it signed, with the signature.
///
/// A signer that proves its own verification results keeps one. For any other there is `Signer`.
#[derive(Clone, Copy, Debug, PartialEq, Eq)]
pub struct Signings {
    pub made: u64,
    pub refused: u64,
    pub last: Option<Entry>,
}

impl Signings {
    /// Returns the counts of a signer that has not been called.
    pub fn none() -> Signings
        ensures { result ≡ record { made = 0; refused = 0; last = None } }
    {
        Signings {
            made: 0,
            refused: 0,
            last: None,
        }
    }

    /// Counts a signature, and stores it with the body that has these bytes.
    pub fn signed(&mut self, body: &[u8; BODY_BYTES], signature: Signature)
        requires { self.old.made < 2 ^ 64 - 1 }
        ensures made { self.new.made ≡ self.old.made + 1 }
        ensures refused { self.new.refused ≡ self.old.refused }
        ensures last { (b : Body) → IsBody b → body_bytes b ≡ body.now → self.new.last ≡ Some (signed b signature) }
    {
        self.made += 1;
        self.last = Some(Entry {
            body: Body::read(body),
            signature,
        });
    }

    /// Counts a refusal.
    pub fn refused(&mut self)
        requires { self.old.refused < 2 ^ 64 - 1 }
        ensures { self.new ≡ record self.old { refused = self.old.refused + 1 } }
    {
        self.refused += 1;
    }
}

/// A source of signatures: a key in memory, a device or another process. `Signer` makes a signer of it.
///
/// If another process makes the signatures, the source stores the body and returns `None` until the signature has
/// arrived:
///
/// ```rust
/// impl SignatureSource for Desk {
///     ghost gives = { λ desk body given after. given ≡ desk.arrived };
///
///     fn signature(&mut self, body: &[u8; BODY_BYTES]) -> Option<Signature> {
///         self.wanted = Some(*body);
///         self.arrived.take()
///     }
/// }
/// ```
///
/// The directory's `install` then returns `SignerRefused` with the update. Installed again at the same epoch, the update
/// requests the same body, and is installed with the signature that has arrived:
///
/// ```rust
/// let (_, update) = refused.err().expect(rt, "a refusal");
/// signer.source.arrived = Some(made_outside(&body));
/// let installed = directory.install(update, 1, &mut signer, &mut publisher, &board);
/// ```
pub trait SignatureSource: Verify {
    ghost use Rattle.coniks_chain.specs.declared.entry.Signature.{Signature};

    /// One call of `signature`: the source, the bytes, the signature that it returns or `None`, and the source after the
    /// call.
    ///
    /// A source defines what its users know of a call, or `λ _ _ _ _. Unit {0}` if they need nothing. `Signer` and the
    /// directory promise that such a call was made, once and for the body that is signed.
    ghost gives: { Self → Octets → Option Signature → Self → Type 0 };

    /// Returns a signature for the bytes of a body, or `None` if there is none.
    ///
    /// `None` says that the body was not signed, and will not be unless it is requested again: the caller may install
    /// another update. If the body is signed all the same, two different bodies follow one entry, and whoever has both
    /// can convict the signer (`evidence::convicts`). So a caller whose signatures arrive later installs only the same
    /// update again, or signs through a process that refuses the first body for ever.
    ///
    /// The signature can be a wrong one. No verification result changes.
    fn signature(&mut self, body: &[u8; BODY_BYTES]) -> Option<Signature>
        ensures gives { gives self.old body.now result self.new }
        ensures verdicts_retained { (bytes signature : Octets) → Self.verdict_of self.new bytes signature ≡ Self.verdict_of self.old bytes signature };
}

/// A signer over a source of signatures.
///
/// It verifies each signature before it returns it, refuses instead of returning a wrong one, and counts both. Each call
/// of `sign` asks the source exactly once, for the same body (`signs`).
#[derive(Drop)]
pub struct Signer<S> {
    /// The source.
    pub source: S,
    signings: Signings,
}

/// Returns the source's signature for a body, if it verifies.
fn judged<S: SignatureSource>(source: &mut S, body: &[u8; BODY_BYTES]) -> Option<Signature>
    ensures given { (given : Option Signature) × S.gives source.old body.now given source.new × (result ≡ verified (S.verdict_of source.new body.now) given) }
    ensures verdict { IfSome result (λ signature. S.verdict_of source.new body.now signature.0 ≡ true) }
    ensures verdicts_retained { (bytes signature : Octets) → S.verdict_of source.new bytes signature ≡ S.verdict_of source.old bytes signature }
{
    let signature = source.signature(body)?;
    if source.verdict(body, &signature) {
        Some(signature)
    } else {
        None
    }
}

impl<S> Signer<S> {
    /// Returns a signer over a source, which has not been called.
    pub fn new(source: S) -> Signer<S>
        ensures source { result.source ≡ source }
        ensures signings { result.signings ≡ record { made = 0; refused = 0; last = None } }
    {
        Signer {
            source,
            signings: Signings::none(),
        }
    }
}

impl<S: SignatureSource> Verify for Signer<S> {
    ghost verdict_of = { λ signer body signature. S.verdict_of signer.source body signature };

    fn verdict(&self, body: &[u8; BODY_BYTES], signature: &Signature) -> bool {
        self.source.verdict(body, signature)
    }
}

impl<S: SignatureSource> Sign for Signer<S> {
    ghost use Rattle.std.specs.Prelude.{◌≡◌, Option};
    ghost use Rattle.coniks_chain.specs.Signing.{verified};
    ghost use Rattle.coniks_chain.specs.declared.entry.Signature.{Signature};

    ghost signs = { λ signer body result after. (given : Option Signature)
        × S.gives signer.source body given after.source × (result ≡ verified (S.verdict_of after.source body) given) };

    ghost made_of = { λ signer. signer.signings.made };

    ghost refused_of = { λ signer. signer.signings.refused };

    ghost last_of = { λ signer. signer.signings.last };

    /// Returns the source's signature, if it verifies.
    fn sign(&mut self, body: &[u8; BODY_BYTES]) -> Option<Signature> {
        let signature = judged(&mut self.source, body);
        match signature {
            Some(signature) => self.signings.signed(body, signature),
            None => self.signings.refused(),
        }
        signature
    }

    fn made(&self) -> u64 {
        self.signings.made
    }

    fn refused(&self) -> u64 {
        self.signings.refused
    }

    fn last(&self) -> Option<Entry> {
        self.signings.last
    }
}
