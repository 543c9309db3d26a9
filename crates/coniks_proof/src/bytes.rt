//! Byte strings and lists of digests, which contracts see as lists.

ghost use Rattle.std.specs.Prelude.{◌≡◌, IfOk};

use crate::values::Digest;
use std::alloc::{AllocError, Global};
use std::marker::Model;

/// A byte string.
#[derive(Drop)]
pub struct Bytes {
    bytes: Vec<u8>,
}

impl Model for Bytes {
    ghost use Rattle.coniks_proof.specs.Octets.{Octets};

    ghost Value = { Octets };

    ghost view = { λ b. b.bytes.items };
}

impl Bytes {
    /// Wraps a vector of bytes. Allocates nothing.
    pub fn new(bytes: Vec<u8>) -> Bytes
        ensures { result ≡ bytes.items }
    {
        Bytes { bytes }
    }

    /// Copies a slice.
    ///
    /// # Errors
    ///
    /// `AllocError` if an allocation fails.
    pub fn copy_of(alloc: Global, bytes: &[u8]) -> Result<Bytes, AllocError>
        ensures { IfOk result (λ copy. copy ≡ bytes.now) }
    {
        let bytes = Vec::from_slice(alloc, bytes)?;
        Ok(Bytes { bytes })
    }

    /// Returns the bytes as a slice.
    pub fn as_slice(&self) -> &[u8]
        ensures { result.now ≡ self.now }
    {
        self.bytes.as_slice()
    }

    /// Returns the vector. Allocates nothing.
    pub fn into_vec(self) -> Vec<u8>
        ensures { result.items ≡ self }
    {
        let Bytes { bytes } = self;
        bytes
    }
}

/// A list of digests.
#[derive(Drop)]
pub struct Digests {
    digests: Vec<Digest>,
}

impl Model for Digests {
    ghost use Rattle.std.specs.Prelude.{List};
    ghost use Rattle.coniks_proof.specs.declared.values.Digest.{Digest};

    ghost Value = { List Digest };

    ghost view = { λ d. d.digests.items };
}

impl Digests {
    /// Wraps a vector of digests. Allocates nothing.
    pub fn new(digests: Vec<Digest>) -> Digests
        ensures { result ≡ digests.items }
    {
        Digests { digests }
    }

    /// Returns the digests as a slice.
    pub fn as_slice(&self) -> &[Digest]
        ensures { result.now ≡ self.now }
    {
        self.digests.as_slice()
    }

    /// Returns the vector. Allocates nothing.
    pub fn into_vec(self) -> Vec<Digest>
        ensures { result.items ≡ self }
    {
        let Digests { digests } = self;
        digests
    }
}

/// A name and the key that it is bound to.
#[derive(Drop)]
pub struct Binding {
    /// 1 to `MAX_NAME` bytes.
    pub name: Bytes,
    /// 1 to `MAX_KEY` bytes.
    pub key: Bytes,
}
