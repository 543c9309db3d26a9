//! The source of the indices of names.

ghost use Rattle.std.specs.Prelude.{◌≡◌};
ghost use Rattle.coniks_proof.specs.Octets.{Octets};

use coniks_proof::Index;

/// Gives each name its index, which is a function of the name.
///
/// A provider uses a verifiable random function (VRF, RFC 9381) here, so that an index does not reveal its name. CONIKS,
/// section 3, calls it verifiable unpredictable function. The type holds the key. `index_of` defines the first 32 bytes
/// of the function's output under that key, and `index` computes them. If another process computes them, use
/// `SuppliedIndices`, which holds the indices that were supplied to it.
///
/// The VRF proof, that an index is the name's, is not part of an authentication path. The provider returns it next to the
/// directory's proof, by a method of its own. The client passes the index that it has verified to `check` or
/// `Monitor::new`. A directory has one source permanently, because names have other indices under another key.
pub trait IndexSource {
    /// The index of a name.
    ghost index_of: { Self → Octets → Octets };

    /// Returns the index of a name. A directory asks only for names of 1 to `MAX_NAME` bytes.
    fn index(&self, name: &[u8]) -> Index
        ensures { result.0 ≡ index_of self.now name.now };
}
