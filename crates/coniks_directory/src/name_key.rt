//! Names as the keys of a map.

ghost use Rattle.std.specs.Prelude.{◌≡◌, Some, nat_eq, refl};
ghost use Rattle.std.specs.Cmp.{partial_equiv_from_equiv};
ghost use Rattle.std.specs.Cmp.Lexicographic.{nat_list_cmp_total, nat_list_eq_equiv, pointwise, slice_cmp, texts_po, texts_ties};
ghost use Rattle.std.specs.Ordering.{nat_cmp};

use std::cmp::Ordering;
use std::collections::btree_map::Comparable;
use std::marker::Model;

/// A name as the key of a map, in the order of its bytes.
///
/// `Vec<u8>` has the same order, but compares short names one byte after another.
#[derive(Drop)]
pub(crate) struct NameKey {
    bytes: Vec<u8>,
}

impl Model for NameKey {
    ghost use Rattle.coniks_proof.specs.Octets.{Octets};

    ghost Value = { Octets };

    ghost view = { λ key. key.bytes.items };
}

impl NameKey {
    /// Wraps the bytes of a name. Allocates nothing.
    pub(crate) fn new(bytes: Vec<u8>) -> NameKey
        ensures { result ≡ bytes.items }
    {
        NameKey { bytes }
    }
}

/// Returns the order of two names, by the first byte that differs, or else by their lengths.
fn order_by_bytes(a: &[u8], b: &[u8]) -> Ordering
    ensures { result ≡ slice_cmp nat_cmp a.now b.now }
{
    for at in 0..a.len().min(b.len()) {
        if a[at] != b[at] {
            return a[at].cmp(&b[at]);
        }
    }
    a.len().cmp(&b.len())
}

/// Returns the order of two names, as `order_by_bytes` does. Compares eight bytes at once, as a number.
fn order(a: &[u8], b: &[u8]) -> Ordering
    ensures { result ≡ slice_cmp nat_cmp a.now b.now }
{
    let (mut rest, mut other) = (a, b);
    while let (Some((x, more)), Some((y, others))) = (
        rest.split_first_chunk::<8>(),
        other.split_first_chunk::<8>(),
    ) {
        let (x, y) = (u64::from_be_bytes(*x), u64::from_be_bytes(*y));
        if x != y {
            return x.cmp(&y);
        }
        (rest, other) = (more, others);
    }
    order_by_bytes(rest, other)
}

impl PartialEq for NameKey {
    ghost eq = { pointwise nat_eq };

    ghost laws = { partial_equiv_from_equiv nat_list_eq_equiv };

    fn eq(&self, other: &NameKey) -> bool {
        self.bytes.as_slice() == other.bytes.as_slice()
    }
}

impl Eq for NameKey {
    ghost laws = { nat_list_eq_equiv };
}

impl PartialOrd for NameKey {
    ghost partial_cmp = { λ x y. Some (slice_cmp nat_cmp x y) };

    ghost laws = { texts_po };

    fn partial_cmp(&self, other: &NameKey) -> Option<Ordering> {
        Some(self.cmp(other))
    }
}

impl Ord for NameKey {
    ghost cmp = { slice_cmp nat_cmp };

    ghost total = { nat_list_cmp_total };

    ghost matches_partial_cmp = { λ _ _. refl };

    ghost matches_eq = { texts_ties };

    fn cmp(&self, other: &NameKey) -> Ordering {
        order(self.bytes.as_slice(), other.bytes.as_slice())
    }
}

// A search takes a slice, as in a map whose keys are vectors. Rust has `Borrow` in place of this trait.
impl Comparable<NameKey> for &[u8] {
    ghost use Rattle.std.specs.BTreeMap.Comparable.{le_lt_trans};

    ghost compare = { λ name. slice_cmp nat_cmp name.now };

    ghost respects_cmp = { λ name. nat_list_cmp_total.congr name.now };

    ghost below_greater = { λ name. le_lt_trans nat_list_cmp_total name.now };

    fn compare(&self, key: &NameKey) -> Ordering {
        order(*self, key.bytes.as_slice())
    }
}
