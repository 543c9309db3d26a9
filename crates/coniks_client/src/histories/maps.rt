//! The map of a step, which says which siblings are sent.

ghost use Rattle.std.specs.Prelude.{◌≡◌, ◌<◌, ◌≤◌, ◌+◌, ◌*◌, ◌/◌, true, false, length};
ghost use Rattle.coniks_proof.specs.Bits.{bit_at};
ghost use Rattle.coniks_client.specs.SiblingMaps.{FitsAt, FitsNotAt, IsMap, IsNoMap, rank};

/// Returns bit `k` of a map.
#[tactic(auto, unfolding(coniks_proof::specs::Bits::bit_at))]
pub(crate) fn bit_of(map: &[u8], k: usize) -> bool
    requires { k < 8 * length map.now }
    ensures { result ≡ bit_at map.now k }
{
    (map[k / 8] >> (7 - k % 8)) & 1 == 1
}

/// Returns the number of siblings that are sent before place `n`.
pub(crate) fn rank(map: &[u8], n: usize) -> usize
    requires { n ≤ 8 * length map.now }
    ensures count { result ≡ rank map.now n }
    ensures small { result ≤ n }
{
    let mut count = 0;
    for k in 0..n {
        if bit_of(map, k) {
            count += 1;
        }
    }
    count
}

/// Returns whether bit `k` fits a map of `n` siblings after a step with the old ones.
fn fits_at(map: &[u8], n: usize, old: &[[u8; 32]], k: usize) -> bool
    requires { k < 8 * length map.now }
    ensures yes { result ≡ true → FitsAt map.now n (length old.now) k }
    ensures no { result ≡ false → FitsNotAt map.now n (length old.now) k }
{
    if bit_of(map, k) {
        k < n
    } else {
        k >= n || k < old.len()
    }
}

/// Returns whether no bit after the first `n` is set, and each sibling that is not sent is an old one, of the step before.
pub(crate) fn is_map(map: &[u8], n: usize, old: &[[u8; 32]]) -> bool
    requires { length map.now ≤ 32 }
    ensures yes { result ≡ true → IsMap map.now n (length old.now) }
    ensures no { result ≡ false → IsNoMap map.now n (length old.now) }
{
    for k in 0..8 * map.len() {
        if !fits_at(map, n, old, k) {
            return false;
        }
    }
    true
}
