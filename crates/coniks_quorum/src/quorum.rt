//! How many auditors are a quorum.

ghost use Rattle.std.specs.Prelude.{◌<◌, ◌≤◌, ◌+◌, ◌*◌, ◌^◌};
ghost use Rattle.coniks_quorum.specs.Auditors.{IsLeastQuorum};

/// Returns the quorum of `n` auditors if at most `f` of them lie: the least number for which any two sets of that many auditors
/// share an honest one.
///
/// The number is greater than `n` if `f` is at least `n`. No set of auditors is a quorum then.
pub fn quorum_of(n: usize, f: usize) -> usize
    requires { n + f < 2 ^ 64 }
    ensures least { IsLeastQuorum n f result }

    // The honest auditors alone are a quorum if there are more than three auditors for each one that may lie.
    ensures reachable { 3 * f < n → result + f ≤ n }
{
    (n + f) / 2 + 1
}
