//! Lemmas about the definitions, each the contract of a function that does nothing.

ghost use Rattle.std.specs.Prelude.{◌≡◌};
ghost use Rattle.coniks_threads.specs.Limits.{deepest_cut, most_drawers, most_heads, most_numbers, most_workers};

use crate::board::MAX_HEADS;
use crate::building::MAX_WORKERS;
use crate::claims::{MAX_DRAWERS, MAX_NUMBERS};
use crate::jobs::MAX_DEPTH;

/// Proves that the public limits of workers are those of the specification.
pub fn limits()
    ensures workers { MAX_WORKERS ≡ most_workers }
    ensures depth { MAX_DEPTH ≡ deepest_cut }
{}

/// Proves that the public limits of the board and of the claims are those of the specification.
pub fn shared_limits()
    ensures heads { MAX_HEADS ≡ most_heads }
    ensures numbers { MAX_NUMBERS ≡ most_numbers }
    ensures drawers { MAX_DRAWERS ≡ most_drawers }
{}
