//! Lemmas about the definitions, each the contract of a function that only reads.

ghost use Rattle.coniks_quorum.specs.StateLaws.{BackLaw, FormLaw, PartsLaw, StateLaw, WatchedLaw};

/// Proves that a state that is written and read again is the same client, and that bytes are those of one client at most.
pub fn states()
    ensures same { StateLaw }
    ensures back { BackLaw }
    ensures parts { PartsLaw }
{}

/// Proves that a client that was read goes on with the premises of the owner law, but for the proofs that it was shown.
pub fn clients()
    ensures form { FormLaw }
    ensures watched { WatchedLaw }
{}
