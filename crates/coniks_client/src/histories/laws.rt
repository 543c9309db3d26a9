//! Lemmas about the definitions, each the contract of a function that only reads.

ghost use Rattle.coniks_client.specs.Histories.{NoErrorLaw, OneFormLaw, OneListLaw};

/// Proves that bytes are the history of at most one list of steps, that they have no error then, and that such a list has at
/// most one byte string with the same VRF proof.
///
/// So `read_history` and `accept` return the errors of bytes exactly for those that are no history.
pub fn exact()
    ensures one_list { OneListLaw }
    ensures no_error { NoErrorLaw }
    ensures one_form { OneFormLaw }
{}
