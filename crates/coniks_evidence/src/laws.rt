//! Lemmas about the definitions, each the contract of a function that only reads.

ghost use Rattle.coniks_evidence.specs.Laws.{FoundLaw, WatcherLaw};

/// Proves that the records of clients are sound: of an owner who saw the epoch as the same, and whose changes accept her saved
/// reply, and of a client whose lookup of the epoch accepted the saved reply.
pub fn sound_records()
    ensures watcher { WatcherLaw }
    ensures found { FoundLaw }
{
    coniks_client::laws::reported();
}
