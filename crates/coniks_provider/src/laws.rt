//! Lemmas about the answers of `provider`, each the contract of a function that only reads.

ghost use Rattle.std.specs.Prelude.{◌≡◌, ℕ, List, None, false, length};
ghost use Rattle.serde_json.specs.Data.{Data};
ghost use Rattle.coniks_proof.specs.Octets.{Octets};
ghost use Rattle.coniks_directory.specs.History.{latest_registry};
ghost use Rattle.coniks_lines.specs.Machine.{state_after};
ghost use Rattle.coniks_provider.specs.Laws.{IsLeftBy};
ghost use Rattle.coniks_provider.specs.Logs.{AllAccepted, AreLines, AreStored, EndsIn, IsStored, NoneWithdraws, after_lines, replay_from};
ghost use Rattle.coniks_provider.specs.Replays.{command_turn, is_below, replay_answer};
ghost use Rattle.coniks_provider.specs.declared.replay.log.Log.{Log};
ghost use Rattle.coniks_provider.specs.Turns.{BatchLine, ProviderDirectory, ProviderState, nothing, prepare_with, provider_answer, serving, withdraw_turn};

/// Proves that a refused line leaves the directory unchanged, the pending update included.
///
/// It also leaves a restore unchanged, unless the line is `restored` and the root of the bindings is not the entry's. No
/// restore has begun then.
pub fn refused_line_changes_no_directory()
    ensures { (s : ProviderState) (line : Octets) → (provider_answer s line).accepted ≡ false → IsLeftBy s (provider_answer s line).state }
{}

/// Proves that after any lines as many names have an index as are registered, the restored ones included.
///
/// So `names` of `latest` is the number of registered names.
pub fn latest_counts_the_registered_names()
    ensures { (lines : List Octets) (o : ProviderDirectory)
        → state_after provider_answer nothing lines ≡ serving o → length o.indices ≡ length (latest_registry o.history) }
{}

/// Proves that a line to store gives what the line gave that it is stored for: the same outcome, and the same state.
pub fn stored_line_gives_the_same()
    ensures { (s : ProviderState) (line stored : Data) → IsStored (command_turn s line).outcome line stored
        → command_turn s stored ≡ command_turn s line }
{}

/// Proves that a log of the lines to store leaves the directory of the lines that they are stored for, and that each of its
/// lines is accepted.
///
/// The lines are none of `withdraw`. They may have refused lines, lookups and pages among them, for which a log has no line.
pub fn log_leaves_the_directory_of_its_lines()
    ensures { (o : ProviderDirectory) (lines stored : List Data) → NoneWithdraws lines → AreStored (serving o) lines stored
        → (after_lines (serving o) stored ≡ after_lines (serving o) lines) × AllAccepted (serving o) stored }
{}

/// Proves that a replay of a log of the lines to store takes each line, and ends in the state of the lines that they are stored
/// for: `provider --replay` prints the latest epoch and the link of these.
///
/// The replay has opened or restored the directory before, and come to the position from which lines are replayed.
pub fn replay_of_a_log_ends_where_its_lines_end()
    ensures { (o : ProviderDirectory) (n : ℕ) (log : Log) (lines stored : List Data) (texts : List Octets) → NoneWithdraws lines
        → AreStored (serving o) lines stored → AreLines texts stored → is_below log ≡ false
        → EndsIn (after_lines (serving o) lines) (state_after replay_answer (replay_from n log o) texts) }
{}

/// Proves that a prepared update that is withdrawn leaves the directory as it was, if no other one was pending.
pub fn withdrawn_update_leaves_the_directory()
    ensures { (o : ProviderDirectory) (b : BatchLine) → o.pending ≡ None → (withdraw_turn (prepare_with (serving o) b).state).state ≡ serving o }
{}
