//! Lemmas about the answers of `monitor`, each the contract of a function that only reads.

ghost use Rattle.std.specs.Prelude.{◌≡◌, ◌↔◌, ◌⊎◌, ℕ};
ghost use Rattle.coniks_proof.specs.Octets.{Octets};
ghost use Rattle.coniks_proof.specs.Proofs.{answer_of};
ghost use Rattle.coniks_proof.specs.Sha256.{sha256};
ghost use Rattle.coniks_proof.specs.declared.paths.Proof.{Proof};
ghost use Rattle.coniks_chain.specs.Seen.{seen_of};
ghost use Rattle.coniks_chain.specs.Watch.{IsFirstStepFault, IsSoundStep};
ghost use Rattle.coniks_chain.specs.declared.entry.Entry.{Entry};
ghost use Rattle.coniks_chain.specs.declared.seen.MonitorFault.{MonitorFault};
ghost use Rattle.coniks_chain.specs.declared.seen.Seen.{Seen};
ghost use Rattle.coniks_tool.specs.Monitor.{MonitorState, monitor_turn, step_turn};
ghost use Rattle.coniks_tool.specs.MonitorReplies.{at_fault, expecting, watched};
ghost use Rattle.coniks_tool.specs.Seal.{is_seal};

/// Proves that an entry and a proof are accepted if and only if the step is sound.
///
/// A step is sound if the entry follows, and the proof is accepted under its root and nonce for the name at its index.
/// The printed error is the first one, the entry's before the proof's.
pub fn reported_fault_of_a_step_is_the_first()
    ensures sound { (s : MonitorState) (entry : Entry) (proof : Proof)
        → ((step_turn s entry proof).outcome ≡ watched entry.body.t (seen_of s.expected (answer_of proof.end)))
        ↔ (IsSoundStep sha256 (is_seal s.key) s.before s.name s.index entry proof (answer_of proof.end)) }
    ensures refused { (s : MonitorState) (entry : Entry) (proof : Proof) (fault : MonitorFault)
        → ((step_turn s entry proof).outcome ≡ at_fault fault)
        ↔ (IsFirstStepFault sha256 (is_seal s.key) s.before s.name s.index entry proof fault) }
{}

/// Proves that only a line that sets the expectation, or whose entry and proof are accepted, changes the monitor.
pub fn refused_line_changes_no_monitor()
    ensures { (s : MonitorState) (line : Octets)
        → (monitor_turn s line).state ≡ s
        ⊎ (monitor_turn s line).outcome ≡ expecting
        ⊎ (epoch : ℕ) × ((seen : Seen) × ((monitor_turn s line).outcome ≡ watched epoch seen)) }
{}
