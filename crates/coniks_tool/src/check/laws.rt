//! Lemmas about the answers of `check`, each the contract of a function that only reads.

ghost use Rattle.std.specs.Prelude.{◌≡◌, ◌↔◌, None, Some};
ghost use Rattle.coniks_proof.specs.Faults.{Has, IsFirst};
ghost use Rattle.coniks_proof.specs.Hashing.{Hashing};
ghost use Rattle.coniks_proof.specs.Octets.{Octets};
ghost use Rattle.coniks_proof.specs.Proofs.{Accepts, answer_of};
ghost use Rattle.coniks_proof.specs.declared.checker.CheckFault.{CheckFault};
ghost use Rattle.coniks_proof.specs.declared.paths.Proof.{Proof};
ghost use Rattle.coniks_tool.specs.Check.{Stateless, check_answer};
ghost use Rattle.coniks_tool.specs.CheckFaults.{check_fault};

/// Proves that a proof has no error if and only if it is accepted with the answer of its end.
///
/// The printed error is its first one.
pub fn reported_fault_of_a_proof_is_the_first()
    ensures none { (by : Hashing) (root index name : Octets) (proof : Proof)
        → (check_fault by root index name proof ≡ None) ↔ (Accepts by root index name proof (answer_of proof.end)) }
    ensures some { (by : Hashing) (root index name : Octets) (proof : Proof) (fault : CheckFault)
        → (check_fault by root index name proof ≡ Some fault) ↔ (IsFirst (Has by root index name proof) fault) }
{}

/// Proves that no line changes the answer to the next one.
pub fn lines_are_checked_apart()
    ensures { (s : Stateless) (line : Octets) → (check_answer s line).state ≡ s }
{}
