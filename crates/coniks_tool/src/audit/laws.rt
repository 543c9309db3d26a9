//! Lemmas about the answers of `audit`, each the contract of a function that only reads.

ghost use Rattle.std.specs.Prelude.{◌≡◌, ◌↔◌, List, Bool, false, Option, None, Some};
ghost use Rattle.coniks_proof.specs.Octets.{Octets};
ghost use Rattle.coniks_proof.specs.Sha256.{sha256};
ghost use Rattle.coniks_chain.specs.Chain.{Follows, GoodChain, IsFirstEntryFault};
ghost use Rattle.coniks_chain.specs.declared.auditor.AuditFault.{AuditFault};
ghost use Rattle.coniks_chain.specs.declared.auditor.AuditorState.{AuditorState};
ghost use Rattle.coniks_chain.specs.declared.entry.Entry.{Entry};
ghost use Rattle.coniks_tool.specs.Audit.{AuditState, audit_answer, none_audited};
ghost use Rattle.coniks_tool.specs.AuditChain.{accepted_entries};
ghost use Rattle.coniks_tool.specs.AuditFaults.{audit_fault};
ghost use Rattle.coniks_tool.specs.Seal.{is_seal};

/// Proves that an entry has no error if and only if it follows, and that the printed error is its first one.
pub fn reported_fault_is_the_first()
    ensures none { (verdict : Octets → Octets → Bool) (before : Option AuditorState) (entry : Entry)
        → (audit_fault verdict before entry ≡ None) ↔ Follows verdict before entry }
    ensures some { (verdict : Octets → Octets → Bool) (before : Option AuditorState) (entry : Entry) (fault : AuditFault)
        → (audit_fault verdict before entry ≡ Some fault) ↔ IsFirstEntryFault verdict before entry fault }
{}

/// Proves that the entries of the accepted lines are a good chain, whatever lines are between them.
pub fn accepted_lines_are_a_chain()
    ensures { (key : Octets) (lines : List Octets) → GoodChain sha256 (is_seal key) (accepted_entries (none_audited key) lines) }
{}

/// Proves that a refused line does not change the state that the next entry is compared with.
pub fn refused_line_changes_no_auditor()
    ensures { (s : AuditState) (line : Octets) → (audit_answer s line).accepted ≡ false → (audit_answer s line).state ≡ s }
{}
