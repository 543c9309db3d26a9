//! Lemmas about the answers of `run`, each the contract of a function that only reads.

ghost use Rattle.std.specs.Prelude.{◌≡◌, codes, false, true, Some};
ghost use Rattle.std.specs.Str.{is_utf8};
ghost use Rattle.coniks_proof.specs.Octets.{Octets};
ghost use Rattle.serde_json.specs.Data.{string};
ghost use Rattle.serde_json.specs.Find.{get};
ghost use Rattle.coniks_chain.specs.declared.entry.Entry.{Entry};
ghost use Rattle.coniks_tool.specs.Limits.{most_epochs};
ghost use Rattle.coniks_programs.specs.Paths.{its_entry, Path};
ghost use Rattle.coniks_programs.specs.ProofTexts.{end_data};
ghost use Rattle.coniks_programs.specs.Replies.{looked_up_data};
ghost use Rattle.coniks_tool.specs.Script.{ScriptState, script_answer};

use crate::run::store::BOARD_HEADS;

/// Proves that the public limit is that of the specification.
pub fn limits()
    ensures epochs { BOARD_HEADS ≡ most_epochs }
{}

/// Proves that a refused line leaves the directory unchanged.
pub fn refused_line_changes_no_directory()
    ensures { (s : ScriptState) (line : Octets) → (script_answer s line).accepted ≡ false → (script_answer s line).state ≡ s }
{}

/// Proves that a printed lookup contains the right names.
///
/// The member `name` is the name requested. The name of the proof's end is the name there, if it is UTF-8, as each name in a
/// line is.
pub fn printed_name_is_the_name()
    ensures requested { (entry : Entry) (index name : Octets) (path : Path) → get (codes "name") (looked_up_data entry index name path) ≡ Some (string name) }
    ensures shown { (name key opening : Octets) → is_utf8 name ≡ true → get (codes "name") (end_data (its_entry name key opening)) ≡ Some (string name) }
{}
