//! The lines of bytes.
ghost use Rattle.std.specs.Prelude.{◌≡◌, ◌++◌, ◌∷◌, ◌==◌, ℕ, List, []};
ghost use Rattle.std.specs.List.{slice_split, join_with_byte};
ghost use Rattle.coniks_lines.specs.Lines.{whole_lines, rest_after};

/// Proves that the lines of bytes are the parts between their newlines.
///
/// The parts are the lines that a newline ends, followed by the bytes after the last newline. Joined by newlines they are
/// the bytes again.
pub fn lines_are_parts()
    ensures parts { (bytes : List ℕ) → whole_lines bytes ++ rest_after [] bytes ∷ [] ≡ slice_split (λ b. b == 10) bytes }
    ensures joined { (bytes : List ℕ) → join_with_byte 10 (whole_lines bytes ++ rest_after [] bytes ∷ []) ≡ bytes }
{}
