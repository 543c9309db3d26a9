//! A machine that echoes.

use coniks_lines::LineMachine;
use std::alloc::AllocError;

/// A machine that echoes each line after a digit, 0 or 1, which changes with each accepted line. A line that begins
/// with `!` is refused: the answer is `?`, and the digit does not change.
#[derive(Drop)]
pub struct Echo {
    pub odd: bool,
}

impl LineMachine for Echo {
    ghost use Rattle.std.specs.Prelude.{ℕ, ◌∷◌, [], ◌==◌, ◌&&◌, nat_lt, length, slice_index, not, true, false, Bool, if◌then◌else◌, List};
    ghost use Rattle.coniks_lines.specs.Machine.{Answer};

    ghost State = { Bool };

    ghost state = { λ s. s.odd };

    ghost answer = { λ odd line. if nat_lt 0 (length line) && slice_index line 0 == 33
        then record { text = 63 ∷ []; accepted = false; state = odd }
        else record { text = (if odd then 49 else 48) ∷ line; accepted = true; state = not odd } };

    ghost Needs = { Unit {0} };

    fn step(&mut self, line: &[u8], out: &mut Vec<u8>) -> Result<bool, AllocError> {
        if line.len() > 0 && line[0] == b'!' {
            out.push(b'?')?;
            return Ok(false);
        }
        out.push(if self.odd { b'1' } else { b'0' })?;
        out.extend_from_slice(line)?;
        self.odd = !self.odd;
        Ok(true)
    }
}
