//! The work of each job.

ghost use Rattle.std.specs.Prelude.{ℕ, ◌≡◌, ◌<◌, IfOk};

use coniks_tree::{OutOfMemory, Part};

/// Work that is done for each number below a count, in any order and on any thread.
pub(crate) trait Work {
    ghost use Rattle.std.specs.Prelude.{ℕ};
    ghost use Rattle.coniks_tree.specs.declared.part.Part.{Part};

    /// The number of jobs.
    ghost count: { Self → ℕ };

    /// The part that the job of this number makes.
    ghost part: { Self → ℕ → Part → Type 0 };

    /// Returns the number of jobs.
    fn jobs(&self) -> usize
        ensures { result ≡ count self.now };

    /// Does the job of this number.
    fn run(&self, job: usize) -> Result<Part, OutOfMemory>
        requires { job < count self.now }
        ensures { IfOk result (λ made. part self.now job made) };
}
