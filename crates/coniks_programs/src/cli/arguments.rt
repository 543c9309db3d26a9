//! The arguments of a program.

ghost use Rattle.std.specs.Prelude.{◌≡◌};
ghost use Rattle.coniks_programs.specs.Endings.{unread_status};

use std::alloc::Global;
use std::env::{self, Env};
use std::io::ErrorKind;

/// The error of arguments that cannot be read.
#[derive(Clone, Copy, Debug, PartialEq, Eq)]
pub enum Unread {
    /// An argument is not UTF-8.
    NotText,
    /// An allocation failed.
    OutOfMemory,
}

impl Unread {
    /// Returns the exit status for arguments that cannot be read: 2 if one is not UTF-8, 3 if an allocation failed.
    pub fn status(self) -> u8
        ensures { result ≡ unread_status self }
    {
        match self {
            Unread::NotText => 2,
            Unread::OutOfMemory => 3,
        }
    }
}

/// Returns the arguments that the program was called with. The first is its name.
pub fn words<R: Env + Alloc<A = Global>>(rt: &R) -> Result<Vec<String>, Unread> {
    match env::args(rt) {
        Ok(words) => words.collect(rt.alloc()).or(Err(Unread::OutOfMemory)),
        Err(error) if error.kind() == ErrorKind::OutOfMemory => Err(Unread::OutOfMemory),
        Err(_) => Err(Unread::NotText),
    }
}
