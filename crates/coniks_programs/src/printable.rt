//! Objects that are printed.

ghost use Rattle.std.specs.Prelude.{◌≡◌, ◌++◌, OnOk, OnErr};

use std::alloc::AllocError;

/// An object that is printed: its text, compact JSON.
#[derive(Drop)]
pub struct Printable {
    pub text: Vec<u8>,
}

impl Printable {
    /// Appends the object's text, without a newline.
    ///
    /// # Errors
    ///
    /// `AllocError` if an allocation fails. `out` is then unchanged.
    pub fn print(&self, out: &mut Vec<u8>) -> Result<(), AllocError>
        ensures ok { OnOk result (out.new.items ≡ out.old.items ++ self.now.text.items) }
        ensures err { OnErr result (out.new.items ≡ out.old.items) }
    {
        out.extend_from_slice(&self.text)
    }
}
