//! Entries in lines.

ghost use Rattle.std.specs.Prelude.{◌≡◌};
ghost use Rattle.serde_json.specs.View.{view};
ghost use Rattle.coniks_programs.specs.EntryLines.{entry_in};

use crate::members::{bytes_of_digits, text};
use coniks_chain::Entry;
use serde_json::Value;

/// Reads the entry of a line: its member `entry`, in 418 hexadecimal digits of either case.
pub fn read_entry(object: &Value) -> Option<Entry>
    ensures { result ≡ entry_in (view object.now) }
{
    let bytes = bytes_of_digits(text(object, "entry")?)?;
    Some(Entry::read(&bytes))
}
