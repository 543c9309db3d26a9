//! The answers of `run` to a line, and their text.

ghost use Rattle.std.specs.Prelude.{◌≡◌, IfOk};
ghost use Rattle.serde_json.specs.Written.{compact_text};
ghost use Rattle.coniks_tool.specs.ScriptReplies.{outcome_of, reply_data, installed_data};

use coniks_chain::Entry;
use coniks_directory::SignedProof;
use coniks_programs::objects::{Field, Shown, object};
use coniks_programs::printable::Printable;
use coniks_programs::refusal::Refusal;
use coniks_programs::replies::{looked_up, opened};
use coniks_proof::Digest;
use std::alloc::{AllocError, Global};

/// The answer of `run` to a line.
#[derive(Drop)]
pub enum Reply {
    /// The registry is open.
    Opened,
    /// A batch was installed: the entry that it added to the chain, and the entry's link.
    Installed { entry: Entry, link: Digest },
    /// A lookup found the authentication path to the name's index in the tree of the epoch with this entry.
    LookedUp { name: String, found: SignedProof },
    /// The line is refused.
    Refused(Refusal),
}

impl Reply {
    ghost use Rattle.coniks_tool.specs.ScriptReplies.{is_accepted};

    /// Returns whether the line was accepted.
    pub fn is_accepted(&self) -> bool
        ensures { result ≡ is_accepted (outcome_of self.now) }
    {
        match self {
            Reply::Opened | Reply::Installed { .. } | Reply::LookedUp { .. } => true,
            Reply::Refused(_) => false,
        }
    }

    /// Returns the object that is printed.
    ///
    /// # Errors
    ///
    /// `AllocError` if an allocation fails.
    pub fn object(&self, alloc: Global) -> Result<Printable, AllocError>
        ensures { IfOk result (λ object. object.text.items ≡ compact_text (reply_data (outcome_of self.now))) }
    {
        match self {
            Reply::Opened => opened(alloc),
            Reply::Installed { entry, link } => installed(alloc, entry, link),
            Reply::LookedUp { name, found } => looked_up(alloc, name.as_str(), found),
            Reply::Refused(why) => why.object(alloc),
        }
    }
}

/// Returns the object of an installed batch.
fn installed<'a>(alloc: Global, entry: &'a Entry, link: &'a Digest) -> Result<Printable, AllocError>
    ensures { IfOk result (λ object. object.text.items ≡ compact_text (installed_data entry.now link.now.0)) }
{
    object(
        alloc,
        &[
            Field("entry", Shown::Entry(entry)),
            Field("epoch", Shown::Number(entry.body.t)),
            Field("link", Shown::Digest(&link.0)),
            Field("ok", Shown::Text("batch")),
            Field("root", Shown::Digest(&entry.body.root.0)),
        ],
    )
}
