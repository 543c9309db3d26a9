//! The answers of `provider` to a line, and their text.

ghost use Rattle.std.specs.Prelude.{◌≡◌, IfOk};
ghost use Rattle.serde_json.specs.Written.{compact_text};
ghost use Rattle.coniks_chain.specs.Entries.{body_bytes};
ghost use Rattle.coniks_provider.specs.Answers.{entry_data, latest_data, provider_outcome_of, prepared_data, provider_reply_text, restoring_data};

use crate::latest::Latest;
use coniks_chain::{Body, Entry};
use coniks_directory::SignedProof;
use coniks_programs::objects::{Field, Shown, object};
use coniks_programs::printable::Printable;
use coniks_programs::printing::fault;
use coniks_programs::refusal::Refusal;
use coniks_programs::replies::{looked_up, opened, placed_fault};
use coniks_proof::Digest;
use std::alloc::{AllocError, Global};

/// The answer of `provider` to a line.
#[derive(Drop)]
pub(crate) enum Reply {
    /// The directory is open.
    Opened,
    /// An update was prepared: the body to sign, and the number of nodes that the epoch adds.
    Prepared { body: Body, nodes: usize },
    /// The pending update was installed: the entry that it added to the chain, and the entry's link.
    Installed { entry: Entry, link: Digest },
    /// The pending update was dropped.
    Withdrawn,
    /// A lookup found the authentication path to the name's index in the tree of the epoch with this entry.
    LookedUp { name: String, found: SignedProof },
    /// The state at the latest epoch.
    Latest(Latest),
    /// A page of bindings, as it is printed.
    Bindings(Printable),
    /// A restore has begun.
    Restore,
    /// Bindings were added to a restore: the number of its names.
    Restoring { names: usize },
    /// The directory is restored: its entry, and the entry's link.
    Restored { entry: Entry, link: Digest },
    /// The line is refused for a reason that `run` has too.
    Refused(Refusal),
    /// No restore has begun.
    NotRestoring,
    /// The entry's epoch is not later than the epoch before it.
    NotLater,
    /// The entry's version is neither 1 nor 2.
    Version,
    /// No epoch is before the entry's, and its previous link is not 32 zero bytes.
    Malformed,
    /// The root of the bindings is not that of the entry.
    RootDiffers,
    /// The name of the operation at this position is registered with another index.
    OtherIndex(usize),
    /// No update is pending.
    NotPrepared,
    /// The line abandons another update than the pending one.
    NotAbandoned,
    /// The line names another body or link than its own.
    ReplayDiffers,
    /// The name requested is registered with another index.
    BadIndex,
}

impl Reply {
    ghost use Rattle.coniks_provider.specs.Answers.{is_accepted_line};

    /// Returns whether the line was accepted.
    pub(crate) fn is_accepted(&self) -> bool
        ensures { result ≡ is_accepted_line (provider_outcome_of self.now) }
    {
        match self {
            Reply::Opened
            | Reply::Prepared { .. }
            | Reply::Installed { .. }
            | Reply::Withdrawn
            | Reply::LookedUp { .. }
            | Reply::Latest(_)
            | Reply::Bindings(_)
            | Reply::Restore
            | Reply::Restoring { .. }
            | Reply::Restored { .. } => true,
            Reply::Refused(_)
            | Reply::NotRestoring
            | Reply::NotLater
            | Reply::Version
            | Reply::Malformed
            | Reply::RootDiffers
            | Reply::OtherIndex(_)
            | Reply::NotPrepared
            | Reply::NotAbandoned
            | Reply::ReplayDiffers
            | Reply::BadIndex => false,
        }
    }

    /// Returns the object that is printed.
    pub(crate) fn object(self, alloc: Global) -> Result<Printable, AllocError>
        ensures { IfOk result (λ object. object.text.items ≡ provider_reply_text (provider_outcome_of self)) }
    {
        match self {
            Reply::Opened => opened(alloc),
            Reply::Prepared { body, nodes } => prepared(alloc, &body, nodes),
            Reply::Installed { entry, link } => with_entry(alloc, "install", &entry, &link),
            Reply::Withdrawn => object(alloc, &[Field("ok", Shown::Text("withdraw"))]),
            Reply::LookedUp { name, found } => looked_up(alloc, name.as_str(), &found),
            Reply::Latest(latest) => latest_object(alloc, &latest),
            Reply::Bindings(page) => Ok(page),
            Reply::Restore => object(alloc, &[Field("ok", Shown::Text("restore"))]),
            Reply::Restoring { names } => restoring(alloc, names),
            Reply::Restored { entry, link } => with_entry(alloc, "restored", &entry, &link),
            Reply::Refused(why) => why.object(alloc),
            Reply::NotRestoring => fault(alloc, "NotRestoring"),
            Reply::NotLater => fault(alloc, "NotLater"),
            Reply::Version => fault(alloc, "Version"),
            Reply::Malformed => fault(alloc, "Malformed"),
            Reply::RootDiffers => fault(alloc, "RootDiffers"),
            Reply::OtherIndex(position) => placed_fault(alloc, "OtherIndex", position),
            Reply::NotPrepared => fault(alloc, "NotPrepared"),
            Reply::NotAbandoned => fault(alloc, "NotAbandoned"),
            Reply::ReplayDiffers => fault(alloc, "ReplayDiffers"),
            Reply::BadIndex => fault(alloc, "OtherIndex"),
        }
    }
}

/// Returns the object of a prepared update.
fn prepared(alloc: Global, body: &Body, nodes: usize) -> Result<Printable, AllocError>
    ensures { IfOk result (λ object. object.text.items ≡ compact_text (prepared_data body.now nodes)) }
{
    prepared_of(alloc, body, &body.bytes(), nodes)
}

/// Returns the object of a prepared update, with the body's bytes.
fn prepared_of<'a>(
    alloc: Global,
    body: &'a Body,
    bytes: &'a [u8],
    nodes: usize,
) -> Result<Printable, AllocError>
    requires { bytes.now ≡ body_bytes body.now }
    ensures { IfOk result (λ object. object.text.items ≡ compact_text (prepared_data body.now nodes)) }
{
    object(
        alloc,
        &[
            Field("body", Shown::Digits(bytes)),
            Field("epoch", Shown::Number(body.t)),
            Field("nodes", Shown::Number(nodes as u64)),
            Field("ok", Shown::Text("prepare")),
            Field("root", Shown::Digest(&body.root.0)),
        ],
    )
}

/// Returns the object of an entry that a command added to the chain.
fn with_entry<'a>(
    alloc: Global,
    command: &'a str,
    entry: &'a Entry,
    link: &'a Digest,
) -> Result<Printable, AllocError>
    ensures { IfOk result (λ object. object.text.items ≡ compact_text (entry_data command.now entry.now link.now.0)) }
{
    object(
        alloc,
        &[
            Field("entry", Shown::Entry(entry)),
            Field("epoch", Shown::Number(entry.body.t)),
            Field("link", Shown::Digest(&link.0)),
            Field("ok", Shown::Text(command)),
            Field("root", Shown::Digest(&entry.body.root.0)),
        ],
    )
}

/// Returns the object of a restore that has this number of names.
fn restoring(alloc: Global, names: usize) -> Result<Printable, AllocError>
    ensures { IfOk result (λ object. object.text.items ≡ compact_text (restoring_data names)) }
{
    object(
        alloc,
        &[
            Field("names", Shown::Number(names as u64)),
            Field("ok", Shown::Text("restoring")),
        ],
    )
}

/// Returns the object of the latest epoch.
fn latest_object(alloc: Global, latest: &Latest) -> Result<Printable, AllocError>
    ensures { IfOk result (λ object. object.text.items ≡ compact_text (latest_data latest.now.epoch latest.now.link.0 latest.now.names latest.now.nodes)) }
{
    object(
        alloc,
        &[
            Field("epoch", Shown::Number(latest.epoch)),
            Field("link", Shown::Digest(&latest.link.0)),
            Field("names", Shown::Number(latest.names as u64)),
            Field("nodes", Shown::Number(latest.nodes as u64)),
            Field("ok", Shown::Text("latest")),
        ],
    )
}
