//! When a client relies on what a lookup shows.

ghost use Rattle.std.specs.Prelude.{◌↔◌, IsTrue};
ghost use Rattle.coniks_client.specs.StoredEntry.{epoch_in};
ghost use Rattle.coniks_quorum.specs.Relying.{Confirms, IsReliance};

use coniks_client::stored::StoredEntry;

/// Whether a client may rely on what a lookup shows.
#[derive(Clone, Copy, Debug, PartialEq, Eq)]
pub enum Reliance {
    /// A quorum of auditors confirms the epoch.
    ReliedOn,
    /// No quorum confirms it yet. Later heads of the auditors may.
    Unconfirmed,
}

/// Returns whether an epoch is confirmed. `confirmed` is the greatest confirmed epoch, if there is one.
pub fn is_confirmed(confirmed: Option<u64>, epoch: u64) -> bool
    ensures { IsTrue result ↔ Confirms confirmed epoch }
{
    match confirmed {
        None => false,
        Some(confirmed) => epoch <= confirmed,
    }
}

/// Returns whether a client may rely on what a stored epoch shows. `confirmed` is the greatest confirmed epoch, if there is one.
pub fn reliance_on(mine: &StoredEntry, confirmed: Option<u64>) -> Reliance
    ensures { IsReliance confirmed (epoch_in mine.now) result }
{
    if is_confirmed(confirmed, mine.entry().body.t) {
        Reliance::ReliedOn
    } else {
        Reliance::Unconfirmed
    }
}
