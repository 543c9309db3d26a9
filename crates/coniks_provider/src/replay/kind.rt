//! What a line of a replay is.

ghost use Rattle.std.specs.Prelude.{◌≡◌};
ghost use Rattle.serde_json.specs.View.{view};
ghost use Rattle.coniks_provider.specs.Replays.{kind_in, kind_of_command, kind_without_command};

use coniks_programs::members::text;
use serde_json::Value;

/// What a line is, by its members.
#[derive(Clone, Copy)]
pub(crate) enum Kind {
    /// The header of a snapshot.
    Header,
    Entries,
    Replaced,
    Restore,
    Restoring,
    Restored,
    /// The position of a log from which lines were dropped.
    First,
    Open,
    Prepare,
    Install,
    /// None of these.
    Other,
}

/// Returns what a line with this command is.
fn kind_of_command(command: &str) -> Kind
    ensures { result ≡ kind_of_command command.now }
{
    if command == "open" {
        return Kind::Open;
    }
    if command == "prepare" {
        return Kind::Prepare;
    }
    if command == "install" {
        return Kind::Install;
    }
    if command == "restore" {
        return Kind::Restore;
    }
    if command == "restoring" {
        return Kind::Restoring;
    }
    if command == "restored" {
        return Kind::Restored;
    }
    Kind::Other
}

/// Returns what a line without a command is.
fn kind_without_command(object: &Value) -> Kind
    ensures { result ≡ kind_without_command (view object.now) }
{
    if object.get("snapshot").is_some() {
        return Kind::Header;
    }
    if object.get("entries").is_some() {
        return Kind::Entries;
    }
    if object.get("replaced").is_some() {
        return Kind::Replaced;
    }
    if object.get("first").is_some() {
        return Kind::First;
    }
    Kind::Other
}

/// Returns what a line is.
pub(crate) fn kind_in(object: &Value) -> Kind
    ensures { result ≡ kind_in (view object.now) }
{
    if object.get("cmd").is_none() {
        return kind_without_command(object);
    }
    match text(object, "cmd") {
        Some(command) => kind_of_command(command),
        None => Kind::Other,
    }
}
