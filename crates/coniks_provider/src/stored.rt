//! The line that a log stores for a line.

ghost use Rattle.std.specs.Prelude.{◌≡◌, ◌++◌, IfOk, OnOk, Some, option_map};
ghost use Rattle.serde_json.specs.View.{view};
ghost use Rattle.coniks_provider.specs.Answers.{provider_outcome_of};
ghost use Rattle.coniks_provider.specs.Stored.{after_brace, naming, stored_line, with_last, with_store};

use crate::reply::Reply;
use coniks_programs::objects::{Field, Shown, object};
use coniks_programs::printable::Printable;
use serde_json::Value;
use std::alloc::{AllocError, Global};

/// The bytes beside its value that a member at the end of an object takes at most.
const ROOM: usize = 16;

/// A line to store, in two parts.
#[derive(Drop)]
pub(crate) struct Stored<'l> {
    lead: Vec<u8>,
    rest: &'l [u8],
}

/// Returns what follows the first `{` of a line.
fn after_brace<'l>(line: &'l [u8]) -> &'l [u8]
    ensures { result.now ≡ after_brace line.now }
{
    let mut rest = line;
    while let Some((first, others)) = rest.split_first() {
        rest = others;
        if *first == b'{' {
            return rest;
        }
    }
    rest
}

/// Returns a line that names bytes: as it is if it has the member, or with it directly after the first `{`.
fn naming<'l>(
    alloc: Global,
    name: &str,
    bytes: &[u8],
    object_of_line: &Value,
    line: &'l [u8],
) -> Result<Stored<'l>, AllocError>
    ensures { IfOk result (λ s. s.lead.items ++ s.rest.now ≡ naming name.now bytes.now (view object_of_line.now) line.now) }
{
    if object_of_line.get(name).is_some() {
        return Ok(Stored {
            lead: Vec::new(alloc),
            rest: line,
        });
    }
    let mut lead = object(alloc, &[Field(name, Shown::Digits(bytes))])?.text;
    lead.pop();
    lead.push(b',')?;
    Ok(Stored {
        lead,
        rest: after_brace(line),
    })
}

/// Returns the line that a log stores for a line with this reply, if it stores one.
pub(crate) fn stored_line<'l>(
    alloc: Global,
    reply: &Reply,
    object_of_line: &Value,
    line: &'l [u8],
) -> Result<Option<Stored<'l>>, AllocError>
    ensures { IfOk result (λ stored. option_map (λ (s : Stored). s.lead.items ++ s.rest.now) stored
        ≡ stored_line (provider_outcome_of reply.now) (view object_of_line.now) line.now) }
{
    match reply {
        Reply::Prepared { body, .. } => Ok(Some(naming(
            alloc,
            "body",
            &body.bytes(),
            object_of_line,
            line,
        )?)),
        Reply::Installed { link, .. } => {
            Ok(Some(naming(alloc, "link", &link.0, object_of_line, line)?))
        }
        _ => Ok(None),
    }
}

/// Adds a member at the end of an object that is printed, with a value that is printed as it is.
///
/// The value is in two parts. `lead` is the name of the member, with comma and colon.
pub(crate) fn put_last(
    object: &mut Printable,
    lead: &[u8],
    first: &[u8],
    rest: &[u8],
) -> Result<(), AllocError>
    ensures { OnOk result (object.new.text.items ≡ with_last object.old.text.items lead.now (first.now ++ rest.now)) }
{
    let text = &mut object.text;
    text.pop();
    text.reserve(first.len().saturating_add(rest.len()).saturating_add(ROOM))?;
    text.extend_from_slice(lead)?;
    text.extend_from_slice(first)?;
    text.extend_from_slice(rest)?;
    text.push(b'}')?;
    Ok(())
}

/// Adds the line to store as the last member of a reply.
pub(crate) fn put_store(reply: &mut Printable, stored: &Stored<'_>) -> Result<(), AllocError>
    ensures { OnOk result (reply.new.text.items ≡ with_store reply.old.text.items (Some (stored.now.lead.items ++ stored.now.rest.now))) }
{
    put_last(reply, b",\"store\":", &stored.lead, stored.rest)
}
