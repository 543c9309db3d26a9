//! What a replay prints.

ghost use Rattle.std.specs.Prelude.{◌≡◌, IfOk};
ghost use Rattle.serde_json.specs.Written.{compact_text};
ghost use Rattle.coniks_provider.specs.Replays.{refused_text, replayed_data};

use crate::latest::Latest;
use crate::stored::put_last;
use coniks_chain::BODY_BYTES;
use coniks_programs::objects::{Field, Shown, object};
use coniks_programs::printable::Printable;
use std::alloc::{AllocError, Global};

/// Returns the object for a refused line, which has this number, and its reply.
pub(crate) fn refused(alloc: Global, line: u64, reply: &[u8]) -> Result<Printable, AllocError>
    ensures { IfOk result (λ object. object.text.items ≡ refused_text line reply.now) }
{
    let mut printed = object(alloc, &[Field("line", Shown::Number(line))])?;
    put_last(&mut printed, b",\"refused\":", &[], reply)?;
    Ok(printed)
}

/// Returns the object for a log that was replayed up to a position.
pub(crate) fn replayed<'a>(
    alloc: Global,
    latest: &'a Latest,
    pending: &'a Option<[u8; BODY_BYTES]>,
    position: u64,
) -> Result<Printable, AllocError>
    ensures { IfOk result (λ object. object.text.items ≡ compact_text (replayed_data latest.now.epoch latest.now.link.0 latest.now.names
        latest.now.nodes pending.now position)) }
{
    let epoch = Field("epoch", Shown::Number(latest.epoch));
    let link = Field("link", Shown::Digest(&latest.link.0));
    let names = Field("names", Shown::Number(latest.names as u64));
    let nodes = Field("nodes", Shown::Number(latest.nodes as u64));
    let ok = Field("ok", Shown::Text("replay"));
    let position = Field("position", Shown::Number(position));
    match pending {
        Some(body) => {
            let pending = Field("pending", Shown::Digits(body));
            object(alloc, &[epoch, link, names, nodes, ok, pending, position])
        }
        None => object(alloc, &[epoch, link, names, nodes, ok, position]),
    }
}
