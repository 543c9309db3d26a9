//! A page of bindings, as it is printed.

ghost use Rattle.std.specs.Prelude.{◌≡◌, IfOk, OnOk, map};
ghost use Rattle.serde_json.specs.Data.{array};
ghost use Rattle.serde_json.specs.View.{items_of};
ghost use Rattle.serde_json.specs.Written.{compact_text};
ghost use Rattle.coniks_directory.specs.Bindings.{indexed_binding};
ghost use Rattle.coniks_programs.specs.Printing.{Writes};
ghost use Rattle.coniks_provider.specs.Answers.{binding_data, page_data};

use coniks_directory::IndexedBinding;
use coniks_programs::objects::{Field, Shown, write_object};
use coniks_programs::printable::Printable;
use json::Writer;
use std::alloc::{AllocError, Global};

/// The bytes that are allocated for each binding of a page at first. The digits and names of a binding take 171.
const BINDING_ROOM: usize = 256;

/// Writes the object of a binding.
fn write_binding(
    alloc: Global,
    binding: &IndexedBinding<'_>,
    writer: &mut Writer,
) -> Result<(), AllocError>
    ensures { OnOk result (Writes writer.old writer.new (binding_data (indexed_binding binding.now))) }
{
    let name = String::from_utf8_lossy(alloc, binding.name)?;
    write_object(
        alloc,
        &[
            Field("index", Shown::Digest(&binding.index.0)),
            Field("key", Shown::Base64(binding.key)),
            Field("name", Shown::Text(name.as_str())),
            Field("opening", Shown::Digest(&binding.opening.0)),
        ],
        writer,
    )
}

/// Writes the array of bindings, in their order.
fn write_bindings(
    alloc: Global,
    page: &[IndexedBinding<'_>],
    writer: &mut Writer,
) -> Result<(), AllocError>
    ensures { OnOk result (Writes writer.old writer.new (array (items_of (map binding_data (map indexed_binding page.now))))) }
{
    writer.begin_array()?;
    for binding in page {
        write_binding(alloc, binding, writer)?;
    }
    writer.end_array()
}

/// Writes the object of a page.
fn write_page(
    alloc: Global,
    epoch: u64,
    page: &[IndexedBinding<'_>],
    more: bool,
    writer: &mut Writer,
) -> Result<(), AllocError>
    ensures { OnOk result (Writes writer.old writer.new (page_data epoch (map indexed_binding page.now) more)) }
{
    writer.begin_object()?;
    writer.key("bindings")?;
    write_bindings(alloc, page, writer)?;
    writer.key("epoch")?;
    writer.u64(epoch)?;
    writer.key("more")?;
    writer.boolean(more)?;
    writer.key("ok")?;
    writer.string("bindings")?;
    writer.end_object()
}

/// Returns the object of a page of an epoch's bindings. `more` says whether others follow.
pub(crate) fn page_object(
    alloc: Global,
    epoch: u64,
    page: &[IndexedBinding<'_>],
    more: bool,
) -> Result<Printable, AllocError>
    ensures { IfOk result (λ object. object.text.items ≡ compact_text (page_data epoch (map indexed_binding page.now) more)) }
{
    let room = page.len().saturating_mul(BINDING_ROOM);
    let mut writer = Writer::new(Vec::with_capacity(alloc, room)?);
    write_page(alloc, epoch, page, more, &mut writer)?;
    Ok(Printable {
        text: writer.into_inner(),
    })
}
