//! The operations of a `prepare` line and the bindings of a `restoring` line, each with the index of its name.

ghost use Rattle.std.specs.Prelude.{IfOk, option_map, ◌≡◌};
ghost use Rattle.serde_json.specs.View.{view, items_view};
ghost use Rattle.coniks_directory.specs.Batches.{operation_of};
ghost use Rattle.coniks_provider.specs.Lines.{batch_in, batch_line_read, element_in, indexed_in};

use crate::batch::Operations;
use coniks_directory::{Op, OpKind};
use coniks_programs::members::digits32;
use coniks_programs::operations::{ReadList, read_op, read_op_of};
use coniks_proof::Index;
use serde_json::Value;
use std::alloc::{AllocError, Global};

/// What the elements of a line are.
#[derive(Clone, Copy)]
pub(crate) enum Elements {
    /// Operations: the elements of `ops`.
    Operations,
    /// Bindings: the elements of `bindings`. Each is read as the operation that registers it.
    Bindings,
}

/// Reads the operation of an element.
fn read_element(alloc: Global, kind: Elements, element: &Value) -> Result<Option<Op>, AllocError>
    ensures { IfOk result (λ op. option_map operation_of op ≡ element_in kind (view element.now)) }
{
    match kind {
        Elements::Operations => read_op(alloc, element),
        Elements::Bindings => read_op_of(alloc, OpKind::Register, element),
    }
}

/// Reads the operation of an element, and its member `index`, 64 digits.
fn read_indexed(
    alloc: Global,
    kind: Elements,
    element: &Value,
) -> Result<Option<(Op, Index)>, AllocError>
    ensures { IfOk result (λ found. option_map (λ x. record { op = operation_of x.0; index = x.1.0 }) found ≡ indexed_in kind (view element.now)) }
{
    let Some(op) = read_element(alloc, kind, element)? else {
        return Ok(None);
    };
    match digits32(element, "index") {
        Some(index) => Ok(Some((op, Index(index)))),
        None => Ok(None),
    }
}

/// Reads the operations of the elements, or returns the position of the first element that is none.
///
/// Such an element is not an object, or one of its members is missing, of another kind or of a wrong text. Any length is
/// accepted.
pub(crate) fn read_operations(
    alloc: Global,
    kind: Elements,
    list: &[Value],
) -> Result<ReadList<Operations>, AllocError>
    ensures { IfOk result (λ read. batch_line_read read ≡ batch_in kind (items_view list.now)) }
{
    let mut ops = Vec::with_capacity(alloc, list.len())?;
    let mut indices = Vec::with_capacity(alloc, list.len())?;
    for (place, element) in list.iter().enumerate() {
        match read_indexed(alloc, kind, element)? {
            Some((op, index)) => {
                ops.push(op)?;
                indices.push(index)?;
            }
            None => return Ok(ReadList::BadElement(place)),
        }
    }
    Ok(ReadList::Whole(Operations { ops, indices }))
}
