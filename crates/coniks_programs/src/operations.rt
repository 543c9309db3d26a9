//! The operations of a batch line.

ghost use Rattle.std.specs.Prelude.{◌≡◌, IfOk, option_map};
ghost use Rattle.serde_json.specs.View.{view, items_view};
ghost use Rattle.coniks_directory.specs.Batches.{op_kind, operation_of};
ghost use Rattle.coniks_programs.specs.Operations.{kind_in, operation_in, operation_of_kind, operations_in, operations_read};

use crate::members::{base64, digits32, text};
use coniks_directory::{Op, OpKind};
use coniks_proof::{Bytes, Opening};
use serde_json::Value;
use std::alloc::{AllocError, Global};

/// The elements of a list, as they were read.
#[derive(Drop)]
pub enum ReadList<T> {
    /// Each element was read.
    Whole(T),
    /// The element at this position is the first that is none of those that were requested.
    BadElement(usize),
}

/// Reads the operations of the elements, or returns the position of the first element that is none.
///
/// Such an element is not an object, or one of its members is missing, of another kind or of a wrong text. Any length is
/// accepted.
///
/// # Errors
///
/// `AllocError` if an allocation fails.
pub fn read_ops(alloc: Global, list: &[Value]) -> Result<ReadList<Vec<Op>>, AllocError>
    ensures { IfOk result (λ ops. operations_read ops ≡ operations_in (items_view list.now)) }
{
    let mut found = Vec::with_capacity(alloc, list.len())?;
    for (place, element) in list.iter().enumerate() {
        match read_op(alloc, element)? {
            Some(op) => found.push(op)?,
            None => return Ok(ReadList::BadElement(place)),
        }
    }
    Ok(ReadList::Whole(found))
}

/// Reads the operation of an element: `op`, and the members of `read_op_of`.
///
/// Returns `None` if the element is not an object, or one of these is missing, of another kind or of a wrong text.
///
/// # Errors
///
/// `AllocError` if an allocation fails.
pub fn read_op(alloc: Global, element: &Value) -> Result<Option<Op>, AllocError>
    ensures { IfOk result (λ op. option_map operation_of op ≡ operation_in (view element.now)) }
{
    match kind(element) {
        Some(kind) => read_op_of(alloc, kind, element),
        None => Ok(None),
    }
}

/// Reads the operation of a kind from an element: `key` in base64, `name`, and `opening` in 64 digits.
///
/// # Errors
///
/// `AllocError` if an allocation fails.
pub fn read_op_of(alloc: Global, kind: OpKind, element: &Value) -> Result<Option<Op>, AllocError>
    ensures { IfOk result (λ op. option_map operation_of op ≡ operation_of_kind (op_kind kind) (view element.now)) }
{
    let Some(key) = base64(alloc, element, "key")? else {
        return Ok(None);
    };
    let Some(name) = text(element, "name") else {
        return Ok(None);
    };
    let Some(opening) = digits32(element, "opening") else {
        return Ok(None);
    };
    let name = Bytes::copy_of(alloc, name.as_bytes())?;
    Ok(Some(Op {
        kind,
        name,
        key: Bytes::new(key),
        opening: Opening(opening),
    }))
}

/// Reads the kind of an operation.
fn kind(element: &Value) -> Option<OpKind>
    ensures { option_map op_kind result ≡ kind_in (view element.now) }
{
    let name = text(element, "op")?;
    if name == "register" {
        return Some(OpKind::Register);
    }
    if name == "change" {
        return Some(OpKind::Change);
    }
    None
}
