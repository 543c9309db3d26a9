//! The bindings of an epoch, in pages.

ghost use Rattle.std.specs.Prelude.{◌≡◌, ◌++◌, ◌∷◌, [], IfOk, OnOk, map};
ghost use Rattle.coniks_tree.specs.Parts.{AllPlaced, Placed, entries_in, entry_of_change};
ghost use Rattle.coniks_tree.specs.declared.part.Part.TheVariants.{Entry};
ghost use Rattle.coniks_directory.specs.Bindings.{binding_at, indexed_binding};

use coniks_proof::{Index, Opening};
use coniks_tree::{Change, Tree};
use std::alloc::{AllocError, Global};
use thiserror::Error;

/// A binding of an epoch, with the index of its name and the opening of its commitment.
#[derive(Clone, Copy)]
pub struct IndexedBinding<'a> {
    pub index: Index,
    pub name: &'a [u8],
    pub key: &'a [u8],
    pub opening: Opening,
}

/// The error of a page of bindings. If several apply, the first in declaration order is returned.
#[derive(Clone, Copy, Debug, Drop, PartialEq, Eq, Error)]
pub enum BindingsFault {
    /// No epoch was installed under exactly this number.
    #[error("there is no such epoch")]
    UnknownEpoch,
    /// An allocation failed.
    #[error("out of memory")]
    OutOfMemory,
}

/// Appends what the record of a change binds.
fn push_binding<'a>(
    tree: &'a Tree,
    change: &Change,
    bindings: &mut Vec<IndexedBinding<'a>>,
) -> Result<(), AllocError>
    requires { Placed tree.now.records (Entry change.now) }
    ensures { OnOk result (map indexed_binding bindings.new.items ≡ map indexed_binding bindings.old.items
        ++ binding_at tree.now.records (entry_of_change change.now) ∷ []) }
{
    let record = tree.record(change.place);
    bindings.push(IndexedBinding {
        index: record.index,
        name: record.binding.name.as_slice(),
        key: record.binding.key.as_slice(),
        opening: record.opening,
    })?;
    Ok(())
}

/// Returns what the records of changes bind, in their order.
pub(crate) fn bindings_of<'a>(
    alloc: Global,
    tree: &'a Tree,
    changes: &[Change],
) -> Result<Vec<IndexedBinding<'a>>, AllocError>
    requires { AllPlaced tree.now.records changes.now }
    ensures { IfOk result (λ bindings. map indexed_binding bindings.items ≡ map (binding_at tree.now.records) (entries_in changes.now)) }
{
    let mut bindings = Vec::with_capacity(alloc, changes.len())?;
    let mut rest = changes;
    while let [change, others @ ..] = rest {
        push_binding(tree, change, &mut bindings)?;
        rest = others;
    }
    Ok(bindings)
}
