//! The holder of an index, and the error of an operation there.

ghost use Rattle.std.specs.Prelude.{◌≡◌, ◌<◌, List, IfSome, None, length, option_map, true};
ghost use Rattle.coniks_proof.specs.Batches.{clashes, fault_of, fits, kind_fault};
ghost use Rattle.coniks_proof.specs.Octets.{Octets};
ghost use Rattle.coniks_proof.specs.Registry.{Registered, Registry, has_name};
ghost use Rattle.coniks_tree.specs.Trees.{table_of};
ghost use Rattle.coniks_directory.specs.Batches.{fault_is, op_kind, operation_of};
ghost use Rattle.coniks_directory.specs.Holders.{HolderIs, ShowsLatest};

use crate::batch::{Op, OpFault, OpKind};
use coniks_proof::{Bytes, Index, MAX_KEY, MAX_NAME};
use coniks_tree::{Record, Root, Tree};

/// Returns the record of the name that has an index under a root, or `None` if there is no root.
pub(crate) fn holder_at<'a>(tree: &'a Tree, root: Option<Root>, index: &Index) -> Option<&'a Record>
    requires { IfSome root (λ r. r.0 < length tree.now.nodes) }
    ensures { (hash index_of : Octets → Octets) (nonce : Octets) (registry : Registry)
        → ShowsLatest hash index_of nonce (table_of tree.now) root registry → HolderIs index_of registry index.now.0 result }
{
    let place = tree.find(root?, index)?;
    Some(tree.record(place))
}

/// Returns whether the record at a name's index is that of the name.
pub(crate) fn is_of(holder: Option<&Record>, name: &[u8]) -> bool
    ensures { (index_of : Octets → Octets) (registry : Registry)
        → HolderIs index_of registry (index_of name.now) holder.entry → result ≡ has_name registry name.now }
{
    match holder {
        None => false,
        Some(record) => record.binding.name.as_slice() == name,
    }
}

/// Returns whether the record at the index of an operation's name is that of the name.
fn is_named(holder: Option<&Record>, name: &Bytes) -> bool
    ensures { (index_of : Octets → Octets) (registry : Registry)
        → HolderIs index_of registry (index_of name.now) holder.entry → result ≡ has_name registry name.now }
{
    is_of(holder, name.as_slice())
}

/// Returns whether the record at a name's index is that of another name.
fn is_other(holder: Option<&Record>, name: &Bytes) -> bool
    ensures { (index_of : Octets → Octets) (registry : Registry)
        → HolderIs index_of registry (index_of name.now) holder.entry → result ≡ clashes index_of registry name.now }
{
    match holder {
        None => false,
        Some(record) => record.binding.name.as_slice() != name.as_slice(),
    }
}

/// Returns the error of an operation of a kind, if any, for a name that is present or absent.
fn fault_of_kind(kind: OpKind, is_present: bool) -> Option<OpFault>
    ensures { option_map fault_is result ≡ kind_fault (op_kind kind) is_present }
{
    match (kind, is_present) {
        (OpKind::Register, true) => Some(OpFault::NameTaken),
        (OpKind::Change, false) => Some(OpFault::NameUnknown),
        _ => None,
    }
}

/// Returns the first error that applies to an operation, whose lengths have none.
///
/// It depends on the records at its name's index in the registry and among the earlier operations.
pub(crate) fn op_fault(
    op: &Op,
    present: Option<&Record>,
    earlier: Option<&Record>,
) -> Option<OpFault>
    requires named { fits MAX_NAME op.now.name ≡ true }
    requires keyed { fits MAX_KEY op.now.key ≡ true }
    ensures fault { (index_of : Octets → Octets) (registry : Registry) (before : List Registered)
        → HolderIs index_of registry (index_of op.now.name) present.entry → HolderIs index_of before (index_of op.now.name) earlier.entry
        → option_map fault_is result ≡ fault_of index_of registry before (operation_of op.now) }
    ensures free { result ≡ None → earlier.entry ≡ None }
{
    let name = &op.name;
    if is_named(earlier, name) {
        return Some(OpFault::NameTwice);
    }
    if let Some(fault) = fault_of_kind(op.kind, is_named(present, name)) {
        return Some(fault);
    }
    // What an earlier operation has at the index is of another name: NameTwice came before.
    if is_other(present, name) || earlier.is_some() {
        return Some(OpFault::IndexClash);
    }
    None
}
