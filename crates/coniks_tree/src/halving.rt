//! A part, opened to the two parts of the prefixes below.

ghost use Rattle.std.specs.Prelude.{◌≡◌, ◌∷◌, [], ◌<◌, ◌≤◌, ◌+◌, List, ℕ, length, slice_get, Some, Bool, false, true};
ghost use Rattle.coniks_proof.specs.Bits.{child};
ghost use Rattle.coniks_proof.specs.Entries.{half};
ghost use Rattle.coniks_proof.specs.Hashing.{Hashing};
ghost use Rattle.coniks_tree.specs.Table.{Extends, Numbered, Shows, entry_of_record, Table};
ghost use Rattle.coniks_tree.specs.Trees.{table_of};
ghost use Rattle.coniks_tree.specs.declared.part.Part.{Entry};
ghost use Rattle.coniks_tree.specs.Parts.{Stands, Fits, KeepsNone, Placed, is_made, entry_of_change};

use crate::part::{Change, Part, Subtree};
use crate::table::{Node, Record, RecordNo, Root};
use crate::tree::Tree;
use coniks_proof::bit;

/// Returns the part that a node stands for.
pub(crate) fn retained(tree: &Tree, number: usize) -> Part
    requires { number < length tree.now.nodes }
    ensures fits { (level : ℕ) → level ≤ 256 → Fits (length tree.now.nodes) level result }
    ensures unmade { is_made result ≡ false }
    ensures placed { (all : List Record) → Extends tree.now.records all → Placed all result }
    ensures stands { (by : Hashing) (prefix : List Bool) (entries : List Numbered)
        → Shows by (table_of tree.now) number prefix entries → Stands by (table_of tree.now) result prefix entries }
{
    match tree.node(number) {
        Node::Empty(_) => Part::Nothing,
        Node::Leaf(place, _) => Part::Entry(change_at(tree, place)),
        Node::Inner(_, _, _) => Part::Kept(Root(number)),
    }
}

/// Returns a record as a change.
pub(crate) fn change_at(tree: &Tree, place: RecordNo) -> Change
    requires { place.0 < length tree.now.records }
    ensures same_place { result.place ≡ place }
    ensures placed { (all : List Record) → Extends tree.now.records all → Placed all (Entry result) }
    ensures same { (r : Record) → slice_get tree.now.records place.0 ≡ Some r → entry_of_change result ≡ entry_of_record place.0 r }
{
    let found = tree.record(place);
    Change {
        index: found.index,
        commitment: found.commitment,
        place,
    }
}

/// Returns the parts of the two prefixes below.
pub(crate) fn opened(tree: &Tree, level: usize, part: Part) -> (Part, Part)
    requires fits { Fits (length tree.now.nodes) level part }
    requires short { level < 256 }
    ensures left { Fits (length tree.now.nodes) (level + 1) result.0 }
    ensures right { Fits (length tree.now.nodes) (level + 1) result.1 }
    ensures unmade { is_made part ≡ false → (is_made result.0 ≡ false) × (is_made result.1 ≡ false) }
    ensures placed { (all : List Record) → Extends tree.now.records all → Placed all part → Placed all result.0 × Placed all result.1 }
    ensures keeps { KeepsNone part → KeepsNone result.0 × KeepsNone result.1 }
    ensures stands { (by : Hashing) (prefix : List Bool) (entries : List Numbered) → length prefix ≡ level
        → Stands by (table_of tree.now) part prefix entries
        → Stands by (table_of tree.now) result.0 (child prefix false) (half false level entries)
        × Stands by (table_of tree.now) result.1 (child prefix true) (half true level entries) }
{
    match part {
        Part::Nothing => (Part::Nothing, Part::Nothing),
        Part::Entry(change) => aside(level, change),
        Part::Kept(root) => below(tree, level, root),
        Part::Made(made) => {
            let Subtree { left, right, .. } = Box::into_inner(made);
            (left, right)
        }
    }
}

/// Returns the part of one of the two prefixes below.
pub(crate) fn side(tree: &Tree, level: usize, part: Part, right: bool) -> Part
    requires fits { Fits (length tree.now.nodes) level part }
    requires short { level < 256 }
    ensures fits { Fits (length tree.now.nodes) (level + 1) result }
    ensures unmade { is_made part ≡ false → is_made result ≡ false }
    ensures placed { (all : List Record) → Extends tree.now.records all → Placed all part → Placed all result }
    ensures stands { (by : Hashing) (prefix : List Bool) (entries : List Numbered) → length prefix ≡ level
        → Stands by (table_of tree.now) part prefix entries
        → Stands by (table_of tree.now) result (child prefix right) (half right level entries) }
{
    let (below_left, below_right) = opened(tree, level, part);
    if right { below_right } else { below_left }
}

/// Returns an entry as the parts of the two prefixes below.
pub(crate) fn aside(level: usize, change: Change) -> (Part, Part)
    requires { level < 256 }
    ensures fits { (n : ℕ) → Fits n (level + 1) result.0 × Fits n (level + 1) result.1 }
    ensures unmade { (is_made result.0 ≡ false) × (is_made result.1 ≡ false) }
    ensures placed { (all : List Record) → Placed all (Entry change) → Placed all result.0 × Placed all result.1 }
    ensures keeps { KeepsNone result.0 × KeepsNone result.1 }
    ensures stands { (by : Hashing) (t : Table) (prefix : List Bool) (entries : List Numbered)
        → entries ≡ entry_of_change change ∷ []
        → Stands by t result.0 (child prefix false) (half false level entries)
        × Stands by t result.1 (child prefix true) (half true level entries) }
{
    if bit(&change.index, level) {
        (Part::Nothing, Part::Entry(change))
    } else {
        (Part::Entry(change), Part::Nothing)
    }
}

/// Returns the parts below a node.
pub(crate) fn below(tree: &Tree, level: usize, root: Root) -> (Part, Part)
    requires known { root.0 < length tree.now.nodes }
    requires short { level < 256 }
    ensures left { Fits (length tree.now.nodes) (level + 1) result.0 }
    ensures right { Fits (length tree.now.nodes) (level + 1) result.1 }
    ensures unmade { (is_made result.0 ≡ false) × (is_made result.1 ≡ false) }
    ensures placed { (all : List Record) → Extends tree.now.records all → Placed all result.0 × Placed all result.1 }
    ensures stands { (by : Hashing) (prefix : List Bool) (entries : List Numbered) → length prefix ≡ level
        → Shows by (table_of tree.now) root.0 prefix entries
        → Stands by (table_of tree.now) result.0 (child prefix false) (half false level entries)
        × Stands by (table_of tree.now) result.1 (child prefix true) (half true level entries) }
{
    match tree.node(root.0) {
        Node::Empty(_) => (Part::Nothing, Part::Nothing),
        Node::Leaf(place, _) => aside(level, change_at(tree, place)),
        Node::Inner(left, right, _) => (retained(tree, left), retained(tree, right)),
    }
}
