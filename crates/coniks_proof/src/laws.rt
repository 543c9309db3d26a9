//! Lemmas about the definitions, each the contract of a function that only reads.

ghost use Rattle.std.specs.Prelude.{◌↔◌, ◌≡◌, ◌⊎◌, ◌<◌, ◌≤◌, ◌∷◌, [], List, ℕ, Bool, None, Option, false, length, map, not, slice_get, slice_index_or};
ghost use Rattle.coniks_proof.specs.Batches.{MayFollow, Operation, after, first_fault};
ghost use Rattle.coniks_proof.specs.Bindings.{AreOpenings, Collide, hashed_for};
ghost use Rattle.coniks_proof.specs.Bits.{bit_at, child, first_bits};
ghost use Rattle.coniks_proof.specs.Changes.{AreApart, AreIncreasing, AreInOrder, overwritten};
ghost use Rattle.coniks_proof.specs.Entries.{Entry, IsIn, backed_by, under};
ghost use Rattle.coniks_proof.specs.Maps.{IsIndex, IsMap, SameEntries};
ghost use Rattle.coniks_proof.specs.Preimages.{packed};
ghost use Rattle.coniks_proof.specs.Faults.{Has};
ghost use Rattle.coniks_proof.specs.Hashing.{Hashing, hashing};
ghost use Rattle.coniks_proof.specs.Limits.{deepest_level, longest_key, longest_name, most_operations};
ghost use Rattle.coniks_proof.specs.Octets.{Octets};
ghost use Rattle.coniks_proof.specs.Proofs.{Accepts, answer_of};
ghost use Rattle.coniks_proof.specs.declared.checker.CheckFault.{CheckFault};
ghost use Rattle.coniks_proof.specs.Registry.{AreWithin, HaveOwnIndices, IsFree, IsLength, Registry, entries_of, has_name, key_of, root_of};
ghost use Rattle.coniks_proof.specs.Paths.{IsPath, end_of, siblings};
ghost use Rattle.coniks_proof.specs.Tree.{node};
ghost use Rattle.coniks_proof.specs.Wire.{HasRoom, IsWire, WireHas};
ghost use Rattle.coniks_proof.specs.declared.paths.Proof.{Proof as Whole};
ghost use Rattle.coniks_proof.specs.declared.wire.WireFault.{WireFault};

use crate::hashing::Hash32;
use crate::paths::Proof;
use crate::values::{Digest, Index, MAX_KEY, MAX_LEVEL, MAX_NAME, MAX_OPERATIONS, Nonce};

/// Proves that the public limits are those of the specification.
pub fn limits()
    ensures name { MAX_NAME ≡ longest_name }
    ensures key { MAX_KEY ≡ longest_key }
    ensures level { MAX_LEVEL ≡ deepest_level }
    ensures operations { MAX_OPERATIONS ≡ most_operations }
{}

/// Proves that the path to a name's index is accepted under the root of its registry.
///
/// The answer is exactly the key that the name is bound to, or absence if it is bound to none. For absence the premise is
/// that no registered name has the name's index.
pub fn path_is_accepted<H: Hash32>(h: &H, nonce: &Nonce, root: &Digest, name: &[u8], proof: &Proof)
    ensures { (index_of : Octets → Octets) (registry : Registry) → IsMap (entries_of (H.digest_of h.now) index_of registry) → AreWithin registry
        → root.now.0 ≡ root_of (H.digest_of h.now) index_of nonce.now.0 registry
        → IsPath (hashing (H.digest_of h.now) nonce.now.0) (entries_of (H.digest_of h.now) index_of registry) (index_of name.now) proof.now
        → (has_name registry name.now ≡ false → IsFree index_of registry (index_of name.now))
        → IsLength MAX_NAME name.now
        → Accepts (hashing (H.digest_of h.now) nonce.now.0) root.now.0 (index_of name.now) name.now proof.now (key_of registry name.now) }
{}

/// Proves that a node, its path's siblings and its path's end do not depend on the order of the entries.
pub fn nodes_ignore_order<T>()
    ensures node { (by : Hashing) (prefix : List Bool) (es fs : List (Entry T)) → IsMap es → IsMap fs → SameEntries es fs
        → node by prefix es ≡ node by prefix fs }
    ensures siblings { (by : Hashing) (prefix : List Bool) (index : Octets) (es fs : List (Entry T))
        → IsMap es → IsMap fs → SameEntries es fs
        → siblings by prefix index es ≡ siblings by prefix index fs }
    ensures end { (prefix : List Bool) (index : Octets) (es fs : List (Entry T)) → IsMap es → IsMap fs → SameEntries es fs
        → end_of prefix index es ≡ end_of prefix index fs }
{}

/// Proves that a root binds all entries: two registries with one root have the same entries, or there is a collision.
///
/// The collision is of two byte strings: one is hashed for the first tree, the other for the second. The two registries may
/// give a name different indices. A hash has 32 bytes, and so has an opening.
pub fn roots_bind()
    ensures { (hash index_of also : Octets → Octets) (nonce : Octets) (registry other : Registry) → ((bytes : Octets) → length (hash bytes) ≡ 32)
        → IsMap (entries_of hash index_of registry) → IsMap (entries_of hash also other)
        → AreWithin registry → AreWithin other → AreOpenings registry → AreOpenings other
        → root_of hash index_of nonce registry ≡ root_of hash also nonce other
        → SameEntries (entries_of hash index_of registry) (entries_of hash also other)
        ⊎ Collide hash (hashed_for hash index_of nonce registry) (hashed_for hash also nonce other) }
{}

/// Proves that a node and its path's siblings do not depend on the data behind the commitments.
///
/// If the data behind the commitments is mapped, the end of a path is mapped in the same way.
pub fn nodes_ignore_committed_data<T, U>()
    ensures node { (f : T → U) (by : Hashing) (prefix : List Bool) (entries : List (Entry T))
        → node by prefix (map (backed_by f) entries) ≡ node by prefix entries }
    ensures siblings { (f : T → U) (by : Hashing) (prefix : List Bool) (index : Octets) (entries : List (Entry T))
        → siblings by prefix index (map (backed_by f) entries) ≡ siblings by prefix index entries }
    ensures end { (f : T → U) (prefix : List Bool) (index : Octets) (entries : List (Entry T))
        → end_of prefix index (map (backed_by f) entries) ≡ map (backed_by f) (end_of prefix index entries) }
{}

/// Proves that a proof is accepted if and only if it has no error.
pub fn no_fault_is_accepted<H: Hash32>(
    h: &H,
    nonce: &Nonce,
    root: &Digest,
    index: &Index,
    name: &[u8],
    proof: &Proof,
)
    ensures { ((fault : CheckFault) → Has (hashing (H.digest_of h.now) nonce.now.0) root.now.0 index.now.0 name.now proof.now fault → ⊥)
        ↔ (Accepts (hashing (H.digest_of h.now) nonce.now.0) root.now.0 index.now.0 name.now proof.now (answer_of proof.now.end)) }
{}

/// Proves that a batch has no error on a registry if and only if it can follow the registry.
///
/// The premise is that no two names of the registry have one index. That holds again for the registry that the batch
/// leaves, and it holds for the empty one.
pub fn faultless_batches()
    ensures exactly { (index_of : Octets → Octets) (registry : Registry) (ops : List Operation) → HaveOwnIndices index_of registry
        → ((first_fault index_of registry ops ≡ None) ↔ MayFollow index_of registry ops) }
    ensures after { (index_of : Octets → Octets) (registry : Registry) (ops : List Operation)
        → MayFollow index_of registry ops → HaveOwnIndices index_of (after registry ops) }
    ensures first { (index_of : Octets → Octets) → HaveOwnIndices index_of [] }
    ensures maps { (hash index_of : Octets → Octets) (registry : Registry) → IsMap (entries_of hash index_of registry) → HaveOwnIndices index_of registry }
{}

/// Proves the preconditions of a tree from the properties of its entries.
///
/// Entries in increasing order of index are in the order of their bits. Entries of a map differ within 256 bits. Entries
/// of a map in the order of their bits are in increasing order.
pub fn orders<T>()
    ensures increasing { (entries : List (Entry T)) → AreIncreasing entries → AreInOrder 0 entries }
    ensures apart { (entries : List (Entry T)) → IsMap entries → AreApart 0 entries }
    ensures one { (entries : List (Entry T)) → AreIncreasing entries → IsMap entries }
    ensures rising { (entries : List (Entry T)) → IsMap entries → AreInOrder 0 entries → AreIncreasing entries }
{}

/// Proves that a map overwritten by a map is a map.
///
/// Under a prefix it has the entries there, overwritten by the changes there. The entries there differ within the bits
/// that follow the prefix. So the preconditions of a tree or of worker threads hold for a changed map, at every level.
pub fn overwritten_maps<T>()
    ensures map { (entries changes : List (Entry T)) → IsMap entries → IsMap changes → IsMap (overwritten entries changes) }
    ensures under { (prefix : List Bool) (entries changes : List (Entry T))
        → under prefix (overwritten entries changes) ≡ overwritten (under prefix entries) (under prefix changes) }
    ensures apart { (prefix : List Bool) (entries : List (Entry T)) → length prefix ≤ 256 → IsMap entries → AreApart (length prefix) (under prefix entries) }
{}

/// Proves that the way to an index ends with the entry at the index, if the map has one.
pub fn ends<T>()
    ensures present { (index : Octets) (entries : List (Entry T)) (e : Entry T)
        → IsMap entries → IsIn e entries → e.index ≡ index → end_of [] index entries ≡ e ∷ [] }
    ensures found { (index : Octets) (entries : List (Entry T)) (e : Entry T) → IsMap entries → end_of [] index entries ≡ e ∷ [] → IsIn e entries }
{}

/// Proves where the path to an index over a map ends, and what its siblings are.
///
/// The path ends at the least level at which at most one entry is under the index's bits, with that entry if there is
/// one. Its sibling at each level is the node of the other side, over the entries under the prefix with its last bit
/// flipped.
pub fn paths<T>()
    ensures ends { (by : Hashing) (index : Octets) (entries : List (Entry T)) → IsMap entries
        → end_of [] index entries ≡ under (first_bits index (length (siblings by [] index entries))) entries }
    ensures few { (by : Hashing) (index : Octets) (entries : List (Entry T)) → IsMap entries
        → length (under (first_bits index (length (siblings by [] index entries))) entries) ≤ 1 }
    ensures least { (by : Hashing) (index : Octets) (entries : List (Entry T)) → IsMap entries
        → (level : ℕ) → level < length (siblings by [] index entries) → 2 ≤ length (under (first_bits index level) entries) }
    ensures siblings { (by : Hashing) (index : Octets) (entries : List (Entry T)) → IsMap entries
        → (level : ℕ) → level < length (siblings by [] index entries)
        → let other_side = child (first_bits index level) (not (bit_at index level)) in
        slice_get (siblings by [] index entries) level ≡ Some (node by other_side (under other_side entries)) }
{}

/// Proves that a prefix is hashed as 32 bytes. Their bits are those of the prefix, followed by zeros.
pub fn digits()
    ensures bytes { (prefix : List Bool) → IsIndex (packed prefix 32) }
    ensures bits { (prefix : List Bool) (k : ℕ) → k < 256 → bit_at (packed prefix 32) k ≡ slice_index_or prefix k false }
{}

/// Proves that a proof and its wire form determine each other.
///
/// Bytes are the wire form of at most one proof, and a proof has at most one wire form. The wire form of a proof has no
/// error. Each accepted proof has a wire form.
pub fn wire_forms()
    ensures one_proof { (bytes : Octets) (p q : Whole) → IsWire bytes p → IsWire bytes q → p ≡ q }
    ensures one_form { (bytes others : Octets) (p : Whole) → IsWire bytes p → IsWire others p → bytes ≡ others }
    ensures no_fault { (bytes : Octets) (p : Whole) (fault : WireFault) → IsWire bytes p → WireHas bytes fault → ⊥ }
    ensures room { (by : Hashing) (root index name : Octets) (p : Whole) (answer : Option Octets) → Accepts by root index name p answer → HasRoom p }
{}
