//! Lemmas about nodes and parts, each the contract of a function that does nothing.

ghost use Rattle.std.specs.Prelude.{◌≡◌, ◌<◌, ◌++◌, [], List, ℕ, Bool, true, Option, None, flat_map};
ghost use Rattle.coniks_proof.specs.Changes.{AreApart, AreIncreasing, IsBefore, overwritten};
ghost use Rattle.coniks_proof.specs.Hashing.{Hashing};
ghost use Rattle.coniks_proof.specs.Maps.{IsIndex, IsMap, SameEntries};
ghost use Rattle.coniks_proof.specs.Octets.{Octets};
ghost use Rattle.coniks_proof.specs.declared.values.Index.{Index};
ghost use Rattle.coniks_tree.specs.Entries.{Lists, in_order};
ghost use Rattle.coniks_tree.specs.Pages.{ArePages, beyond, is_less_from, next_after, page_of};
ghost use Rattle.coniks_tree.specs.Parts.{Stands, entries_in};
ghost use Rattle.coniks_tree.specs.declared.part.Change.{Change};
ghost use Rattle.coniks_tree.specs.Table.{Extends, Numbered, Shows, Table};
ghost use Rattle.coniks_tree.specs.declared.part.Part.{Part};

/// Proves that a node still shows the same map, and a part still stands for the same map, after nodes and records are
/// added.
pub fn what_was_shown_is_shown()
    ensures shows { (by : Hashing) (t further : Table) (number : ℕ) (prefix : List Bool) (entries : List Numbered)
        → Extends t.nodes further.nodes → Extends t.records further.records
        → Shows by t number prefix entries → Shows by further number prefix entries }
    ensures stands { (by : Hashing) (t further : Table) (part : Part) (prefix : List Bool) (entries : List Numbered)
        → Extends t.nodes further.nodes → Extends t.records further.records
        → Stands by t part prefix entries → Stands by further part prefix entries }
{}

/// Proves that a node shows a map whatever the order of its entries, and that a part stands for one.
pub fn shown_in_any_order()
    ensures shows { (by : Hashing) (t : Table) (number : ℕ) (prefix : List Bool) (es fs : List Numbered)
        → IsMap es → IsMap fs → SameEntries es fs
        → Shows by t number prefix es → Shows by t number prefix fs }
    ensures stands { (by : Hashing) (t : Table) (part : Part) (prefix : List Bool) (es fs : List Numbered)
        → IsMap es → IsMap fs → SameEntries es fs
        → Stands by t part prefix es → Stands by t part prefix fs }
{}

/// Proves that the result of `Tree::entries` builds the map again, under any nonce.
///
/// Its indices are different, as `Tree::grow` requires, and they are in increasing order. A part that was grown from
/// nothing by it stands for the map.
pub fn what_is_listed_is_built_again()
    ensures increasing { (changes : List Change) (entries : List Numbered) → IsMap entries → Lists changes entries → AreIncreasing (entries_in changes) }
    ensures apart { (changes : List Change) (entries : List Numbered) → Lists changes entries → AreApart 0 (overwritten [] (entries_in changes)) }
    ensures stands { (by : Hashing) (t : Table) (part : Part) (changes : List Change) (entries : List Numbered)
        → IsMap entries → Lists changes entries
        → Stands by t part [] (overwritten [] (entries_in changes)) → Stands by t part [] entries }
{}

/// Proves that pages, each after the last index of the one before, together are the entries, whatever their sizes.
///
/// What is beyond an index is a page and what is beyond the page. If a page is empty although it could have an entry,
/// nothing is left. `Tree::entries` lists the same entries in the same order.
pub fn pages_are_the_entries()
    ensures next { (after : Option Index) (page : List Change) (most : ℕ) (entries : List Numbered)
        → IsMap entries → entries_in page ≡ page_of after most entries
        → beyond after (in_order 0 entries) ≡ entries_in page ++ beyond (next_after after page) (in_order 0 entries) }
    ensures end { (after : Option Index) (most : ℕ) (entries : List Numbered)
        → 0 < most → page_of after most entries ≡ [] → beyond after (in_order 0 entries) ≡ [] }
    ensures whole { (pages : List (List Change)) (entries : List Numbered)
        → IsMap entries → ArePages None pages entries → flat_map entries_in pages ≡ in_order 0 entries }
    ensures listed { (changes : List Change) (entries : List Numbered)
        → IsMap entries → Lists changes entries → entries_in changes ≡ in_order 0 entries }
{}

/// Proves that an index is less than another one by its bits if and only if it is less by its bytes.
pub fn less_by_bits_and_bytes()
    ensures bytes { (index other : Octets) → IsIndex index → IsIndex other → is_less_from 0 index other ≡ true → IsBefore index other }
    ensures bits { (index other : Octets) → IsIndex index → IsIndex other → IsBefore index other → is_less_from 0 index other ≡ true }
{}
