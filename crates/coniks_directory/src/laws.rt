//! Lemmas about the definitions, each the contract of a function that does nothing.

ghost use Rattle.std.specs.Prelude.{◌≡◌, ◌≢◌, ◌⊎◌, ◌≤◌, ◌∷◌, ◌++◌, [], Bool, List, ℕ, suc, Option, None, Some, length, option_map, slice_get, true};
ghost use Rattle.coniks_chain.specs.Chain.{Continues, GoodChain, epoch_before};
ghost use Rattle.coniks_chain.specs.Entries.{body_bytes};
ghost use Rattle.coniks_chain.specs.Evidence.{IsWellFormed};
ghost use Rattle.coniks_chain.specs.declared.auditor.AuditorState.{AuditorState};
ghost use Rattle.coniks_chain.specs.declared.entry.Entry.{Entry};
ghost use Rattle.coniks_directory.specs.Alike.{AreAlikeEpochs, IsAlikeEpoch, SameBindings};
ghost use Rattle.coniks_directory.specs.Built.{IsUpdateBy};
ghost use Rattle.coniks_directory.specs.Chain.{IsChainOf, heads_of};
ghost use Rattle.coniks_directory.specs.History.{AreRising, Shown, latest_registry, numbers_of, root_at, shown_at};
ghost use Rattle.coniks_directory.specs.Lookups.{IsAcceptedAt, IsFound};
ghost use Rattle.coniks_directory.specs.Nodes.{epoch_nodes};
ghost use Rattle.coniks_directory.specs.Restored.{Restores, restored_epoch, stated_before};
ghost use Rattle.coniks_directory.specs.Runs.{AreAccepted, AreAcceptedFrom, Batch, IsPreparedOf, Run, Start, begins_after, defined, epochs_from, policy_of, restoring};
ghost use Rattle.coniks_directory.specs.State.{State, Whole, history_of};
ghost use Rattle.coniks_directory.specs.Supplied.{AgreeOn};
ghost use Rattle.coniks_directory.specs.SuppliedBatches.{IsSuppliedUpdate};
ghost use Rattle.coniks_directory.specs.Updates.{Grows, IsUpdate, IsUpdateOf, base_of, registry_after};
ghost use Rattle.coniks_directory.specs.declared.batch.Op.{Op};
ghost use Rattle.coniks_directory.specs.declared.update.Prepared.{Prepared};
ghost use Rattle.coniks_proof.specs.Batches.{Operation, after, first_fault};
ghost use Rattle.coniks_proof.specs.Bindings.{AreOpenings, Collide, hashed_for};
ghost use Rattle.coniks_proof.specs.Collisions.{Disagree};
ghost use Rattle.coniks_proof.specs.Hashing.{Hashing, hashing};
ghost use Rattle.coniks_proof.specs.Octets.{Octets};
ghost use Rattle.coniks_proof.specs.Proofs.{Accepts};
ghost use Rattle.coniks_proof.specs.Registry.{Registry, entries_of, key_of};
ghost use Rattle.coniks_proof.specs.Paths.{IsPath};
ghost use Rattle.coniks_proof.specs.declared.paths.Proof.{Proof};
ghost use Rattle.coniks_proof.specs.declared.values.Head.{Head};
ghost use Rattle.coniks_threads.specs.Lists.{Begins, last_of};

use coniks_proof::laws::roots_bind;

/// Proves that an update of a directory remains one while epochs are installed.
///
/// An update belongs to the directory that it was prepared from. After another install it is stale, and `install` returns
/// `Stale`.
#[tactic(auto, using(crate::proofs::CommitLemmas::update_by, crate::proofs::FreshLemmas::prepared_of, crate::proofs::FreshLemmas::stays))]
pub fn updates_stay()
    ensures of_batch { (hash index_of : Octets → Octets) (s : State) (new_nonce : Option Octets) (ops : List Op) (update : Prepared)
        → IsUpdateBy hash index_of s new_nonce ops update → IsUpdateOf hash index_of s update }
    ensures prepared { (hash index_of : Octets → Octets) (s : State) (update : Prepared) → IsUpdate hash index_of s update → IsUpdateOf hash index_of s update }
    ensures stays { (hash index_of : Octets → Octets) (s later : State) (update : Prepared)
        → Grows s later → IsUpdateOf hash index_of s update → IsUpdateOf hash index_of later update }
{}

/// Proves that an update with its indices remains one while epochs are installed and registered names keep their indices.
///
/// So it can be passed to `install_supplied` whatever was installed meanwhile, which then returns `Stale`.
#[tactic(auto, using(crate::proofs::SuppliedBatchLemmas::supplied_stays))]
pub fn supplied_updates_stay()
    ensures { (hash index_of also index : Octets → Octets) (s later : State) (update : Prepared)
        → Grows s later → AgreeOn index_of also (latest_registry (history_of s))
        → IsSuppliedUpdate hash index_of s update index → IsSuppliedUpdate hash also later update index }
{}

/// Proves that errors between `prepare` and `install` change neither the history nor the update's registry.
///
/// If no epoch was installed after an update was prepared, the directory has the history that it had. The update then
/// leaves the same registry.
#[tactic(auto, using(crate::proofs::FreshLemmas::fresh_history, crate::proofs::FreshLemmas::fresh_registry))]
pub fn updates_that_are_not_stale()
    ensures history { (hash index_of : Octets → Octets) (s later : State) (update : Prepared)
        → IsUpdate hash index_of s update → Grows s later → base_of update ≡ length later.epochs
        → history_of later ≡ history_of s }
    ensures registry { (hash index_of : Octets → Octets) (s later : State) (update : Prepared)
        → IsUpdate hash index_of s update → Grows s later → base_of update ≡ length later.epochs
        → registry_after later update ≡ registry_after s update }
{}

/// Proves that `Grows` is reflexive and transitive.
#[tactic(auto, using(crate::proofs::FreshLemmas::growth))]
pub fn directories_grow()
    ensures stays { (s : State) → Grows s s }
    ensures again { (s later last : State) → Grows s later → Grows later last → Grows s last }
{}

/// Proves that a watcher that has seen the heads up to `latest` returns no older head.
///
/// The heads that it had seen are a prefix of those that it has seen since. These are a prefix of the heads of the chain.
pub fn answers_are_no_older()
    ensures { (hash index_of : Octets → Octets) (policy : Octets) (before : Option AuditorState) (history : List Shown) (chain : List Entry) (had has : List Head) (latest answer : Head)
        → IsChainOf hash index_of policy before history chain → AreRising (epoch_before before) (numbers_of history)
        → Begins had has → Begins has (heads_of hash chain) → last_of had ≡ Some latest → last_of has ≡ Some answer → latest.epoch ≤ answer.epoch }
{}

/// Proves that a run of public calls from `open` or `restore` on leaves the directory that its batches define.
///
/// The run can contain calls that return errors and calls of `supply`. The directory is the same for every choice of
/// workers and split depths (`epochs`). The batches are a history of accepted ones, by the indices that the directory
/// holds at the end (`accepted`). These two clauses carry the content.
///
/// Four clauses restate what a call promises of the directory's own history, for the epochs that the batches define:
/// `entries` of `chain`, with the policy and the previous entry of the start, `roots` of `root_at`, and `paths` and
/// `lookups` of `lookup`.
///
/// `answers` is the definition of `Disagree`: two proofs that are accepted for one root, nonce and index, with different
/// answers. `coniks_proof::extract` then returns two different byte strings that have one hash.
pub fn directory_theorem()
    ensures epochs { (hash index_of : Octets → Octets) (start : Start) (batches : List Batch) (s : State) → Run hash index_of start batches s
        → history_of s ≡ defined start batches }
    ensures accepted { (hash index_of : Octets → Octets) (start : Start) (batches : List Batch) (s : State) → Run hash index_of start batches s
        → AreAccepted index_of start batches }
    ensures entries { (hash index_of : Octets → Octets) (start : Start) (batches : List Batch) (s : State) → Run hash index_of start batches s
        → IsChainOf hash index_of s.policy s.before (history_of s) s.chain → IsChainOf hash index_of (policy_of start) (begins_after start) (defined start batches) s.chain }
    ensures roots { (hash index_of : Octets → Octets) (start : Start) (batches : List Batch) (s : State) → Run hash index_of start batches s
        → (t : ℕ) (root : Option Octets) → root ≡ option_map (root_at hash index_of) (shown_at (history_of s) t)
        → root ≡ option_map (root_at hash index_of) (shown_at (defined start batches) t) }
    ensures paths { (hash index_of : Octets → Octets) (start : Start) (batches : List Batch) (s : State) → Run hash index_of start batches s
        → (t : ℕ) (name : Octets) (proof : Proof) → IsFound hash index_of (history_of s) t name proof
        → IsFound hash index_of (defined start batches) t name proof }
    ensures lookups { (hash index_of : Octets → Octets) (start : Start) (batches : List Batch) (s : State) → Run hash index_of start batches s
        → (t : ℕ) (name : Octets) (proof : Proof) → IsAcceptedAt hash index_of (history_of s) t name proof
        → IsAcceptedAt hash index_of (defined start batches) t name proof }
    ensures answers { (by : Hashing) (root index name_a name_b : Octets) (a b : Proof) (x y : Option Octets)
        → Accepts by root index name_a a x
        → Accepts by root index name_b b y → x ≢ y → Disagree by root index name_a a name_b b }
{}

/// Proves that a directory's properties depend only on the indices of its registered names.
///
/// A property of a directory by one function of indices holds by each function that gives the registered names the same
/// indices. So the index of a name that is not registered can be supplied, and all that is installed is unchanged. An
/// update remains one of the directory if the two functions agree on the registry that it leaves.
pub fn indices_may_be_supplied()
    ensures directories { (hash index_of also : Octets → Octets) (s : State)
        → AgreeOn index_of also (latest_registry (history_of s)) → Whole hash index_of s → Whole hash also s }
    ensures updates { (hash index_of also : Octets → Octets) (s : State) (update : Prepared)
        → AgreeOn index_of also (registry_after s update) → IsUpdateOf hash index_of s update → IsUpdateOf hash also s update }
    ensures prepared { (hash index_of also : Octets → Octets) (s : State) (new_nonce : Option Octets)
        (ops : List Operation) (depth workers : ℕ) (update : Prepared) → AgreeOn index_of also (registry_after s update)
        → IsPreparedOf hash index_of s new_nonce ops depth workers update → IsPreparedOf hash also s new_nonce ops depth workers update }
{}

/// Proves that a restored directory and one that has its epoch agree from that epoch on.
///
/// The bindings of the restore are those of the epoch, in any order. Registries with the same bindings accept the same
/// batches, and return the same first error. The epochs that the batches make are alike. Alike epochs have the same root,
/// keys and authentication paths, and their entries have the same body after the same entry. The same batch adds as many
/// nodes after alike epochs. The entries before the restored chain and the restored chain are a good chain if both are
/// good. An entry with no epoch before it is a good chain by itself, if its signature is verified, so a restored chain that
/// begins with it needs no others.
pub fn restored_directories_agree()
    ensures faults { (index_of : Octets → Octets) (registry other : Registry) (ops : List Operation) → SameBindings registry other
        → first_fault index_of registry ops ≡ first_fault index_of other ops }
    ensures accepted { (index_of : Octets → Octets) (t : ℕ) (registry other : Registry) (batches : List Batch) → SameBindings registry other
        → AreAcceptedFrom index_of t registry batches → AreAcceptedFrom index_of t other batches }
    ensures epochs { (version : ℕ) (nonce : Octets) (registry other : Registry) (batches : List Batch) → SameBindings registry other
        → AreAlikeEpochs (epochs_from version nonce registry batches) (epochs_from version nonce other batches) }
    ensures roots { (hash index_of : Octets → Octets) (s r : State) → Whole hash index_of s → Whole hash index_of r
        → (k j : ℕ) (shown other : Shown) → slice_get (history_of s) k ≡ Some shown → slice_get (history_of r) j ≡ Some other
        → IsAlikeEpoch shown other → root_at hash index_of shown ≡ root_at hash index_of other }
    ensures keys { (hash index_of : Octets → Octets) (s r : State) → Whole hash index_of s → Whole hash index_of r
        → (k j : ℕ) (shown other : Shown) → slice_get (history_of s) k ≡ Some shown → slice_get (history_of r) j ≡ Some other
        → IsAlikeEpoch shown other → (name : Octets) → key_of shown.registry name ≡ key_of other.registry name }
    ensures paths { (hash index_of : Octets → Octets) (s r : State) → Whole hash index_of s → Whole hash index_of r
        → (k j : ℕ) (shown other : Shown) → slice_get (history_of s) k ≡ Some shown → slice_get (history_of r) j ≡ Some other
        → IsAlikeEpoch shown other → (index : Octets) (proof : Proof)
        → IsPath (hashing hash shown.nonce) (entries_of hash index_of shown.registry) index proof
        → IsPath (hashing hash other.nonce) (entries_of hash index_of other.registry) index proof }
    ensures nodes { (hash index_of : Octets → Octets) (s r : State) (p q : Prepared) → Whole hash index_of s → Whole hash index_of r
        → IsUpdate hash index_of s p → IsUpdate hash index_of r q
        → (earlier others : List Shown) (shown other : Shown) (new_nonce : Option Octets) (ops : List Operation)
        → history_of s ≡ earlier ++ shown ∷ [] → history_of r ≡ others ++ other ∷ [] → IsAlikeEpoch shown other
        → first_fault index_of shown.registry ops ≡ None → registry_after s p ≡ after shown.registry ops → registry_after r q ≡ after other.registry ops
        → epoch_nodes index_of (history_of s) new_nonce ops ≡ epoch_nodes index_of (history_of r) new_nonce ops }
    ensures bodies { (hash index_of : Octets → Octets) (policy : Octets) (before begun : Option AuditorState) (history others : List Shown) (chain chained : List Entry)
        → IsChainOf hash index_of policy before history chain → IsChainOf hash index_of policy begun others chained
        → (k j : ℕ) (last next following : Entry) (shown other : Shown)
        → slice_get chain k ≡ Some last → slice_get chained j ≡ Some last → slice_get history (suc k) ≡ Some shown → slice_get others (suc j) ≡ Some other
        → slice_get chain (suc k) ≡ Some next → slice_get chained (suc j) ≡ Some following
        → IsAlikeEpoch shown other → root_at hash index_of shown ≡ root_at hash index_of other → next.body ≡ following.body }
    ensures runs { (hash index_of : Octets → Octets) (start : Start) (batches more : List Batch) (s r : State)
        (earlier : List Shown) (shown : Shown) (entry : Entry) (ops : List Operation)
        → Run hash index_of start (batches ++ more) s → Run hash index_of (restoring entry ops) more r
        → defined start batches ≡ earlier ++ shown ∷ [] → IsAlikeEpoch shown (restored_epoch entry ops)
        → (rest : List Shown) × (history_of s ≡ earlier ++ rest) × AreAlikeEpochs rest (history_of r) }
    ensures chains { (hash : Octets → Octets) (verdict : Octets → Octets → Bool) (earlier more : List Entry) (entry : Entry)
        → GoodChain hash verdict (earlier ++ entry ∷ []) → Continues hash verdict (Some (stated_before entry)) (entry ∷ more)
        → GoodChain hash verdict (earlier ++ entry ∷ more) }
    ensures first { (hash : Octets → Octets) (verdict : Octets → Octets → Bool) (entry : Entry) → IsWellFormed entry.body → entry.body.t_prev ≡ 0
        → verdict (body_bytes entry.body) entry.signature.0 ≡ true → GoodChain hash verdict (entry ∷ []) }
{}

/// Proves that two directories that have one entry have the same bindings at its epoch, or there is a collision.
///
/// Each name has the same index in both. So what `Restoring` restores from an entry of a directory is that epoch of it, from
/// which on `restored_directories_agree` speaks of both. Else one of the byte strings that are hashed for the first tree and
/// one of those for the second are a collision. A hash has 32 bytes, and so has an opening.
pub fn one_entry_has_one_epoch()
    ensures epochs { (hash index_of also : Octets → Octets) (s r : State) → ((bytes : Octets) → length (hash bytes) ≡ 32)
        → Whole hash index_of s → Whole hash also r → (k j : ℕ) (shown other : Shown) (entry : Entry)
        → slice_get (history_of s) k ≡ Some shown → slice_get (history_of r) j ≡ Some other
        → slice_get s.chain k ≡ Some entry → slice_get r.chain j ≡ Some entry → AreOpenings shown.registry → AreOpenings other.registry
        → (IsAlikeEpoch shown other × AgreeOn index_of also shown.registry)
        ⊎ Collide hash (hashed_for hash index_of shown.nonce shown.registry) (hashed_for hash also shown.nonce other.registry) }
    ensures restored { (hash index_of also : Octets → Octets) (s r : State) → ((bytes : Octets) → length (hash bytes) ≡ 32)
        → Whole hash index_of s → Whole hash also r → (k : ℕ) (shown : Shown) (entry : Entry) (ops : List Operation)
        → slice_get (history_of s) k ≡ Some shown → slice_get s.chain k ≡ Some entry → Restores entry ops r
        → AreOpenings shown.registry → AreOpenings (after [] ops)
        → (IsAlikeEpoch shown (restored_epoch entry ops) × AgreeOn index_of also shown.registry)
        ⊎ Collide hash (hashed_for hash index_of shown.nonce shown.registry) (hashed_for hash also shown.nonce (after [] ops)) }
{
    roots_bind();
}
