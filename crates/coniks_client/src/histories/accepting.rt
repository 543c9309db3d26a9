//! A history that a client accepts as a whole, or refuses as a whole.

ghost use Rattle.std.specs.Prelude.{◌≡◌, ◌<◌, ◌≤◌, ℕ, IfErr, IfOk, IfSome, OnErr, OnOk, Some, length, slice_get};
ghost use Rattle.coniks_client.specs.Changes.{wanted};
ghost use Rattle.coniks_client.specs.StoredEntry.{IsChain, entry_in};
ghost use Rattle.coniks_client.specs.Owner.{IsShown, IsWatched};
ghost use Rattle.coniks_client.specs.declared.stored.StoredEntry.{StoredEntry as StoredOne};
ghost use Rattle.coniks_client.specs.HistoryAccepting.{IsAccepted, IsNotAccepted};
ghost use Rattle.coniks_client.specs.HistoryChecking.{answer_in};
ghost use Rattle.coniks_client.specs.HistoryMarking.{AreReported, IsNumbered};
ghost use Rattle.coniks_client.specs.declared.histories.shown.ShownStep.{ShownStep as ShownOne};

use crate::changes::Change;
use crate::histories::checking::{StepChecker, check_steps};
use crate::histories::faults::AcceptFault;
use crate::histories::marking::{number_steps, tell_steps};
use crate::histories::reading::read_history;
use crate::histories::shown::{ShownStep, first_steps};
use crate::lookups::IndexScheme;
use crate::stored::StoredEntry;
use crate::watching::Watch;
use coniks_proof::Hash32;

/// A name that is looked up at several epochs: the bytes of the history, the watched name, and who verifies, the caller's hash and
/// index scheme.
#[derive(Drop)]
pub struct HistoryLookup<'h, 'a, H, S> {
    pub hash: &'h H,
    pub indices: &'h S,
    pub watch: Option<Watch<'h>>,
    pub name: &'a [u8],
    pub history: &'a [u8],
}

/// Accepts a history of a name as a whole, and returns the number of its steps. What step k showed, counted from 0, is at place k
/// of `shown`. If the name is watched, each watched epoch of the history then has the number of what was seen, and the changes
/// are marked, step by step. After an error the stored epochs and the changes are as they were.
///
/// `siblings` is memory for at least 256 siblings. Afterwards it contains any siblings, and after an error `shown` contains any
/// steps. `shown` needs a place for each step: `read_history` returns their number.
///
/// # Errors
///
/// If several apply, the first in this order is returned.
///
/// - `NoHistory` if the bytes are no history: the first error in their order, as of `read_history`.
/// - `VrfProof` if the VRF proof is not one of the name.
/// - Of the first step that has one of these errors: `NoRoom` if `shown` has no place for it, `UnknownEpoch` if its epoch is
///   not stored, `Check` if its proof is refused under the stored entry.
pub fn accept<'a, H: Hash32, S: IndexScheme>(
    lookup: &HistoryLookup<'_, 'a, H, S>,
    stored: &mut [StoredEntry],
    changes: &mut [Change<'_>],
    siblings: &mut [[u8; 32]],
    shown: &mut [ShownStep<'a>],
) -> Result<usize, AcceptFault>
    requires { 256 ≤ length siblings.old }
    ensures ok { IfOk result (λ count. IsAccepted (H.digest_of lookup.now.hash.now) (S.index_of lookup.now.indices.now) stored.old lookup.now.name.now lookup.now.history.now shown.new count) }
    ensures within { IfOk result (λ count. count ≤ length shown.new) }
    ensures reported { IfOk result (λ count. AreReported lookup.now.watch lookup.now.name.now shown.new stored.old changes.old count stored.new changes.new) }
    ensures numbered { IfOk result (λ count. (k : ℕ) (one : ShownOne) → k < count → slice_get shown.new k ≡ Some one
        → IsNumbered lookup.now.watch lookup.now.name.now stored.new one) }
    ensures err { IfErr result (λ fault. IsNotAccepted (H.digest_of lookup.now.hash.now) (S.index_of lookup.now.indices.now) stored.old lookup.now.name.now lookup.now.history.now (length shown.old) fault) }
    ensures unchanged { OnErr result (stored.new ≡ stored.old) }
    ensures unmarked { OnErr result (changes.new ≡ changes.old) }

    // Each answer was shown under the stored entry, which is what the owner law asks of both clients.
    ensures shown { IfOk result (λ count. (k : ℕ) (one : ShownOne) (mine : StoredOne) → k < count → slice_get shown.new k ≡ Some one
        → slice_get stored.old one.place ≡ Some mine
        → IsShown (H.digest_of lookup.now.hash.now) (S.index_of lookup.now.indices.now) (entry_in mine) lookup.now.name.now (answer_in one)) }

    // The stored epochs are still a chain, and each that shows what is expected has a proof behind it.
    ensures chain { OnOk result (IsChain (H.digest_of lookup.now.hash.now) stored.old → IsChain (H.digest_of lookup.now.hash.now) stored.new) }
    ensures watched { OnOk result (IfSome lookup.now.watch (λ watch. IsWatched (H.digest_of lookup.now.hash.now) (S.index_of lookup.now.indices.now) watch.name.now (wanted watch.key.now) changes.old stored.old
        → IsWatched (H.digest_of lookup.now.hash.now) (S.index_of lookup.now.indices.now) watch.name.now (wanted watch.key.now) changes.new stored.new)) }
{
    let history = match read_history(siblings, lookup.history) {
        Ok(history) => history,
        Err(fault) => return Err(AcceptFault::NoHistory(fault)),
    };
    let Some(index) = lookup.indices.index(lookup.name, history.vrf) else {
        return Err(AcceptFault::VrfProof);
    };
    let checker = StepChecker {
        hash: lookup.hash,
        stored: &*stored,
        name: lookup.name,
        index,
    };
    let count = match check_steps(&checker, siblings, shown, history.steps) {
        Ok(count) => count,
        Err(fault) => return Err(fault),
    };
    tell_steps(
        stored,
        &lookup.watch,
        changes,
        lookup.name,
        first_steps(shown, count),
    );
    number_steps(stored, &lookup.watch, lookup.name, shown, count);
    Ok(count)
}
