//! Missing epochs of which the policy promises no proof any more.

ghost use Rattle.std.specs.Prelude.{◌≡◌, slice_get};
ghost use Rattle.coniks_c.specs.Core.{present_in, promise_in, stored_in};
ghost use Rattle.coniks_c.specs.CoreQuorum.{lost_number};

use crate::core_client::RawCore;
use coniks_client::watching::MISSING;
use coniks_quorum::lost::lost_at;

/// Returns 1 if the stored epoch of a place is missing, and lost: the policy promises no proof of it any more. Else returns 0, also if there
/// is no epoch at the place.
#[unsafe(no_mangle)]
pub extern "C" fn coniks_core_lost(core: &RawCore<'_, '_>, time: u64, place: usize) -> u32
    ensures lost { result ≡ lost_number (present_in core.now.rules time) (promise_in core.now.rules) (stored_in core.now) place (slice_get (stored_in core.now) place) }
{
    let stored = core.stored();
    match stored.get(place) {
        Some(mine) => {
            let lost = lost_at(
                &core.rules.present(time),
                &core.rules.promise(),
                stored,
                place,
            );
            u32::from(mine.seen == MISSING && lost)
        }
        None => 0,
    }
}
