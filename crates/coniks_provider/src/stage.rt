//! What the lines of a provider have made: nothing, a restore that has begun, or an open directory.

ghost use Rattle.std.specs.Prelude.{◌≡◌, IfSome, None};
ghost use Rattle.coniks_provider.specs.Stores.{IsNotRestoring};
ghost use Rattle.coniks_provider.specs.declared.stage.Stage.TheVariants.{Nothing, Restoring};

use crate::restoring::Restore;
use crate::service::Service;
use std::mem::replace;

/// What the lines have made.
#[derive(Drop)]
pub(crate) enum Stage {
    /// Nothing is open, and no restore has begun.
    Nothing,
    /// A restore that has begun.
    Restoring(Restore),
    /// An open directory.
    Open(Service),
}

/// Takes out the restore that has begun, if there is one.
pub(crate) fn take_restore(stage: &mut Stage) -> Option<Restore>
    ensures some { IfSome result (λ restore. stage.old ≡ Restoring restore) }
    ensures left { IfSome result (λ _. stage.new ≡ Nothing) }
    ensures none { result ≡ None → (stage.new ≡ stage.old) × IsNotRestoring stage.old }
{
    match replace(stage, Stage::Nothing) {
        Stage::Restoring(restore) => Some(restore),
        other => {
            *stage = other;
            None
        }
    }
}
