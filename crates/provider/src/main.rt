//! The program `provider`, which starts `coniks_provider::Provider` over the standard streams.
#![tactic(auto)]

use coniks_provider::{Provider, SystemIn, SystemOut, start};
use std::process::ExitCode;

/// Runs `provider` on the arguments and the standard streams, and returns its exit status.
fn main(rt: HostRuntime) -> ExitCode {
    let mut reader = SystemIn::new(rt.stdin());
    let mut writer = SystemOut::new(rt.stdout());
    let mut errors = SystemOut::new(rt.stderr());
    let status = start::<Provider, _, _, _, _>(&rt, &mut reader, &mut writer, &mut errors);
    ExitCode::from(status)
}
