//! The program `keydir`, which starts `coniks_tool::Keydir` over the standard streams.
#![tactic(auto)]

use coniks_tool::{Keydir, SystemIn, SystemOut, start};
use std::process::ExitCode;

/// Runs `keydir` on the arguments and the standard streams, and returns its exit status.
fn main(rt: HostRuntime) -> ExitCode {
    let mut reader = SystemIn::new(rt.stdin());
    let mut writer = SystemOut::new(rt.stdout());
    let mut errors = SystemOut::new(rt.stderr());
    let status = start::<Keydir, _, _, _, _>(&rt, &mut reader, &mut writer, &mut errors);
    ExitCode::from(status)
}
