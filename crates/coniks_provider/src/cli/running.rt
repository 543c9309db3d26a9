//! Runs the settings of a command line.

ghost use Rattle.std.specs.Prelude.{◌<◌, ◌+◌, ◌^◌};
ghost use Rattle.coniks_lines.specs.Runs.{streams};
ghost use Rattle.coniks_provider.specs.Program.{EndsBy};

use crate::cli::settings::Settings;
use crate::machine::run_provider;
use crate::replay::run_replay;
use coniks_lines::{ByteIn, ByteOut};
use coniks_programs::cli::{Ending, Host};
use coniks_programs::fault::RunFault;
use std::thread::Threads;

/// Answers the lines of the reader, or replays them.
pub(crate) fn run_settings<T: Threads + Sync, R: ByteIn, W: ByteOut>(
    host: &Host<'_, T>,
    settings: Settings,
    reader: &mut R,
    writer: &mut W,
) -> Result<Ending, RunFault>
    requires reads { (R.source reader.old).failed + 1 < 2 ^ 64 }
    requires writes { (W.sink writer.old).failed + 1 < 2 ^ 64 }
    ensures { EndsBy settings.is_replay
        (streams (R.source reader.old) (R.source reader.new) (W.sink writer.old) (W.sink writer.new)) result }
{
    let (rt, alloc) = (host.rt, host.alloc);
    let all = match settings.is_replay {
        true => run_replay(rt, alloc, reader, writer, settings.parallelism)?,
        false => run_provider(rt, alloc, reader, writer, settings.parallelism)?,
    };
    Ok(Ending::Done(all))
}
