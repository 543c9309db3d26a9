//! The time and memory of a run.

use anyhow::Result;
use std::rt::Files;
use std::time::Duration;
use std::{fs, io};

/// Returns the resident memory of the process, if Linux reports it.
fn resident<R: Files + AllocGlobal>(rt: &R) -> io::Result<Option<String>> {
    let status = fs::read_to_string(rt, "/proc/self/status")?;
    for line in status.lines() {
        if let Some(size) = line.strip_prefix("VmRSS:") {
            return Ok(Some(String::from_str(rt.alloc(), size.trim())?));
        }
    }
    Ok(None)
}

/// Prints the time of a run and the resident memory.
pub fn print_cost<R: Files + AllocGlobal + Print>(rt: &R, time: Duration) -> Result<()> {
    println!(rt; "seconds: {}.{:03}", time.as_secs(), time.subsec_millis())?;
    match resident(rt)? {
        Some(size) => println!(rt; "resident memory: {size}")?,
        None => println!(rt; "resident memory: unknown")?,
    }
    Ok(())
}
