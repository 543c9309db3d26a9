//! A custom line machine, and lines for the engines of the two programs.

ghost use Rattle.std.specs.Prelude.{length, nat_lt, ℕ};

use anyhow::Result;
use coniks_lines::{LineMachine, MemoryIn, MemoryOut, run_lines};
use coniks_provider::run_provider;
use coniks_threads::{Parallelism, Wanted};
use coniks_tool::run_script;
use std::alloc::AllocError;
use std::thread::Threads;

/// A line machine that repeats each line and refuses empty ones.
#[derive(Drop)]
pub struct Echo;

impl LineMachine for Echo {
    ghost State = { ℕ };

    ghost state = { λ _. 0 };

    ghost answer = { λ state line. record { text = line; accepted = nat_lt 0 (length line); state = state } };

    ghost Needs = { Unit {0} };

    fn step(&mut self, line: &[u8], out: &mut Vec<u8>) -> Result<bool, AllocError> {
        out.extend_from_slice(line)?;
        Ok(line.len() > 0)
    }
}

/// Prints what a run wrote, and whether each line was accepted.
fn print_run<R: Print>(rt: &R, writer: &MemoryOut, all: bool) -> Result<()> {
    print!(rt; "{}", str::from_utf8(writer.bytes())?)?;
    println!(rt; "was each line accepted? {all}")?;
    Ok(())
}

/// Echoes three lines, from memory to memory.
pub fn echo_lines<R: Print + AllocGlobal>(rt: &R) -> Result<()> {
    let alloc = rt.alloc();
    let mut reader = MemoryIn::new(Vec::from_slice(alloc, b"one\n\nthree\n")?);
    let mut writer = MemoryOut::new(alloc);
    let all = run_lines(alloc, &mut Echo, &mut reader, &mut writer)?;
    print_run(rt, &writer, all)
}

/// A line that requests a name before a directory is open.
const SCRIPT: &[u8] = b"{\"cmd\":\"lookup\",\"epoch\":1,\"name\":\"alice\"}\n";

/// Runs a script as `keydir run` does, with two workers and a split depth of 1.
pub fn answer_script<R: Threads + Sync + Print + AllocGlobal>(rt: &R) -> Result<()> {
    let alloc = rt.alloc();
    let mut reader = MemoryIn::new(Vec::from_slice(alloc, SCRIPT)?);
    let mut writer = MemoryOut::new(alloc);
    let all = run_script(rt, alloc, &mut reader, &mut writer, 2, 1)?;
    print_run(rt, &writer, all)
}

/// A line that requests the latest epoch before a directory is open.
const LINES: &[u8] = b"{\"cmd\":\"latest\"}\n";

/// Runs a line as `provider` does, with two workers and a split depth of 1.
pub fn answer_provider<R: Threads + Sync + Print + AllocGlobal>(rt: &R) -> Result<()> {
    let alloc = rt.alloc();
    let mut reader = MemoryIn::new(Vec::from_slice(alloc, LINES)?);
    let mut writer = MemoryOut::new(alloc);
    let parallelism = Parallelism::new(Wanted {
        workers: 2,
        depth: 1,
    })?;
    let all = run_provider(rt, alloc, &mut reader, &mut writer, parallelism)?;
    print_run(rt, &writer, all)
}
