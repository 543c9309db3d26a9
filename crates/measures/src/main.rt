//! Measures what an epoch costs, and a directory under load.
//!
//! `measures tree` registers pseudo-random indices in a tree, and prints what an epoch and a rotation of the nonce cost.
//! `measures soak` commits epochs beside watchers and readers, and counts wrong results. Without arguments the program
//! executes both on their default numbers, and prints the same each time.
#![tactic(auto)]

mod soak;
mod tree;

use anyhow::{Result, bail};
use std::env;

/// Executes what the command line names, and prints its results.
fn main(rt: HostRuntime) -> Result<()> {
    let words: Vec<String> = env::args(&rt)?.collect(rt.alloc())?;
    match words.as_slice() {
        [] | [_] => {
            tree::print(&rt, &[])?;
            soak::print(&rt, &[])
        }
        [_, name, numbers @ ..] => match name.as_str() {
            "tree" => tree::print(&rt, numbers),
            "soak" => soak::print(&rt, numbers),
            _ => bail!("usage: measures [tree [NUMBER ..] | soak [NUMBER ..]]"),
        },
    }
}
