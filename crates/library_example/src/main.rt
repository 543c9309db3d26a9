//! A tour of the libraries. The code on the first page of each library is a part of this program.
//!
//! `own` defines what a user provides. `provider` keeps a directory, and `supplied` one whose indices come from
//! outside. `client` checks, audits and watches. `tree` grows a tree without a directory, and `lines` runs line
//! machines.
#![tactic(auto)]

mod client;
mod lines;
mod own;
mod provider;
mod supplied;
mod tree;

use anyhow::Result;

/// Calls each part, and prints what it shows.
fn main(rt: HostRuntime) -> Result<()> {
    let provider = provider::two_epochs(&rt)?;
    client::look_up(&rt, &provider, 1, "bob")?;
    client::look_up(&rt, &provider, 2, "bob")?;
    client::look_up(&rt, &provider, 2, "mallory")?;
    client::audit(&rt, &provider)?;
    client::watch(&rt, &provider, "bob")?;
    supplied::supplied_indices(&rt)?;
    tree::small_tree(&rt)?;
    lines::echo_lines(&rt)?;
    lines::answer_script(&rt)?;
    lines::answer_provider(&rt)?;
    Ok(())
}
