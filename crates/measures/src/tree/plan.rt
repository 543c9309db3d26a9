//! The number of indices, and the size of their batches.

ghost use Rattle.std.specs.Prelude.{◌<◌};

use anyhow::{Context, Result, ensure};
use coniks_proof::MAX_OPERATIONS;
use coniks_threads::{Parallelism, Wanted};

/// A number of indices, registered in batches.
#[derive(Drop)]
pub struct Plan {
    pub indices: u64,
    /// 1 to `MAX_OPERATIONS`.
    pub batch: u64,
    /// Whether the cost in seconds and memory is printed.
    pub is_measured: bool,
    /// The workers that build one more batch, which is timed.
    pub parallelism: Option<Parallelism>,
    ghost some: { 0 < batch },
}

impl Plan {
    /// Returns the number of batches.
    pub fn batches(&self) -> u64 {
        self.indices.div_ceil(self.batch)
    }
}

/// Parses a number in decimal digits.
fn number_of(word: &str) -> Result<u64> {
    word.parse::<u64>()
        .context(format_args!("reading {word:?}"))
}

/// Parses a small number in decimal digits.
fn small_of(word: &str) -> Result<usize> {
    word.parse::<usize>()
        .context(format_args!("reading {word:?}"))
}

/// Parses the numbers of indices and of a batch.
fn batches_of(indices: &str, batch: &str) -> Result<Plan> {
    let indices = number_of(indices)?;
    let batch = number_of(batch)?;
    ensure!(batch >= 1, "a batch has at least one index");
    ensure!(
        batch <= MAX_OPERATIONS as u64,
        "a batch has at most {MAX_OPERATIONS} indices"
    );
    Ok(Plan {
        indices,
        batch,
        is_measured: true,
        parallelism: None,
    })
}

/// Parses the number of workers and the split depth.
fn parallelism_of(workers: &str, depth: &str) -> Result<Parallelism> {
    Ok(Parallelism::new(Wanted {
        workers: small_of(workers)?,
        depth: small_of(depth)?,
    })?)
}

/// Parses the numbers of a command line.
pub fn plan_of(numbers: &[String]) -> Result<Plan> {
    match numbers {
        [indices, batch] => Ok(batches_of(indices, batch)?),
        [indices, batch, workers, depth] => {
            let mut plan = batches_of(indices, batch)?;
            plan.parallelism = Some(parallelism_of(workers, depth)?);
            Ok(plan)
        }
        _ => {
            ensure!(
                numbers.is_empty(),
                "usage: measures tree [INDICES BATCH [WORKERS DEPTH]]"
            );
            Ok(Plan {
                indices: 1000,
                batch: 64,
                is_measured: false,
                parallelism: None,
            })
        }
    }
}
