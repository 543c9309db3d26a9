//! The parameters of a run.

ghost use Rattle.std.specs.Prelude.{◌≡◌, ◌≤◌, IfOk};
ghost use Rattle.coniks_threads.specs.Limits.{most_heads, most_workers};

use anyhow::{Context, Result, ensure};
use coniks_proof::MAX_OPERATIONS;
use coniks_threads::{MAX_HEADS, MAX_WORKERS};

/// The numbers of epochs, names in each, workers, watchers, readers, and lookups of each reader in an epoch.
#[derive(Drop)]
pub struct Plan {
    pub epochs: usize,
    pub batch: usize,
    pub workers: usize,
    pub watchers: usize,
    pub readers: usize,
    pub lookups: usize,
    /// Whether the values that differ from run to run are printed.
    pub is_measured: bool,
    ghost some: { (1 ≤ epochs) × (epochs ≤ most_heads) },
    ghost worker_count: { (1 ≤ workers) × (workers ≤ most_workers) },
    ghost watched: { 1 ≤ watchers },
}

/// Parses a number in decimal digits, from 1 to a limit.
fn number_of(word: &str, most: usize) -> Result<usize>
    ensures { IfOk result (λ number. (1 ≤ number) × (number ≤ most)) }
{
    let number = word
        .parse::<usize>()
        .context(format_args!("reading {word:?}"))?;
    ensure!(1 <= number && number <= most, "from 1 to {most}: {number}");
    Ok(number)
}

/// Parses the numbers of a command line.
pub fn plan_of(numbers: &[String]) -> Result<Plan> {
    match numbers {
        [epochs, batch, workers, watchers, readers, lookups] => Ok(Plan {
            epochs: number_of(epochs, MAX_HEADS)?,
            batch: number_of(batch, MAX_OPERATIONS)?,
            workers: number_of(workers, MAX_WORKERS)?,
            watchers: number_of(watchers, 1000)?,
            readers: number_of(readers, 1000)?,
            lookups: number_of(lookups, 1_000_000)?,
            is_measured: true,
        }),
        _ => {
            ensure!(
                numbers.is_empty(),
                "usage: measures soak [EPOCHS BATCH WORKERS WATCHERS READERS LOOKUPS]"
            );
            Ok(Plan {
                epochs: 20,
                batch: 16,
                workers: 3,
                watchers: 4,
                readers: 2,
                lookups: 50,
                is_measured: false,
            })
        }
    }
}
