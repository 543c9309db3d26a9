//! The texts of the program's help.

/// What `run` does.
pub(crate) const RUN: &str = "Runs a directory over the lines of standard input";

/// What `check` does.
pub(crate) const CHECK: &str = "Checks the proofs in the lines of standard input";

/// What `audit` does.
pub(crate) const AUDIT: &str = "Audits the entries in the lines of standard input";

/// What `monitor` does.
pub(crate) const MONITOR: &str = "Monitors a name over the lines of standard input";

/// What `--workers` is.
pub(crate) const WORKERS: &str =
    "The largest number of worker threads that build an epoch, 1 to 64";

/// What `--depth` is.
pub(crate) const DEPTH: &str = "The split depth in bits, 0 to 12";

/// What `--key` is.
pub(crate) const KEY: &str = "The directory's key, 64 hexadecimal digits";

/// What `--name` is.
pub(crate) const NAME: &str = "The name to monitor";

/// What `--expect` is.
pub(crate) const EXPECT: &str = "The expected key, in base64; without it no key is expected";

/// At the end of the help of `keydir`.
pub(crate) const OF_KEYDIR: &str = "Example:
  ./keydir run < examples/first.jsonl

Status:
  0  every line was accepted
  1  a line was refused, or the monitor saw another key than the expected one
  2  the command line is wrong
  3  a stream or an allocation failed";

/// At the end of the help of `keydir run`.
pub(crate) const OF_RUN: &str = "With depth 0 there is one job, whatever the workers.

Example:
  ./keydir run --workers 4 --depth 4 < examples/first.jsonl";

/// At the end of the help of `keydir check`.
pub(crate) const OF_CHECK: &str =
    "A proof is checked against the root, nonce and index in its own line; audit and monitor check whose root
that is.

Example:
  ./keydir run < examples/lookups.jsonl | grep '\"ok\":\"lookup\"' | ./keydir check";

/// At the end of the help of `keydir audit`.
pub(crate) const OF_AUDIT: &str = "Example:
  ./keydir audit --key $(printf %064d 0) < examples/chain.jsonl";

/// At the end of the help of `keydir monitor`.
pub(crate) const OF_MONITOR: &str = "Example:
  ./keydir monitor --key $(printf %064d 0) --name a --expect aw== < examples/watched.jsonl";
