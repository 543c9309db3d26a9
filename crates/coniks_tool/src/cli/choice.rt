//! The settings that the command line selects.

/// The settings of a command line.
#[derive(Clone, Copy, Debug, PartialEq, Eq)]
pub enum Settings<'a> {
    /// Answer the lines of the standard input.
    ///
    /// Epochs are built by this number of workers at this split depth, both within the limits of `coniks_threads::build`.
    Run {
        workers: usize,
        depth: usize,
    },
    /// Check the proofs of the standard input.
    Check,
    /// Audit the entries of the standard input, under the key of this text.
    Audit {
        key: &'a str,
    },
    /// Monitor the name over the lookups of the standard input, under the key of this text.
    ///
    /// The client expects the key of a further text, or no key if there is none.
    Monitor {
        key: &'a str,
        name: &'a str,
        expect: Option<&'a str>,
    },
}
