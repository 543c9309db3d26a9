//! The texts of errors, which no contract states.

use coniks_directory::{
    BatchFault, BindingsFault, CommitFault, InstallFault, LookupAtFault, LookupFault, OpFault,
    RestoreFault, SuppliedBatchFault, SupplyFault,
};
use coniks_threads::{BoardFull, NoBoard, NoClaims, NoSeat, ParallelismFault};
use std::fmt::Display;
use std::process::Abort;

/// Asserts how errors are shown, one after another with `; ` between them.
fn are_shown<E: Display, R: Abort + AllocGlobal>(rt: &R, errors: &[E], texts: &str) {
    let mut wanted = texts.split("; ");
    for error in errors {
        let shown = format!(in rt.alloc(); "{error}").expect(rt, "memory");
        assert!(rt; wanted.next() == Some(shown.as_str()), "{shown}");
    }
    assert!(rt; wanted.next().is_none(), "{texts}");
}

#[test]
fn texts_of_errors(rt: HostRuntime) {
    are_shown(&rt, &[NoClaims], "out of memory for the claims");
    are_shown(&rt, &[NoSeat], "no further seat is available");
    are_shown(&rt, &[NoBoard], "out of memory for the board");
    are_shown(&rt, &[BoardFull], "the board is full");

    use ParallelismFault::{Depth, Workers};
    let texts = "the number of workers isn't 1 to 64; the depth is more than 12";
    are_shown(&rt, &[Workers, Depth], texts);
    are_shown(&rt, &[BatchFault::Workers, BatchFault::Depth], texts);

    use OpFault::{IndexClash, KeyLength, NameLength, NameTaken, NameTwice, NameUnknown};
    let lengths = [NameLength, KeyLength];
    let texts =
        "the name is empty or longer than 255 bytes; the key is empty or longer than 16384 bytes";
    are_shown(&rt, &lengths, texts);
    let texts =
        "an earlier operation has this name; the name is registered; the name isn't registered; another name has this name's index";
    are_shown(&rt, &[NameTwice, NameTaken, NameUnknown, IndexClash], texts);
    let (position, fault) = (1, NameTaken);
    let taken = BatchFault::At { position, fault };
    let texts =
        "there are more than 4096 operations; operation 1: the name is registered; out of memory";
    are_shown(
        &rt,
        &[BatchFault::BatchTooLong, taken, BatchFault::OutOfMemory],
        texts,
    );
    let other = SuppliedBatchFault::OtherIndex { position };
    let texts = "operation 1: the name is registered; operation 1: the name has another index";
    are_shown(&rt, &[SuppliedBatchFault::Batch(taken), other], texts);

    use InstallFault::{EpochNotLater, SignerRefused, Stale};
    let latest = 3;
    let texts =
        "the update is stale: the latest epoch is 3; the epoch isn't later than 3; the board is full; out of memory; the signer refused";
    are_shown(
        &rt,
        &[
            Stale { latest },
            EpochNotLater { latest },
            InstallFault::BoardFull,
            InstallFault::OutOfMemory,
            SignerRefused,
        ],
        texts,
    );
    let commits = [
        CommitFault::Batch(taken),
        CommitFault::Install(SignerRefused),
    ];
    let texts =
        "the batch is refused: operation 1: the name is registered; the update is refused: the signer refused";
    are_shown(&rt, &commits, texts);

    use RestoreFault::{Malformed, NotLater, RootDiffers, Version};
    let texts =
        "the entry's epoch isn't later than the one before it; the entry's version is neither 1 nor 2; the epoch before the entry's is 0, and its previous link isn't 32 zero bytes; the root of the bindings isn't the entry's; out of memory";
    are_shown(
        &rt,
        &[
            NotLater,
            Version,
            Malformed,
            RootDiffers,
            RestoreFault::OutOfMemory,
        ],
        texts,
    );

    let texts = "there is no such epoch; the name is empty or longer than 255 bytes; out of memory";
    use LookupFault as L;
    are_shown(
        &rt,
        &[L::UnknownEpoch, L::NameLength, L::OutOfMemory],
        texts,
    );
    use LookupAtFault as At;
    are_shown(
        &rt,
        &[At::UnknownEpoch, At::NameLength, At::OutOfMemory],
        texts,
    );
    let other = "the name is registered with another index";
    are_shown(&rt, &[At::OtherIndex], other);
    are_shown(&rt, &[SupplyFault::OtherIndex], other);
    let texts = "the name is empty or longer than 255 bytes; out of memory";
    are_shown(
        &rt,
        &[SupplyFault::NameLength, SupplyFault::OutOfMemory],
        texts,
    );
    let texts = "there is no such epoch; out of memory";
    are_shown(
        &rt,
        &[BindingsFault::UnknownEpoch, BindingsFault::OutOfMemory],
        texts,
    );
}
