//! The knowledge of a board's seat, the rule of the board, and the effect of each of its steps on a view.
use atomic_table::{Join, Play, Split, TableRule};
use std::collections::LinkedList;

/// The view of a seat. No value of it is made at run time.
///
/// It contains whether the seat is the publisher's, whether it was not joined to another, and the blocks that it has seen
/// (the publisher: all). It also contains the blocks that were reported to it, the stored words of the next block, and
/// the capacity.
pub struct BoardView {
    pub writes: bool,
    pub live: bool,
    pub blocks: LinkedList<[u64; 5]>,
    pub returned: LinkedList<[u64; 5]>,
    pub pending: LinkedList<u64>,
    pub room: u64,
}

/// The rule of the board. The table's key is the capacity.
pub struct ByBoard;

impl<S> TableRule<S, BoardView, usize> for ByBoard {
    ghost use Rattle.std.specs.Prelude.{[]};
    ghost use Rattle.coniks_threads.specs.BoardRule.{publisher_view, IsByBoard};

    ghost holds = { IsByBoard };

    ghost first = { λ n. publisher_view [] [] [] n };
}

/// The publisher stores a word of the next block.
pub struct StoreWord;

impl<S> Play<S, BoardView> for StoreWord {
    ghost use Rattle.coniks_threads.specs.BoardRule.{Stored};

    ghost then = { Stored };
}

/// The publisher stores the count.
pub struct StoreCount;

impl<S> Play<S, BoardView> for StoreCount {
    ghost use Rattle.coniks_threads.specs.BoardRule.{Published};

    ghost then = { Published };
}

/// A watcher loads the count.
pub struct LoadCount;

impl<S> Play<S, BoardView> for LoadCount {
    ghost use Rattle.coniks_threads.specs.BoardRule.{Looked};

    ghost then = { Looked };
}

/// A watcher loads a word of a block that it has seen.
pub struct LoadWord;

impl<S> Play<S, BoardView> for LoadWord {
    ghost use Rattle.coniks_threads.specs.BoardRule.{Read};

    ghost then = { Read };
}

/// The publisher loads the count, and learns that the blocks reported to it are a prefix of its own.
pub struct Compare;

impl<S> Play<S, BoardView> for Compare {
    ghost use Rattle.coniks_threads.specs.BoardRule.{Compared};

    ghost then = { Compared };
}

/// A new watcher has seen what the seat has seen.
pub struct Witness;

impl Split<BoardView> for Witness {
    ghost use Rattle.coniks_threads.specs.BoardRule.{watcher_view};

    ghost left = { λ v. v };

    ghost right = { λ v. watcher_view v.blocks v.room };
}

/// A seat receives the blocks that another has seen.
pub struct Tell;

impl Join<BoardView> for Tell {
    ghost use Rattle.coniks_threads.specs.BoardRule.{returned_view, spent_view};

    ghost both = { returned_view };

    ghost spent = { spent_view };
}
