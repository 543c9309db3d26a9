//! A board, on which one publisher publishes heads, and watchers read the last one.
ghost use Rattle.std.specs.Prelude.{◌≡◌, ◌≤◌, ◌<◌, ◌+◌, ◌*◌, ◌++◌, ◌∷◌, ◌-◌, [], true, length, slice_index, Some, IsOk, IfOk, OnErr, OnOk};
ghost use Rattle.coniks_threads.specs.Limits.{most_heads};
ghost use Rattle.coniks_threads.specs.Lists.{Begins, last_of};
ghost use Rattle.coniks_threads.specs.Blocks.{flat, AllFive};
ghost use Rattle.coniks_threads.specs.BoardRule.{publisher_view, watcher_view, returned_view};
ghost use Rattle.coniks_threads.specs.Boards.{board_end};

use crate::board_rule::{
    BoardView, ByBoard, Compare, LoadCount, LoadWord, StoreCount, StoreWord, Tell, Witness,
};
use crate::errors::{BoardFull, NoBoard, NoSeat};
use crate::head_words::{head_from, head_words};
use atomic_table::{Seat, Shared, Table};
use coniks_proof::Head;
use std::alloc::Global;
use std::marker::Model;

/// The largest number of heads that a board takes.
pub const MAX_HEADS: usize = 65536;

/// Room for heads, in which nothing is written twice.
///
/// Contracts see a board as the table that distinguishes it from other boards, and its capacity in heads.
#[derive(Drop)]
pub struct Board {
    table: Table<u8, BoardView, usize, ByBoard, Global>,
    capacity: usize,
}

impl Model for Board {
    ghost use Rattle.std.specs.Prelude.{◌≡◌, ◌≤◌, ◌+◌, ◌*◌};
    ghost use Rattle.coniks_threads.specs.Limits.{most_heads};
    ghost use Rattle.coniks_threads.specs.Boards.{Boarded, boarded_code};

    ghost Value = { Boarded };

    ghost coded = { boarded_code };

    ghost view = { λ b. record { table = b.table.shared.table_id; capacity = b.capacity } };

    ghost invariant = { λ b. (b.table.shared.key ≡ b.capacity) × (b.table.shared.table_id.words ≡ 5 * b.capacity + 1) × (b.capacity ≤ most_heads) };
}

/// The only publisher of a board. Contracts see it as its board's table, and the heads that are published.
#[derive(Drop)]
pub struct Publisher {
    seat: Seat<u8, BoardView>,
    count: usize,
    last: Option<Head>,
}

impl Model for Publisher {
    ghost use Rattle.std.specs.Prelude.{◌≡◌, ◌+◌, ◌*◌, ◌≤◌, [], length};
    ghost use Rattle.coniks_threads.specs.HeadWords.{heads_in_words};
    ghost use Rattle.coniks_threads.specs.Boards.{BoardEnd, board_end_code, board_end};
    ghost use Rattle.coniks_threads.specs.BoardRule.{publisher_view};
    ghost use Rattle.coniks_threads.specs.Lists.{last_of};

    ghost Value = { BoardEnd };

    ghost coded = { board_end_code };

    ghost view = { λ p. board_end p.seat.table_id (heads_in_words p.seat.me.0.blocks) };

    // Between calls no word of a next block is stored.
    ghost invariant = { λ p. (p.seat.me.1 ≡ []) × (p.seat.me.0 ≡ publisher_view p.seat.me.0.blocks p.seat.me.0.returned [] p.seat.me.0.room)
        × (length p.seat.me.0.blocks ≡ p.count) × (p.count ≤ p.seat.me.0.room)
        × (p.seat.table_id.words ≡ 5 * p.seat.me.0.room + 1) × (p.last ≡ last_of (heads_in_words p.seat.me.0.blocks)) };
}

/// A reader of a board. Contracts see it as its board's table, and the heads that it has seen.
#[derive(Drop)]
pub struct Watcher {
    seat: Seat<u8, BoardView>,
}

impl Model for Watcher {
    ghost use Rattle.std.specs.Prelude.{◌≡◌, ◌+◌, ◌*◌, []};
    ghost use Rattle.coniks_threads.specs.HeadWords.{heads_in_words};
    ghost use Rattle.coniks_threads.specs.Boards.{BoardEnd, board_end_code, board_end};
    ghost use Rattle.coniks_threads.specs.BoardRule.{watcher_view};

    ghost Value = { BoardEnd };

    ghost coded = { board_end_code };

    ghost view = { λ w. board_end w.seat.table_id (heads_in_words w.seat.me.0.blocks) };

    ghost invariant = { λ w. (w.seat.me.1 ≡ []) × (w.seat.me.0 ≡ watcher_view w.seat.me.0.blocks w.seat.me.0.room)
        × (w.seat.table_id.words ≡ 5 * w.seat.me.0.room + 1) };
}

impl Board {
    /// Returns an empty board for 1 to 65,536 heads, with its publisher.
    ///
    /// Allocates 8 bytes and 40 more for each head, and as much again during the call.
    ///
    /// # Errors
    ///
    /// `NoBoard` if an allocation fails.
    pub fn new(alloc: Global, capacity: usize) -> Result<(Board, Publisher), NoBoard>
        requires { (1 ≤ capacity) × (capacity ≤ most_heads) }
        ensures { IfOk result (λ r. (r.0.capacity ≡ capacity) × (r.1 ≡ board_end r.0.table [])) }
    {
        let Ok(words) = Vec::from_elem(alloc, 0, 5 * capacity + 1) else {
            return Err(NoBoard);
        };
        let Ok((table, seat)) = Table::of_words(alloc, words.as_slice(), &capacity) else {
            return Err(NoBoard);
        };
        let publisher = Publisher {
            seat,
            count: 0,
            last: None,
        };
        Ok((Board { table, capacity }, publisher))
    }

    /// Returns the number of heads that the board takes in all.
    pub fn capacity(&self) -> usize
        ensures { result ≡ self.now.capacity }
    {
        self.capacity
    }
}

/// Stores one word of the next block.
fn put(
    table: &Shared<u8, BoardView, usize, ByBoard>,
    seat: &mut Seat<u8, BoardView>,
    at: usize,
    word: u64,
)
    requires table { (seat.old.table_id ≡ table.now.table_id) × (table.now.table_id.words ≡ 5 * table.now.key + 1) }
    requires publisher { seat.old.me.0 ≡ publisher_view seat.old.me.0.blocks seat.old.me.0.returned seat.old.me.0.pending seat.old.me.0.room }
    requires place { at ≡ 5 * length seat.old.me.0.blocks + length seat.old.me.0.pending + 1 }
    requires room { (length seat.old.me.0.pending < 5) × (length seat.old.me.0.blocks < table.now.key) }
    ensures same { (seat.new.table_id ≡ seat.old.table_id) × (seat.new.me.1 ≡ seat.old.me.1) }
    ensures view { seat.new.me.0 ≡ publisher_view seat.old.me.0.blocks seat.old.me.0.returned (seat.old.me.0.pending ++ word ∷ []) seat.old.me.0.room }
{
    table.store::<StoreWord>(seat, at, word);
}

/// Stores the count, which publishes the next block.
fn show(table: &Shared<u8, BoardView, usize, ByBoard>, seat: &mut Seat<u8, BoardView>, count: usize)
    requires table { (seat.old.table_id ≡ table.now.table_id) × (table.now.table_id.words ≡ 5 * table.now.key + 1) }
    requires publisher { seat.old.me.0 ≡ publisher_view seat.old.me.0.blocks seat.old.me.0.returned seat.old.me.0.pending seat.old.me.0.room }
    requires whole { length seat.old.me.0.pending ≡ 5 }
    requires count { (count ≡ length seat.old.me.0.blocks + 1) × (count ≤ table.now.key) }
    ensures same { (seat.new.table_id ≡ seat.old.table_id) × (seat.new.me.1 ≡ seat.old.me.1) }
    ensures view { seat.new.me.0 ≡ publisher_view (seat.old.me.0.blocks ++ seat.old.me.0.pending ∷ []) seat.old.me.0.returned [] seat.old.me.0.room }
{
    table.store::<StoreCount>(seat, 0, count as u64);
}

/// Stores the five words of a block, and then the count, which is one more.
fn put_block(
    table: &Shared<u8, BoardView, usize, ByBoard>,
    seat: &mut Seat<u8, BoardView>,
    count: &mut usize,
    block: &[u64; 5],
)
    requires table { (seat.old.table_id ≡ table.now.table_id) × (table.now.table_id.words ≡ 5 * table.now.key + 1) × (table.now.key ≤ most_heads) }
    requires publisher { seat.old.me.0 ≡ publisher_view seat.old.me.0.blocks seat.old.me.0.returned [] seat.old.me.0.room }
    requires count { (count.old ≡ length seat.old.me.0.blocks) × (count.old < table.now.key) }
    ensures same { (seat.new.table_id ≡ seat.old.table_id) × (seat.new.me.1 ≡ seat.old.me.1) }
    ensures counted { count.new ≡ count.old + 1 }
    ensures view { seat.new.me.0 ≡ publisher_view (seat.old.me.0.blocks ++ block.now ∷ []) seat.old.me.0.returned [] seat.old.me.0.room }
{
    let at = 5 * *count + 1;
    put(table, seat, at, block[0]);
    put(table, seat, at + 1, block[1]);
    put(table, seat, at + 2, block[2]);
    put(table, seat, at + 3, block[3]);
    put(table, seat, at + 4, block[4]);
    *count += 1;
    show(table, seat, *count);
}

/// Loads the count. The seat has then seen this number of blocks.
fn look(table: &Shared<u8, BoardView, usize, ByBoard>, seat: &mut Seat<u8, BoardView>) -> usize
    requires table { (seat.old.table_id ≡ table.now.table_id) × (0 < table.now.table_id.words) }
    requires watcher { seat.old.me.0 ≡ watcher_view seat.old.me.0.blocks seat.old.me.0.room }
    ensures same { (seat.new.table_id ≡ seat.old.table_id) × (seat.new.me.1 ≡ seat.old.me.1) }
    ensures view { seat.new.me.0 ≡ watcher_view seat.new.me.0.blocks seat.old.me.0.room }
    ensures seen { (length seat.new.me.0.blocks ≡ result) × (result ≤ seat.old.me.0.room) × AllFive seat.new.me.0.blocks }
    ensures later { Begins seat.old.me.0.blocks seat.new.me.0.blocks }
{
    table.load::<LoadCount>(seat, 0) as usize
}

/// Loads a word of a block that was seen.
fn read(
    table: &Shared<u8, BoardView, usize, ByBoard>,
    seat: &mut Seat<u8, BoardView>,
    at: usize,
) -> u64
    requires table { (seat.old.table_id ≡ table.now.table_id) × (at < table.now.table_id.words) }
    requires place { (0 < at) × (at ≤ 5 * length seat.old.me.0.blocks) × AllFive seat.old.me.0.blocks }
    ensures same { (seat.new.table_id ≡ seat.old.table_id) × (seat.new.me ≡ seat.old.me) }
    ensures value { result ≡ slice_index (flat seat.old.me.0.blocks) (at - 1) }
{
    table.load::<LoadWord>(seat, at)
}

/// Loads the five words of the last block that was seen.
fn read_block(
    table: &Shared<u8, BoardView, usize, ByBoard>,
    seat: &mut Seat<u8, BoardView>,
    count: usize,
) -> [u64; 5]
    requires table { (seat.old.table_id ≡ table.now.table_id) × (5 * count < table.now.table_id.words) × (count ≤ most_heads) }
    requires seen { (0 < count) × (length seat.old.me.0.blocks ≡ count) × AllFive seat.old.me.0.blocks }
    ensures same { (seat.new.table_id ≡ seat.old.table_id) × (seat.new.me ≡ seat.old.me) }
    ensures last { Some result ≡ last_of seat.old.me.0.blocks }
{
    let at = 5 * (count - 1) + 1;
    let first = read(table, seat, at);
    let second = read(table, seat, at + 1);
    let third = read(table, seat, at + 2);
    let fourth = read(table, seat, at + 3);
    let fifth = read(table, seat, at + 4);
    [first, second, third, fourth, fifth]
}

/// Returns the seat of a new watcher that has seen the blocks that this seat has seen.
fn witness(
    table: &Shared<u8, BoardView, usize, ByBoard>,
    seat: &mut Seat<u8, BoardView>,
) -> Seat<u8, BoardView>
    requires table { (seat.old.table_id ≡ table.now.table_id) × (0 < table.now.table_id.words) }
    requires live { seat.old.me.0.live ≡ true }
    ensures same { (seat.new.table_id ≡ seat.old.table_id) × (seat.new.me ≡ seat.old.me) }
    ensures new { (result.table_id ≡ seat.old.table_id) × (result.me ≡ (watcher_view seat.old.me.0.blocks seat.old.me.0.room, [])) }
{
    table.split_seat::<Witness>(seat)
}

/// Reports to the publisher's seat the blocks that the other seat has seen. The other seat ends.
fn tell(
    table: &Shared<u8, BoardView, usize, ByBoard>,
    seat: &mut Seat<u8, BoardView>,
    other: Seat<u8, BoardView>,
)
    requires table { (seat.old.table_id ≡ table.now.table_id) × (other.table_id ≡ table.now.table_id) × (0 < table.now.table_id.words) }
    requires free { other.me.1 ≡ [] }
    ensures same { (seat.new.table_id ≡ seat.old.table_id) × (seat.new.me.1 ≡ seat.old.me.1) }
    ensures view { seat.new.me.0 ≡ returned_view seat.old.me.0 other.me.0 }
{
    table.join_seat::<Tell>(seat, other);
}

/// Loads the count by the publisher's seat: the blocks reported to it are a prefix of the published blocks.
fn compare(table: &Shared<u8, BoardView, usize, ByBoard>, seat: &mut Seat<u8, BoardView>)
    requires table { (seat.old.table_id ≡ table.now.table_id) × (0 < table.now.table_id.words) }
    requires publisher { seat.old.me.0.writes ≡ true }
    ensures same { (seat.new.table_id ≡ seat.old.table_id) × (seat.new.me ≡ seat.old.me) }
    ensures begins { Begins seat.old.me.0.returned seat.old.me.0.blocks }
{
    table.load::<Compare>(seat, 0);
}

impl Publisher {
    /// Returns the number of published heads.
    #[tactic(auto, using(crate::proofs::HeadLemmas::heads_length))]
    pub fn published(&self) -> usize
        ensures { result ≡ length self.now.heads }
    {
        self.count
    }

    /// Returns the last published head, or `None` if there is none.
    pub fn last(&self) -> Option<Head>
        ensures { result ≡ last_of self.now.heads }
    {
        self.last
    }

    /// Publishes a head. It stores the head's five words, and then the count.
    ///
    /// # Errors
    ///
    /// `BoardFull` if and only if as many heads as the capacity are published. Nothing is stored then.
    #[tactic(auto, using(crate::proofs::HeadLemmas::heads_length))]
    pub fn publish(&mut self, board: &Board, head: Head) -> Result<(), BoardFull>
        requires { self.old.table ≡ board.now.table }
        ensures ok { OnOk result (self.new ≡ board_end self.old.table (self.old.heads ++ head ∷ [])) }
        ensures room { OnOk result (length self.old.heads < board.now.capacity) }
        ensures full { OnErr result (length self.old.heads ≡ board.now.capacity) }
        ensures same { OnErr result (self.new ≡ self.old) }
    {
        if self.count >= board.capacity {
            return Err(BoardFull);
        }
        let block = head_words(&head);
        put_block(&board.table.shared, &mut self.seat, &mut self.count, &block);
        self.last = Some(head);
        Ok(())
    }

    /// Returns a watcher that has seen all heads published so far.
    ///
    /// Allocates nothing. The number of watchers is not limited.
    ///
    /// # Errors
    ///
    /// `NoSeat` is never returned.
    pub fn watcher(&mut self, board: &Board) -> Result<Watcher, NoSeat>
        requires { self.old.table ≡ board.now.table }
        ensures had { IsOk result }
        ensures seen { IfOk result (λ w. w ≡ self.old) }
        ensures same { self.new ≡ self.old }
    {
        Ok(Watcher {
            seat: witness(&board.table.shared, &mut self.seat),
        })
    }

    /// Proves that the heads that the watcher has seen are a prefix of the published heads. Both are unchanged.
    #[tactic(auto, using(crate::proofs::HeadLemmas::heads_begin))]
    pub fn meet(&mut self, board: &Board, watcher: &mut Watcher)
        requires { (self.old.table ≡ board.now.table) × (watcher.old.table ≡ board.now.table) }
        ensures begins { Begins watcher.new.heads self.new.heads }
        ensures same { (self.new ≡ self.old) × (watcher.new ≡ watcher.old) }
    {
        let table = &board.table.shared;
        let echo = witness(table, &mut watcher.seat);
        tell(table, &mut self.seat, echo);
        compare(table, &mut self.seat);
    }
}

impl Watcher {
    /// Returns the last head that the watcher has seen, or `None` if there is none.
    ///
    /// The watcher reads the board first. It has then seen at least the heads that it had seen before. The call waits for
    /// no other thread.
    #[tactic(auto, using(crate::proofs::HeadLemmas::heads_begin, crate::proofs::HeadLemmas::last_head, crate::proofs::HeadLemmas::no_head))]
    pub fn latest(&mut self, board: &Board) -> Option<Head>
        requires { self.old.table ≡ board.now.table }
        ensures last { result ≡ last_of self.new.heads }
        ensures later { Begins self.old.heads self.new.heads }
        ensures same { self.new.table ≡ self.old.table }
    {
        let table = &board.table.shared;
        let count = look(table, &mut self.seat);
        if count == 0 {
            return None;
        }
        Some(head_from(&read_block(table, &mut self.seat, count)))
    }
}
