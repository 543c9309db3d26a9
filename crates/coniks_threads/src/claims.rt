//! Claims: numbers below n, which drawers on several threads draw, each once.
ghost use Rattle.std.specs.Prelude.{◌≡◌, ◌≤◌, ◌<◌, ◌+◌, ◌-◌, ◌++◌, ◌∷◌, ◌↔◌, [], true, false, length, All, IsOk, IfOk, IfSome, IfNone, OnErr, None};
ghost use Rattle.coniks_threads.specs.Limits.{most_numbers, most_drawers};
ghost use Rattle.coniks_threads.specs.Draws.{Draws};
ghost use Rattle.coniks_threads.specs.Drawers.{drawing, lists_of, HasFirst, SomeOut};
ghost use Rattle.coniks_threads.specs.ClaimsRule.{after_draw, drawer_view, view_of};
ghost use Rattle.coniks_threads.specs.Gathered.{Gathered};

use crate::claims_rule::{ByClaims, DrawerView, OneDraw, OnePart};
use crate::errors::{NoClaims, NoSeat};
use atomic_table::{Seat, Shared, Table};
use std::alloc::Global;
use std::marker::Model;

/// The largest number of numbers in one claims object.
pub const MAX_NUMBERS: usize = 4096;

/// The largest number of drawers of one claims object.
pub const MAX_DRAWERS: usize = 64;

/// The numbers below n, which drawers on any threads draw.
///
/// Contracts see claims as the table that distinguishes them from other claims, and the limit n.
#[derive(Drop)]
pub struct Claims {
    table: Table<u8, DrawerView, usize, ByClaims, Global>,
    limit: usize,
}

impl Model for Claims {
    ghost use Rattle.std.specs.Prelude.{◌≡◌};
    ghost use Rattle.coniks_threads.specs.Drawers.{Claimed, claimed_code};

    ghost Value = { Claimed };

    ghost coded = { claimed_code };

    ghost view = { λ c. record { table = c.table.shared.table_id; limit = c.limit } };

    ghost invariant = { λ c. (c.table.shared.key ≡ c.limit) × (c.table.shared.table_id.words ≡ 1) × (c.table.shared.table_id.slots ≡ 0) };
}

/// A drawer, with which one thread draws numbers.
///
/// Contracts see it as its claims' table and limit, and the list of the numbers that it drew. They also see whether it has
/// returned `None`, whether it is the first drawer, and the number of its splits.
#[derive(Drop)]
pub struct Drawer {
    seat: Seat<u8, DrawerView>,
    limit: usize,
    out: bool,
    first: bool,
    splits: usize,
}

impl Model for Drawer {
    ghost use Rattle.std.specs.Prelude.{◌≡◌, ◌<◌, []};
    ghost use Rattle.coniks_threads.specs.Limits.{most_drawers};
    ghost use Rattle.coniks_threads.specs.Drawers.{Drawing, drawing_code, drawing};
    ghost use Rattle.coniks_threads.specs.ClaimsRule.{outs_of, parts_of};

    ghost Value = { Drawing };

    ghost coded = { drawing_code };

    ghost view = { λ d. drawing d.seat.table_id d.limit d.seat.me.0.list d.out d.first d.splits };

    ghost invariant = { λ d. (d.seat.me.1 ≡ []) × (d.seat.me.0.limit ≡ d.limit) × (d.seat.me.0.outs ≡ outs_of d.out)
        × (d.seat.me.0.parts ≡ parts_of d.first d.splits) × (d.splits < most_drawers) };
}

impl Claims {
    /// Returns the numbers below `n`, at most `MAX_NUMBERS`, with their first drawer.
    ///
    /// # Errors
    ///
    /// `NoClaims` if an allocation fails.
    pub fn new(alloc: Global, n: usize) -> Result<(Claims, Drawer), NoClaims>
        requires { n ≤ most_numbers }
        ensures { IfOk result (λ r. (r.0.limit ≡ n) × (r.1 ≡ drawing r.0.table n [] false true 0)) }
    {
        let Ok((table, seat)) = Table::of_words(alloc, &[0], &n) else {
            return Err(NoClaims);
        };
        Ok((
            Claims { table, limit: n },
            Drawer {
                seat,
                limit: n,
                out: false,
                first: true,
                splits: 0,
            },
        ))
    }

    /// Ends the draws, and takes all drawers.
    ///
    /// The first drawer is among them, and there is one more than the number of its splits. If at least one of them has
    /// returned `None`, their lists contain the numbers below n, each once.
    pub fn close(self, mut drawers: Vec<Drawer>)
        requires own { All (λ d. d.table ≡ self.table) drawers.items }
        requires all { HasFirst drawers.items (length drawers.items) }
        ensures { SomeOut drawers.items → Draws (lists_of drawers.items) self.limit }
    {
        let Some(last) = drawers.pop() else {
            unreachable!()
        };
        let Claims { table, limit: _ } = self;
        let mut taker = last.into_seat();
        gather(&table.shared, &mut taker, drawers);
        table.close_with(taker).free();
    }
}

/// Takes all drawers into the taker.
fn gather(
    table: &Shared<u8, DrawerView, usize, ByClaims>,
    taker: &mut Seat<u8, DrawerView>,
    mut drawers: Vec<Drawer>,
)
    requires table { (taker.old.table_id ≡ table.now.table_id) × (table.now.table_id.words ≡ 1) }
    requires own { All (λ d. d.table ≡ table.now.table_id) drawers.items }
    requires some { 0 < taker.old.me.0.parts }
    ensures same { taker.new.table_id ≡ taker.old.table_id }
    ensures sums { Gathered taker.new.me.0 [] taker.old.me.0 drawers.items }
{
    while let Some(drawer) = drawers.pop() {
        take_in(table, taker, drawer);
    }
}

/// Takes one drawer into the taker.
fn take_in(
    table: &Shared<u8, DrawerView, usize, ByClaims>,
    taker: &mut Seat<u8, DrawerView>,
    drawer: Drawer,
)
    requires table { (taker.old.table_id ≡ table.now.table_id) × (table.now.table_id.words ≡ 1) × (drawer.table ≡ table.now.table_id) }
    requires some { 0 < taker.old.me.0.parts }
    ensures same { (taker.new.table_id ≡ taker.old.table_id) × (0 < taker.new.me.0.parts) }
    ensures sums { Gathered taker.new.me.0 [] taker.old.me.0 (drawer ∷ []) }
{
    table.join_seat::<OnePart>(taker, drawer.into_seat());
}

/// Adds 1 to the word, in one step, and returns the value before.
fn add_one(table: &Shared<u8, DrawerView, usize, ByClaims>, seat: &mut Seat<u8, DrawerView>) -> u64
    requires table { (seat.old.table_id ≡ table.now.table_id) × (table.now.table_id.words ≡ 1) }
    requires some { 0 < seat.old.me.0.parts }
    requires fresh { seat.old.me.0.outs ≡ 0 }
    ensures same { (seat.new.table_id ≡ seat.old.table_id) × (seat.new.me.1 ≡ seat.old.me.1) }
    ensures drawn { seat.new.me.0 ≡ after_draw seat.old.me.0 result }
    ensures short { length seat.new.me.0.list ≤ seat.old.me.0.limit }
{
    table.fetch_add::<OneDraw>(seat, 0, 1)
}

/// Splits one part off the seat, for a new one.
fn cut_off(
    table: &Shared<u8, DrawerView, usize, ByClaims>,
    seat: &mut Seat<u8, DrawerView>,
) -> Seat<u8, DrawerView>
    requires table { (seat.old.table_id ≡ table.now.table_id) × (table.now.table_id.words ≡ 1) }
    requires spare { (1 < seat.old.me.0.parts) × (seat.old.me.0.outs ≤ 1) }
    ensures same { (seat.new.table_id ≡ seat.old.table_id) × (seat.new.me.1 ≡ seat.old.me.1) }
    ensures left { seat.new.me.0 ≡ drawer_view seat.old.me.0.list (seat.old.me.0.parts - 1) seat.old.me.0.outs seat.old.me.0.limit }
    ensures right { (result.table_id ≡ seat.old.table_id) × (result.me ≡ (drawer_view [] 1 0 seat.old.me.0.limit, [])) }
{
    table.split_seat::<OnePart>(seat)
}

impl Drawer {
    /// Returns a further drawer of the same claims.
    ///
    /// # Errors
    ///
    /// `NoSeat` if this is not the first drawer, or if it was split 63 times, so that there are 64 drawers. Nothing has
    /// changed then.
    #[tactic(auto, using(crate::proofs::GatherLemmas::spare_part, crate::proofs::GatherLemmas::outs_few))]
    pub fn split(&mut self, claims: &Claims) -> Result<Drawer, NoSeat>
        requires { self.old.table ≡ claims.now.table }
        ensures few { IsOk result ↔ ((self.old.first ≡ true) × (self.old.splits + 1 < most_drawers)) }
        ensures new { IfOk result (λ d. d ≡ drawing self.old.table self.old.limit [] false false 0) }
        ensures counted { IfOk result (λ _. self.new ≡ drawing self.old.table self.old.limit self.old.list self.old.out true (self.old.splits + 1)) }
        ensures err { OnErr result (self.new ≡ self.old) }
    {
        if !self.first || self.splits >= MAX_DRAWERS - 1 {
            return Err(NoSeat);
        }
        let seat = cut_off(&claims.table.shared, &mut self.seat);
        self.splits += 1;
        Ok(Drawer {
            seat,
            limit: self.limit,
            out: false,
            first: false,
            splits: 0,
        })
    }

    /// Draws a number below n in one step, or returns `None` if none is left.
    ///
    /// The drawer's list gains the number. By the rule of the claims no other drawer draws it. After its first `None` the
    /// drawer returns `None` without a step. A loop over `draw` terminates: each number makes the list longer, and the
    /// list is never longer than n.
    pub fn draw(&mut self, claims: &Claims) -> Option<usize>
        requires { self.old.table ≡ claims.now.table }
        ensures some { IfSome result (λ k. (k < self.old.limit)
            × (self.new ≡ drawing self.old.table self.old.limit (self.old.list ++ k ∷ []) false self.old.first self.old.splits)) }
        ensures short { IfSome result (λ _. length self.old.list < self.old.limit) }
        ensures none { IfNone result (self.new ≡ drawing self.old.table self.old.limit self.old.list true self.old.first self.old.splits) }
        ensures over { self.old.out ≡ true → result ≡ None }
    {
        if self.out {
            return None;
        }
        let found = add_one(&claims.table.shared, &mut self.seat);
        if found < self.limit as u64 {
            Some(found as usize)
        } else {
            self.out = true;
            None
        }
    }

    /// Returns the seat of the drawer, which ends.
    fn into_seat(self) -> Seat<u8, DrawerView>
        ensures { (result.table_id ≡ self.table) × (result.me ≡ (view_of self, [])) }
    {
        let Drawer {
            seat,
            limit: _,
            out: _,
            first: _,
            splits: _,
        } = self;
        seat
    }
}
