//! A replay of a log, or of a snapshot and its log.

ghost use Rattle.std.specs.Prelude.{◌≡◌, ◌<◌, ◌+◌, ◌^◌, IfOk, OnErr, OnOk, codes, false, if◌then◌else◌, true};
ghost use Rattle.std.specs.Thread.{IsSync};
ghost use Rattle.coniks_lines.specs.Known.{Appends, next_count};
ghost use Rattle.coniks_lines.specs.Runs.{CannotWrite, streams};
ghost use Rattle.serde_json.specs.View.{view};
ghost use Rattle.coniks_programs.specs.EntryLines.{entry_in};
ghost use Rattle.coniks_programs.specs.Members.{digits_in, object_in};
ghost use Rattle.coniks_programs.specs.Turns.{Takes, refused};
ghost use Rattle.coniks_provider.specs.Answers.{is_accepted_line, provider_outcome_of};
ghost use Rattle.coniks_provider.specs.Replays.{IsReplay, IsReportOf, begin_turn, by, end_turn, ended_for, ended_text, first_turn, fresh_turn, goes_on, is_on, is_open, latest_text, line_turn, log_turn, logged_turn, names_in, object_turn, part_turn, pending_in, place_after, place_of, replay_after, replay_at, step_of, taken};
ghost use Rattle.coniks_provider.specs.Turns.{ProviderState, latest_outcome};

mod kind;
mod log;
mod refusal;
mod report;
mod snapshot;

use crate::discard::Discard;
use crate::machine::Providing;
use crate::reply::Reply;
use coniks_lines::{ByteIn, ByteOut, LineFault, LineMachine, run_lines, write_all};
use coniks_programs::builders::Builders;
use coniks_programs::entries::read_entry;
use coniks_programs::fault::{RunFault, of_lines};
use coniks_programs::members::{digits32, read_object};
use coniks_programs::printable::Printable;
use coniks_programs::printing::Member;
use coniks_threads::Parallelism;
use kind::{Kind, kind_in};
use log::{Log, after_first, check_named, check_skipped, is_below, log_after};
use refusal::{Why, why_object};
use report::{refused, replayed};
use serde_json::Value;
use snapshot::{Part, Snapshot, bodies_in, entries_in, header_in, may_restore};
use std::alloc::{AllocError, Global};
use std::thread::Threads;

/// How far a replay came.
#[derive(Drop)]
pub(crate) enum Place {
    /// No line was taken.
    Fresh,
    /// Within a snapshot.
    Within(Snapshot),
    /// Within a log.
    Logging(Log),
    /// A line was refused: its number, and the object that is printed for it.
    Stopped(u64, Printable),
}

/// What comes of a line.
#[derive(Drop)]
pub(crate) enum Step {
    /// It was taken.
    Taken(Place),
    /// It is refused for this reason.
    Because(Why),
    /// The program refuses it with this reply.
    By(Reply),
}

/// A machine that takes the lines of a snapshot and of a log, and answers none.
#[derive(Drop)]
pub(crate) struct Replaying<'r, T: Threads + Sync> {
    alloc: Global,
    providing: Providing<'r, T>,
    /// How many lines were read.
    lines: u64,
    place: Place,
}

/// Returns whether no line was refused.
fn is_on(place: &Place) -> bool
    ensures { result ≡ is_on (place_of place.now) }
{
    match place {
        Place::Fresh | Place::Within(_) | Place::Logging(_) => true,
        Place::Stopped(..) => false,
    }
}

/// Returns what comes of a line of a snapshot.
fn goes_on(after: Result<Snapshot, Why>) -> Step
    ensures { (s : ProviderState) → goes_on s after ≡ refused s (step_of result) }
{
    match after {
        Ok(snapshot) => Step::Taken(Place::Within(snapshot)),
        Err(why) => Step::Because(why),
    }
}

/// Returns what comes of the line that says where a log begins.
fn begins(after: Result<Log, Why>) -> Step
    ensures { (s : ProviderState) → first_turn s after ≡ refused s (step_of result) }
{
    match after {
        Ok(log) => Step::Taken(Place::Logging(log)),
        Err(why) => Step::Because(why),
    }
}

/// Returns what comes of a line that the program took or refused.
fn through(reply: Reply, after: Place) -> Step
    ensures { step_of result ≡ (if is_accepted_line (provider_outcome_of reply) then taken (place_of after) else by (provider_outcome_of reply)) }
{
    if reply.is_accepted() {
        return Step::Taken(after);
    }
    Step::By(reply)
}

/// Returns what comes of the end of a restore, whose directory has this number of names then.
fn end_by(snapshot: Snapshot, link: [u8; 32], reply: Reply, names: usize) -> Step
    ensures { (s : ProviderState) → names_in s ≡ names → step_of result ≡ ended_for snapshot link s (provider_outcome_of reply) }
{
    let Reply::Restored { link: own, .. } = &reply else {
        return Step::By(reply);
    };
    if own.0 != link || names as u64 != snapshot.names {
        return Step::Because(Why::Differs);
    }
    Step::Taken(Place::Logging(Log {
        next: 0,
        from: snapshot.position,
        link,
        is_first: true,
    }))
}

impl<'r, T: Threads + Sync> Providing<'r, T> {
    /// Takes an `open`, `prepare` or `install` of a log.
    fn take_logged(&mut self, log: Log, kind: Kind, object: &Value) -> Result<Step, AllocError>
        requires { IsSync T.row }
        ensures { IfOk result (λ step. Takes (logged_turn self.old.store log kind (view object.now)) (step_of step) self.new.store) }
    {
        // No log has 2^64 lines.
        let Some(after) = log_after(log) else {
            return Err(AllocError);
        };
        if is_below(&log) {
            return match check_skipped(&log, object) {
                Ok(()) => Ok(Step::Taken(Place::Logging(after))),
                Err(why) => Ok(Step::Because(why)),
            };
        }
        if let Err(why) = check_named(kind, object) {
            return Ok(Step::Because(why));
        }
        let reply = self.command(object)?;
        Ok(through(reply, Place::Logging(after)))
    }

    /// Takes a line of a log.
    fn take_of_log(&mut self, log: Log, kind: Kind, object: &Value) -> Result<Step, AllocError>
        requires { IsSync T.row }
        ensures { IfOk result (λ step. Takes (log_turn self.old.store log kind (view object.now)) (step_of step) self.new.store) }
    {
        match kind {
            Kind::Open | Kind::Prepare | Kind::Install => self.take_logged(log, kind, object),
            Kind::First => {
                if !log.is_first {
                    return Ok(Step::Because(Why::Order));
                }
                Ok(begins(after_first(log, object)))
            }
            _ => Ok(Step::Because(Why::Order)),
        }
    }

    /// Begins to restore the entry of a line.
    fn begin_restore(&mut self, snapshot: Snapshot, object: &Value) -> Result<Step, AllocError>
        ensures { IfOk result (λ step. Takes (begin_turn self.old.store snapshot (entry_in (view object.now))) (step_of step) self.new.store) }
    {
        let Some(entry) = read_entry(object) else {
            return Ok(Step::Because(Why::Member(Member::Entry)));
        };
        if !may_restore(&snapshot, &entry) {
            return Ok(Step::Because(Why::Differs));
        }
        let reply = self.store.restore(snapshot.is_logged, entry)?;
        let after = Snapshot {
            part: Part::Restore,
            ..snapshot
        };
        Ok(through(reply, Place::Within(after)))
    }

    /// Ends a snapshot by its last line.
    fn end_snapshot(&mut self, snapshot: Snapshot, object: &Value) -> Result<Step, AllocError>
        requires { IsSync T.row }
        ensures { IfOk result (λ step. Takes (end_turn self.old.store snapshot (view object.now) (digits_in 32 (codes "link") (view object.now)))
            (step_of step) self.new.store) }
    {
        let Some(link) = digits32(object, "link") else {
            return Ok(Step::Because(Why::Member(Member::Link)));
        };
        let reply = self.command(object)?;
        Ok(end_by(snapshot, link, reply, self.store.names()))
    }

    /// Takes a line within a snapshot.
    fn take_within(
        &mut self,
        snapshot: Snapshot,
        kind: Kind,
        object: &Value,
    ) -> Result<Step, AllocError>
        requires { IsSync T.row }
        ensures { IfOk result (λ step. Takes (part_turn self.old.store snapshot snapshot.part kind (view object.now)) (step_of step) self.new.store) }
    {
        match (snapshot.part, kind) {
            (Part::Header, Kind::Entries) | (Part::Entries, Kind::Entries) => {
                Ok(goes_on(entries_in(snapshot, object)))
            }
            (Part::Entries, Kind::Replaced) | (Part::Replaced, Kind::Replaced) => {
                Ok(goes_on(bodies_in(snapshot, object)))
            }
            (Part::Entries, Kind::Restore) | (Part::Replaced, Kind::Restore) => {
                self.begin_restore(snapshot, object)
            }
            (Part::Restore, Kind::Restoring) => {
                let reply = self.command(object)?;
                Ok(through(reply, Place::Within(snapshot)))
            }
            (Part::Restore, Kind::Restored) => self.end_snapshot(snapshot, object),
            _ => Ok(Step::Because(Why::Order)),
        }
    }

    /// Takes the first line.
    fn take_first(&mut self, kind: Kind, object: &Value) -> Result<Step, AllocError>
        requires { IsSync T.row }
        ensures { IfOk result (λ step. Takes (fresh_turn self.old.store kind (view object.now)) (step_of step) self.new.store) }
    {
        if let Kind::Header = kind {
            return Ok(goes_on(header_in(object)));
        }
        let log = Log {
            next: 0,
            from: 0,
            link: [0; 32],
            is_first: false,
        };
        self.take_of_log(log, kind, object)
    }
}

impl<'r, T: Threads + Sync> Replaying<'r, T> {
    /// Takes the object of a line, if no line was refused.
    fn take_object(&mut self, object: &Value) -> Result<Step, AllocError>
        requires threads { IsSync T.row }
        requires on { is_on (place_of self.old.place) ≡ true }
        ensures turn { IfOk result (λ step. Takes (object_turn (place_of self.old.place) self.old.providing.store (view object.now))
            (step_of step) self.new.providing.store) }
        ensures lines { self.new.lines ≡ self.old.lines }
    {
        let kind = kind_in(object);
        match &self.place {
            Place::Fresh => self.providing.take_first(kind, object),
            Place::Within(snapshot) => self.providing.take_within(*snapshot, kind, object),
            Place::Logging(log) => self.providing.take_of_log(*log, kind, object),
            Place::Stopped(..) => Ok(Step::Because(Why::Order)),
        }
    }

    /// Takes a line, if no line was refused.
    fn take(&mut self, line: &[u8]) -> Result<Step, AllocError>
        requires threads { IsSync T.row }
        requires on { is_on (place_of self.old.place) ≡ true }
        ensures turn { IfOk result (λ step. Takes (line_turn (replay_at self.old.lines self.old.place self.old.providing.store) (object_in line.now)) (step_of step) self.new.providing.store) }
        ensures lines { self.new.lines ≡ self.old.lines }
    {
        match read_object(self.alloc, line)? {
            Some(object) => self.take_object(&object),
            None => Ok(Step::Because(Why::NotJson)),
        }
    }

    /// Returns how far the replay is after a line.
    fn place_after(&self, step: Step) -> Result<Place, AllocError>
        ensures { IfOk result (λ place. place_of place ≡ place_after self.now.lines (step_of step)) }
    {
        match step {
            Step::Taken(place) => Ok(place),
            Step::Because(why) => Ok(Place::Stopped(self.lines, why_object(self.alloc, why)?)),
            Step::By(reply) => Ok(Place::Stopped(self.lines, reply.object(self.alloc)?)),
        }
    }

    /// Replays a line, if no line was refused.
    fn advance(&mut self, line: &[u8]) -> Result<(), AllocError>
        requires threads { IsSync T.row }
        requires on { is_on (place_of self.old.place) ≡ true }
        ensures { OnOk result (replay_at self.new.lines self.new.place self.new.providing.store
            ≡ replay_after (replay_at self.old.lines self.old.place self.old.providing.store) line.now) }
    {
        // No input has 2^64 lines.
        let Some(lines) = self.lines.checked_add(1) else {
            return Err(AllocError);
        };
        let step = self.take(line)?;
        self.place = self.place_after(step)?;
        self.lines = lines;
        Ok(())
    }

    /// Returns whether the whole input was replayed, and what is printed.
    fn report(&self) -> Result<(bool, Printable), AllocError>
        ensures { IfOk result (λ r. IsReportOf (replay_at self.now.lines self.now.place self.now.providing.store) r.0 r.1.text.items) }
    {
        match &self.place {
            Place::Stopped(line, reply) => Ok((false, refused(self.alloc, *line, &reply.text)?)),
            Place::Logging(log) if !is_below(log) => self.replayed(log.next),
            _ => self.ended(),
        }
    }

    /// Returns what is printed for an input that ends too early.
    fn ended(&self) -> Result<(bool, Printable), AllocError>
        ensures { IfOk result (λ r. (r.0 ≡ false) × (r.1.text.items ≡ ended_text self.now.lines)) }
    {
        let reply = why_object(self.alloc, Why::Ended)?;
        Ok((false, refused(self.alloc, self.lines, &reply.text)?))
    }

    /// Returns what is printed for a log that was replayed up to a position.
    fn replayed(&self, position: u64) -> Result<(bool, Printable), AllocError>
        ensures { IfOk result (λ r. (r.0 ≡ is_open self.now.providing.store) × (r.1.text.items ≡ latest_text self.now.lines
            (pending_in self.now.providing.store) position (latest_outcome self.now.providing.store))) }
    {
        let Reply::Latest(latest) = self.providing.store.latest() else {
            return self.ended();
        };
        let pending = self.providing.store.pending_body();
        Ok((true, replayed(self.alloc, &latest, &pending, position)?))
    }
}

impl<'r, T: Threads + Sync> LineMachine for Replaying<'r, T> {
    ghost use Rattle.std.specs.Thread.{IsSync};
    ghost use Rattle.coniks_provider.specs.Replays.{Replay, replay_answer, replay_at};

    ghost State = { Replay };

    ghost state = { λ s. replay_at s.lines s.place s.providing.store };

    ghost answer = { replay_answer };

    ghost Needs = { IsSync T.row };

    fn step(&mut self, line: &[u8], _out: &mut Vec<u8>) -> Result<bool, AllocError> {
        if !is_on(&self.place) {
            return Ok(false);
        }
        self.advance(line)?;
        Ok(is_on(&self.place))
    }
}

/// Replays the lines of a log, or of a snapshot and its log, and writes one line: the head that they end in, or the first line
/// that is refused. Returns whether all were accepted.
///
/// # Errors
///
/// `Read` if a read failed, or 2^63 reads met no end, and `OutOfMemory` if an allocation failed: nothing was written. `Write` if a
/// write or the flush failed or a write took 0 bytes: a prefix of the line was written.
pub fn run_replay<T: Threads + Sync, R: ByteIn, W: ByteOut>(
    rt: &T,
    alloc: Global,
    reader: &mut R,
    writer: &mut W,
    parallelism: Parallelism,
) -> Result<bool, RunFault>
    requires reads { (R.source reader.old).failed + 1 < 2 ^ 64 }
    requires writes { (W.sink writer.old).failed + 1 < 2 ^ 64 }
    ensures { IsReplay (streams (R.source reader.old) (R.source reader.new) (W.sink writer.old) (W.sink writer.new)) result }
{
    let mut replaying = Replaying {
        alloc,
        providing: Providing::new(alloc, Builders { rt, parallelism }),
        lines: 0,
        place: Place::Fresh,
    };
    if let Err(fault) = run_lines(alloc, &mut replaying, reader, &mut Discard::new()) {
        return Err(of_lines(fault));
    }
    let Ok((all, mut printed)) = replaying.report() else {
        return Err(RunFault::OutOfMemory);
    };
    if printed.text.push(b'\n').is_err() {
        return Err(RunFault::OutOfMemory);
    }
    match write_line(writer, &printed.text) {
        Ok(()) => Ok(all),
        Err(_) => Err(RunFault::Write),
    }
}

/// Writes a line, and flushes.
fn write_line<W: ByteOut>(writer: &mut W, line: &[u8]) -> Result<(), LineFault>
    requires { (W.sink writer.old).failed + 1 < 2 ^ 64 }
    ensures ok { OnOk result (Appends (W.sink writer.old) line.now (W.sink writer.new)) }
    ensures flushed { OnOk result ((W.sink writer.new).flushes ≡ next_count (W.sink writer.old).flushes) }
    ensures err { OnErr result (CannotWrite (W.sink writer.old) (W.sink writer.new)) }
{
    write_all(writer, line)?;
    if writer.flush().is_err() {
        return Err(LineFault::Write);
    }
    Ok(())
}
