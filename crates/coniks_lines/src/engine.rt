//! The engine: a machine that answers lines, and the loop that passes lines to it.
ghost use Rattle.std.specs.Prelude.{◌≡◌, ℕ, ◌+◌, ◌<◌, ◌^◌, ◌++◌, ◌∷◌, [], List, length, take, IfOk, OnOk, OnErr, IfErr, Some};
ghost use Rattle.coniks_lines.specs.Known.{Source, Appends};
ghost use Rattle.coniks_lines.specs.Lines.{whole_after};
ghost use Rattle.coniks_lines.specs.Machine.{Answer, output};
ghost use Rattle.coniks_lines.specs.Runs.{WritesOn, CannotWrite, AnswersLine, AnswersWhole, AnswersAll, WritesPart, StopsFor, EndsWell, EndsBadly, streams};
ghost use Rattle.coniks_lines.specs.declared.fault.LineFault.TheVariants.{Write};

use crate::bytes::{ByteIn, ByteOut};
use crate::fault::LineFault;
use memchr::memchr;
use std::alloc::{AllocError, Global};

/// The byte that ends a line.
const NEWLINE: u8 = b'\n';

/// The number of bytes that a read requests.
const CHUNK: usize = 64 * 1024;

/// The largest number of reads of a run.
const MAX_READS: u64 = 1 << 63;

/// A machine that replies to one line at a time.
///
/// Contracts see a machine as a state and a function `answer`. For a state and a line the function returns the text of
/// the answer, whether the line was accepted, and the next state.
pub trait LineMachine {
    /// The context that the answer to a line depends on.
    ghost State: { Type 0 };

    /// The state of the machine.
    ghost state: { Self → State };

    /// The answer to a line: its text, whether the line was accepted, and the next state.
    ghost answer: { State → List ℕ → Answer State };

    /// A precondition of `step` that the machine cannot contain, for example that threads can share a type's values.
    ghost Needs: { Type 0 };

    /// Appends the answer's text to `out`, without a newline, and returns whether the line was accepted.
    ///
    /// The line has no newline at its end.
    ///
    /// # Errors
    ///
    /// `AllocError` if an allocation fails. `out` and the machine's state are then unspecified.
    fn step(&mut self, line: &[u8], out: &mut Vec<u8>) -> Result<bool, AllocError>
        requires needs { Needs }
        ensures text { OnOk result (out.new.items ≡ out.old.items ++ (answer (state self.old) line.now).text) }
        ensures accepted { IfOk result (λ accepted. accepted ≡ (answer (state self.old) line.now).accepted) }
        ensures state { OnOk result (state self.new ≡ (answer (state self.old) line.now).state) };
}

/// Answers the lines of the reader one after another, until a read returns 0, and returns whether each line was accepted.
///
/// Writes the text of each answer and a newline, then flushes. A line consists of the bytes before a newline, a carriage
/// return included. The bytes after the last newline are a line if there is at least one. A refused line is answered like
/// any other, and the run continues.
///
/// The reader is read 64 KiB at a time. The length of a line is limited only by memory. A line that one read returned
/// whole is not copied, and any other is copied once. The `failures` of both streams are below 2^64 - 1, and the
/// machine's `Needs` hold.
///
/// # Errors
///
/// The run ends at the first error, and returns an error in no other case.
///
/// - `Read` if a read failed, or 2^63 reads met no end. Each line read with its newline is answered.
/// - `Write` if a write or a flush failed or a write took 0 bytes. Of the lines read the first ones are answered, and a
///   prefix of the next answer was written.
/// - `OutOfMemory` if an allocation failed. Of the lines read the first ones are answered, and no more was written.
pub fn run_lines<M: LineMachine, R: ByteIn, W: ByteOut>(
    alloc: Global,
    machine: &mut M,
    reader: &mut R,
    writer: &mut W,
) -> Result<bool, LineFault>
    requires needs { M.Needs }
    requires reads { (R.source reader.old).failed + 1 < 2 ^ 64 }
    requires writes { (W.sink writer.old).failed + 1 < 2 ^ 64 }
    ensures ok { IfOk result (EndsWell M.answer (M.state machine.old)
        (streams (R.source reader.old) (R.source reader.new) (W.sink writer.old) (W.sink writer.new))
        (M.state machine.new)) }
    ensures err { IfErr result (EndsBadly M.answer (M.state machine.old)
        (streams (R.source reader.old) (R.source reader.new) (W.sink writer.old) (W.sink writer.new))) }

    // If the reader's bytes are known: after Ok each of them is answered, and after an error a prefix of their answers
    // was written.
    ensures all_of { (input : List ℕ) → (R.source reader.old).left ≡ Some input
        → IfOk result (AnswersAll M.answer (M.state machine.old) input
        (W.sink writer.old) (W.sink writer.new)
        (M.state machine.new)) }
    ensures part_of { (input : List ℕ) → (R.source reader.old).left ≡ Some input
        → OnErr result (WritesPart (output M.answer (M.state machine.old) input)
        (W.sink writer.old) (W.sink writer.new)) }
{
    let Ok(mut buffer) = vec![in alloc; 0; CHUNK] else {
        return Err(LineFault::OutOfMemory);
    };
    read_lines(alloc, machine, reader, writer, &mut buffer)
}

/// Reads into the buffer, and answers the lines that end in the bytes read: the loop of `run_lines`.
fn read_lines<M: LineMachine, R: ByteIn, W: ByteOut>(
    alloc: Global,
    machine: &mut M,
    reader: &mut R,
    writer: &mut W,
    buffer: &mut [u8],
) -> Result<bool, LineFault>
    requires room { 0 < length buffer.old }
    requires needs { M.Needs }
    requires reads { (R.source reader.old).failed + 1 < 2 ^ 64 }
    requires writes { (W.sink writer.old).failed + 1 < 2 ^ 64 }
    ensures ok { IfOk result (EndsWell M.answer (M.state machine.old)
        (streams (R.source reader.old) (R.source reader.new) (W.sink writer.old) (W.sink writer.new))
        (M.state machine.new)) }
    ensures err { IfErr result (EndsBadly M.answer (M.state machine.old)
        (streams (R.source reader.old) (R.source reader.new) (W.sink writer.old) (W.sink writer.new))) }
{
    let mut buffered = Vec::new(alloc);
    let mut out = Vec::new(alloc);
    let mut all = true;
    for _reads in 0..MAX_READS {
        let Ok(count) = reader.read(buffer) else {
            return Err(LineFault::Read);
        };
        if count == 0 {
            if !buffered.is_empty() {
                let accepted = answer_line(machine, &[], &mut buffered, &mut out, writer)?;
                all &= accepted;
            }
            return Ok(all);
        }
        let accepted = take_chunk(machine, &buffer[..count], &mut buffered, &mut out, writer)?;
        all &= accepted;
    }
    Err(LineFault::Read)
}

/// Answers each line that ends in the chunk, and holds the bytes after the last newline.
fn take_chunk<M: LineMachine, W: ByteOut>(
    machine: &mut M,
    chunk: &[u8],
    buffered: &mut Vec<u8>,
    out: &mut Vec<u8>,
    writer: &mut W,
) -> Result<bool, LineFault>
    requires needs { M.Needs }
    requires writes { (W.sink writer.old).failed + 1 < 2 ^ 64 }
    ensures ok { IfOk result (AnswersWhole M.answer (M.state machine.old) buffered.old.items chunk.now
        (W.sink writer.old) (W.sink writer.new)
        (M.state machine.new) buffered.new.items) }
    ensures err { (still : Source) → IfErr result (StopsFor M.answer (M.state machine.old) (whole_after buffered.old.items chunk.now)
        (streams still still (W.sink writer.old) (W.sink writer.new))) }
{
    let mut all = true;
    let mut start = 0;
    while let Some(ahead) = memchr(NEWLINE, &chunk[start..]) {
        let accepted = answer_line(machine, &chunk[start..start + ahead], buffered, out, writer)?;
        all &= accepted;
        start += ahead + 1;
    }
    if buffered.extend_from_slice(&chunk[start..]).is_err() {
        return Err(LineFault::OutOfMemory);
    }
    Ok(all)
}

/// Returns the line that is buffered and ends with this part. A line of which nothing was buffered is not copied.
fn whole_line<'l>(buffered: &'l mut Vec<u8>, part: &'l [u8]) -> Result<&'l [u8], AllocError>
    ensures { IfOk result (λ line. line.now ≡ buffered.old.items ++ part.now) }
{
    if buffered.is_empty() {
        return Ok(part);
    }
    buffered.extend_from_slice(part)?;
    Ok(buffered)
}

/// Answers the line that is buffered and ends with this part: its text, a newline and a flush. Nothing is buffered then.
///
/// `out` is a buffer with any contents.
fn answer_line<M: LineMachine, W: ByteOut>(
    machine: &mut M,
    part: &[u8],
    buffered: &mut Vec<u8>,
    out: &mut Vec<u8>,
    writer: &mut W,
) -> Result<bool, LineFault>
    requires needs { M.Needs }
    requires writes { (W.sink writer.old).failed + 1 < 2 ^ 64 }
    ensures ok { IfOk result (AnswersLine M.answer (M.state machine.old) (buffered.old.items ++ part.now)
        (W.sink writer.old) (W.sink writer.new)
        (M.state machine.new)) }
    ensures none_buffered { OnOk result (buffered.new.items ≡ []) }
    ensures err { (still : Source) → IfErr result (StopsFor M.answer (M.state machine.old) ((buffered.old.items ++ part.now) ∷ [])
        (streams still still (W.sink writer.old) (W.sink writer.new))) }
{
    out.clear();
    let Ok(line) = whole_line(buffered, part) else {
        return Err(LineFault::OutOfMemory);
    };
    let Ok(accepted) = machine.step(line, out) else {
        return Err(LineFault::OutOfMemory);
    };
    if out.push(NEWLINE).is_err() {
        return Err(LineFault::OutOfMemory);
    }
    write_all(writer, out)?;
    if writer.flush().is_err() {
        return Err(LineFault::Write);
    }
    buffered.clear();
    Ok(accepted)
}

/// Writes all the bytes, with as many writes as needed, and does not flush.
///
/// The writer's `failures` are below 2^64 - 1.
///
/// # Errors
///
/// `Write` if a write failed or took 0 bytes. A prefix of the bytes was written.
pub fn write_all<W: ByteOut>(writer: &mut W, bytes: &[u8]) -> Result<(), LineFault>
    requires { (W.sink writer.old).failed + 1 < 2 ^ 64 }
    ensures ok { OnOk result (Appends (W.sink writer.old) bytes.now (W.sink writer.new)) }
    ensures writes_on { OnOk result (WritesOn (W.sink writer.old) (W.sink writer.new)) }
    ensures flushes { (W.sink writer.new).flushes ≡ (W.sink writer.old).flushes }
    ensures err { IfErr result (λ e. e ≡ Write) }
    ensures part { OnErr result ((n : ℕ) × Appends (W.sink writer.old) (take n bytes.now) (W.sink writer.new)) }
    ensures because { OnErr result (CannotWrite (W.sink writer.old) (W.sink writer.new)) }
{
    let mut done = 0;
    while done < bytes.len() {
        let Ok(count) = writer.write(&bytes[done..]) else {
            return Err(LineFault::Write);
        };
        if count == 0 {
            return Err(LineFault::Write);
        }
        done += count;
    }
    Ok(())
}
