//! The run of the program: its input is read, answered and written.
ghost use Rattle.std.specs.Prelude.{◌+◌, ◌≡◌, ◌≢◌, ◌↔◌, ◌<◌, ◌≤◌, ℕ, List, IsErrOf, IfOk, IfErr, OnOk, OnErr};
ghost use Rattle.mp_cli.specs.Answered.{answered_by, IsAnswered};
ghost use Rattle.mp_cli.specs.Lines.{Output};
ghost use Rattle.mp_cli.specs.Counted.{calls_of, failures_of, bytes_of};
ghost use Rattle.mp_cli.specs.Run.{ReadsBytes, ReadsWhole, WritesPart, WritesWhole, BreaksOff, Delivers, input_limit};
ghost use Rattle.mp_cli.specs.declared.running.RunFault.TheVariants.{OutOfMemory};

use crate::answering::answer;
use crate::answers::Answer;
use crate::command::Command;
use crate::counted::Counted;
use std::alloc::{AllocError, Global};
use std::io::{Read, Write};
use thiserror::Error;

/// The most bytes that an input may have.
pub const INPUT_LIMIT: usize = 1_048_576;

/// The most reads that a run makes: one for each byte, and one that finds the end.
pub const READ_LIMIT: usize = INPUT_LIMIT + 1;

/// How many bytes one read may give.
const PIECE: usize = 16_384;

/// Why a run gives no status.
#[derive(Clone, Copy, Debug, PartialEq, Eq, Error)]
pub enum RunFault {
    /// A read failed; a read that was interrupted counts as failed.
    #[error("read failed")]
    ReadFailed,
    /// A write or a flush failed; a write that took no byte counts as failed.
    #[error("write failed")]
    WriteFailed,
    /// The input has more than `INPUT_LIMIT` bytes.
    #[error("input: too long")]
    TooLong,
    /// Memory ran out.
    #[error("out of memory")]
    OutOfMemory,
}

impl From<AllocError> for RunFault {
    ghost from_gives = { λ _ fault. fault ≡ OutOfMemory };

    fn from(_error: AllocError) -> RunFault {
        RunFault::OutOfMemory
    }
}

/// Reads the input to its end, writes the answer to it, and gives the status of the answer.
///
/// The answer's text goes whole to `out` if its status is 0, and else to `err`, which is then
/// flushed. A run makes at most `READ_LIMIT` reads, whatever the reader does.
///
/// If it gives no status:
///
/// - `ReadFailed`: a read failed. Nothing was written.
/// - `TooLong`: the input has more than `INPUT_LIMIT` bytes. Nothing was written.
/// - `OutOfMemory`: memory ran out. Nothing was written.
/// - `WriteFailed`: a write or the flush failed, and was the last call of that writer. It got some
///   first part of the text, which may be all of it; the other writer got nothing.
///
/// ```text
/// let mut input = Counted::new(b"[5]".as_slice());
/// let status = run(alloc, &Command::Merge, &mut input, &mut out, &mut err)?;
/// // status is 0, and `out` got "5\n"
/// ```
pub fn run<R: Read, W: Write, E: Write>(
    alloc: Global,
    command: &Command,
    input: &mut Counted<R>,
    out: &mut Counted<W>,
    err: &mut Counted<E>,
) -> Result<u8, RunFault>
    requires fresh_input { calls_of input.old ≡ 0 }
    requires fresh_out { calls_of out.old ≡ 0 }
    requires fresh_err { calls_of err.old ≡ 0 }

    // When an error of the input comes.
    ensures read_failed { IsErrOf result RunFault.ReadFailed ↔ (0 < failures_of input.new) }
    ensures too_long { IsErrOf result RunFault.TooLong ↔ (input_limit < bytes_of input.new) }

    // What was read.
    ensures read_calls { calls_of input.new ≤ input_limit + 1 }
    ensures reads { (bytes : List ℕ) × ReadsBytes R.remaining input.old input.new bytes }

    // What was written.
    ensures answered { IfOk result (λ status. (bytes : List ℕ)
        × ReadsWhole R.remaining input.old input.new bytes
        × (a : Output) × IsAnswered command.now bytes a × (status ≡ a.status)
        × Delivers W.contents E.contents a out.old out.new err.old err.new) }
    ensures write_failed { IsErrOf result RunFault.WriteFailed → (bytes : List ℕ)
        × ReadsWhole R.remaining input.old input.new bytes
        × (a : Output) × IsAnswered command.now bytes a
        × BreaksOff W.contents E.contents a out.old out.new err.old err.new }
    ensures nothing_written { IfErr result (λ fault. fault ≢ RunFault.WriteFailed
        → (out.new ≡ out.old) × (err.new ≡ err.old)) }
{
    let bytes = read_whole(alloc, input)?;
    let answer = answer(alloc, command, bytes.as_slice())?;
    deliver(&answer, out, err)?;
    Ok(answer.status)
}

/// The bytes of the reader up to its end.
fn read_whole<R: Read>(alloc: Global, input: &mut Counted<R>) -> Result<Vec<u8>, RunFault>
    requires { calls_of input.old ≡ 0 }
    ensures whole { IfOk result (λ bytes. ReadsWhole R.remaining input.old input.new bytes.items) }
    ensures reads { (bytes : List ℕ) × ReadsBytes R.remaining input.old input.new bytes }
    ensures read_failed { IsErrOf result RunFault.ReadFailed ↔ (0 < failures_of input.new) }
    ensures too_long { IsErrOf result RunFault.TooLong ↔ (input_limit < bytes_of input.new) }
    ensures no_write_failed { IfErr result (λ fault. fault ≢ RunFault.WriteFailed) }
    ensures calls { calls_of input.new ≤ input_limit + 1 }
{
    let mut bytes = Vec::new(alloc);
    let mut piece = [0u8; PIECE];
    for _ in 0..READ_LIMIT {
        let Ok(count) = input.read(&mut piece) else {
            return Err(RunFault::ReadFailed);
        };
        if count == 0 {
            return Ok(bytes);
        }
        if bytes.len() + count > INPUT_LIMIT {
            return Err(RunFault::TooLong);
        }
        bytes.extend_from_slice(&piece[..count])?;
    }
    unreachable!()
}

/// Writes the answer's text to the writer of its status, and flushes that.
fn deliver<W: Write, E: Write>(
    answer: &Answer,
    out: &mut Counted<W>,
    err: &mut Counted<E>,
) -> Result<(), RunFault>
    requires fresh_out { calls_of out.old ≡ 0 }
    requires fresh_err { calls_of err.old ≡ 0 }
    ensures delivered { OnOk result
        (Delivers W.contents E.contents (answered_by answer.now) out.old out.new err.old err.new) }
    ensures broken_off { OnErr result
        (BreaksOff W.contents E.contents (answered_by answer.now) out.old out.new err.old err.new) }
    ensures fault { IfErr result (λ fault. fault ≡ RunFault.WriteFailed) }
{
    if answer.status == 0 {
        write_whole(answer.text.as_bytes(), out)
    } else {
        write_whole(answer.text.as_bytes(), err)
    }
}

/// Writes the whole text, and flushes.
fn write_whole<W: Write>(text: &[u8], device: &mut Counted<W>) -> Result<(), RunFault>
    requires { calls_of device.old ≡ 0 }
    ensures written { OnOk result (WritesWhole W.contents device.old device.new text.now) }
    ensures failed { OnErr result (WritesPart W.contents device.old device.new text.now) }
    ensures fault { IfErr result (λ fault. fault ≡ RunFault.WriteFailed) }
{
    let mut rest = text;
    while !rest.is_empty() {
        match device.write(rest) {
            Ok(count) if count > 0 => rest = &rest[count..],
            _ => return Err(RunFault::WriteFailed),
        }
    }
    match device.flush() {
        Ok(()) => Ok(()),
        Err(_) => Err(RunFault::WriteFailed),
    }
}
