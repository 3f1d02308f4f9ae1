//! Runs over a reader and writers of which one call goes wrong: what was counted is what the stream saw.

use crate::written::{equal, holds};
use mp_cli::{Command, Counted, INPUT_LIMIT, READ_LIMIT, RunFault, run};
use std::alloc::Global;
use std::io;
use std::io::{Read, Write};
use std::process::Abort;

/// Of 46 bytes.
const INPUT: &str = r#"[{"a":"b","c":{"d":1}},{"a":null,"c":{"e":2}}]"#;

/// The answer of `merge` to it, of 20 bytes.
const ANSWER: &str = "{\"c\":{\"d\":1,\"e\":2}}\n";

/// How a call goes wrong.
#[derive(Clone, Copy)]
enum Mishap {
    Fails,
    IsInterrupted,
    TakesNone,
}

/// One call, counted from 1, and how it goes wrong. Number 0 is none.
#[derive(Clone, Copy)]
struct Odd {
    call: u64,
    mishap: Mishap,
}

const NONE: Odd = Odd {
    call: 0,
    mishap: Mishap::Fails,
};

impl Odd {
    /// What this call answers in place of what it should, if it is the one.
    fn answer(self, call: u64) -> Option<io::Result<usize>> {
        if call != self.call {
            return None;
        }
        match self.mishap {
            Mishap::Fails => Some(Err(io::Error::from(io::ErrorKind::BrokenPipe))),
            Mishap::IsInterrupted => Some(Err(io::Error::from(io::ErrorKind::Interrupted))),
            Mishap::TakesNone => Some(Ok(0)),
        }
    }
}

/// A reader that gives its bytes some at a time.
#[derive(Drop)]
struct Feed<'a> {
    rest: &'a [u8],
    piece: usize,
    odd: Odd,
    calls: u64,
}

impl Read for Feed<'_> {
    fn read(&mut self, buf: &mut [u8]) -> io::Result<usize> {
        self.calls = self.calls.saturating_add(1);
        if let Some(Err(error)) = self.odd.answer(self.calls) {
            return Err(error);
        }
        let count = self.piece.min(self.rest.len()).min(buf.len());
        let (piece, rest) = self.rest.split_at(count);
        buf[..count].copy_from_slice(piece);
        self.rest = rest;
        Ok(count)
    }
}

/// A reader of spaces that has no end.
#[derive(Drop)]
struct Endless {
    calls: u64,
}

impl Read for Endless {
    fn read(&mut self, buf: &mut [u8]) -> io::Result<usize> {
        self.calls = self.calls.saturating_add(1);
        if buf.is_empty() {
            return Ok(0);
        }
        buf[0] = b' ';
        Ok(1)
    }
}

/// A writer that keeps what it takes, some bytes at a time.
#[derive(Drop)]
struct Page {
    taken: Vec<u8>,
    piece: usize,
    odd: Odd,
    calls: u64,
    flushed: bool,
}

impl Write for Page {
    fn write(&mut self, buf: &[u8]) -> io::Result<usize> {
        self.calls = self.calls.saturating_add(1);
        self.flushed = false;
        match self.odd.answer(self.calls) {
            Some(Err(error)) => return Err(error),
            Some(Ok(_)) => return Ok(0),
            None => {}
        }
        let count = self.piece.min(buf.len());
        self.taken.extend_from_slice(&buf[..count])?;
        Ok(count)
    }

    fn flush(&mut self) -> io::Result<()> {
        self.calls = self.calls.saturating_add(1);
        if let Some(Err(error)) = self.odd.answer(self.calls) {
            return Err(error);
        }
        self.flushed = true;
        Ok(())
    }
}

fn feed_of(text: &[u8], piece: usize, odd: Odd) -> Feed<'_> {
    Feed {
        rest: text,
        piece,
        odd,
        calls: 0,
    }
}

fn blank_page(alloc: Global, piece: usize, odd: Odd) -> Page {
    Page {
        taken: Vec::new(alloc),
        piece,
        odd,
        calls: 0,
        flushed: false,
    }
}

/// A stream that has counted its calls.
trait Device {
    fn seen(&self) -> u64;
}

impl Device for Feed<'_> {
    fn seen(&self) -> u64 {
        self.calls
    }
}

impl Device for Endless {
    fn seen(&self) -> u64 {
        self.calls
    }
}

impl Device for Page {
    fn seen(&self) -> u64 {
        self.calls
    }
}

/// What was counted of a stream, and the calls that it saw itself.
#[derive(Clone, Copy, Debug, PartialEq, Eq)]
struct Counts {
    calls: u64,
    failures: u64,
    bytes: u64,
    seen: u64,
}

const UNTOUCHED: Counts = Counts {
    calls: 0,
    failures: 0,
    bytes: 0,
    seen: 0,
};

fn counts_of<D: Device + Drop>(counted: Counted<D>) -> (Counts, D) {
    let (calls, failures, bytes) = (counted.calls(), counted.failures(), counted.bytes());
    let device = counted.into_device();
    let counts = Counts {
        calls,
        failures,
        bytes,
        seen: device.seen(),
    };
    (counts, device)
}

/// What a run gave, and what it left.
#[derive(Drop)]
struct Reported {
    status: Result<u8, RunFault>,
    input: Counts,
    out: Counts,
    out_page: Page,
    err: Counts,
    err_page: Page,
}

fn run_over<R: Read + Device + Drop>(
    alloc: Global,
    command: &Command,
    reader: R,
    out: Page,
    err: Page,
) -> Reported {
    let mut input = Counted::new(reader);
    let mut out = Counted::new(out);
    let mut err = Counted::new(err);
    let status = run(alloc, command, &mut input, &mut out, &mut err);
    let (input, _) = counts_of(input);
    let (out, out_page) = counts_of(out);
    let (err, err_page) = counts_of(err);
    Reported {
        status,
        input,
        out,
        out_page,
        err,
        err_page,
    }
}

/// The run's text and its status, over devices that work and take so many bytes at a time.
fn check_line<R: Abort + AllocGlobal>(
    rt: &R,
    command: &Command,
    input: &[u8],
    piece: usize,
    (status, line): (u8, &str),
) {
    let alloc = rt.alloc();
    let reported = run_over(
        alloc,
        command,
        feed_of(input, piece, NONE),
        blank_page(alloc, piece, NONE),
        blank_page(alloc, piece, NONE),
    );
    equal(rt, reported.status, Ok(status));
    if status == 0 {
        expect_written(rt, reported.out, &reported.out_page, line);
        equal(rt, reported.err, UNTOUCHED);
    } else {
        expect_written(rt, reported.err, &reported.err_page, line);
        equal(rt, reported.out, UNTOUCHED);
    }
}

/// The line went whole to this writer.
fn expect_written(rt: &impl Abort, counts: Counts, page: &Page, line: &str) {
    let whole = Counts {
        calls: counts.calls,
        failures: 0,
        bytes: line.len() as u64,
        seen: counts.calls,
    };
    equal(rt, counts, whole);
    equal(rt, page.taken.as_slice(), line.as_bytes());
    holds(rt, page.flushed, line);
}

fn expect_line<R: Abort + AllocGlobal>(
    rt: &R,
    command: &Command,
    input: &[u8],
    reported: (u8, &str),
) {
    for piece in [1, usize::MAX] {
        check_line(rt, command, input, piece, reported);
    }
}

/// The writer took one byte of the text at each call, and then this call failed.
fn expect_broken(rt: &impl Abort, counts: Counts, page: &Page, text: &str, call: u64) {
    let bytes = call.saturating_sub(1);
    let broken = Counts {
        calls: call,
        failures: 1,
        bytes,
        seen: call,
    };
    equal(rt, counts, broken);
    equal(rt, page.taken.len() as u64, bytes);
    holds(rt, text.as_bytes().starts_with(page.taken.as_slice()), text);
}

#[test]
fn a_line_goes_whole_to_its_writer(rt: HostRuntime) {
    expect_line(&rt, &Command::Merge, INPUT.as_bytes(), (0, ANSWER));
    expect_line(&rt, &Command::Merge, b"[", (2, "input: not JSON\n"));
}

/// A run of `merge` over a reader that gives a byte at a time, and two writers that take one.
fn merged<R: Read + Device + Drop>(alloc: Global, reader: R) -> Reported {
    run_over(
        alloc,
        &Command::Merge,
        reader,
        blank_page(alloc, 1, NONE),
        blank_page(alloc, 1, NONE),
    )
}

#[test]
fn each_read_may_fail(rt: HostRuntime) {
    for mishap in [Mishap::Fails, Mishap::IsInterrupted] {
        for call in 1..48 {
            let reported = merged(
                rt.alloc(),
                feed_of(INPUT.as_bytes(), 1, Odd { call, mishap }),
            );
            equal(&rt, reported.status, Err(RunFault::ReadFailed));
            let (calls, failures) = (reported.input.calls, reported.input.failures);
            equal(&rt, (calls, failures, reported.input.seen), (call, 1, call));
            equal(&rt, (reported.out, reported.err), (UNTOUCHED, UNTOUCHED));
        }
    }
}

#[test]
fn each_read_is_counted(rt: HostRuntime) {
    let reported = merged(rt.alloc(), feed_of(INPUT.as_bytes(), 1, NONE));
    equal(&rt, reported.status, Ok(0));
    let read = Counts {
        calls: 47,
        failures: 0,
        bytes: 46,
        seen: 47,
    };
    let written = Counts {
        calls: 21,
        failures: 0,
        bytes: 20,
        seen: 21,
    };
    equal(
        &rt,
        (reported.input, reported.out, reported.err),
        (read, written, UNTOUCHED),
    );
}

#[test]
fn the_limits_are_a_mebibyte_and_one_read_more(rt: HostRuntime) {
    equal(&rt, INPUT_LIMIT, 1_048_576);
    equal(&rt, READ_LIMIT, 1_048_577);
}

#[test]
fn an_endless_input_is_too_long(rt: HostRuntime) {
    let reported = merged(rt.alloc(), Endless { calls: 0 });
    equal(&rt, reported.status, Err(RunFault::TooLong));
    let read = Counts {
        calls: 1_048_577,
        failures: 0,
        bytes: 1_048_577,
        seen: 1_048_577,
    };
    equal(
        &rt,
        (reported.input, reported.out, reported.err),
        (read, UNTOUCHED, UNTOUCHED),
    );
}

/// A run of `merge` of which this goes wrong with its writer.
fn expect_write_failed<R: Abort + AllocGlobal>(rt: &R, call: u64, mishap: Mishap) {
    let alloc = rt.alloc();
    let reported = run_over(
        alloc,
        &Command::Merge,
        feed_of(INPUT.as_bytes(), 100, NONE),
        blank_page(alloc, 1, Odd { call, mishap }),
        blank_page(alloc, 1, NONE),
    );
    equal(rt, reported.status, Err(RunFault::WriteFailed));
    expect_broken(rt, reported.out, &reported.out_page, ANSWER, call);
    equal(rt, reported.err, UNTOUCHED);
}

#[test]
fn each_write_may_fail(rt: HostRuntime) {
    for mishap in [Mishap::Fails, Mishap::IsInterrupted, Mishap::TakesNone] {
        for call in 1..21 {
            expect_write_failed(&rt, call, mishap);
        }
    }
}

#[test]
fn the_flush_may_fail(rt: HostRuntime) {
    for mishap in [Mishap::Fails, Mishap::IsInterrupted] {
        expect_write_failed(&rt, 21, mishap);
    }
}

#[test]
fn a_refusal_may_fail_to_be_written(rt: HostRuntime) {
    let alloc = rt.alloc();
    let first = Odd {
        call: 1,
        mishap: Mishap::Fails,
    };
    let reported = run_over(
        alloc,
        &Command::Join,
        feed_of(br#"[{"a":{}},{"a":null}]"#, 100, NONE),
        blank_page(alloc, 1, NONE),
        blank_page(alloc, 100, first),
    );
    equal(&rt, reported.status, Err(RunFault::WriteFailed));
    equal(&rt, reported.out, UNTOUCHED);
    let line = "conflict: patches 0 and 1 at \"/a\"\n";
    expect_broken(&rt, reported.err, &reported.err_page, line, 1);
}
