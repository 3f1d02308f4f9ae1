//! Runs of what stays in memory, whose cost is counted: `replica_runs JOB BYTES COUNT`. A job makes a start of about that many
//! bytes, and gives so many patches of 40 bytes to what it is named for. It prints how many were taken, and nothing long, so
//! that two runs with other counts differ by the cost of the patches alone.
//!
//! `receive`: a replica. `agree`: a replica, whose text has to be the replay of all texts. `gather`: patches without a start.
//! `join`: the same, whose text has to be the join of all texts. `apart`: patches of 33 bytes that nest two objects each. `log`:
//! a patch log. `agree-log`: a patch log, whose text has to be the replay of all texts.
#![tactic(auto)]

mod gathering;
mod logging;
mod receiving;
mod texts;

use std::alloc::{AllocError, Global};
use std::env::FillError;
use std::process::ExitCode;
use std::rt::Env;

/// The status if the words name no job, if memory ran out, or if what is shown is not what it has to be.
const WRONG: u8 = 1;

/// The most bytes that a word may have.
const WORD_LIMIT: usize = 32;

fn main(rt: HostRuntime) -> ExitCode {
    let mut job = [0; WORD_LIMIT];
    let Ok(length) = rt.arg(1, &mut job) else {
        return ExitCode::from(WRONG);
    };
    let (Some(bytes), Some(count)) = (number(&rt, 2), number(&rt, 3)) else {
        return ExitCode::from(WRONG);
    };
    let Ok(job) = str::from_utf8(&job[..length]) else {
        return ExitCode::from(WRONG);
    };
    match work(rt.alloc(), job, bytes, count) {
        Ok(Some(taken)) => ExitCode::from(report(&rt, taken)),
        _ => ExitCode::from(WRONG),
    }
}

/// The word of that place as a number, if it is one.
fn number(rt: &impl Env, place: usize) -> Option<u64> {
    let mut word = [0; WORD_LIMIT];
    let length: Result<usize, FillError> = rt.arg(place, &mut word);
    let length = length.ok()?;
    str::from_utf8(&word[..length]).ok()?.parse::<u64>().ok()
}

/// Prints how many were taken, and gives the status.
fn report(rt: &impl Print, taken: u64) -> u8 {
    match println!(rt; "{taken}") {
        Ok(()) => 0,
        Err(_) => WRONG,
    }
}

/// Does one job: how many patches were taken. None if no job has the name, or what is shown is not what it has to be.
fn work(alloc: Global, job: &str, bytes: u64, count: u64) -> Result<Option<u64>, AllocError> {
    match job {
        "receive" => receiving::receive(alloc, bytes, count),
        "agree" => receiving::agree(alloc, bytes, count),
        "gather" => gathering::gather(alloc, false, count),
        "join" => gathering::agree(alloc, count),
        "apart" => gathering::gather(alloc, true, count),
        "log" => logging::log(alloc, bytes, count),
        "agree-log" => logging::agree(alloc, bytes, count),
        _ => Ok(None),
    }
}
