//! The jobs that the benchmark times, on inputs that it makes: `workloads JOB COUNT SEED`. A job is made of public calls alone. It
//! makes that many inputs of a real shape, each from the seed and each another one, gives each to its calls once, and
//! prints a digest of all that they answer. The word `all` runs each job.
#![tactic(auto)]

mod arrays;
mod awkward;
mod catching_up;
mod configuration;
mod digest;
mod editing;
mod flat;
mod nested;
mod numbers;
mod publishing;
mod receiving;
mod reducing;
mod requesting;

use digest::Digest;
use std::alloc::{AllocError, Global};
use std::env::FillError;
use std::process::ExitCode;
use std::rt::Env;

/// The status if the words name no job, or memory ran out.
const NO_DIGEST: u8 = 1;

/// The most bytes that a word may have.
const WORD_LIMIT: usize = 32;

/// The names of the jobs.
const JOBS: &[&str] = &[
    "catch-up", "reduce", "receive", "request", "publish", "awkward",
];

fn main(rt: HostRuntime) -> ExitCode {
    let mut job = [0; WORD_LIMIT];
    let Ok(length) = rt.arg(1, &mut job) else {
        return ExitCode::from(NO_DIGEST);
    };
    let (Some(count), Some(seed)) = (number(&rt, 2), number(&rt, 3)) else {
        return ExitCode::from(NO_DIGEST);
    };
    let Ok(job) = str::from_utf8(&job[..length]) else {
        return ExitCode::from(NO_DIGEST);
    };
    match work(rt.alloc(), job, count, seed) {
        Ok(digest) => ExitCode::from(report(&rt, &digest)),
        Err(_) => ExitCode::from(NO_DIGEST),
    }
}

/// The word of that place as a number, if it is one.
fn number(rt: &impl Env, place: usize) -> Option<u64> {
    let mut word = [0; WORD_LIMIT];
    let length: Result<usize, FillError> = rt.arg(place, &mut word);
    let length = length.ok()?;
    str::from_utf8(&word[..length]).ok()?.parse::<u64>().ok()
}

/// Prints the digest, and gives the status.
fn report(rt: &impl Print, digest: &Digest) -> u8 {
    let sum = digest.sum();
    let bytes = digest.bytes();
    match println!(rt; "{sum:016x} of {bytes} bytes") {
        Ok(()) => 0,
        Err(_) => NO_DIGEST,
    }
}

/// Does one job, or each.
fn work(alloc: Global, job: &str, count: u64, seed: u64) -> Result<Digest, AllocError> {
    let mut digest = Digest::new();
    if job == "all" {
        for each in JOBS {
            run(alloc, each, count, seed, &mut digest)?;
        }
    } else {
        run(alloc, job, count, seed, &mut digest)?;
    }
    Ok(digest)
}

fn run(
    alloc: Global,
    job: &str,
    count: u64,
    seed: u64,
    digest: &mut Digest,
) -> Result<(), AllocError> {
    match job {
        "catch-up" => catching_up::run(alloc, count, seed, digest),
        "reduce" => reducing::run(alloc, count, seed, digest),
        "receive" => receiving::run(alloc, count, seed, digest),
        "request" => requesting::run(alloc, count, seed, digest),
        "publish" => {
            publishing::run(alloc, count, seed, digest)?;
            editing::run(alloc, count, seed, digest)
        }
        "awkward" => awkward::run(alloc, count, seed, digest),
        _ => Err(AllocError),
    }
}
