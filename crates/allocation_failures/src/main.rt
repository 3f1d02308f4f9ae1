//! Watches one public call, whose name is the program's one word, and prints what was seen of it. With no word it
//! prints the names. `tests/allocation` runs it under a heap that refuses, once for each request that is made:
//! it makes none of its own.
#![tactic(auto)]

mod documents;
mod live;
mod merges;
mod patches;
mod pointers;
mod preparing;
mod seeded;
mod seen;
mod without_memory;

use seen::{Seen, line_of};
use std::alloc::Global;
use std::env::FillError;
use std::io;
use std::process::ExitCode;
use std::rt::Env;

/// The status if what was seen is wrong, or no call has the name.
const WRONG: u8 = 1;

/// The most bytes that a name may have.
const NAME_LIMIT: usize = 64;

fn main(rt: HostRuntime) -> ExitCode {
    let mut name = [0; NAME_LIMIT];
    ExitCode::from(match rt.arg(1, &mut name) {
        Ok(length) => report(&rt, &name[..length]),
        Err(FillError::NotPresent) => list(&rt),
        Err(FillError::TooLong) => WRONG,
    })
}

/// Watches the call of this name, prints what was seen of it, and gives the status.
fn report(rt: &(impl Print + AllocGlobal), name: &[u8]) -> u8 {
    let Ok(name) = str::from_utf8(name) else {
        return WRONG;
    };
    let Some(seen) = watch(rt.alloc(), name) else {
        return WRONG;
    };
    if rt.println(line_of(seen)).is_err() || seen == Some(Seen::Wrong) {
        return WRONG;
    }
    0
}

/// Watches the call of this name, if there is one.
fn watch(alloc: Global, name: &str) -> Option<Option<Seen>> {
    let (module, call) = name.split_once("::")?;
    match module {
        "documents" => documents::watch(alloc, call),
        "live" => live::watch(alloc, call),
        "merges" => merges::watch(alloc, call),
        "patches" => patches::watch(alloc, call),
        "seeded" => seeded::watch(alloc, call),
        "pointers" => pointers::watch(alloc, call),
        "without_memory" => without_memory::watch(alloc, call),
        _ => None,
    }
}

/// Prints the names, and gives the status.
fn list(rt: &impl Print) -> u8 {
    for (module, calls) in [
        ("documents", documents::CALLS),
        ("live", live::CALLS),
        ("merges", merges::CALLS),
        ("patches", patches::CALLS),
        ("seeded", seeded::CALLS),
        ("pointers", pointers::CALLS),
        ("without_memory", without_memory::CALLS),
    ] {
        if list_module(rt, module, calls).is_err() {
            return WRONG;
        }
    }
    0
}

fn list_module(rt: &impl Print, module: &str, calls: &[&str]) -> io::Result<()> {
    for call in calls {
        rt.print(module)?;
        rt.print("::")?;
        rt.println(call)?;
    }
    Ok(())
}
