//! The calls of mp_pointer that take memory.
use crate::preparing::pointer_of;
use crate::seen::{Seen, has_tokens};
use mp_pointer::Pointer;
use std::alloc::{AllocError, Global};

const TEXT: &str = "/a~1b/~0";

const TOKENS: &[&str] = &["a/b", "~"];

const LONGER: &[&str] = &["a/b", "~", "x/"];

/// The names that `watch` takes.
pub const CALLS: &[&str] = &["child", "front", "push"];

/// Watches the call of this name, if there is one.
pub fn watch(alloc: Global, name: &str) -> Option<Option<Seen>> {
    Some(match name {
        "child" => watch_child(alloc),
        "front" => watch_front(alloc),
        "push" => watch_push(alloc),
        _ => return None,
    })
}

/// Of a call that gives a pointer.
fn of_pointer(given: Result<Pointer, AllocError>, wanted: &[&str]) -> Seen {
    match given {
        Ok(pointer) => Seen::answer_if(has_tokens(&pointer, wanted)),
        Err(_) => Seen::NoMemory,
    }
}

fn watch_child(alloc: Global) -> Option<Seen> {
    let pointer = pointer_of(alloc, TEXT)?;
    let given = pointer.child(alloc, "x/");
    Some(of_pointer(given, LONGER).with(has_tokens(&pointer, TOKENS)))
}

fn watch_front(alloc: Global) -> Option<Seen> {
    let pointer = pointer_of(alloc, TEXT)?;
    if pointer.is_empty() {
        return None;
    }
    let given = pointer.front(alloc, 1);
    Some(of_pointer(given, &["a/b"]).with(has_tokens(&pointer, TOKENS)))
}

/// After a refusal the pointer is what it was.
fn watch_push(alloc: Global) -> Option<Seen> {
    let mut pointer = pointer_of(alloc, TEXT)?;
    Some(match pointer.push("x/") {
        Ok(()) => Seen::answer_if(has_tokens(&pointer, LONGER)),
        Err(_) => Seen::NoMemory.with(has_tokens(&pointer, TOKENS)),
    })
}
