//! What was seen of a call, and the line of it.
use mp_pointer::Pointer;
use mp_tree::Doc;

/// What was seen of a call.
#[derive(Clone, Copy, PartialEq, Eq)]
pub enum Seen {
    /// The answer that is wanted of it.
    Answer,
    /// Out of memory.
    NoMemory,
    /// Anything else, or a borrowed value that is not what it was.
    Wrong,
}

impl Seen {
    /// Of a call that answered: whether it is the answer that is wanted.
    pub fn answer_if(holds: bool) -> Seen {
        if holds { Seen::Answer } else { Seen::Wrong }
    }

    /// The same, if what the call borrowed is as it was.
    pub fn with(self, as_borrowed: bool) -> Seen {
        if as_borrowed { self } else { Seen::Wrong }
    }
}

/// The line of what was seen. `None` is: memory for what the call is given was refused.
pub fn line_of(seen: Option<Seen>) -> &'static str {
    match seen {
        Some(Seen::Answer) => "answer",
        Some(Seen::NoMemory) => "out of memory",
        Some(Seen::Wrong) => "wrong",
        None => "unprepared",
    }
}

/// Whether these are the pointer's tokens. It takes no memory.
pub fn has_tokens(pointer: &Pointer, tokens: &[&str]) -> bool {
    if pointer.len() != tokens.len() {
        return false;
    }
    for (number, token) in tokens.iter().enumerate() {
        if pointer.token(number) != Some(*token) {
            return false;
        }
    }
    true
}

/// Whether these are the pointers, each of one or two tokens.
pub fn are_pointers(pointers: &[Pointer], wanted: &[&[&str]]) -> bool {
    if pointers.len() != wanted.len() {
        return false;
    }
    for (pointer, tokens) in pointers.iter().zip(wanted) {
        if !has_tokens(pointer, tokens) {
            return false;
        }
    }
    true
}

/// Whether the documents are equal, one by one. It takes no memory.
pub fn are_same(docs: &[Doc], others: &[Doc]) -> bool {
    if docs.len() != others.len() {
        return false;
    }
    for (doc, other) in docs.iter().zip(others) {
        if !doc.same(other) {
            return false;
        }
    }
    true
}
