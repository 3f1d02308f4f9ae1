//! The calls of mp_replica that take memory. A refusal leaves a patch log as it was.
use crate::preparing::{doc_of, two_docs_of};
use crate::seen::Seen;
use mp_replica::{Arrival, Identity, LiveFault, Message, PatchLog, Received, Replica};
use mp_tree::Doc;
use std::alloc::Global;

const START: &str = r#"{"a":5,"k":0}"#;

/// A patch that was received before, one that comes, and what they make of the start.
const BEFORE: &str = r#"{"a":{"x":1},"b":{"c":[1]}}"#;

const PATCH: &str = r#"{"a":{"y":{"z":"text"}},"b":{"d":null,"e":{"f":2}},"k":null}"#;

const SHOWN: &str = r#"{"a":{"x":1,"y":{"z":"text"}},"b":{"c":[1],"e":{"f":2}}}"#;

const SHOWN_BEFORE: &str = r#"{"a":{"x":1},"b":{"c":[1]},"k":0}"#;

/// A patch that conflicts with the one that was received before, and where.
const CLASHING: &str = r#"{"a":{"x":2},"b":[]}"#;

const PLACES: &str = r#"["/a/x","/b"]"#;

const PAIRS: &str = r#"[{"first":[1,1],"second":[2,1],"places":["/a/x","/b"]}]"#;

/// The number of the start.
const EPOCH: u64 = 7;

const FIRST: Identity = Identity {
    sender: 1,
    number: 1,
};

const SECOND: Identity = Identity {
    sender: 2,
    number: 1,
};

/// The names that `watch` takes.
pub const CALLS: &[&str] = &[
    "conflicts_text",
    "log_conflicts_text",
    "log_document_text",
    "log_receive_text",
];

/// Watches the call of this name, if there is one.
pub fn watch(alloc: Global, name: &str) -> Option<Option<Seen>> {
    Some(match name {
        "conflicts_text" => watch_conflicts_text(alloc),
        "log_conflicts_text" => watch_log_conflicts_text(alloc),
        "log_document_text" => watch_log_document_text(alloc),
        "log_receive_text" => watch_log_receive_text(alloc),
        _ => return None,
    })
}

/// Of a call that gives a text.
fn of_text(given: Result<String, LiveFault>, wanted: &str) -> Seen {
    match given {
        Ok(text) => Seen::answer_if(text.as_str() == wanted),
        Err(LiveFault::OutOfMemory) => Seen::NoMemory,
        Err(_) => Seen::Wrong,
    }
}

/// A replica that has received `BEFORE`.
fn replica_of(alloc: Global) -> Option<Replica> {
    let start = doc_of(alloc, START)?;
    let before = doc_of(alloc, BEFORE)?;
    let mut replica = Replica::new(start);
    match replica.receive(alloc, before) {
        Received::Taken => Some(replica),
        _ => None,
    }
}

fn watch_conflicts_text(alloc: Global) -> Option<Seen> {
    let replica = replica_of(alloc)?;
    let given = replica.conflicts_text(alloc, CLASHING.as_bytes());
    Some(of_text(given, PLACES))
}

/// The message of this patch.
fn message_of(alloc: Global, identity: Identity, text: &str) -> Option<Message> {
    let patch = doc_of(alloc, text)?;
    Some(Message {
        epoch: EPOCH,
        identity,
        patch,
    })
}

/// Of a log that stores a message. What it makes then asks for memory too, and a refusal of that is no error: so it is watched.
fn stores(alloc: Global, log: &mut PatchLog, message: &Message) -> Seen {
    match log.receive(alloc, message) {
        Ok(arrival) => Seen::answer_if(arrival == Arrival::Stored),
        Err(_) => Seen::NoMemory,
    }
}

fn watch_log_conflicts_text(alloc: Global) -> Option<Seen> {
    let start = doc_of(alloc, START)?;
    let first = message_of(alloc, FIRST, BEFORE)?;
    let second = message_of(alloc, SECOND, CLASHING)?;
    let mut log = PatchLog::new(alloc, EPOCH, start);
    for message in [&first, &second] {
        let seen = stores(alloc, &mut log, message);
        if seen != Seen::Answer {
            return Some(seen);
        }
    }
    Some(of_text(log.conflicts_text(alloc), PAIRS))
}

fn watch_log_document_text(alloc: Global) -> Option<Seen> {
    let start = doc_of(alloc, START)?;
    let first = message_of(alloc, FIRST, BEFORE)?;
    let mut log = PatchLog::new(alloc, EPOCH, start);
    let seen = stores(alloc, &mut log, &first);
    if seen != Seen::Answer {
        return Some(seen);
    }
    Some(of_text(log.document_text(alloc, usize::MAX), SHOWN_BEFORE))
}

/// Whether it shows this document, as far as memory allows.
fn shows(alloc: Global, log: &mut PatchLog, wanted: &Doc) -> bool {
    match log.document(alloc) {
        Ok(doc) => doc.same(wanted),
        Err(_) => true,
    }
}

fn watch_log_receive_text(alloc: Global) -> Option<Seen> {
    let start = doc_of(alloc, START)?;
    let first = message_of(alloc, FIRST, BEFORE)?;
    let wanted = two_docs_of(alloc, [SHOWN, SHOWN_BEFORE])?;
    let [after, before] = &wanted;
    let mut log = PatchLog::new(alloc, EPOCH, start);
    let seen = stores(alloc, &mut log, &first);
    if seen != Seen::Answer {
        return Some(seen);
    }
    let arrival = log.receive_text(alloc, EPOCH, SECOND, PATCH.as_bytes());
    Some(match arrival {
        Ok(Arrival::Stored) => Seen::answer_if(shows(alloc, &mut log, after)),
        Err(LiveFault::OutOfMemory) => Seen::NoMemory.with(shows(alloc, &mut log, before)),
        _ => Seen::Wrong,
    })
}
