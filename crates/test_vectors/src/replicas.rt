//! Test vectors of `library_example`: those of the pages, and the texts of the errors.
use crate::written::{equal, holds, is_spelled, is_text, says};
use library_example::{
    Delivery, EpochReplica, PatchMessage, at, follow_decision, for_a_peer, show, shown_after,
};
use mp_merge::JoinFault;
use mp_patch::{JsonPatch, apply};
use mp_pointer::Pointer;
use mp_replica::{Arrival, DecideFault, Identity, Message, PatchLog, Received};
use mp_tree::{Doc, ReadFault, read_doc, read_docs};
use std::alloc::Global;
use std::process::Abort;
use std::test::Fail;

/// A start, patches in two orders, and the document that both make.
const START: &str = r#"{"k":0}"#;

const HERE: &str = r#"[{"a":{"x":1}},{"a":{"y":null}},{"k":null}]"#;

const THERE: &str = r#"[{"k":null},{"a":{"y":null}},{"k":null},{"a":{"x":1}}]"#;

const SHOWN: &str = r#"{"a":{"x":1}}"#;

#[test]
fn two_orders_make_one_document(rt: HostRuntime) -> Result<(), Fail> {
    let here = show(rt.alloc(), START.as_bytes(), HERE.as_bytes())?;
    let there = show(rt.alloc(), START.as_bytes(), THERE.as_bytes())?;
    assert_eq!(rt; here.as_str(), SHOWN);
    assert_eq!(rt; there.as_str(), SHOWN);
    Ok(())
}

/// A start and patches of which nothing is shown, and why.
const NOT_SHOWN: &[(&str, &str, &str)] = &[
    ("1.5", "[", "start: number not whole"),
    ("{}", "{}", "patches: not an array"),
    (
        "{}",
        r#"[{"colour":"red"},{"size":1},{"colour":"blue"}]"#,
        "conflict: patches 0 and 2",
    ),
];

fn is_not_shown<R: Abort + AllocGlobal>(
    rt: &R,
    start: &str,
    patches: &str,
    wanted: &str,
) -> Result<(), Fail> {
    match show(rt.alloc(), start.as_bytes(), patches.as_bytes()) {
        Err(fault) => says(rt, &fault, wanted),
        Ok(_) => Err(Fail::new("it is shown")),
    }
}

#[test]
fn what_is_not_shown_is_reported(rt: HostRuntime) -> Result<(), Fail> {
    for (start, patches, wanted) in NOT_SHOWN {
        is_not_shown(&rt, start, patches, wanted)?;
    }
    Ok(())
}

fn doc_of(alloc: Global, text: &str) -> Result<Doc, ReadFault> {
    read_doc(alloc, text.as_bytes())
}

fn edits_for(alloc: Global, start: &Doc) -> Result<JsonPatch, Fail> {
    let patches = read_docs(alloc, HERE.as_bytes())?;
    Ok(for_a_peer(alloc, start, patches.as_slice())?)
}

#[test]
fn a_peer_gets_the_same_document(rt: HostRuntime) -> Result<(), Fail> {
    let start = doc_of(rt.alloc(), START)?;
    let edits = edits_for(rt.alloc(), &start)?;
    is_text(&rt, &apply(rt.alloc(), &start, &edits)?, SHOWN)
}

fn is_there(alloc: Global, doc: &Doc, place: &str) -> Result<bool, Fail> {
    Ok(at(alloc, doc, place)?.is_some())
}

#[test]
fn parts_are_there_or_not(rt: HostRuntime) -> Result<(), Fail> {
    let doc = doc_of(rt.alloc(), SHOWN)?;
    holds(&rt, is_there(rt.alloc(), &doc, "/a/x")?, "/a/x is there");
    holds(&rt, !is_there(rt.alloc(), &doc, "/a/y")?, "/a/y is not");
    Ok(())
}

/// What became of a message.
#[derive(Clone, Copy, Debug, PartialEq, Eq)]
enum Became {
    Taken,
    Conflict,
    OutOfMemory,
    Late,
    Early(u64),
}

fn of_delivery(delivery: Delivery) -> Became {
    match delivery {
        Delivery::Given(Received::Taken) => Became::Taken,
        Delivery::Given(Received::Conflict(_)) => Became::Conflict,
        Delivery::Given(_) => Became::OutOfMemory,
        Delivery::Late => Became::Late,
        Delivery::Early(message) => Became::Early(message.epoch),
    }
}

/// The number of the start that a patch was made for, the patch, and what becomes of it.
const MESSAGES: &[(u64, &str, Became)] = &[
    (1, r#"{"a":{"x":1}}"#, Became::Taken),
    (0, r#"{"k":5}"#, Became::Late),
    (1, r#"{"a":{"y":null}}"#, Became::Taken),
    (2, r#"{"k":6}"#, Became::Early(2)),
    (1, r#"{"k":null}"#, Became::Taken),
    (1, r#"{"a":{"x":1}}"#, Became::Taken),
];

/// A patch of the start of number 1 that conflicts with the first of these.
const CLASHING: &str = r#"{"a":{"x":2}}"#;

fn message(alloc: Global, epoch: u64, text: &str) -> Result<PatchMessage, ReadFault> {
    let patch = doc_of(alloc, text)?;
    Ok(PatchMessage { epoch, patch })
}

fn replica(alloc: Global) -> Result<EpochReplica, ReadFault> {
    Ok(EpochReplica::new(1, doc_of(alloc, START)?))
}

/// The replica receives the patch of that start, and this becomes of it.
fn becomes<R: Abort + AllocGlobal>(
    rt: &R,
    replica: &mut EpochReplica,
    epoch: u64,
    text: &str,
    wanted: Became,
) -> Result<(), Fail> {
    let message = message(rt.alloc(), epoch, text)?;
    let delivery = replica.receive(rt.alloc(), message);
    equal(rt, of_delivery(delivery), wanted);
    Ok(())
}

fn is_some_text<R: Abort + AllocGlobal>(
    rt: &R,
    doc: Option<&Doc>,
    wanted: &str,
) -> Result<(), Fail> {
    match doc {
        Some(doc) => is_text(rt, doc, wanted),
        None => Err(Fail::new("there is no document")),
    }
}

#[test]
fn a_replica_receives_what_is_of_its_start(rt: HostRuntime) -> Result<(), Fail> {
    let mut replica = replica(rt.alloc())?;
    holds(
        &rt,
        replica.replica().joined().is_none(),
        "nothing is joined",
    );
    is_some_text(&rt, replica.replica().document(), START)?;
    for (epoch, text, wanted) in MESSAGES {
        becomes(&rt, &mut replica, *epoch, text, *wanted)?;
    }
    holds(&rt, replica.settle(rt.alloc()), "nothing is pending");
    is_some_text(&rt, replica.replica().document(), SHOWN)?;
    let joined = r#"{"a":{"x":1,"y":null},"k":null}"#;
    is_some_text(&rt, replica.replica().joined(), joined)
}

fn is_at<R: Abort + AllocGlobal>(rt: &R, places: &[Pointer], wanted: &str) -> Result<(), Fail> {
    match places {
        [place] => is_spelled(rt, place, wanted),
        _ => Err(Fail::new("there is not one place")),
    }
}

#[test]
fn a_patch_that_clashes_is_not_received(rt: HostRuntime) -> Result<(), Fail> {
    let mut replica = replica(rt.alloc())?;
    becomes(&rt, &mut replica, 1, SHOWN, Became::Taken)?;
    let clashing = message(rt.alloc(), 1, CLASHING)?;
    let places = replica.conflicts(rt.alloc(), &clashing)?;
    is_at(&rt, places.as_slice(), "/a/x")?;
    becomes(&rt, &mut replica, 1, CLASHING, Became::Conflict)?;
    is_some_text(&rt, replica.replica().document(), r#"{"a":{"x":1},"k":0}"#)
}

#[test]
fn a_message_of_another_start_conflicts_nowhere(rt: HostRuntime) -> Result<(), Fail> {
    let mut replica = replica(rt.alloc())?;
    becomes(&rt, &mut replica, 1, SHOWN, Became::Taken)?;
    let later = message(rt.alloc(), 2, CLASHING)?;
    let places = replica.conflicts(rt.alloc(), &later)?;
    holds(&rt, places.is_empty(), CLASHING);
    Ok(())
}

fn messages_of(alloc: Global) -> Result<Vec<PatchMessage>, Fail> {
    let mut messages = Vec::new(alloc);
    for (epoch, text, _) in MESSAGES {
        messages.push(message(alloc, *epoch, text)?)?;
    }
    Ok(messages)
}

#[test]
fn what_is_shown_after_messages(rt: HostRuntime) -> Result<(), Fail> {
    let messages = messages_of(rt.alloc())?;
    let start = doc_of(rt.alloc(), START)?;
    let shown = shown_after(rt.alloc(), 1, start, messages)?;
    is_text(&rt, &shown, SHOWN)
}

#[test]
fn where_messages_stop(rt: HostRuntime) -> Result<(), Fail> {
    let mut messages = messages_of(rt.alloc())?;
    messages.push(message(rt.alloc(), 1, CLASHING)?)?;
    let start = doc_of(rt.alloc(), START)?;
    match shown_after(rt.alloc(), 1, start, messages) {
        Err(JoinFault::Conflict(places)) => is_at(&rt, places.as_slice(), "/a/x"),
        _ => Err(Fail::new("patches that clash are shown")),
    }
}

/// The log shows this document, and has this number of its start.
fn has_begun<R: Abort + AllocGlobal>(
    rt: &R,
    log: &mut PatchLog,
    epoch: u64,
    wanted: &str,
) -> Result<(), Fail> {
    equal(rt, log.epoch(), epoch);
    is_text(rt, &log.document(rt.alloc())?, wanted)
}

const MINE: Identity = Identity {
    sender: 1,
    number: 1,
};

const YOURS: Identity = Identity {
    sender: 2,
    number: 1,
};

/// A patch log of the start of number 1, to which a patch of it has come.
fn log_of_one(alloc: Global) -> Result<PatchLog, Fail> {
    let mut log = PatchLog::new(alloc, 1, doc_of(alloc, START)?);
    let message = Message {
        epoch: 1,
        identity: MINE,
        patch: doc_of(alloc, r#"{"k":null}"#)?,
    };
    match log.receive(alloc, &message)? {
        Arrival::Stored => Ok(log),
        _ => Err(Fail::new("it is not stored")),
    }
}

#[test]
fn a_decision_is_followed_once(rt: HostRuntime) -> Result<(), Fail> {
    let mut log = log_of_one(rt.alloc())?;
    follow_decision(rt.alloc(), &mut log, 2, &[])?;
    has_begun(&rt, &mut log, 1, "{}")?;
    follow_decision(rt.alloc(), &mut log, 1, &[])?;
    has_begun(&rt, &mut log, 2, START)?;
    follow_decision(rt.alloc(), &mut log, 1, &[MINE])?;
    has_begun(&rt, &mut log, 2, START)
}

#[test]
fn a_decision_that_can_not_be_followed_yet(rt: HostRuntime) -> Result<(), Fail> {
    let mut log = log_of_one(rt.alloc())?;
    match follow_decision(rt.alloc(), &mut log, 1, &[MINE, YOURS]) {
        Err(DecideFault::NotReceived(missing)) => equal(&rt, missing, YOURS),
        _ => return Err(Fail::new("it is followed")),
    }
    has_begun(&rt, &mut log, 1, "{}")
}
