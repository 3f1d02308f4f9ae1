//! The calls of mp_merge that take memory. Each limit is what the answer weighs, or a little less.
use crate::preparing::{doc_of, docs_of, three_docs_of, two_docs_of, values_of};
use crate::seen::{Seen, are_pointers, are_same, has_tokens};
use mp_merge::{Conflicts, ConvergeFault, Converged, JoinFault, ListFault, RewriteFault};
use mp_patch::Op;
use mp_tree::Doc;
use std::alloc::{AllocError, Global};

/// A text is made an object, an object a text, and a text goes away.
const TARGET: &str = r#"{"a":"text","k":0,"t":{"d":"text"},"u":"text"}"#;

const CHANGE: &str = r#"{"a":{"b":1,"c":null},"t":"new","u":null,"z":{"y":2}}"#;

const MERGED: &str = r#"{"a":{"b":1},"k":0,"t":"new","z":{"y":2}}"#;

/// Two patches with three conflicts, where they conflict, and what the first two places weigh.
const CLASHING: &str =
    r#"[{"a":{"x":1,"y":[1]},"b":{},"c":0},{"a":{"x":2,"y":[1]},"b":null,"c":{"d":1}}]"#;

const PLACES: &[&[&str]] = &[&["a", "x"], &["b"], &["c"]];

const TWO_PLACES: usize = 286;

const FIRST_PLACES: &[&[&str]] = &[&["a", "x"], &["b"]];

const TOTAL: usize = 3;

const START: &str = r#"{"k":0}"#;

/// Three patches, their join, and what they make of the start.
const PATCHES: &str = r#"[{"a":{"x":1}},{"a":{"y":null}},{"k":null}]"#;

const JOIN: &str = r#"{"a":{"x":1,"y":null},"k":null}"#;

const OUTCOME: &str = r#"{"a":{"x":1}}"#;

/// A document, a patch that is rewritten against it, and what the edits weigh: they test and remove 2, and add {}.
const CHANGED: &str = r#"{"a":1,"b":{"c":2}}"#;

const REWRITTEN: &str = r#"{"a":1,"b":{"c":null,"d":{"e":null}},"x":null}"#;

const EDITS: usize = 1_484;

/// The names that `watch` takes.
pub const CALLS: &[&str] = &[
    "conflict_within",
    "converge",
    "join",
    "join_all_within",
    "join_of_clashing",
    "merge_owned",
    "replay_within",
    "rewrite_within",
];

/// Watches the call of this name, if there is one.
pub fn watch(alloc: Global, name: &str) -> Option<Option<Seen>> {
    Some(match name {
        "conflict_within" => watch_conflict_within(alloc),
        "converge" => watch_converge(alloc),
        "join" => watch_join(alloc),
        "join_all_within" => watch_join_all_within(alloc),
        "join_of_clashing" => watch_join_of_clashing(alloc),
        "merge_owned" => watch_merge_owned(alloc),
        "replay_within" => watch_replay_within(alloc),
        "rewrite_within" => watch_rewrite_within(alloc),
        _ => return None,
    })
}

fn watch_merge_owned(alloc: Global) -> Option<Seen> {
    let [target, patch, wanted] = three_docs_of(alloc, [TARGET, CHANGE, MERGED])?;
    Some(match mp_merge::merge_owned(alloc, Some(target), patch) {
        Ok(doc) => Seen::answer_if(doc.same(&wanted)),
        Err(_) => Seen::NoMemory,
    })
}

/// Of the two patches of `CLASHING`: the first two places.
fn of_conflicts(given: Result<Conflicts, AllocError>) -> Seen {
    match given {
        Ok(conflicts) => Seen::answer_if(
            conflicts.total == TOTAL && are_pointers(conflicts.places.as_slice(), FIRST_PLACES),
        ),
        Err(_) => Seen::NoMemory,
    }
}

fn watch_conflict_within(alloc: Global) -> Option<Seen> {
    let patches = values_of(alloc, CLASHING)?;
    let [p, q] = patches.as_slice() else {
        return None;
    };
    Some(of_conflicts(mp_merge::conflict_within(alloc, p, q, TWO_PLACES)))
}

/// Of a pair that has the join `wanted`.
fn of_join(given: Result<Doc, JoinFault>, wanted: &Doc) -> Seen {
    match given {
        Ok(joined) => Seen::answer_if(joined.same(wanted)),
        Err(JoinFault::OutOfMemory) => Seen::NoMemory,
        Err(JoinFault::Conflict(_)) => Seen::Wrong,
    }
}

fn watch_join(alloc: Global) -> Option<Seen> {
    let patches = docs_of(alloc, PATCHES)?;
    let wanted = doc_of(alloc, r#"{"a":{"x":1,"y":null}}"#)?;
    let [p, q, _] = patches.as_slice() else {
        return None;
    };
    Some(of_join(mp_merge::join(alloc, p, q), &wanted))
}

/// Of the two patches of `CLASHING`.
fn of_clashing(given: Result<Doc, JoinFault>) -> Seen {
    match given {
        Err(JoinFault::Conflict(places)) => {
            Seen::answer_if(are_pointers(places.as_slice(), PLACES))
        }
        Err(JoinFault::OutOfMemory) => Seen::NoMemory,
        Ok(_) => Seen::Wrong,
    }
}

fn watch_join_of_clashing(alloc: Global) -> Option<Seen> {
    let patches = docs_of(alloc, CLASHING)?;
    let [p, q] = patches.as_slice() else {
        return None;
    };
    Some(of_clashing(mp_merge::join(alloc, p, q)))
}

/// Of a list that has the answer `wanted`.
fn of_list(given: Result<Doc, ListFault<Conflicts>>, wanted: &Doc) -> Seen {
    match given {
        Ok(doc) => Seen::answer_if(doc.same(wanted)),
        Err(ListFault::OutOfMemory) => Seen::NoMemory,
        Err(_) => Seen::Wrong,
    }
}

/// A limit on places is none on what has a join.
fn watch_join_all_within(alloc: Global) -> Option<Seen> {
    let patches = docs_of(alloc, PATCHES)?;
    let before = docs_of(alloc, PATCHES)?;
    let wanted = doc_of(alloc, JOIN)?;
    let given = mp_merge::join_all_within(alloc, patches.as_slice(), 0);
    Some(of_list(given, &wanted).with(are_same(patches.as_slice(), before.as_slice())))
}

fn watch_replay_within(alloc: Global) -> Option<Seen> {
    let [start, wanted] = two_docs_of(alloc, [START, OUTCOME])?;
    let patches = docs_of(alloc, PATCHES)?;
    let given = mp_merge::replay_within(alloc, start, patches.as_slice(), 0);
    Some(of_list(given, &wanted))
}

/// Whether the edits test and remove `old`, and add `new`. It takes no memory.
fn are_edits(ops: &[Op], old: &Doc, new: &Doc) -> bool {
    match ops {
        [
            Op::Test(tested, value),
            Op::Remove(removed),
            Op::Add(added, other),
        ] => {
            has_tokens(tested, &["b", "c"])
                && has_tokens(removed, &["b", "c"])
                && has_tokens(added, &["b", "d"])
                && value.same(old)
                && other.same(new)
        }
        _ => false,
    }
}

fn watch_rewrite_within(alloc: Global) -> Option<Seen> {
    let borrowed = two_docs_of(alloc, [CHANGED, REWRITTEN])?;
    let values = two_docs_of(alloc, ["2", "{}"])?;
    let [doc, patch] = &borrowed;
    let [two, empty] = &values;
    Some(match mp_merge::rewrite_within(alloc, doc, patch, EDITS) {
        Ok(edits) => Seen::answer_if(are_edits(edits.ops(), two, empty)),
        Err(RewriteFault::OutOfMemory) => Seen::NoMemory,
        Err(RewriteFault::TooLarge { .. }) => Seen::Wrong,
    })
}

/// Of lists whose replay and join are these.
fn of_end(given: Result<Converged, ConvergeFault>, outcome: &Doc, join: &Doc) -> Seen {
    let seen = match &given {
        Ok(end) => Seen::answer_if(end.patched.same(outcome) && end.joined_here.same(join)),
        Err(ConvergeFault::OutOfMemory) => Seen::NoMemory,
        Err(_) => Seen::Wrong,
    };
    drop(given);
    seen
}

/// It calls `replay`, `join_all`, `merge`, `rewrite` and `apply`.
fn watch_converge(alloc: Global) -> Option<Seen> {
    let docs = three_docs_of(alloc, [START, OUTCOME, JOIN])?;
    let patches = docs_of(alloc, PATCHES)?;
    let [start, wanted, join] = &docs;
    let given = mp_merge::converge(alloc, start, patches.as_slice(), patches.as_slice());
    Some(of_end(given, wanted, join))
}
