//! Test vectors of the promise run: lists in several orders and with repeats, and the first refusal.
use crate::written::{is_text, says};
use mp_merge::{ConvergeFault, Converged, converge};
use mp_tree::{Doc, read_doc, read_docs};
use std::alloc::Global;
use std::test::Fail;

/// A start, what two replicas receive, and the document that both show.
const REPLICAS: &[(&str, &str, &str, &str)] = &[
    (
        r#"{"a":{"b":[1]},"c":1}"#,
        r#"[{"c":2},{"a":{"b":[2]}},{"c":2},{"d":{}}]"#,
        r#"[{"d":{}},{"a":{"b":[2]}},{"d":{}},{"c":2}]"#,
        r#"{"a":{"b":[2]},"c":2,"d":{}}"#,
    ),
    ("[1,2]", "[{}]", "[{},{},{}]", "{}"),
    ("7", "[null,null]", "[null]", "null"),
];

/// What the join of the patches, rewritten against the start, makes of it: as the contract has it, what each way makes.
fn patched_of(alloc: Global, start: &str, here: &str, there: &str) -> Result<Doc, Fail> {
    let start = read_doc(alloc, start.as_bytes())?;
    let here = read_docs(alloc, here.as_bytes())?;
    let there = read_docs(alloc, there.as_bytes())?;
    let Converged { patched, .. } = converge(alloc, &start, here.as_slice(), there.as_slice())?;
    Ok(patched)
}

#[test]
fn replicas_converge(rt: HostRuntime) -> Result<(), Fail> {
    for (start, here, there, document) in REPLICAS {
        let patched = patched_of(rt.alloc(), start, here, there)?;
        is_text(&rt, &patched, document)?;
    }
    Ok(())
}

/// Lists that are no replicas', and the first refusal.
const REFUSED: &[(&str, &str, &str)] = &[
    (r#"[{"a":1},{"a":2}]"#, "[]", "conflict: patches 0 and 1"),
    (
        r#"[{"a":1}]"#,
        r#"[{},{"b":1},{"b":2}]"#,
        "conflict: patches 1 and 2",
    ),
    ("[]", r#"[{"a":1}]"#, "no patches"),
    (r#"[{"a":1}]"#, "[]", "no patches"),
];

/// Why the replicas do not converge.
fn refusal_of(alloc: Global, here: &str, there: &str) -> Result<ConvergeFault, Fail> {
    let here = read_docs(alloc, here.as_bytes())?;
    let there = read_docs(alloc, there.as_bytes())?;
    match converge(alloc, &Doc::Null, here.as_slice(), there.as_slice()) {
        Err(fault) => Ok(fault),
        Ok(_) => Err(Fail::new("they converge")),
    }
}

#[test]
fn the_first_refusal_is_reported(rt: HostRuntime) -> Result<(), Fail> {
    for (here, there, wanted) in REFUSED {
        says(&rt, &refusal_of(rt.alloc(), here, there)?, wanted)?;
    }
    Ok(())
}
