//! Test vectors: parts that are written. Those that are read, and spellings, are run by `tests/program`, and tokens by
//! `tests/allocation`.
use crate::written::{holds, is_text};
use mp_pointer::{Pointer, edit_part, get_mut};
use mp_tree::{Doc, read_docs, write_doc};
use std::alloc::Global;
use std::mem;
use std::process::Abort;
use std::test::Fail;

/// A document and a value in an array, a pointer, and what the document is once the value was written there, where
/// there is such a part.
const WRITES: &[(&str, &str, Option<&str>)] = &[
    (r#"[{"a":[1,2]},9]"#, "/a/1", Some(r#"{"a":[1,9]}"#)),
    (r#"[{"a":[1,2]},9]"#, "/a/2", None),
    (r#"[{"a":[1,2]},9]"#, "/a/01", None),
    (r#"[{"a":[1,2]},9]"#, "/a/-", None),
    (r#"[{"a":[1,2]},9]"#, "/b", None),
    (r#"[{"a":[1,2]},9]"#, "/a/1/0", None),
    (
        r#"[{"a":[1,{"b":2}]},{"c":[{"d":{}}]}]"#,
        "/a/1/b",
        Some(r#"{"a":[1,{"b":{"c":[{"d":{}}]}}]}"#),
    ),
    (
        r#"[{"a":{"b":{"c":1}},"d":2},null]"#,
        "/a/b",
        Some(r#"{"a":{"b":null},"d":2}"#),
    ),
    (r#"[{"a":[1,2]},[3]]"#, "", Some("[3]")),
    ("[5,6]", "", Some("6")),
];

/// The document and the value of a row.
fn written_over(alloc: Global, input: &str) -> Result<(Doc, Doc), Fail> {
    let mut docs = read_docs(alloc, input.as_bytes())?;
    match (docs.pop(), docs.pop()) {
        (Some(value), Some(doc)) => Ok((doc, value)),
        _ => Err(Fail::new("a row has a document and a value")),
    }
}

/// Puts the value there, and returns whether there is such a part.
fn put(doc: &mut Doc, pointer: &Pointer, value: Doc) -> bool {
    match get_mut(doc, pointer) {
        Some(part) => {
            *part = value;
            true
        }
        None => false,
    }
}

fn put_by_edit(doc: &mut Doc, pointer: &Pointer, value: Doc) -> bool {
    edit_part(
        doc,
        pointer,
        pointer.len(),
        |part| mem::replace(part, value),
    )
    .is_some()
}

fn check_write<R: Abort + AllocGlobal>(
    rt: &R,
    (input, text, wanted): &(&str, &str, Option<&str>),
    is_edit: bool,
) -> Result<(), Fail> {
    let pointer = Pointer::parse(rt.alloc(), text)?;
    let (mut doc, value) = written_over(rt.alloc(), input)?;
    let before = write_doc(rt.alloc(), &doc)?;
    let is_written = if is_edit {
        put_by_edit(&mut doc, &pointer, value)
    } else {
        put(&mut doc, &pointer, value)
    };
    holds(rt, is_written == wanted.is_some(), text);
    is_text(rt, &doc, wanted.unwrap_or(before.as_str()))
}

#[test]
fn that_part_alone_is_written(rt: HostRuntime) -> Result<(), Fail> {
    for row in WRITES {
        check_write(&rt, row, false)?;
        check_write(&rt, row, true)?;
    }
    Ok(())
}
