//! The calls that apply a JSON Patch to a `Doc`, on moves that lead back. `tests/program` counts what they take on documents of
//! its own, which it writes to a file.
use crate::written::holds;
use mp_patch::{JsonPatch, apply, apply_owned, apply_within};
use mp_tree::{Doc, read_doc};
use std::fs::Files;
use std::rt::Env;
use std::test::Fail;
use std::{env, fs};

/// The environment names the file with it, an array of a document and a JSON Patch.
const FILE: &str = "MERGEJOIN_MOVES";

/// What it has where there is none.
const SMALL: &str = concat!(
    r#"[{"a":[0],"b":{}},[{"op":"move","from":"/a","path":"/b/c"},"#,
    r#"{"op":"move","from":"/b/c","path":"/a"}]]"#,
);

fn given<R: Env + Files + AllocGlobal>(rt: &R) -> Result<Doc, Fail> {
    match env::var(rt, FILE) {
        Ok(name) => {
            let bytes = fs::read(rt, name.as_str())?;
            Ok(read_doc(rt.alloc(), bytes.as_slice())?)
        }
        Err(_) => Ok(read_doc(rt.alloc(), SMALL.as_bytes())?),
    }
}

fn document_and_patch<R: Env + Files + AllocGlobal>(rt: &R) -> Result<(Doc, JsonPatch), Fail> {
    let Doc::Items(mut parts) = given(rt)? else {
        return Err(Fail::new("it is no array"));
    };
    let (Some(form), Some(doc)) = (parts.pop(), parts.pop()) else {
        return Err(Fail::new("it has no document and patch"));
    };
    Ok((doc, JsonPatch::from_doc(rt.alloc(), &form)?))
}

#[test]
fn apply_moves_there_and_back(rt: HostRuntime) -> Result<(), Fail> {
    let (doc, patch) = document_and_patch(&rt)?;
    let moved = apply(rt.alloc(), &doc, &patch)?;
    holds(&rt, moved.same(&doc), "the moves lead back");
    Ok(())
}

#[test]
fn apply_owned_moves_there_and_back(rt: HostRuntime) -> Result<(), Fail> {
    let (doc, patch) = document_and_patch(&rt)?;
    let moved = apply_owned(rt.alloc(), doc.copy(rt.alloc())?, &patch)?;
    holds(&rt, moved.same(&doc), "the moves lead back");
    Ok(())
}

#[test]
fn apply_within_moves_there_and_back(rt: HostRuntime) -> Result<(), Fail> {
    let (doc, patch) = document_and_patch(&rt)?;
    let given = doc.copy(rt.alloc())?;
    let moved = apply_within(rt.alloc(), given, patch.into_ops(), usize::MAX)?;
    holds(&rt, moved.same(&doc), "the moves lead back");
    Ok(())
}
