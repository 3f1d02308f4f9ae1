//! Mutants, which `tests/allocation` has to notice.
use crate::preparing::{doc_of, two_docs_of};
use crate::seen::Seen;
use mp_tree::Doc;
use std::alloc::{AllocError, Global};

/// The names that `watch` takes.
pub const CALLS: &[&str] = &["gives_up", "hides_a_refusal", "takes_memory"];

/// Watches the call of this name, if there is one.
pub fn watch(alloc: Global, name: &str) -> Option<Option<Seen>> {
    Some(match name {
        "gives_up" => watch_give_up(alloc),
        "hides_a_refusal" => watch_copy_or_null(alloc),
        "takes_memory" => watch_same_as_copy(alloc),
        _ => return None,
    })
}

/// Of a call that gives a document.
fn of_doc(given: Result<Doc, AllocError>, wanted: &Doc) -> Seen {
    match given {
        Ok(doc) => Seen::answer_if(doc.same(wanted)),
        Err(_) => Seen::NoMemory,
    }
}

/// Hides a refusal: a document that can't be copied is null.
fn copy_or_null(alloc: Global, doc: &Doc) -> Result<Doc, AllocError> {
    Ok(doc.copy(alloc).unwrap_or(Doc::Null))
}

/// Takes memory where none is to be taken.
fn same_as_copy(alloc: Global, doc: &Doc, other: &Doc) -> Result<bool, AllocError> {
    Ok(doc.copy(alloc)?.same(other))
}

/// Answers out of memory if nothing was refused.
fn give_up(_alloc: Global, _doc: &Doc) -> Result<Doc, AllocError> {
    Err(AllocError)
}

fn watch_copy_or_null(alloc: Global) -> Option<Seen> {
    let doc = doc_of(alloc, "[[1]]")?;
    Some(of_doc(copy_or_null(alloc, &doc), &doc))
}

fn watch_same_as_copy(alloc: Global) -> Option<Seen> {
    let docs = two_docs_of(alloc, ["[[1]]", "[[1]]"])?;
    let [doc, other] = &docs;
    Some(match same_as_copy(alloc, doc, other) {
        Ok(same) => Seen::answer_if(same),
        Err(_) => Seen::NoMemory,
    })
}

fn watch_give_up(alloc: Global) -> Option<Seen> {
    let doc = doc_of(alloc, "[[1]]")?;
    Some(of_doc(give_up(alloc, &doc), &doc))
}
