//! The calls of mp_tree that take memory.
use crate::preparing::{doc_of, docs_of};
use crate::seen::{Seen, are_same};
use mp_tree::DocsFault;
use std::alloc::Global;

const TEXT: &str = r#"{"a":[null,{"c":"text"}],"b":1}"#;

/// The names that `watch` takes.
pub const CALLS: &[&str] = &["read_docs", "write_doc_within"];

/// Watches the call of this name, if there is one.
pub fn watch(alloc: Global, name: &str) -> Option<Option<Seen>> {
    Some(match name {
        "read_docs" => watch_read_docs(alloc),
        "write_doc_within" => watch_write_doc_within(alloc),
        _ => return None,
    })
}

fn watch_read_docs(alloc: Global) -> Option<Seen> {
    let wanted = docs_of(alloc, "[1,{}]")?;
    Some(match mp_tree::read_docs(alloc, b"[1,{}]") {
        Ok(docs) => Seen::answer_if(are_same(docs.as_slice(), wanted.as_slice())),
        Err(DocsFault::OutOfMemory) => Seen::NoMemory,
        Err(_) => Seen::Wrong,
    })
}

fn watch_write_doc_within(alloc: Global) -> Option<Seen> {
    let doc = doc_of(alloc, TEXT)?;
    Some(match mp_tree::write_doc_within(alloc, &doc, TEXT.len()) {
        Ok(Some(text)) => Seen::answer_if(text.as_str() == TEXT),
        Ok(None) => Seen::Wrong,
        Err(_) => Seen::NoMemory,
    })
}
