//! What the calls are given, made of texts. `None` is: memory was refused.
//!
//! Two or three values come in one array, so that a function that is given them has one way out if there are none:
//! each further way is proved too.
use mp_patch::JsonPatch;
use mp_pointer::Pointer;
use mp_tree::{Doc, read_doc, read_docs, read_value, read_values};
use serde_json::Value;
use std::alloc::Global;

pub fn doc_of(alloc: Global, text: &str) -> Option<Doc> {
    read_doc(alloc, text.as_bytes()).ok()
}

/// The items of one array.
pub fn docs_of(alloc: Global, text: &str) -> Option<Vec<Doc>> {
    read_docs(alloc, text.as_bytes()).ok()
}

pub fn two_docs_of(alloc: Global, texts: [&str; 2]) -> Option<[Doc; 2]> {
    let [text, other] = texts;
    let first = doc_of(alloc, text)?;
    let second = doc_of(alloc, other)?;
    Some([first, second])
}

pub fn three_docs_of(alloc: Global, texts: [&str; 3]) -> Option<[Doc; 3]> {
    let [text, other, last] = texts;
    let [first, second] = two_docs_of(alloc, [text, other])?;
    let third = doc_of(alloc, last)?;
    Some([first, second, third])
}

/// If memory for an array's move to a block of its size is refused, it stays where it is. Then memory was refused, too.
pub fn value_of(alloc: Global, text: &str) -> Option<Value> {
    let value = read_value(alloc, text.as_bytes()).ok()?;
    if is_exact(&value) { Some(value) } else { None }
}

/// The elements of one array.
pub fn values_of(alloc: Global, text: &str) -> Option<Vec<Value>> {
    let values = read_values(alloc, text.as_bytes()).ok()?;
    if are_exact(&values) {
        Some(values)
    } else {
        None
    }
}

/// Whether no array has more places than elements.
#[cycle(exact)]
fn is_exact(value: &Value) -> bool {
    match value {
        Value::Array(elements) => are_exact(elements),
        Value::Object(members) => {
            for part in members.values() {
                if !is_exact(part) {
                    return false;
                }
            }
            true
        }
        _ => true,
    }
}

#[cycle(exact)]
fn are_exact(elements: &Vec<Value>) -> bool {
    for element in elements {
        if !is_exact(element) {
            return false;
        }
    }
    elements.len() == elements.capacity()
}

pub fn pointer_of(alloc: Global, text: &str) -> Option<Pointer> {
    Pointer::parse(alloc, text).ok()
}

pub fn two_pointers_of(alloc: Global, texts: [&str; 2]) -> Option<[Pointer; 2]> {
    let [text, other] = texts;
    let first = pointer_of(alloc, text)?;
    let second = pointer_of(alloc, other)?;
    Some([first, second])
}

/// The patch of this form.
pub fn patch_of(alloc: Global, form: &Doc) -> Option<JsonPatch> {
    JsonPatch::from_doc(alloc, form).ok()
}
