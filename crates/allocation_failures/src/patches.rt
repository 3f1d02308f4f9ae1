//! The calls of mp_patch that take memory.
use crate::preparing::{doc_of, patch_of, pointer_of, three_docs_of, two_docs_of};
use crate::seen::{Seen, has_tokens};
use mp_patch::{ApplyFault, ApplyWithinFault, FormFault, JsonPatch, Op};
use mp_tree::Doc;
use std::alloc::Global;

/// A form of one operation.
const FORM: &str = r#"[{"op":"move","path":"/b","from":"/a"}]"#;

/// A patch in which each operation has something to do.
const LONG_FORM: &str = concat!(
    r#"[{"op":"add","path":"/l/-","value":{"x":[3]}},{"op":"test","path":"/n","value":"t"},"#,
    r#"{"op":"copy","from":"/n","path":"/l/0"},{"op":"replace","path":"/n","value":[null]},"#,
    r#"{"op":"move","from":"/l/1","path":"/m"},{"op":"remove","path":"/l/1"}]"#,
);

const DOC: &str = r#"{"l":[1,2],"n":"t"}"#;

const END: &str = r#"{"l":["t",{"x":[3]}],"m":1,"n":[null]}"#;

/// What its heaviest result weighs.
const RESULT: usize = 2_997;

/// The names that `watch` takes.
pub const CALLS: &[&str] = &[
    "apply",
    "apply_within",
    "copy",
    "fifth_push",
    "from_doc",
    "push",
    "to_doc",
];

/// Watches the call of this name, if there is one.
pub fn watch(alloc: Global, name: &str) -> Option<Option<Seen>> {
    Some(match name {
        "apply" => watch_apply(alloc),
        "apply_within" => watch_apply_within(alloc),
        "copy" => watch_copy(alloc),
        "fifth_push" => watch_fifth_push(alloc),
        "from_doc" => watch_from_doc(alloc),
        "push" => watch_push(alloc),
        "to_doc" => watch_to_doc(alloc),
        _ => return None,
    })
}

/// Whether the patch is the one of `FORM`. It takes no memory.
fn is_move(patch: &JsonPatch) -> bool {
    match patch.ops() {
        [Op::Move { origin, path }] => has_tokens(origin, &["a"]) && has_tokens(path, &["b"]),
        _ => false,
    }
}

/// After a refusal the list is the one from before.
fn watch_push(alloc: Global) -> Option<Seen> {
    let mut patch = JsonPatch::new(alloc);
    let origin = pointer_of(alloc, "/a")?;
    let path = pointer_of(alloc, "/b")?;
    Some(match patch.push(Op::Move { origin, path }) {
        Ok(()) => Seen::answer_if(is_move(&patch)),
        Err(_) => Seen::NoMemory.with(patch.ops().is_empty()),
    })
}

fn four_removals(alloc: Global) -> Option<JsonPatch> {
    let mut patch = JsonPatch::new(alloc);
    for text in ["/a", "/b", "/c", "/d"] {
        patch.push(Op::Remove(pointer_of(alloc, text)?)).ok()?;
    }
    Some(patch)
}

/// The same if the list has operations before.
fn watch_fifth_push(alloc: Global) -> Option<Seen> {
    let mut patch = four_removals(alloc)?;
    let path = pointer_of(alloc, "/e")?;
    Some(match patch.push(Op::Remove(path)) {
        Ok(()) => Seen::answer_if(removes(&patch, &["a", "b", "c", "d", "e"])),
        Err(_) => Seen::NoMemory.with(removes(&patch, &["a", "b", "c", "d"])),
    })
}

/// Whether the patch removes these names, in this order, and does nothing else. It takes no memory.
fn removes(patch: &JsonPatch, names: &[&str]) -> bool {
    if patch.ops().len() != names.len() {
        return false;
    }
    for (op, name) in patch.ops().iter().zip(names) {
        match op {
            Op::Remove(path) if has_tokens(path, &[*name]) => {}
            _ => return false,
        }
    }
    true
}

fn watch_from_doc(alloc: Global) -> Option<Seen> {
    let docs = two_docs_of(alloc, [FORM, FORM])?;
    let [form, before] = &docs;
    let seen = match JsonPatch::from_doc(alloc, form) {
        Ok(patch) => Seen::answer_if(is_move(&patch)),
        Err(FormFault::OutOfMemory) => Seen::NoMemory,
        Err(_) => Seen::Wrong,
    };
    Some(seen.with(form.same(before)))
}

fn watch_to_doc(alloc: Global) -> Option<Seen> {
    let form = doc_of(alloc, LONG_FORM)?;
    let patch = patch_of(alloc, &form)?;
    Some(match patch.to_doc(alloc) {
        Ok(doc) => Seen::answer_if(doc.same(&form)),
        Err(_) => Seen::NoMemory,
    })
}

fn long_patch(alloc: Global) -> Option<JsonPatch> {
    let form = doc_of(alloc, LONG_FORM)?;
    patch_of(alloc, &form)
}

fn watch_copy(alloc: Global) -> Option<Seen> {
    let patch = long_patch(alloc)?;
    let before = long_patch(alloc)?;
    let seen = match patch.copy(alloc) {
        Ok(copied) => Seen::answer_if(copied.same(&before)),
        Err(_) => Seen::NoMemory,
    };
    Some(seen.with(patch.same(&before)))
}

fn of_application(given: Result<Doc, ApplyFault>, wanted: &Doc) -> Seen {
    match given {
        Ok(doc) => Seen::answer_if(doc.same(wanted)),
        Err(ApplyFault::OutOfMemory) => Seen::NoMemory,
        Err(_) => Seen::Wrong,
    }
}

fn of_application_within(given: Result<Doc, ApplyWithinFault>, wanted: &Doc) -> Seen {
    match given {
        Ok(doc) => Seen::answer_if(doc.same(wanted)),
        Err(ApplyWithinFault::OutOfMemory) => Seen::NoMemory,
        Err(_) => Seen::Wrong,
    }
}

/// It calls `apply_owned` with a copy.
fn watch_apply(alloc: Global) -> Option<Seen> {
    let patch = long_patch(alloc)?;
    let docs = three_docs_of(alloc, [DOC, DOC, END])?;
    let [doc, before, end] = &docs;
    let seen = of_application(mp_patch::apply(alloc, doc, &patch), end);
    Some(seen.with(doc.same(before)))
}

fn watch_apply_within(alloc: Global) -> Option<Seen> {
    let patch = long_patch(alloc)?;
    let doc = doc_of(alloc, DOC)?;
    let end = doc_of(alloc, END)?;
    let given = mp_patch::apply_within(alloc, doc, patch.into_ops(), RESULT);
    Some(of_application_within(given, &end))
}
