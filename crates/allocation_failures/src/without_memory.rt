//! The calls that take no memory.
use crate::preparing::{
    doc_of, docs_of, patch_of, pointer_of, three_docs_of, two_docs_of, two_pointers_of, value_of,
    values_of,
};
use crate::seen::{Seen, has_tokens};
use mp_patch::JsonPatch;
use mp_pointer::Pointer;
use mp_tree::{Doc, Whole, same_value};
use serde_json::Value;
use std::alloc::Global;
use std::mem;

/// Two patches that are compatible, and one that conflicts with the first.
const PATCHES: &str = r#"[{"a":{"x":1}},{"a":{"y":null}},{"a":{"x":2}}]"#;

/// The names that `watch` takes.
pub const CALLS: &[&str] = &[
    "compatible",
    "edit_part",
    "edit_part_in",
    "get_mut",
    "same_patch",
    "tokens",
];

/// Watches the call of this name, if there is one.
pub fn watch(alloc: Global, name: &str) -> Option<Option<Seen>> {
    Some(match name {
        "compatible" => watch_compatible(alloc),
        "edit_part" => watch_edit_part(alloc),
        "edit_part_in" => watch_edit_part_in(alloc),
        "get_mut" => watch_get_mut(alloc),
        "same_patch" => watch_same_patch(alloc),
        "tokens" => watch_tokens(alloc),
        _ => return None,
    })
}

/// `len`, `token`, `is_proper_prefix_of` and `==`.
fn watch_tokens(alloc: Global) -> Option<Seen> {
    let short = pointer_of(alloc, "/a")?;
    let pointers = two_pointers_of(alloc, ["/a/b", "/ab"])?;
    let [long, beside] = &pointers;
    let tokens = has_tokens(long, &["a", "b"]) && long.token(2).is_none();
    Some(Seen::answer_if(
        tokens && is_prefix_of_one(&short, long, beside) && equals_itself(&short, long, beside),
    ))
}

fn is_prefix_of_one(short: &Pointer, long: &Pointer, beside: &Pointer) -> bool {
    let others = short.is_proper_prefix_of(short) || short.is_proper_prefix_of(beside);
    short.is_proper_prefix_of(long) && !others
}

fn equals_itself(pointer: &Pointer, other: &Pointer, another: &Pointer) -> bool {
    pointer == pointer && pointer != other && pointer != another
}

fn watch_get_mut(alloc: Global) -> Option<Seen> {
    let mut doc = doc_of(alloc, r#"{"a":[1,2]}"#)?;
    let wanted = doc_of(alloc, r#"{"a":[1,9]}"#)?;
    let pointers = two_pointers_of(alloc, ["/a/1", "/a/2"])?;
    let [within, past] = &pointers;
    let holds = set_to_nine(&mut doc, within) && !set_to_nine(&mut doc, past);
    Some(Seen::answer_if(holds && doc.same(&wanted)))
}

/// Puts 9 where the pointer leads, and returns whether it leads anywhere.
fn set_to_nine(doc: &mut Doc, pointer: &Pointer) -> bool {
    match mp_pointer::get_mut(doc, pointer) {
        Some(part) => {
            *part = Doc::Whole(Whole::from_u64(9));
            true
        }
        None => false,
    }
}

fn watch_edit_part_in(alloc: Global) -> Option<Seen> {
    let mut value = value_of(alloc, r#"{"a":[1,2]}"#)?;
    let pointer = pointer_of(alloc, "/a/1")?;
    let wanted = values_of(alloc, r#"[{"a":[1,null]},2]"#)?;
    let [left, taken] = wanted.as_slice() else {
        return None;
    };
    let part = mp_pointer::edit_part_in(&mut value, &pointer, pointer.len(), |part| {
        mem::replace(part, Value::Null)
    });
    Some(match part {
        Some(part) => Seen::answer_if(same_value(&part, taken) && same_value(&value, left)),
        None => Seen::Wrong,
    })
}

fn watch_edit_part(alloc: Global) -> Option<Seen> {
    let mut doc = doc_of(alloc, r#"{"a":[1,2]}"#)?;
    let pointer = pointer_of(alloc, "/a/1")?;
    let wanted = two_docs_of(alloc, [r#"{"a":[1,null]}"#, "2"])?;
    let [left, taken] = &wanted;
    let part = mp_pointer::edit_part(&mut doc, &pointer, pointer.len(), |part| {
        mem::replace(part, Doc::Null)
    });
    Some(match part {
        Some(part) => Seen::answer_if(part.same(taken) && doc.same(left)),
        None => Seen::Wrong,
    })
}

/// A patch, one that is equal, and one in which a value is another.
fn three_patches_of(alloc: Global) -> Option<[JsonPatch; 3]> {
    let forms = three_docs_of(
        alloc,
        [
            r#"[{"op":"move","path":"/b","from":"/a"},{"op":"test","path":"","value":["t"]}]"#,
            r#"[{"from":"/a","op":"move","path":"/b"},{"value":["t"],"op":"test","path":""}]"#,
            r#"[{"op":"move","path":"/b","from":"/a"},{"op":"test","path":"","value":["u"]}]"#,
        ],
    )?;
    let [form, equal, other] = &forms;
    let first = patch_of(alloc, form)?;
    let second = patch_of(alloc, equal)?;
    let third = patch_of(alloc, other)?;
    Some([first, second, third])
}

fn watch_same_patch(alloc: Global) -> Option<Seen> {
    let patches = three_patches_of(alloc)?;
    let [patch, equal, other] = &patches;
    Some(Seen::answer_if(patch.same(equal) && !patch.same(other)))
}

fn watch_compatible(alloc: Global) -> Option<Seen> {
    let patches = docs_of(alloc, PATCHES)?;
    let [p, q, other] = patches.as_slice() else {
        return None;
    };
    let joinable = mp_merge::compatible(p, q) && mp_merge::compatible(p, p);
    Some(Seen::answer_if(joinable && !mp_merge::compatible(p, other)))
}
