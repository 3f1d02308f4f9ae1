//! Test vectors: copies and equality of JSON Patches and of their operations.
use crate::written::{equal, holds};
use mp_patch::{JsonPatch, Op, write_patch};
use mp_tree::read_doc;
use std::alloc::Global;
use std::process::Abort;
use std::test::Fail;

/// A patch with one operation of each kind, as it is written.
const EACH_KIND: &str = concat!(
    r#"[{"op":"add","path":"/a","value":1},{"op":"remove","path":"/b"},"#,
    r#"{"op":"replace","path":"/c","value":{"x":[null]}},{"from":"/d","op":"move","path":"/e"},"#,
    r#"{"from":"/f","op":"copy","path":"/g/-"},{"op":"test","path":"","value":"t"}]"#,
);

/// Two patches, and whether they have the same operations.
const PAIRS: &[(&str, &str, bool)] = &[
    ("[]", "[]", true),
    ("[]", r#"[{"op":"remove","path":"/a"}]"#, false),
    (
        r#"[{"op":"remove","path":"/a"}]"#,
        r#"[{"path":"/a","op":"remove","note":"a further member"}]"#,
        true,
    ),
    (
        r#"[{"op":"remove","path":"/a"}]"#,
        r#"[{"op":"remove","path":"/b"}]"#,
        false,
    ),
    (
        r#"[{"op":"add","path":"/a","value":{"x":1,"y":2}}]"#,
        r#"[{"op":"add","path":"/a","value":{"y":2,"x":1}}]"#,
        true,
    ),
    (
        r#"[{"op":"add","path":"/a","value":1}]"#,
        r#"[{"op":"replace","path":"/a","value":1}]"#,
        false,
    ),
    (
        r#"[{"op":"test","path":"/a","value":1}]"#,
        r#"[{"op":"test","path":"/a","value":"1"}]"#,
        false,
    ),
    (
        r#"[{"op":"move","from":"/a","path":"/b"}]"#,
        r#"[{"op":"move","from":"/b","path":"/a"}]"#,
        false,
    ),
    (
        r#"[{"op":"move","from":"/a","path":"/b"}]"#,
        r#"[{"op":"copy","from":"/a","path":"/b"}]"#,
        false,
    ),
    (
        r#"[{"op":"remove","path":"/a"},{"op":"remove","path":"/b"}]"#,
        r#"[{"op":"remove","path":"/b"},{"op":"remove","path":"/a"}]"#,
        false,
    ),
];

fn patch_of(alloc: Global, form: &str) -> Result<JsonPatch, Fail> {
    let doc = read_doc(alloc, form.as_bytes())?;
    Ok(JsonPatch::from_doc(alloc, &doc)?)
}

fn is_written<R: Abort + AllocGlobal>(rt: &R, patch: &JsonPatch, wanted: &str) -> Result<(), Fail> {
    let found = write_patch(rt.alloc(), patch)?;
    equal(rt, found.as_str(), wanted);
    Ok(())
}

#[test]
fn each_kind_is_copied(rt: HostRuntime) -> Result<(), Fail> {
    let patch = patch_of(rt.alloc(), EACH_KIND)?;
    let copied = patch.copy(rt.alloc())?;
    is_written(&rt, &copied, EACH_KIND)?;
    holds(&rt, copied.same(&patch), "a copy is the same patch");
    Ok(())
}

#[test]
fn patches_are_compared_by_their_operations(rt: HostRuntime) -> Result<(), Fail> {
    for (first, second, are_same) in PAIRS {
        let patch = patch_of(rt.alloc(), first)?;
        let other = patch_of(rt.alloc(), second)?;
        holds(&rt, patch.same(&other) == *are_same, first);
        holds(&rt, other.same(&patch) == *are_same, second);
    }
    Ok(())
}

/// The operation is the one with this number, and no other.
fn is_alone(rt: &impl Abort, op: &Op, number: usize, ops: &[Op]) {
    for (place, other) in ops.iter().enumerate() {
        holds(
            rt,
            op.same(other) == (place == number),
            "an operation is one of them alone",
        );
    }
}

#[test]
fn a_copied_operation_is_that_one_alone(rt: HostRuntime) -> Result<(), Fail> {
    let patch = patch_of(rt.alloc(), EACH_KIND)?;
    for (number, op) in patch.ops().iter().enumerate() {
        let copied = op.copy(rt.alloc())?;
        is_alone(&rt, &copied, number, patch.ops());
    }
    Ok(())
}
