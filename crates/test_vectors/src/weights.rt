//! Test vectors of weights: what an operation leaves of a budget. What documents and places weigh is asked from C, by
//! `tests/library`.
use crate::written::{equal, holds};
use mp_patch::JsonPatch;
use mp_tree::read_doc;
use std::test::Fail;

/// JSON Patches of one operation, and what it weighs.
const OPERATIONS: &[(&str, usize)] = &[
    (r#"[{"op":"add","path":"/a","value":1}]"#, 178),
    (r#"[{"op":"remove","path":"/a"}]"#, 138),
    (r#"[{"op":"replace","path":"/a","value":"x"}]"#, 219),
    (r#"[{"op":"move","from":"/a","path":"/b/c"}]"#, 286),
    (r#"[{"op":"copy","from":"/b~1c","path":""}]"#, 269),
    (r#"[{"op":"test","path":"","value":{}}]"#, 1_128),
];

#[test]
fn operations_weigh(rt: HostRuntime) -> Result<(), Fail> {
    for (form, weight) in OPERATIONS {
        let form = read_doc(rt.alloc(), form.as_bytes())?;
        let patch = JsonPatch::from_doc(rt.alloc(), &form)?;
        holds(&rt, patch.ops().len() == 1, "there is one operation");
        for op in patch.ops() {
            equal(&rt, op.left_of(*weight), Some(0));
            equal(&rt, op.left_of(weight.saturating_sub(1)), None);
            equal(&rt, op.left_of(usize::MAX), usize::MAX.checked_sub(*weight));
        }
    }
    Ok(())
}
