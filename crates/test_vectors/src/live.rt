//! Test vectors of mp_replica that the pages show. What else replicas, patches and logs do is run from C, by `tests/library`.
use crate::written::says;
use mp_replica::{LiveFault, Patches, Replica};
use std::alloc::Global;
use std::process::Abort;
use std::test::Fail;

const START: &[u8] = br#"{"k":0,"l":[1]}"#;

const ONE: &[u8] = br#"{"a":{"x":1}}"#;

const TWO: &[u8] = br#"{"a":{"y":null},"l":[1,2]}"#;

const THREE: &[u8] = br#"{"k":null}"#;

/// The call answers this text, or an error that says it.
fn answers<R: Abort + AllocGlobal>(
    rt: &R,
    given: Result<String, LiveFault>,
    wanted: &str,
) -> Result<(), Fail> {
    match given {
        Ok(text) => says(rt, &text, wanted),
        Err(fault) => says(rt, &fault, wanted),
    }
}

/// A replica that has received these.
fn follows(alloc: Global, patches: &[&[u8]]) -> Result<Replica, LiveFault> {
    let mut replica = Replica::from_text(alloc, START)?;
    for patch in patches {
        let _received = replica.receive_text(alloc, patch)?;
    }
    Ok(replica)
}

#[test]
fn replicas_show_the_same(rt: HostRuntime) -> Result<(), Fail> {
    let shown = r#"{"a":{"x":1},"l":[1,2]}"#;
    let here = follows(rt.alloc(), &[ONE, TWO, THREE, ONE])?;
    answers(&rt, here.document_text(rt.alloc(), usize::MAX), shown)?;
    let there = follows(rt.alloc(), &[THREE, TWO, THREE, ONE])?;
    answers(&rt, there.document_text(rt.alloc(), usize::MAX), shown)
}

/// Patches of which these were taken.
fn taken(alloc: Global, texts: &[&[u8]]) -> Result<Patches, LiveFault> {
    let mut patches = Patches::new();
    for text in texts {
        let _added = patches.add_text(alloc, text)?;
    }
    Ok(patches)
}

#[test]
fn a_conflict_is_kept(rt: HostRuntime) -> Result<(), Fail> {
    let patches = taken(rt.alloc(), &[ONE, br#"{"a":5}"#, THREE])?;
    answers(&rt, patches.text(rt.alloc(), usize::MAX), "conflict")?;
    answers(&rt, patches.kept(rt.alloc(), usize::MAX), r#"!["/a"]"#)?;
    Ok(())
}
