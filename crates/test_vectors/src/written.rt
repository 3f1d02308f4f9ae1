//! How what a call gives is compared with what is wanted. Each stands in a function of its own, so that no test drops what
//! it holds if a comparison fails, since a test is proved as any function is.
use mp_pointer::Pointer;
use mp_tree::{Doc, write_doc};
use std::fmt::{Debug, Display};
use std::process::Abort;
use std::test::Fail;

/// The value is the wanted one.
pub fn equal<T: Debug + PartialEq + Drop>(rt: &impl Abort, found: T, wanted: T) {
    assert_eq!(rt; found, wanted);
}

/// What `what` says holds.
pub fn holds(rt: &impl Abort, is_so: bool, what: &str) {
    assert!(rt; is_so, "{what}");
}

/// The document is written as this text.
pub fn is_text<R: Abort + AllocGlobal>(rt: &R, doc: &Doc, wanted: &str) -> Result<(), Fail> {
    let found = write_doc(rt.alloc(), doc)?;
    equal(rt, found.as_str(), wanted);
    Ok(())
}

/// The pointer is spelled so.
pub fn is_spelled<R: Abort + AllocGlobal>(
    rt: &R,
    pointer: &Pointer,
    wanted: &str,
) -> Result<(), Fail> {
    let found = pointer.print(rt.alloc())?;
    equal(rt, found.as_str(), wanted);
    Ok(())
}

/// The value is displayed as this text.
pub fn says<R: Abort + AllocGlobal, D: Display>(
    rt: &R,
    reported: &D,
    wanted: &str,
) -> Result<(), Fail> {
    let found = format!(in rt.alloc(); "{reported}")?;
    equal(rt, found.as_str(), wanted);
    Ok(())
}
