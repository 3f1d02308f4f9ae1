//! The texts of the errors, which no contract says.
use crate::written::says;
use mp_cli::{CommandFault, RunFault};
use mp_merge::{Conflicts, ConvergeFault, JoinFault, ListFault, RewriteFault};
use mp_patch::{ApplyFault, ApplyWithinFault, Cause, FormCause, FormFault};
use mp_pointer::PointerFault;
use mp_replica::{DecideFault, Identity, LiveFault};
use mp_texts::TextsFault;
use mp_tree::{DocsFault, ReadFault};
use std::alloc::Global;
use std::fmt::Display;
use std::process::Abort;
use std::test::Fail;

const READ_FAULTS: &[(ReadFault, &str)] = &[
    (ReadFault::NotJson, "not JSON"),
    (ReadFault::NotWhole, "number not whole"),
    (ReadFault::TooDeep, "too deep"),
    (ReadFault::OutOfMemory, "out of memory"),
];

const DOCS_FAULTS: &[(DocsFault, &str)] = &[
    (DocsFault::NotJson, "not JSON"),
    (DocsFault::NotWhole, "number not whole"),
    (DocsFault::NotAnArray, "not an array"),
    (DocsFault::OutOfMemory, "out of memory"),
];

const POINTER_FAULTS: &[(PointerFault, &str)] = &[
    (PointerFault::NoSlash, "pointer: no slash"),
    (PointerFault::BadTilde(12), "pointer: bad tilde at 12"),
    (PointerFault::OutOfMemory, "out of memory"),
];

const CAUSES: &[(Cause, &str)] = &[
    (Cause::IntoItself, "into itself"),
    (Cause::RemoveRoot, "remove of root"),
    (Cause::Missing, "missing"),
    (Cause::NoPlace, "no place"),
    (Cause::TooDeep, "too deep"),
    (Cause::TestFailed, "test failed"),
];

const FORM_CAUSES: &[(FormCause, &str)] = &[
    (FormCause::NotAnObject, "not an object"),
    (FormCause::NoOp, "no op"),
    (FormCause::UnknownOp, "unknown op"),
    (FormCause::NoPath, "no path"),
    (FormCause::NoFrom, "no from"),
    (FormCause::BadPointer, "bad pointer"),
    (FormCause::NoValue, "no value"),
];

const FORM_FAULTS: &[(FormFault, &str)] = &[
    (FormFault::NotAnArray, "not an array"),
    (
        FormFault::Form {
            op: 7,
            cause: FormCause::NoOp,
        },
        "operation 7: no op",
    ),
    (FormFault::OutOfMemory, "out of memory"),
];

const APPLY_FAULTS: &[(ApplyFault, &str)] = &[
    (
        ApplyFault::Refused {
            op: 7,
            cause: Cause::Missing,
        },
        "operation 7: missing",
    ),
    (ApplyFault::OutOfMemory, "out of memory"),
];

const APPLY_WITHIN_FAULTS: &[(ApplyWithinFault, &str)] = &[
    (
        ApplyWithinFault::Refused {
            op: 7,
            cause: Cause::Missing,
        },
        "operation 7: missing",
    ),
    (
        ApplyWithinFault::TooLarge { op: 7 },
        "operation 7: too large",
    ),
    (ApplyWithinFault::OutOfMemory, "out of memory"),
];

const RUN_FAULTS: &[(RunFault, &str)] = &[
    (RunFault::ReadFailed, "read failed"),
    (RunFault::WriteFailed, "write failed"),
    (RunFault::TooLong, "input: too long"),
    (RunFault::OutOfMemory, "out of memory"),
];

const LIVE_FAULTS: &[(LiveFault, &str)] = &[
    (
        LiveFault::Document(ReadFault::NotWhole),
        "document: number not whole",
    ),
    (
        LiveFault::Pointer(PointerFault::NoSlash),
        "pointer: no slash",
    ),
    (LiveFault::Missing, "missing"),
    (LiveFault::NoPatches, "no patches"),
    (LiveFault::Conflict, "conflict"),
    (LiveFault::Pending, "pending"),
    (LiveFault::TooLarge, "too large"),
    (LiveFault::NotKept, "not kept patches"),
    (LiveFault::OutOfMemory, "out of memory"),
];

const ANN: Identity = Identity {
    sender: 1,
    number: 1,
};

const BOB: Identity = Identity {
    sender: 2,
    number: 1,
};

/// Each error is displayed as the text next to it.
fn say<R: Abort + AllocGlobal, D: Display>(rt: &R, faults: &[(D, &str)]) -> Result<(), Fail> {
    for (fault, text) in faults {
        says(rt, fault, text)?;
    }
    Ok(())
}

#[test]
fn of_reading(rt: HostRuntime) -> Result<(), Fail> {
    say(&rt, READ_FAULTS)?;
    say(&rt, DOCS_FAULTS)
}

#[test]
fn of_what_stays_in_memory(rt: HostRuntime) -> Result<(), Fail> {
    say(&rt, LIVE_FAULTS)?;
    says(&rt, &DecideFault::OutOfMemory, "out of memory")?;
    says(
        &rt,
        &DecideFault::LastEpoch,
        "no number is left for a start",
    )
}

#[test]
fn of_what_was_chosen(rt: HostRuntime) -> Result<(), Fail> {
    let missing = DecideFault::NotReceived(ANN);
    says(
        &rt,
        &missing,
        "Identity { sender: 1, number: 1 } has not arrived",
    )?;
    let clash = DecideFault::Conflict {
        first: ANN,
        second: BOB,
        conflicts: no_conflicts(rt.alloc(), 2),
    };
    let wanted =
        "conflict: Identity { sender: 1, number: 1 } and Identity { sender: 2, number: 1 }";
    says(&rt, &clash, wanted)
}

fn no_conflicts(alloc: Global, total: usize) -> Conflicts {
    Conflicts {
        places: Vec::new(alloc),
        total,
    }
}

#[test]
fn of_pointers(rt: HostRuntime) -> Result<(), Fail> {
    say(&rt, POINTER_FAULTS)
}

#[test]
fn of_json_patches(rt: HostRuntime) -> Result<(), Fail> {
    say(&rt, CAUSES)?;
    say(&rt, FORM_CAUSES)?;
    say(&rt, FORM_FAULTS)?;
    say(&rt, APPLY_FAULTS)?;
    say(&rt, APPLY_WITHIN_FAULTS)
}

#[test]
fn of_merging(rt: HostRuntime) -> Result<(), Fail> {
    says(&rt, &JoinFault::Conflict(Vec::new(rt.alloc())), "conflict")?;
    says(&rt, &JoinFault::OutOfMemory, "out of memory")?;
    let none: ListFault = ListFault::NoPatches;
    says(&rt, &none, "no patches")?;
    let no_memory: ListFault = ListFault::OutOfMemory;
    says(&rt, &no_memory, "out of memory")?;
    let conflict: ListFault = ListFault::ConflictOf {
        first: 1,
        second: 3,
        places: Vec::new(rt.alloc()),
    };
    says(&rt, &conflict, "conflict: patches 1 and 3")
}

#[test]
fn of_merging_within_a_limit(rt: HostRuntime) -> Result<(), Fail> {
    let conflict: ListFault<Conflicts> = ListFault::ConflictOf {
        first: 1,
        second: 3,
        places: no_conflicts(rt.alloc(), 2),
    };
    says(&rt, &conflict, "conflict: patches 1 and 3")?;
    let fault = RewriteFault::TooLarge { fitting: 2 };
    says(&rt, &fault, "too large")?;
    says(&rt, &RewriteFault::OutOfMemory, "out of memory")
}

#[test]
fn of_converging(rt: HostRuntime) -> Result<(), Fail> {
    let none = ConvergeFault::Lists(ListFault::NoPatches);
    says(&rt, &none, "no patches")?;
    let refused = ConvergeFault::Patch {
        op: 1,
        cause: Cause::Missing,
    };
    says(&rt, &refused, "operation 1: missing")?;
    says(&rt, &ConvergeFault::OutOfMemory, "out of memory")
}

#[test]
fn of_running(rt: HostRuntime) -> Result<(), Fail> {
    say(&rt, RUN_FAULTS)
}

#[test]
fn of_the_command_line(rt: HostRuntime) -> Result<(), Fail> {
    let help = CommandFault::Help(String::from_str(rt.alloc(), "how to")?);
    says(&rt, &help, "how to")?;
    let usage = CommandFault::Usage(String::from_str(rt.alloc(), "not so")?);
    says(&rt, &usage, "not so")?;
    says(&rt, &CommandFault::OutOfMemory, "out of memory")
}

fn is_reported<R: Abort + AllocGlobal>(
    rt: &R,
    fault: TextsFault,
    wanted: &str,
) -> Result<(), Fail> {
    says(rt, &fault, wanted)
}

#[test]
fn of_texts(rt: HostRuntime) -> Result<(), Fail> {
    let unread = TextsFault::Document(ReadFault::NotJson);
    is_reported(&rt, unread, "document: not JSON")?;
    let unread = TextsFault::Patch {
        number: 1,
        fault: ReadFault::TooDeep,
    };
    is_reported(&rt, unread, "patch 1: too deep")?;
    let none = TextsFault::List(ListFault::NoPatches);
    is_reported(&rt, none, "no patches")?;
    let no_array = TextsFault::Form(FormFault::NotAnArray);
    is_reported(&rt, no_array, "not an array")?;
    let refused = TextsFault::Refused(ApplyFault::Refused {
        op: 1,
        cause: Cause::TestFailed,
    });
    is_reported(&rt, refused, "operation 1: test failed")?;
    let no_pointer = TextsFault::Pointer(PointerFault::BadTilde(2));
    is_reported(&rt, no_pointer, "pointer: bad tilde at 2")?;
    is_reported(&rt, TextsFault::Missing, "missing")?;
    is_reported(&rt, TextsFault::TooLarge { number: 1 }, "too large")?;
    is_reported(&rt, TextsFault::OutOfMemory, "out of memory")
}
