//! Test vectors of errors that a text does not have: they have no place. Those that it has are run from C, by `tests/library`.
use crate::written::holds;
use mp_texts::fault_place;
use mp_tree::ReadFault;
use std::test::Fail;

const OTHERS: &[(&str, ReadFault)] = &[
    ("[1]", ReadFault::NotWhole),
    ("[1]", ReadFault::TooDeep),
    ("[1.5]", ReadFault::TooDeep),
    ("[1.5]", ReadFault::NotJson),
    ("[1.5]", ReadFault::OutOfMemory),
    ("1,2", ReadFault::NotWhole),
];

#[test]
fn an_error_that_is_not_there_has_no_place(rt: HostRuntime) -> Result<(), Fail> {
    for (text, fault) in OTHERS {
        let place = fault_place(rt.alloc(), text.as_bytes(), *fault)?;
        holds(&rt, place.is_none(), text);
    }
    Ok(())
}
