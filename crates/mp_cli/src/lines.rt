//! The lines of the program, each with its status. Those of errors that a call over texts has too are `mp_texts`' own.
ghost use Rattle.std.specs.Prelude.{◌≡◌, option_map, string_bytes};
ghost use Rattle.mp_tree.specs.Values.{value_document};
ghost use Rattle.mp_texts.specs.Lines.{texts_line};
ghost use Rattle.mp_cli.specs.Lines as lines;
ghost use Rattle.mp_cli.specs.Lines.{line_of, status_of, exit_result};
ghost use Rattle.mp_cli.specs.Private.Answers as answers;
ghost use Rattle.mp_cli.specs.Private.Answers.{Gives, GivesLine};

use crate::answers::Answer;
use crate::running::RunFault;
use mp_merge::{Conflicts, ListFault};
use mp_patch::{ApplyFault, FormFault};
use mp_pointer::PointerFault;
use mp_texts::{TextsFault, conflict_line};
use mp_tree::{DocsFault, write_value};
use serde_json::Value;
use std::alloc::{AllocError, Global};

/// The status if the command gives a result.
const RESULT: u8 = 0;

/// The status if the command has no result.
const NO_RESULT: u8 = 1;

/// The status if the input or an argument is wrong.
const REFUSED: u8 = 2;

/// The status if memory or a stream fails.
const FAILED: u8 = 3;

pub(crate) fn input_fault(alloc: Global, fault: DocsFault) -> Result<Answer, AllocError>
    ensures { GivesLine result (lines.input_fault fault) }
{
    match fault {
        DocsFault::NotJson => line(alloc, "input: not JSON", REFUSED),
        DocsFault::NotWhole => line(alloc, "input: number not whole", REFUSED),
        DocsFault::NotAnArray => wrong_shape(alloc),
        DocsFault::OutOfMemory => Err(AllocError),
    }
}

pub(crate) fn wrong_shape(alloc: Global) -> Result<Answer, AllocError>
    ensures { Gives result lines.wrong_shape }
{
    line(alloc, "input: wrong shape", REFUSED)
}

fn line(alloc: Global, text: &str, status: u8) -> Result<Answer, AllocError>
    ensures { Gives result (lines.line text.now status) }
{
    ended(String::from_str(alloc, text)?, status)
}

// The text is not copied: it may be as long as memory allows.
fn ended(mut text: String, status: u8) -> Result<Answer, AllocError>
    ensures { Gives result (lines.line (string_bytes text) status) }
{
    text.push_str("\n")?;
    Ok(Answer { text, status })
}

// The line of an error that a call over texts has too, with its status.
fn refused(alloc: Global, fault: TextsFault, status: u8) -> Result<Answer, AllocError>
    ensures { Gives result (lines.line (texts_line fault) status) }
{
    ended(mp_texts::fault_line(alloc, &fault)?, status)
}

pub(crate) fn spelling_fault(alloc: Global, fault: PointerFault) -> Result<Answer, AllocError>
    ensures { GivesLine result (lines.spelling_fault fault) }
{
    match fault {
        PointerFault::OutOfMemory => Err(AllocError),
        fault => refused(alloc, TextsFault::Pointer(fault), REFUSED),
    }
}

pub(crate) fn part_line(alloc: Global, found: Option<&Value>) -> Result<Answer, AllocError>
    ensures { Gives result
        (lines.part_line (option_map (λ v. value_document v.now) found.entry)) }
{
    match found {
        Some(value) => result_line(write_value(alloc, value)?),
        None => refused(alloc, TextsFault::Missing, NO_RESULT),
    }
}

pub(crate) fn form_fault(alloc: Global, fault: FormFault) -> Result<Answer, AllocError>
    ensures { GivesLine result (lines.form_fault fault) }
{
    match fault {
        FormFault::NotAnArray => wrong_shape(alloc),
        FormFault::OutOfMemory => Err(AllocError),
        fault => refused(alloc, TextsFault::Form(fault), REFUSED),
    }
}

pub(crate) fn apply_fault(alloc: Global, fault: ApplyFault) -> Result<Answer, AllocError>
    ensures { GivesLine result (lines.apply_fault fault) }
{
    match fault {
        ApplyFault::OutOfMemory => Err(AllocError),
        fault => refused(alloc, TextsFault::Refused(fault), NO_RESULT),
    }
}

pub(crate) fn list_fault(alloc: Global, fault: ListFault<Conflicts>) -> Result<Answer, AllocError>
    ensures { GivesLine result (answers.list_fault fault) }
{
    match fault {
        ListFault::ConflictOf {
            first,
            second,
            places: Conflicts { places, total: _ },
        } => {
            let numbers = Some((first, second));
            let line = conflict_line(alloc, numbers, places.as_slice(), Some(0))?;
            ended(line, NO_RESULT)
        }
        ListFault::NoPatches => {
            refused(alloc, TextsFault::List(ListFault::NoPatches), NO_RESULT)
        }
        ListFault::OutOfMemory => Err(AllocError),
    }
}

pub(crate) fn result_line(text: String) -> Result<Answer, AllocError>
    ensures { Gives result (lines.line (string_bytes text) exit_result) }
{
    ended(text, RESULT)
}

/// The line for an error of `run`, without its newline, and the status that the program ends with.
///
/// For `RunFault::ReadFailed` it is the line `read failed` with the status 3.
pub fn fault_line(fault: &RunFault) -> (&'static str, u8)
    ensures line { result.0.now ≡ line_of fault.now }
    ensures status { result.1 ≡ status_of fault.now }
{
    match fault {
        RunFault::ReadFailed => ("read failed", FAILED),
        RunFault::WriteFailed => ("write failed", FAILED),
        RunFault::TooLong => ("input: too long", REFUSED),
        RunFault::OutOfMemory => ("out of memory", FAILED),
    }
}
