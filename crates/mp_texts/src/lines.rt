//! The line that says why there is no result, without a newline: the program prints it, and a reply of the library for C has it.
ghost use Rattle.std.specs.Prelude.{◌≡◌, ◌++◌, ◌∷◌, IfOk, OnOk, Some, codes, string_bytes};
ghost use Rattle.mp_pointer.specs.Part.{numeral};
ghost use Rattle.mp_texts.specs.Lines.{and_rest, apply_line, at_count, at_places, conflict_text, form_line, list_text, operation_text, pointer_line, pointer_text, placed_line, pointers_text, read_text, texts_line, which_patches};

use crate::fault::TextsFault;
use mp_merge::{Conflicts, ListFault};
use mp_patch::{ApplyFault, FormFault};
use mp_pointer::{Pointer, PointerFault};
use mp_tree::{ReadFault, write_text};
use std::alloc::{AllocError, Global};

/// The line of an error, without the places at which patches conflict or at which a text is no document: `conflict_line` has those,
/// and `push_place` adds this. `AllocError` if memory ran out.
///
/// ```text
/// fault_line(alloc, &TextsFault::Missing)  // missing
/// fault_line(alloc, &fault)                // operation 3: no path
/// ```
pub fn fault_line(alloc: Global, fault: &TextsFault) -> Result<String, AllocError>
    ensures { IfOk result (λ line. string_bytes line ≡ texts_line fault.now) }
{
    match fault {
        TextsFault::Document(why) => unread_line(alloc, *why),
        TextsFault::Patch { number, fault } => {
            numbered_line(alloc, "patch ", *number, words_of(*fault))
        }
        TextsFault::List(why) => list_line(alloc, why),
        TextsFault::Form(why) => line_of_form(alloc, why),
        TextsFault::Refused(why) => line_of_apply(alloc, why),
        TextsFault::Pointer(why) => line_of_pointer(alloc, why),
        TextsFault::Missing => String::from_str(alloc, MISSING),
        TextsFault::TooLarge { number: _ } => String::from_str(alloc, TOO_LARGE),
        TextsFault::OutOfMemory => String::from_str(alloc, OUT_OF_MEMORY),
    }
}

const OUT_OF_MEMORY: &str = "out of memory";

const MISSING: &str = "missing";

const TOO_LARGE: &str = "too large";

fn unread_line(alloc: Global, why: ReadFault) -> Result<String, AllocError>
    ensures { IfOk result (λ line. string_bytes line ≡ codes "document: " ++ read_text why) }
{
    let mut line = String::from_str(alloc, "document: ")?;
    line.push_str(words_of(why))?;
    Ok(line)
}

// Why a text is no document, in words.
fn words_of(why: ReadFault) -> &'static str
    ensures { result.now ≡ read_text why }
{
    match why {
        ReadFault::NotJson => "not JSON",
        ReadFault::NotWhole => "number not whole",
        ReadFault::TooDeep => "too deep",
        ReadFault::OutOfMemory => OUT_OF_MEMORY,
    }
}

fn list_line(alloc: Global, why: &ListFault<Conflicts>) -> Result<String, AllocError>
    ensures { IfOk result (λ line. string_bytes line ≡ list_text why.now) }
{
    match why {
        ListFault::NoPatches => String::from_str(alloc, "no patches"),
        ListFault::ConflictOf {
            first,
            second,
            places: _,
        } => which_line(alloc, Some((*first, *second))),
        ListFault::OutOfMemory => String::from_str(alloc, OUT_OF_MEMORY),
    }
}

fn line_of_form(alloc: Global, why: &FormFault) -> Result<String, AllocError>
    ensures { IfOk result (λ line. string_bytes line ≡ form_line why.now) }
{
    match why {
        FormFault::NotAnArray => String::from_str(alloc, "not an array"),
        FormFault::Form { op, cause } => numbered_line(alloc, "operation ", *op, cause.as_str()),
        FormFault::OutOfMemory => String::from_str(alloc, OUT_OF_MEMORY),
    }
}

fn line_of_apply(alloc: Global, why: &ApplyFault) -> Result<String, AllocError>
    ensures { IfOk result (λ line. string_bytes line ≡ apply_line why.now) }
{
    match why {
        ApplyFault::Refused { op, cause } => numbered_line(
            alloc,
            "operation ",
            *op,
            cause.as_str(),
        ),
        ApplyFault::OutOfMemory => String::from_str(alloc, OUT_OF_MEMORY),
    }
}

fn line_of_pointer(alloc: Global, why: &PointerFault) -> Result<String, AllocError>
    ensures { IfOk result (λ line. string_bytes line ≡ pointer_line why.now) }
{
    match why {
        PointerFault::NoSlash => String::from_str(alloc, "pointer: no slash"),
        PointerFault::BadTilde(offset) => with_number(alloc, "pointer: bad tilde at ", *offset),
        PointerFault::OutOfMemory => String::from_str(alloc, OUT_OF_MEMORY),
    }
}

// What has a number, and what is said of it.
fn numbered_line(
    alloc: Global,
    before: &str,
    number: usize,
    words: &str,
) -> Result<String, AllocError>
    ensures { IfOk result (λ line. string_bytes line
        ≡ before.now ++ numeral number ++ codes ": " ++ words.now) }
{
    let mut line = with_number(alloc, before, number)?;
    line.push_str(": ")?;
    line.push_str(words)?;
    Ok(line)
}

// The text before a number, and the number in plain decimals.
fn with_number(alloc: Global, before: &str, number: usize) -> Result<String, AllocError>
    ensures { IfOk result (λ text. string_bytes text ≡ before.now ++ numeral number) }
{
    format!(in alloc; "{before}{number}")
}

/// Adds to the line of a text that is no document the place of the value for which it is none. `AllocError` if memory ran out; then the
/// line may have a part of it.
///
/// ```text
/// push_place(alloc, &mut line, &place)  // document: number not whole at "/price"
/// ```
pub fn push_place(alloc: Global, line: &mut String, place: &Pointer) -> Result<(), AllocError>
    ensures { OnOk result (string_bytes line.new
        ≡ placed_line (string_bytes line.old) (Some place.now)) }
{
    line.push_str(" at ")?;
    push_pointer(line, place, alloc)
}

/// The line of a conflict: the two patches, by their numbers if they have any; the places that come first; and how many more there
/// are, where `None` says that there are more. `AllocError` if memory ran out.
///
/// ```text
/// conflict_line(alloc, Some((0, 2)), &places, Some(0))  // conflict: patches 0 and 2 at "/a", "/b"
/// conflict_line(alloc, None, &places, Some(7))          // conflict: two patches at "/a", "/b" and 7 more
/// conflict_line(alloc, None, &[], Some(9))              // conflict: two patches at 9 places
/// ```
pub fn conflict_line(
    alloc: Global,
    numbers: Option<(usize, usize)>,
    places: &[Pointer],
    rest: Option<usize>,
) -> Result<String, AllocError>
    ensures { IfOk result (λ line. string_bytes line ≡ conflict_text numbers places.now rest) }
{
    let mut line = which_line(alloc, numbers)?;
    match places.split_first() {
        Some((first, others)) => {
            push_pointers(&mut line, first, others, alloc)?;
            push_rest(&mut line, rest, alloc)?;
        }
        None => push_count(&mut line, rest, alloc)?,
    }
    Ok(line)
}

fn which_line(alloc: Global, numbers: Option<(usize, usize)>) -> Result<String, AllocError>
    ensures { IfOk result (λ line. string_bytes line
        ≡ codes "conflict: " ++ which_patches numbers) }
{
    match numbers {
        Some((first, second)) => {
            let mut line = with_number(alloc, "conflict: patches ", first)?;
            line.push_str(with_number(alloc, " and ", second)?.as_str())?;
            Ok(line)
        }
        None => String::from_str(alloc, "conflict: two patches"),
    }
}

// With a comma and one space between two.
fn push_pointers(
    line: &mut String,
    first: &Pointer,
    others: &[Pointer],
    alloc: Global,
) -> Result<(), AllocError>
    ensures { OnOk result (string_bytes line.new ≡ string_bytes line.old
        ++ codes " at " ++ pointers_text (first.now ∷ others.now)) }
{
    line.push_str(" at ")?;
    push_pointer(line, first, alloc)?;
    for place in others {
        line.push_str(", ")?;
        push_pointer(line, place, alloc)?;
    }
    Ok(())
}

fn push_pointer(line: &mut String, place: &Pointer, alloc: Global) -> Result<(), AllocError>
    ensures { OnOk result (string_bytes line.new
        ≡ string_bytes line.old ++ pointer_text place.now) }
{
    line.push_str(write_text(alloc, place.print(alloc)?.as_str())?.as_str())
}

fn push_rest(line: &mut String, rest: Option<usize>, alloc: Global) -> Result<(), AllocError>
    ensures { OnOk result (string_bytes line.new ≡ string_bytes line.old ++ and_rest rest) }
{
    match rest {
        None => line.push_str(" and more"),
        Some(0) => Ok(()),
        Some(rest) => {
            line.push_str(with_number(alloc, " and ", rest)?.as_str())?;
            line.push_str(" more")
        }
    }
}

fn push_count(line: &mut String, count: Option<usize>, alloc: Global) -> Result<(), AllocError>
    ensures { OnOk result (string_bytes line.new ≡ string_bytes line.old ++ at_count count) }
{
    match count {
        None => Ok(()),
        Some(1) => line.push_str(" at 1 place"),
        Some(count) => {
            line.push_str(with_number(alloc, " at ", count)?.as_str())?;
            line.push_str(" places")
        }
    }
}
