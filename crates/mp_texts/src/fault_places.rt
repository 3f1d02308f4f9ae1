//! Where a text has the value for which it is no document.
ghost use Rattle.std.specs.Prelude.{◌≡◌, ◌∷◌, ◌↔◌, IfOk, IfSome, IsTrue, MatchOption, string_bytes};
ghost use Rattle.mp_pointer.specs.Part.{numeral};
ghost use Rattle.serde_json.specs.View.{items_view, members_view, view};
ghost use Rattle.mp_texts.specs.FaultPlaces.{AreSoundItems, AreSoundMembers, HasNoFaultPlace, IsFaultPlace, IsFirstWrong, IsFirstItem, IsFirstMember, IsSound, IsWrong};

use mp_pointer::Pointer;
use mp_tree::{DEPTH_LIMIT, ReadFault, is_whole, read_any};
use serde_json::{Map, Value};
use std::alloc::{AllocError, Global};

/// The place of the value for which a text is no document: of the first number that is not whole for `NotWhole`, and of the
/// first array or object that is too deep for `TooDeep`. None if there is none, as there is none for any other error.
///
/// First means: an element before those of higher indices, and a member before those whose names have higher UTF-8 bytes.
/// For these two the text is read once more, so a caller asks for it only if it reports the error. `AllocError` if memory ran out.
///
/// ```text
/// fault_place(alloc, b"{\"a\":[1,2.5]}", ReadFault::NotWhole)  // /a/1
/// ```
pub fn fault_place(
    alloc: Global,
    text: &[u8],
    fault: ReadFault,
) -> Result<Option<Pointer>, AllocError>
    ensures place { IfOk result (λ found. MatchOption found (HasNoFaultPlace fault text.now)
        (IsFaultPlace fault text.now)) }
{
    match fault {
        ReadFault::NotWhole | ReadFault::TooDeep => match read_any(alloc, text) {
            Ok(value) => first_wrong(&value, fault, DEPTH_LIMIT, alloc),
            Err(ReadFault::OutOfMemory) => Err(AllocError),
            Err(_) => Ok(None),
        },
        ReadFault::NotJson | ReadFault::OutOfMemory => Ok(None),
    }
}

#[cycle(first_wrong)]
fn first_wrong(
    value: &Value,
    fault: ReadFault,
    levels: u32,
    alloc: Global,
) -> Result<Option<Pointer>, AllocError>
    ensures { IfOk result (λ found. MatchOption found (IsSound fault levels (view value.now))
        (IsFirstWrong fault levels (view value.now))) }
{
    if is_wrong(value, fault, levels) {
        return Ok(Some(Pointer::empty(alloc)));
    }
    match value {
        Value::Array(values) => first_item(values, fault, levels.saturating_sub(1), alloc),
        Value::Object(values) => first_member(values, fault, levels.saturating_sub(1), alloc),
        _ => Ok(None),
    }
}

#[cycle(first_wrong)]
fn first_item(
    values: &Vec<Value>,
    fault: ReadFault,
    levels: u32,
    alloc: Global,
) -> Result<Option<Pointer>, AllocError>
    ensures { IfOk result (λ found.
        MatchOption found (AreSoundItems fault levels (items_view values.now.items))
        (IsFirstItem fault levels 0 (items_view values.now.items))) }
{
    for (index, value) in values.iter().enumerate() {
        if let Some(place) = first_wrong(value, fault, levels, alloc)? {
            let token = token_of(alloc, index)?;
            return Ok(Some(place.under(alloc, token.as_str())?));
        }
    }
    Ok(None)
}

#[cycle(first_wrong)]
fn first_member(
    values: &Map<String, Value>,
    fault: ReadFault,
    levels: u32,
    alloc: Global,
) -> Result<Option<Pointer>, AllocError>
    ensures { IfOk result (λ found.
        MatchOption found (AreSoundMembers fault levels (members_view values.now.entries))
        (IsFirstMember fault levels (members_view values.now.entries))) }
{
    for (name, value) in values.iter() {
        if let Some(place) = first_wrong(value, fault, levels, alloc)? {
            return Ok(Some(place.under(alloc, name.as_str())?));
        }
    }
    Ok(None)
}

// The token that names the element of that index.
fn token_of(alloc: Global, index: usize) -> Result<String, AllocError>
    ensures { IfOk result (λ token. string_bytes token ≡ numeral index) }
{
    format!(in alloc; "{index}")
}

// Whether the value itself is wrong, whatever is in it.
fn is_wrong(value: &Value, fault: ReadFault, levels: u32) -> bool
    ensures { IsTrue result ↔ IsWrong fault levels (view value.now) }
{
    match fault {
        ReadFault::NotWhole => match value {
            Value::Number(number) => !is_whole(number),
            _ => false,
        },
        ReadFault::TooDeep => match value {
            Value::Array(_) | Value::Object(_) => levels == 0,
            _ => false,
        },
        ReadFault::NotJson | ReadFault::OutOfMemory => false,
    }
}
