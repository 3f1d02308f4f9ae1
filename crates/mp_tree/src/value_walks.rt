// Whether a value's numbers are whole and it is as shallow as asked: nothing is allocated, and a number that is not whole ends it.
ghost use Rattle.std.specs.Prelude.{◌≡◌, None, Some, MatchBool};
ghost use Rattle.serde_json.specs.View.{view, items_view, members_view, number_view};
ghost use Rattle.mp_tree.specs.Document.{depth, items_depth, members_depth};
ghost use Rattle.mp_tree.specs.Private.Entries.{value_members};
ghost use Rattle.mp_tree.specs.Private.Readings.{IsReading, reading_around};
ghost use Rattle.mp_tree.specs.Text.{from_data, items_from_data, members_from_data, whole_number};
ghost use Rattle.mp_tree.specs.Values.{number_in, value_document, value_items};

use crate::converting::whole_of;
use serde_json::{Map, Number, Value};

// Whether a value is read as a document, and as one that is as shallow as asked.
#[derive(Clone, Copy, Drop, PartialEq, Eq)]
pub(crate) enum Reading {
    Fits,
    TooDeep,
    NotWhole,
}

// A number that is not whole ends the walk; a part that is too deep does not, since such a number may follow. `left` becomes the
// levels that are left below the deepest array with more places than elements, if that is less.
#[cycle(reading)]
#[inline(always)]
pub(crate) fn reading_of(value: &Value, limit: u32, left: &mut u32) -> Reading
    ensures { IsReading result (from_data (view value.now)) (value_document value.now)
        (depth (value_document value.now)) limit }
{
    match value {
        Value::Null | Value::Bool(_) | Value::String(_) => Reading::Fits,
        Value::Number(number) => if is_whole_number(number) {
            Reading::Fits
        } else {
            Reading::NotWhole
        },
        Value::Array(values) => {
            around(items_reading(values, limit.saturating_sub(1), left), limit)
        }
        Value::Object(values) => {
            around(
                members_reading(values, limit.saturating_sub(1), left),
                limit,
            )
        }
    }
}

fn is_whole_number(number: &Number) -> bool
    ensures { MatchBool result
        (whole_number (number_view number.now) ≡ Some (number_in number.now))
        (whole_number (number_view number.now) ≡ None) }
{
    whole_of(number).is_some()
}

// What an array or an object is, given what its parts are within one level less. If no level is left it is too deep, unless a number
// in it is not whole.
fn around(parts: Reading, limit: u32) -> Reading
    ensures { result ≡ reading_around parts limit }
{
    match parts {
        Reading::Fits => if limit == 0 {
            Reading::TooDeep
        } else {
            Reading::Fits
        },
        Reading::TooDeep => Reading::TooDeep,
        Reading::NotWhole => Reading::NotWhole,
    }
}

#[cycle(reading)]
fn items_reading(values: &Vec<Value>, limit: u32, left: &mut u32) -> Reading
    ensures { IsReading result (items_from_data (items_view values.now.items))
        (value_items values.now.items) (items_depth (value_items values.now.items)) limit }
{
    let mut reading = Reading::Fits;
    if limit < *left && values.len() < values.capacity() {
        *left = limit;
    }
    for value in values {
        match reading_of(value, limit, left) {
            Reading::Fits => (),
            Reading::TooDeep => reading = Reading::TooDeep,
            Reading::NotWhole => return Reading::NotWhole,
        }
    }
    reading
}

#[cycle(reading)]
fn members_reading(values: &Map<String, Value>, limit: u32, left: &mut u32) -> Reading
    ensures { IsReading result (members_from_data (members_view values.now.entries))
        (value_members values.now.entries)
        (members_depth (value_members values.now.entries)) limit }
{
    let mut reading = Reading::Fits;
    for value in values.values() {
        match reading_of(value, limit, left) {
            Reading::Fits => (),
            Reading::TooDeep => reading = Reading::TooDeep,
            Reading::NotWhole => return Reading::NotWhole,
        }
    }
    reading
}
