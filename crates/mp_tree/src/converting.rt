// From `serde_json`'s value to a document, by value, so that texts and names are moved; and from its number to a
// `Whole`.
ghost use Rattle.std.specs.Prelude.{◌≡◌, ◌≢◌, ◌≤◌, ◌-◌, length, None, Some, Err, IfOk, option_map};
ghost use Rattle.serde_json.specs.View.{view, items_view, members_view, number_view};
ghost use Rattle.mp_tree.specs.Document.{depth, items_depth, members_depth};
ghost use Rattle.mp_tree.specs.View.{document, items, number_of};
ghost use Rattle.mp_tree.specs.Private.Entries.{members};
ghost use Rattle.mp_tree.specs.Private.Readings.{StaysShallow};
ghost use Rattle.mp_tree.specs.Text.{from_data, items_from_data, members_from_data, whole_number};
ghost use Rattle.mp_tree.specs.Values.{number_in};

use crate::building::{FEW, map_of};
use crate::doc::Doc;
use crate::whole::Whole;
use serde_json::{Map, Number, Value};
use std::alloc::{AllocError, AllocFailed, Global};
use std::collections::BTreeMap;

// Why bytes or a value are no document.
#[derive(Clone, Copy, Drop, PartialEq, Eq)]
pub(crate) enum Unread {
    NotJson,
    NotWhole,
    OutOfMemory,
}

impl From<AllocError> for Unread {
    ghost use Rattle.mp_tree.specs.declared.converting.Unread.TheVariants.{OutOfMemory};

    ghost from_gives = { λ _ e. e ≡ OutOfMemory };

    fn from(_refused: AllocError) -> Unread {
        Unread::OutOfMemory
    }
}

impl<T: Drop> From<AllocFailed<T>> for Unread {
    ghost use Rattle.mp_tree.specs.declared.converting.Unread.TheVariants.{OutOfMemory};

    ghost from_gives = { λ _ e. e ≡ OutOfMemory };

    fn from(_refused: AllocFailed<T>) -> Unread {
        Unread::OutOfMemory
    }
}

// `is_deep` becomes true if the document has more levels than these.
#[cycle(doc_of)]
#[inline(always)]
pub(crate) fn doc_of(
    value: Value,
    levels: u32,
    is_deep: &mut bool,
    alloc: Global,
) -> Result<Doc, Unread>
    ensures ok { IfOk result (λ d. from_data (view value) ≡ Some (document d)) }
    ensures shallow { IfOk result (λ d.
        StaysShallow is_deep.old is_deep.new (depth (document d)) levels) }
    ensures not_whole { result ≡ Err Unread.NotWhole → from_data (view value) ≡ None }
    ensures is_json { result ≢ Err Unread.NotJson }
{
    match value {
        Value::Null => Ok(Doc::Null),
        Value::Bool(flag) => Ok(Doc::Flag(flag)),
        Value::Number(number) => match whole_of(&number) {
            Some(whole) => Ok(Doc::Whole(whole)),
            None => Err(Unread::NotWhole),
        },
        Value::String(text) => Ok(Doc::Text(text)),
        Value::Array(values) => {
            let below = levels_below(levels, is_deep);
            Ok(Doc::Items(docs_of(values, below, is_deep, alloc)?))
        }
        Value::Object(values) => {
            let below = levels_below(levels, is_deep);
            Ok(Doc::Members(members_of(values, below, is_deep, alloc)?))
        }
    }
}

// The levels that are left below an array or an object. If there is none for itself, it is too deep.
#[inline(always)]
fn levels_below(levels: u32, is_deep: &mut bool) -> u32
    ensures shallow { StaysShallow is_deep.old is_deep.new 1 levels }
    ensures below { result ≡ levels - 1 }
{
    if levels == 0 {
        *is_deep = true;
    }
    levels.saturating_sub(1)
}

pub(crate) fn whole_of(number: &Number) -> Option<Whole>
    ensures { option_map number_of result ≡ whole_number (number_view number.now) }
{
    if let Some(value) = number.as_u64() {
        return Some(Whole::from_u64(value));
    }
    match number.as_i64() {
        Some(value) => Some(Whole::from_i64(value)),
        None => None,
    }
}

// The number that a value means: 0 if it is not whole.
pub(crate) fn whole_or_zero(number: &Number) -> Whole
    ensures { number_of result ≡ number_in number.now }
{
    match whole_of(number) {
        Some(whole) => whole,
        None => Whole::from_u64(0),
    }
}

#[cycle(doc_of)]
fn docs_of(
    values: Vec<Value>,
    levels: u32,
    is_deep: &mut bool,
    alloc: Global,
) -> Result<Vec<Doc>, Unread>
    ensures ok { IfOk result (λ docs. items_from_data (items_view values.items)
        ≡ Some (items docs.items)) }
    ensures shallow { IfOk result (λ docs.
        StaysShallow is_deep.old is_deep.new (items_depth (items docs.items)) levels) }
    ensures not_whole { result ≡ Err Unread.NotWhole
        → items_from_data (items_view values.items) ≡ None }
    ensures is_json { result ≢ Err Unread.NotJson }
{
    let mut docs = Vec::with_capacity(alloc, values.len())?;
    for value in values {
        docs.push(doc_of(value, levels, is_deep, alloc)?)?;
    }
    Ok(docs)
}

#[cycle(doc_of)]
#[inline(always)]
fn members_of(
    values: Map<String, Value>,
    levels: u32,
    is_deep: &mut bool,
    alloc: Global,
) -> Result<BTreeMap<String, Doc>, Unread>
    ensures ok { IfOk result (λ docs. members_from_data (members_view values.entries)
        ≡ Some (members docs.entries)) }
    ensures shallow { IfOk result (λ docs.
        StaysShallow is_deep.old is_deep.new (members_depth (members docs.entries)) levels) }
    ensures not_whole { result ≡ Err Unread.NotWhole
        → members_from_data (members_view values.entries) ≡ None }
    ensures is_json { result ≢ Err Unread.NotJson }
{
    if values.len() <= 1 {
        one_member_of(values, levels, is_deep, alloc)
    } else if values.len() <= FEW {
        few_members_of(values, levels, is_deep, alloc)
    } else {
        many_members_of(values, levels, is_deep, alloc)
    }
}

#[cycle(doc_of)]
fn many_members_of(
    values: Map<String, Value>,
    levels: u32,
    is_deep: &mut bool,
    alloc: Global,
) -> Result<BTreeMap<String, Doc>, Unread>
    ensures ok { IfOk result (λ docs. members_from_data (members_view values.entries)
        ≡ Some (members docs.entries)) }
    ensures shallow { IfOk result (λ docs.
        StaysShallow is_deep.old is_deep.new (members_depth (members docs.entries)) levels) }
    ensures not_whole { result ≡ Err Unread.NotWhole
        → members_from_data (members_view values.entries) ≡ None }
    ensures is_json { result ≢ Err Unread.NotJson }
{
    let mut pairs = Vec::with_capacity(alloc, values.len())?;
    for (name, value) in values {
        pairs.push((name, doc_of(value, levels, is_deep, alloc)?))?;
    }
    Ok(map_of(alloc, pairs)?)
}

// The same with an insertion each, and no list of the pairs.
#[cycle(doc_of)]
fn few_members_of(
    values: Map<String, Value>,
    levels: u32,
    is_deep: &mut bool,
    alloc: Global,
) -> Result<BTreeMap<String, Doc>, Unread>
    ensures ok { IfOk result (λ docs. members_from_data (members_view values.entries)
        ≡ Some (members docs.entries)) }
    ensures shallow { IfOk result (λ docs.
        StaysShallow is_deep.old is_deep.new (members_depth (members docs.entries)) levels) }
    ensures not_whole { result ≡ Err Unread.NotWhole
        → members_from_data (members_view values.entries) ≡ None }
    ensures is_json { result ≢ Err Unread.NotJson }
{
    let mut docs = BTreeMap::new(alloc);
    for (name, value) in values {
        drop(docs.insert(name, doc_of(value, levels, is_deep, alloc)?)?);
    }
    Ok(docs)
}

// The same of one member or none: to take it out costs less than to walk the map.
#[cycle(doc_of)]
fn one_member_of(
    mut values: Map<String, Value>,
    levels: u32,
    is_deep: &mut bool,
    alloc: Global,
) -> Result<BTreeMap<String, Doc>, Unread>
    requires { length values.entries ≤ 1 }
    ensures ok { IfOk result (λ docs. members_from_data (members_view values.entries)
        ≡ Some (members docs.entries)) }
    ensures shallow { IfOk result (λ docs.
        StaysShallow is_deep.old is_deep.new (members_depth (members docs.entries)) levels) }
    ensures not_whole { result ≡ Err Unread.NotWhole
        → members_from_data (members_view values.entries) ≡ None }
    ensures is_json { result ≢ Err Unread.NotJson }
{
    let mut docs = BTreeMap::new(alloc);
    if let Some((name, value)) = values.pop_first() {
        drop(docs.insert(name, doc_of(value, levels, is_deep, alloc)?)?);
    }
    Ok(docs)
}
