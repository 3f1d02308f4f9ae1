// Arrays in blocks that have no spare places. `serde_json` fills an array one by one, in a block that may have four times as many
// places. Each moves to a block of its own size; if there is no memory for that, it stays in the one that it has.
ghost use Rattle.std.specs.Prelude.{◌≡◌, true};
ghost use Rattle.mp_tree.specs.Private.Entries.{value_members};
ghost use Rattle.mp_tree.specs.Values.{value_document, value_items};

use crate::values::{value_items_mut, value_members_mut};
use serde_json::{Map, Value};
use std::alloc::Global;

// The arrays within so many levels; those below stay as they are.
#[cycle(trim)]
#[inline(always)]
pub(crate) fn trim(value: &mut Value, levels: u32, alloc: Global)
    ensures { value_document value.new ≡ value_document value.old }
{
    if levels == 0 {
        return;
    }
    if let Some(elements) = value_items_mut(value) {
        trim_items(elements, levels - 1, alloc);
    } else if let Some(entries) = value_members_mut(value) {
        trim_members(entries, levels - 1, alloc);
    }
}

#[cycle(trim)]
fn trim_items(elements: &mut Vec<Value>, levels: u32, alloc: Global)
    ensures { value_items elements.new.items ≡ value_items elements.old.items }
{
    for element in elements.iter_mut() {
        trim(element, levels, alloc);
    }
    if elements.len() < elements.capacity() {
        move_to_exact(elements, alloc);
    }
}

#[cycle(trim)]
fn trim_members(entries: &mut Map<String, Value>, levels: u32, alloc: Global)
    ensures { value_members entries.new.entries ≡ value_members entries.old.entries }
{
    entries.retain(
        |_name: &String, value: &mut Value| -> bool
            ensures { (result ≡ true) × (value_document value.new ≡ value_document value.old) }
        {
            trim(value, levels, alloc);
            true
        },
    );
}

// A block of its own size is taken, since one that is cut leaves a hole that the next array does not fit in.
fn move_to_exact(elements: &mut Vec<Value>, alloc: Global)
    ensures { elements.new.items ≡ elements.old.items }
{
    let Ok(mut exact) = Vec::with_capacity(alloc, elements.len()) else {
        return;
    };
    if exact.append(elements).is_ok() {
        *elements = exact;
    }
}
