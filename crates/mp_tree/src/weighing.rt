//! What a node leaves of a budget of bytes: nothing is allocated, and the first part that is too heavy ends it.
ghost use Rattle.std.specs.Prelude.{◌≡◌, ◌<◌, ◌+◌, length, MatchOption};
ghost use Rattle.mp_tree.specs.View.{items_by, members_by};
ghost use Rattle.mp_tree.specs.Document.{IsDocument};
ghost use Rattle.mp_tree.specs.Weight.{name_weight, weight, items_weight, members_weight};

use crate::node::Node;
use std::collections::BTreeMap;

const SCALAR_WEIGHT: usize = 40;

const STRING_WEIGHT: usize = 80;

const ARRAY_WEIGHT: usize = 80;

const OBJECT_WEIGHT: usize = 1_000;

const NAME_WEIGHT: usize = 128;

/// What remains of a budget in bytes once the document that the node means is taken from it; None exactly if that weighs more.
///
/// The weight is about what the document takes in memory, and never less than it takes once it is made: 40 bytes for null, a
/// truth value or a number; 80 and its bytes for a string; 80 and the sum of the elements for an array; 1,000 for an object, and
/// for each name 128, its bytes and the weight of its value.
///
/// It takes no memory, looks at each part once at most, and stops at the first part that is too heavy.
///
/// ```text
/// left_of(&value, 100)  // Some(60) for 5, None for {}
/// ```
#[cycle(weigh)]
pub fn left_of<T: Node>(node: &T, budget: usize) -> Option<usize>
    ensures left { MatchOption result (budget < weight (T.means node.now))
        (λ left. left + weight (T.means node.now) ≡ budget) }
{
    if let Some(text) = node.text() {
        budget.checked_sub(STRING_WEIGHT)?.checked_sub(text.len())
    } else if let Some(elements) = node.items() {
        left_of_items(elements, budget.checked_sub(ARRAY_WEIGHT)?)
    } else if let Some(entries) = node.members() {
        left_of_members(entries, budget.checked_sub(OBJECT_WEIGHT)?)
    } else {
        budget.checked_sub(SCALAR_WEIGHT)
    }
}

#[cycle(weigh)]
fn left_of_items<T: Node>(elements: &Vec<T>, budget: usize) -> Option<usize>
    ensures { MatchOption result (budget < items_weight (items_by T.means elements.now.items))
        (λ left. left + items_weight (items_by T.means elements.now.items) ≡ budget) }
{
    let mut left = budget;
    for element in elements {
        left = left_of(element, left)?;
    }
    Some(left)
}

#[cycle(weigh)]
fn left_of_members<T: Node>(entries: &BTreeMap<String, T>, budget: usize) -> Option<usize>
    ensures { MatchOption result
        (budget < members_weight (members_by T.means entries.now.entries))
        (λ left. left + members_weight (members_by T.means entries.now.entries) ≡ budget) }
{
    let mut left = budget;
    for (name, value) in entries.iter() {
        left = left_of(value, left_of_name(name.as_str(), left)?)?;
    }
    Some(left)
}

/// What remains of a budget in bytes once a name of an object is taken from it, beside its value: 128 and its bytes. None exactly
/// if that is more. Takes no memory.
pub fn left_of_name(name: &str, budget: usize) -> Option<usize>
    ensures left { MatchOption result (budget < name_weight + length name.now)
        (λ left. left + (name_weight + length name.now) ≡ budget) }
{
    budget.checked_sub(NAME_WEIGHT)?.checked_sub(name.len())
}
