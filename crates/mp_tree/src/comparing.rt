// Equality of documents: nothing is allocated, each part is looked at once at most, and the first difference ends it.
ghost use Rattle.std.specs.Prelude.{◌≡◌, ◌↔◌, IsTrue};
ghost use Rattle.mp_tree.specs.View.{items_by, members_by};

use crate::node_kind::NodeKind;
use crate::walked::Walked;
use std::collections::BTreeMap;

#[cycle(same)]
#[inline(always)]
pub(crate) fn is_same<T: Walked>(node: &T, other: &T) -> bool
    ensures { IsTrue result ↔ (T.means node.now ≡ T.means other.now) }
{
    match node.top() {
        NodeKind::Null => match other.top() {
            NodeKind::Null => true,
            _ => false,
        },
        NodeKind::Flag(flag) => match other.top() {
            NodeKind::Flag(other_flag) => flag == other_flag,
            _ => false,
        },
        NodeKind::Whole(number) => match other.top() {
            NodeKind::Whole(other_number) => number == other_number,
            _ => false,
        },
        NodeKind::Text(text) => match other.top() {
            NodeKind::Text(other_text) => text == other_text,
            _ => false,
        },
        NodeKind::Items(elements) => match other.top() {
            NodeKind::Items(others) => are_same_items(elements, others),
            _ => false,
        },
        NodeKind::Members(entries) => match other.top() {
            NodeKind::Members(others) => are_same_members(entries, others),
            _ => false,
        },
    }
}

#[cycle(same)]
fn are_same_items<T: Walked>(elements: &Vec<T>, others: &Vec<T>) -> bool
    ensures { IsTrue result
        ↔ (items_by T.means elements.now.items ≡ items_by T.means others.now.items) }
{
    if elements.len() != others.len() {
        return false;
    }
    for (element, other) in elements.iter().zip(others) {
        if !is_same(element, other) {
            return false;
        }
    }
    true
}

#[cycle(same)]
fn are_same_members<T: Walked>(entries: &BTreeMap<String, T>, others: &BTreeMap<String, T>) -> bool
    ensures { IsTrue result
        ↔ (members_by T.means entries.now.entries ≡ members_by T.means others.now.entries) }
{
    if entries.len() != others.len() {
        return false;
    }
    for ((name, value), (other_name, other_value)) in entries.iter().zip(others.iter()) {
        if name.as_str() != other_name.as_str() || !is_same(value, other_value) {
            return false;
        }
    }
    true
}
