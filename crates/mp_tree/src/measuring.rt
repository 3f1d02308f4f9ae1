// Whether a document is as shallow as asked: nothing is allocated, and the first part that is too deep ends it.
ghost use Rattle.std.specs.Prelude.{◌≤◌, ◌↔◌, IsTrue};
ghost use Rattle.mp_tree.specs.Document.{depth, items_depth, members_depth};
ghost use Rattle.mp_tree.specs.View.{document, items};
ghost use Rattle.mp_tree.specs.Private.Entries.{members};

use crate::doc::Doc;
use std::collections::BTreeMap;

#[cycle(fits)]
pub(crate) fn is_within(doc: &Doc, limit: u32) -> bool
    ensures { IsTrue result ↔ (depth (document doc.now) ≤ limit) }
{
    match doc {
        Doc::Null | Doc::Flag(_) | Doc::Whole(_) | Doc::Text(_) => true,
        Doc::Items(elements) => limit > 0 && are_items_within(elements, limit - 1),
        Doc::Members(entries) => limit > 0 && are_members_within(entries, limit - 1),
    }
}

#[cycle(fits)]
fn are_items_within(elements: &Vec<Doc>, limit: u32) -> bool
    ensures { IsTrue result ↔ (items_depth (items elements.now.items) ≤ limit) }
{
    for element in elements {
        if !is_within(element, limit) {
            return false;
        }
    }
    true
}

#[cycle(fits)]
fn are_members_within(entries: &BTreeMap<String, Doc>, limit: u32) -> bool
    ensures { IsTrue result ↔ (members_depth (members entries.now.entries) ≤ limit) }
{
    for value in entries.values() {
        if !is_within(value, limit) {
            return false;
        }
    }
    true
}
