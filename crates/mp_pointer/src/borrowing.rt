// The child that one token names, borrowed for writing.
ghost use Rattle.std.specs.Prelude.{◌≡◌, ◌↔◌, ◌<◌, length, option_map, IsTrue};
ghost use Rattle.std.specs.Borrow.{sem, Lends};
ghost use Rattle.mp_tree.specs.Rows.{doc_row, items_row, members_row};
ghost use Rattle.mp_tree.specs.View.{document};
ghost use Rattle.mp_tree.specs.declared.doc.Doc.TheVariants.{Items, Members};
ghost use Rattle.mp_pointer.specs.Borrowing.{BorrowsPart, BorrowsPartOf};
ghost use Rattle.mp_pointer.specs.Private.Child.{IsList, one_token};
ghost use Rattle.mp_pointer.specs.Part.{part};

use crate::evaluating::index_of;
use crate::pointer::Pointer;
use mp_tree::{Doc, items_mut, members_mut};
use std::collections::BTreeMap;

// What the document is has to be asked first: a `&mut` that one path returns is borrowed on each.
// proofs/lending/child_mut/Proof.antt follows this body statement by statement.
pub(crate) fn child_mut<'a>(
    doc: &'a mut Doc,
    pointer: &Pointer,
    number: usize,
) -> Option<&'a mut Doc>
    requires { number < length pointer.now }
    ensures* writes_back { sem 𝓛 (BorrowsPart (one_token pointer.now number) doc.entry result) }
    ensures value { option_map (λ d. document d.now) result
        ≡ part (document doc.old) (one_token pointer.now number) }
{
    if is_list(doc) {
        return element_mut(elements_of(doc), pointer, number);
    }
    match members_mut(doc) {
        Some(entries) => value_mut(entries, pointer, number),
        None => None,
    }
}

fn is_list(doc: &Doc) -> bool
    ensures { IsTrue result ↔ IsList (document doc.now) }
{
    match doc {
        Doc::Items(_) => true,
        _ => false,
    }
}

fn elements_of(doc: &mut Doc) -> &mut Vec<Doc>
    requires { IsList (document doc.old) }
    ensures* writes_back { sem 𝓛 (Lends doc_row items_row doc.entry result Items) }
    ensures value { doc.old ≡ Items result.now }
{
    match items_mut(doc) {
        Some(elements) => elements,
        None => unreachable!(),
    }
}

fn element_mut<'a>(
    elements: &'a mut Vec<Doc>,
    pointer: &Pointer,
    number: usize,
) -> Option<&'a mut Doc>
    requires { number < length pointer.now }
    ensures* writes_back { sem 𝓛 (BorrowsPartOf items_row Items (one_token pointer.now number)
        elements.entry result) }
    ensures value { option_map (λ d. document d.now) result
        ≡ part (document (Items elements.old)) (one_token pointer.now number) }
{
    let token = pointer.token(number)?;
    let index = index_of(token)?;
    elements.get_mut(index)
}

fn value_mut<'a>(
    entries: &'a mut BTreeMap<String, Doc>,
    pointer: &Pointer,
    number: usize,
) -> Option<&'a mut Doc>
    requires { number < length pointer.now }
    ensures* writes_back { sem 𝓛 (BorrowsPartOf members_row Members (one_token pointer.now number)
        entries.entry result) }
    ensures value { option_map (λ d. document d.now) result
        ≡ part (document (Members entries.old)) (one_token pointer.now number) }
{
    let token = pointer.token(number)?;
    entries.get_mut(token)
}
