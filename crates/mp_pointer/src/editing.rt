//! Editing the part of a document that a pointer names, where it stands.
ghost use Rattle.std.specs.Prelude.{◌≡◌, ◌≤◌, ◌<◌, length, take, slice_range, MatchOption};
ghost use Rattle.std.specs.Fn.{FnOnceReturnsAtMut};
ghost use Rattle.mp_tree.specs.Document.{list, object, IsDocument};
ghost use Rattle.mp_tree.specs.View.{document, items_by, members_by};
ghost use Rattle.mp_pointer.specs.Editing.{EditsAt, EditsBy};
ghost use Rattle.mp_pointer.specs.Part.{part};

use crate::evaluating::index_of;
use crate::pointer::Pointer;
use mp_tree::{Doc, Node};
use std::collections::BTreeMap;

/// Hands the part that the first `count` tokens of the pointer name to `edit`, and answers what `edit` answers. None
/// exactly if there is no such part, and then nothing has changed; otherwise the document differs from the old one
/// at that place alone, and has there what `edit` left. `count` is at most `len()`. Takes no memory of its own.
///
/// It does what `get_mut` with a write through it does, for code whose proof is to know the document afterwards.
///
/// ```text
/// edit_part(&mut doc, &pointer, pointer.len(), |part| mem::replace(part, Doc::Null))  // Some of the old part
/// ```
pub fn edit_part<R, F: FnOnce(&mut Doc) -> R>(
    doc: &mut Doc,
    pointer: &Pointer,
    count: usize,
    edit: F,
) -> Option<R>
    requires within { count ≤ length pointer.now }
    requires callable { F.IsAlwaysCallable edit }
    ensures { let t = take count pointer.now in
        MatchOption result
        ((part (document doc.old) t ≡ None) × (document doc.new ≡ document doc.old))
        (λ r. EditsAt (λ before after. FnOnceReturnsAtMut F.FnOnce edit before r after)
        t doc.old doc.new) }
{
    edit_part_in(doc, pointer, count, edit)
}

/// As `edit_part`, of any `Node`: hands its part that the first `count` tokens of the pointer name to `edit`, and answers
/// what `edit` answers. None exactly if there is no such part, and then nothing has changed. `count` is at most `len()`.
/// It looks up one name or one index for each of these tokens, and takes no memory of its own.
///
/// ```text
/// edit_part_in(&mut node, &pointer, pointer.len(), |part| mem::replace(part, T::null()))  // Some of the old part
/// ```
pub fn edit_part_in<T: Node, R, F: FnOnce(&mut T) -> R>(
    node: &mut T,
    pointer: &Pointer,
    count: usize,
    edit: F,
) -> Option<R>
    requires within { count ≤ length pointer.now }
    requires callable { F.IsAlwaysCallable edit }
    ensures { let t = take count pointer.now in
        MatchOption result
        ((part (T.means node.old) t ≡ None) × (T.means node.new ≡ T.means node.old))
        (λ r. EditsBy T.means (λ before after. FnOnceReturnsAtMut F.FnOnce edit before r after)
        t node.old node.new) }
{
    edit_between(node, pointer, 0, count, edit)
}

// The same of the part that the tokens from `number` up to `end` name.
#[cycle(edit)]
fn edit_between<T: Node, R, F: FnOnce(&mut T) -> R>(
    node: &mut T,
    pointer: &Pointer,
    number: usize,
    end: usize,
    edit: F,
) -> Option<R>
    requires within { end ≤ length pointer.now }
    requires ordered { number ≤ end }
    requires callable { F.IsAlwaysCallable edit }
    ensures { let t = slice_range pointer.now number end in
        MatchOption result
        ((part (T.means node.old) t ≡ None) × (T.means node.new ≡ T.means node.old))
        (λ r. EditsBy T.means (λ before after. FnOnceReturnsAtMut F.FnOnce edit before r after)
        t node.old node.new) }
{
    if number == end {
        return Some(edit(node));
    }
    if let Some(elements) = node.items_mut() {
        edit_element(elements, pointer, number, end, edit)
    } else if let Some(entries) = node.members_mut() {
        edit_member(entries, pointer, number, end, edit)
    } else {
        None
    }
}

#[cycle(edit)]
fn edit_element<T: Node, R, F: FnOnce(&mut T) -> R>(
    elements: &mut Vec<T>,
    pointer: &Pointer,
    number: usize,
    end: usize,
    edit: F,
) -> Option<R>
    requires within { end ≤ length pointer.now }
    requires ordered { number < end }
    requires callable { F.IsAlwaysCallable edit }
    requires documents { (d : T) → IsDocument (T.means d) }
    requires made { (v : _) → T.means (T.of_items v) ≡ list (items_by T.means v.items) }
    ensures { let t = slice_range pointer.now number end in
        MatchOption result ((part (T.means (T.of_items elements.old)) t ≡ None)
        × (T.means (T.of_items elements.new) ≡ T.means (T.of_items elements.old)))
        (λ r. EditsBy T.means (λ before after. FnOnceReturnsAtMut F.FnOnce edit before r after)
        t (T.of_items elements.old) (T.of_items elements.new)) }
{
    let token = pointer.token(number)?;
    let index = index_of(token)?;
    let element = elements.get_mut(index)?;
    edit_between(element, pointer, number + 1, end, edit)
}

#[cycle(edit)]
fn edit_member<T: Node, R, F: FnOnce(&mut T) -> R>(
    entries: &mut BTreeMap<String, T>,
    pointer: &Pointer,
    number: usize,
    end: usize,
    edit: F,
) -> Option<R>
    requires within { end ≤ length pointer.now }
    requires ordered { number < end }
    requires callable { F.IsAlwaysCallable edit }
    requires documents { (d : T) → IsDocument (T.means d) }
    requires made { (m : _) → T.means (T.of_members m) ≡ object (members_by T.means m.entries) }
    ensures { let t = slice_range pointer.now number end in
        MatchOption result ((part (T.means (T.of_members entries.old)) t ≡ None)
        × (T.means (T.of_members entries.new) ≡ T.means (T.of_members entries.old)))
        (λ r. EditsBy T.means (λ before after. FnOnceReturnsAtMut F.FnOnce edit before r after)
        t (T.of_members entries.old) (T.of_members entries.new)) }
{
    let token = pointer.token(number)?;
    let value = entries.get_mut(token)?;
    edit_between(value, pointer, number + 1, end, edit)
}
