// Copies of documents, which share nothing with them: texts and names are copied. A map of many names is built whole from its
// pairs: an insertion each costs more, and so does `clone`, which inserts.
ghost use Rattle.std.specs.Prelude.{◌≡◌, IfOk};
ghost use Rattle.mp_tree.specs.View.{items_by, members_by};

use crate::building::{FEW, map_of};
use crate::node_kind::NodeKind;
use crate::walked::{CopyOf, Walked};
use std::alloc::{AllocError, Global};
use std::collections::BTreeMap;

#[cycle(copy)]
#[inline(always)]
pub(crate) fn copy_of<T: Walked, U: CopyOf<T>>(node: &T, alloc: Global) -> Result<U, AllocError>
    ensures { IfOk result (λ d. U.means d ≡ T.means node.now) }
{
    match node.top() {
        NodeKind::Null | NodeKind::Flag(_) | NodeKind::Whole(_) => Ok(U::scalar_of(node)),
        NodeKind::Text(text) => Ok(U::from_text(String::from_str(alloc, text)?)),
        NodeKind::Items(elements) => Ok(U::from_items(copy_items(elements, alloc)?)),
        NodeKind::Members(entries) => Ok(U::from_members(copy_members(entries, alloc)?)),
    }
}

#[cycle(copy)]
fn copy_items<T: Walked, U: CopyOf<T>>(
    elements: &Vec<T>,
    alloc: Global,
) -> Result<Vec<U>, AllocError>
    ensures { IfOk result (λ copies.
        items_by U.means copies.items ≡ items_by T.means elements.now.items) }
{
    let mut copies = Vec::with_capacity(alloc, elements.len())?;
    for element in elements {
        copies.push(copy_of(element, alloc)?)?;
    }
    Ok(copies)
}

#[cycle(copy)]
fn copy_members<T: Walked, U: CopyOf<T>>(
    entries: &BTreeMap<String, T>,
    alloc: Global,
) -> Result<BTreeMap<String, U>, AllocError>
    ensures { IfOk result (λ copies.
        members_by U.means copies.entries ≡ members_by T.means entries.now.entries) }
{
    if entries.len() <= FEW {
        return copy_few(entries, alloc);
    }
    let mut pairs = Vec::with_capacity(alloc, entries.len())?;
    for (name, value) in entries.iter() {
        let copied_name = String::from_str(alloc, name.as_str())?;
        let copied_value = copy_of(value, alloc)?;
        pairs.push((copied_name, copied_value))?;
    }
    map_of(alloc, pairs)
}

#[cycle(copy)]
fn copy_few<T: Walked, U: CopyOf<T>>(
    entries: &BTreeMap<String, T>,
    alloc: Global,
) -> Result<BTreeMap<String, U>, AllocError>
    ensures { IfOk result (λ copies.
        members_by U.means copies.entries ≡ members_by T.means entries.now.entries) }
{
    let mut copies = BTreeMap::new(alloc);
    for (name, value) in entries.iter() {
        let copied_name = String::from_str(alloc, name.as_str())?;
        let copied_value = copy_of(value, alloc)?;
        drop(copies.insert(copied_name, copied_value)?);
    }
    Ok(copies)
}
