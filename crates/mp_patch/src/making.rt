// From operations to their form as a document (RFC 6902 sections 3 and 4).
ghost use Rattle.std.specs.Prelude.{◌≡◌, ◌∷◌, [], map, IfOk, OnOk};
ghost use Rattle.mp_tree.specs.Document.{put, object};
ghost use Rattle.mp_tree.specs.View.{document, items, members_of};
ghost use Rattle.mp_tree.specs.Elements.{items_of};
ghost use Rattle.mp_tree.specs.Private.Entries.{members};
ghost use Rattle.mp_patch.specs.Form.{op_member, path_member, shape};
ghost use Rattle.mp_patch.specs.Private.Names.{name_of};
ghost use Rattle.mp_patch.specs.Private.Shapes.{shown};
ghost use Rattle.mp_patch.specs.View.{operations_of};

use crate::op::Op;
use crate::shape::{Shape, shape_of};
use mp_tree::Doc;
use std::alloc::{AllocError, Global};
use std::collections::BTreeMap;

pub(crate) fn docs_of(ops: &[Op], alloc: Global) -> Result<Vec<Doc>, AllocError>
    ensures { IfOk result (λ docs. items docs.items
        ≡ items_of (map shape (operations_of ops.now))) }
{
    let mut elements = Vec::with_capacity(alloc, ops.len())?;
    for op in ops {
        elements.push(doc_of(&shape_of(op), alloc)?)?;
    }
    Ok(elements)
}

fn doc_of(shape: &Shape<'_>, alloc: Global) -> Result<Doc, AllocError>
    ensures { IfOk result (λ d. document d ≡ object (members_of (shown shape.now))) }
{
    let mut entries = common_members(shape, alloc)?;
    if let Some(origin) = shape.origin {
        set(&mut entries, "from", Doc::Text(origin.print(alloc)?), alloc)?;
    }
    if let Some(value) = shape.value {
        set(&mut entries, "value", value.copy(alloc)?, alloc)?;
    }
    Ok(Doc::Members(entries))
}

// The members that each operation has.
fn common_members(shape: &Shape<'_>, alloc: Global) -> Result<BTreeMap<String, Doc>, AllocError>
    ensures { IfOk result (λ m. members m.entries
        ≡ members_of (op_member (name_of shape.now.name) ∷ path_member shape.now.path.now ∷ [])) }
{
    let mut entries = BTreeMap::new(alloc);
    let name = String::from_str(alloc, shape.name.as_str())?;
    let path = shape.path.print(alloc)?;
    set(&mut entries, "op", Doc::Text(name), alloc)?;
    set(&mut entries, "path", Doc::Text(path), alloc)?;
    Ok(entries)
}

fn set(
    entries: &mut BTreeMap<String, Doc>,
    name: &str,
    value: Doc,
    alloc: Global,
) -> Result<(), AllocError>
    ensures { OnOk result (members entries.new.entries
        ≡ put name.now (document value) (members entries.old.entries)) }
{
    drop(entries.insert(String::from_str(alloc, name)?, value)?);
    Ok(())
}
