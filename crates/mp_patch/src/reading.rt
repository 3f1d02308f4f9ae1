//! From a document to the operations that it is a form of (RFC 6902 sections 3 and 4).
ghost use Rattle.std.specs.Prelude.{◌≡◌, ◌≢◌, codes, string_bytes, Some, None, MatchOption, MatchResult};
ghost use Rattle.std.specs.Option.{option_copied};
ghost use Rattle.mp_tree.specs.Document.{IsDocument, find, list, object};
ghost use Rattle.mp_tree.specs.View.{items_by, members_by};
ghost use Rattle.mp_pointer.specs.Spelling.{spell};
ghost use Rattle.mp_patch.specs.Form.{AreForms, Carries, EachForm, IsFormFault, IsForm, needed_members, text_at as text_under};
ghost use Rattle.mp_patch.specs.Private.Reading.{IsElementFault, IsMapFault, IsOriginFault, IsTextFault, IsValueFault};
ghost use Rattle.mp_patch.specs.View.{operation_by, operations_by};

use crate::fault::{FormCause, FormFault, Refusal};
use crate::name::{OpName, op_named};
use crate::op::Op;
use mp_pointer::{Pointer, PointerFault};
use mp_tree::Node;
use std::alloc::Global;
use std::collections::BTreeMap;
use std::mem;

// Where a part is, and where it goes.
#[derive(Drop)]
struct Pointers {
    origin: Pointer,
    path: Pointer,
}

impl<T: Node> Op<T> {
    /// The operations that the document is a form of (RFC 6902 section 3): an array of objects, one for each operation, with the
    /// members `op`, `path` and, if the operation needs it, `value` or `from`. Further members are ignored. The values are moved
    /// out of the document, and nothing is copied but the pointers.
    ///
    /// `NotAnArray` if the document is not an array; `Form` with the first element that is not an operation, counted from
    /// 0, and its first cause; `OutOfMemory` may come at any point.
    ///
    /// ```text
    /// Op::list_from(alloc, value)  // for [{"op":"remove","path":"/a"}]: a list of one Op::Remove
    /// Op::list_from(alloc, value)  // for [{"op":"add","path":""}]: Form { op: 0, cause: NoValue }
    /// ```
    pub fn list_from(alloc: Global, form: T) -> Result<Vec<Op<T>>, FormFault>
        ensures { MatchResult result
            (λ ops. AreForms (T.means form) (operations_by T.means ops.items))
            (λ fault. IsFormFault fault (T.means form)) }
    {
        match elements_of(form, alloc) {
            Some(elements) => read_ops(elements, alloc),
            None => Err(FormFault::NotAnArray),
        }
    }
}

// The elements of an array, moved out of it.
fn elements_of<T: Node>(form: T, alloc: Global) -> Option<Vec<T>>
    ensures { MatchOption result ((ds : _) → T.means form ≢ list ds)
        (λ v. T.means form ≡ list (items_by T.means v.items)) }
{
    let mut form = form;
    let elements = form.items_mut()?;
    Some(mem::replace(elements, Vec::new(alloc)))
}

fn read_ops<T: Node>(elements: Vec<T>, alloc: Global) -> Result<Vec<Op<T>>, FormFault>
    ensures { MatchResult result
        (λ ops. EachForm (items_by T.means elements.items) (operations_by T.means ops.items))
        (λ fault. IsFormFault fault (list (items_by T.means elements.items))) }
{
    let mut ops = Vec::new(alloc);
    for element in elements {
        match read_op(element, alloc) {
            Ok(op) => ops.push(op)?,
            Err(refusal) => return Err(refusal.of_element(ops.len())),
        }
    }
    Ok(ops)
}

fn read_op<T: Node>(element: T, alloc: Global) -> Result<Op<T>, Refusal<FormCause>>
    ensures { MatchResult result (λ op. IsForm (T.means element) (operation_by T.means op))
        (λ fault. IsElementFault fault (T.means element)) }
{
    let Some(_) = element.members() else {
        return Err(Refusal::By(FormCause::NotAnObject));
    };
    read_members(element.into_members(alloc), alloc)
}

fn read_members<T: Node>(
    entries: BTreeMap<String, T>,
    alloc: Global,
) -> Result<Op<T>, Refusal<FormCause>>
    requires documents { (d : T) → IsDocument (T.means d) }
    ensures { let ms = members_by T.means entries.entries in
        MatchResult result (λ op. Carries ms (needed_members (operation_by T.means op)))
        (λ fault. IsMapFault fault (object ms)) }
{
    let word = text_at(&entries, "op").ok_or(FormCause::NoOp)?;
    let name = op_named(word).ok_or(FormCause::UnknownOp)?;
    let spelling = text_at(&entries, "path").ok_or(FormCause::NoPath)?;
    match name {
        OpName::Add => Ok(Op::Add(pointer_of(spelling, alloc)?, value_of(entries)?)),
        OpName::Remove => Ok(Op::Remove(pointer_of(spelling, alloc)?)),
        OpName::Replace => Ok(Op::Replace(pointer_of(spelling, alloc)?, value_of(entries)?)),
        OpName::Move => {
            let Pointers { origin, path } = pointers_in(spelling, &entries, alloc)?;
            Ok(Op::Move { origin, path })
        }
        OpName::Copy => {
            let Pointers { origin, path } = pointers_in(spelling, &entries, alloc)?;
            Ok(Op::Copy { origin, path })
        }
        OpName::Test => Ok(Op::Test(pointer_of(spelling, alloc)?, value_of(entries)?)),
    }
}

fn pointers_in<T: Node>(
    spelling: &str,
    entries: &BTreeMap<String, T>,
    alloc: Global,
) -> Result<Pointers, Refusal<FormCause>>
    requires documents { (d : T) → IsDocument (T.means d) }
    ensures { MatchResult result
        (λ p. (spelling.now ≡ spell p.path)
        × (text_under (codes "from") (object (members_by T.means entries.now.entries))
        ≡ Some (spell p.origin)))
        (λ fault. IsOriginFault fault spelling.now
        (object (members_by T.means entries.now.entries))) }
{
    let origin_spelling = text_at(entries, "from").ok_or(FormCause::NoFrom)?;
    let path = pointer_of(spelling, alloc)?;
    let origin = pointer_of(origin_spelling, alloc)?;
    Ok(Pointers { origin, path })
}

// The text at a name; None if there is none, or no text.
fn text_at<'a, T: Node>(entries: &'a BTreeMap<String, T>, name: &str) -> Option<&'a str>
    requires documents { (d : T) → IsDocument (T.means d) }
    ensures { option_copied result
        ≡ text_under name.now (object (members_by T.means entries.now.entries)) }
{
    entries.get(name)?.text()
}

fn pointer_of(spelling: &str, alloc: Global) -> Result<Pointer, Refusal<FormCause>>
    ensures { MatchResult result (λ p. spelling.now ≡ spell p)
        (λ fault. IsTextFault fault spelling.now) }
{
    match Pointer::parse(alloc, spelling) {
        Ok(pointer) => Ok(pointer),
        Err(PointerFault::NoSlash) => Err(Refusal::By(FormCause::BadPointer)),
        Err(PointerFault::BadTilde(_)) => Err(Refusal::By(FormCause::BadPointer)),
        Err(PointerFault::OutOfMemory) => Err(Refusal::OutOfMemory),
    }
}

fn value_of<T: Node>(mut entries: BTreeMap<String, T>) -> Result<T, Refusal<FormCause>>
    requires documents { (d : T) → IsDocument (T.means d) }
    ensures { MatchResult result
        (λ v. find (codes "value") (members_by T.means entries.entries) ≡ Some (T.means v))
        (λ fault. IsValueFault fault (object (members_by T.means entries.entries))) }
{
    let Some(value) = entries.remove("value") else {
        return Err(Refusal::By(FormCause::NoValue));
    };
    Ok(value)
}
