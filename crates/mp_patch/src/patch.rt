//! Patches: lists of operations.
ghost use Rattle.std.specs.Prelude.{◌≡◌, ◌+◌, ◌≤◌, ◌++◌, ◌∷◌, ◌↔◌, [], IsTrue, OnOk, OnErr, IfOk, MatchResult};
ghost use Rattle.mp_tree.specs.Document.{depth};
ghost use Rattle.mp_tree.specs.View.{document};
ghost use Rattle.mp_patch.specs.Form.{AreForms, IsFormFault, deepest, shapes};
ghost use Rattle.mp_patch.specs.View.{operations_of};

use crate::fault::FormFault;
use crate::making::docs_of;
use crate::op::Op;
use mp_tree::Doc;
use std::alloc::{AllocError, Global};
use std::marker::Model;

/// A JSON Patch (RFC 6902): a list of operations, which are applied in order.
///
/// ```text
/// let mut patch = JsonPatch::new(alloc);
/// patch.push(Op::Remove(Pointer::parse(alloc, "/a")?))?;
/// let result = apply(alloc, &doc, &patch)?;  // {}, where doc is {"a":1}
/// ```
#[derive(Debug, Drop)]
pub struct JsonPatch {
    /// The operations, in the order in which they are applied.
    ops: Vec<Op>,
}

impl Model for JsonPatch {
    ghost use Rattle.std.specs.Coded.{codes};
    ghost use Rattle.std.specs.Prelude.{List};
    ghost use Rattle.mp_patch.specs.contracts.op.Op as op;
    ghost use Rattle.mp_patch.specs.declared.op.Op.{Op};
    ghost use Rattle.mp_tree.specs.contracts.doc.Doc as doc;
    ghost use Rattle.mp_tree.specs.declared.doc.Doc.{Doc};

    ghost Value = { List (Op Doc) };

    ghost view = { λ p. p.ops.items };

    ghost coded = { Prim.hlevel (codes, (op.the_row doc.the_row).coded) };
}

impl JsonPatch {
    /// The patch with no operation, which leaves each document as it is. Takes no memory.
    pub fn new(alloc: Global) -> JsonPatch
        ensures { result ≡ [] }
    {
        JsonPatch {
            ops: Vec::new(alloc),
        }
    }

    /// Adds an operation at the end. `AllocError` if memory ran out: the operation is dropped, and the list is
    /// as it was.
    pub fn push(&mut self, op: Op) -> Result<(), AllocError>
        ensures ok { OnOk result (self.new ≡ self.old ++ op ∷ []) }
        ensures err { OnErr result (self.new ≡ self.old) }
    {
        self.ops.push(op)?;
        Ok(())
    }

    /// The operations, in order. Takes no memory.
    pub fn ops(&self) -> &[Op]
        ensures { result.now ≡ self.now }
    {
        self.ops.as_slice()
    }

    /// A patch with equal operations in the same order, which shares nothing with this one.
    /// `AllocError` if memory runs out.
    ///
    /// ```text
    /// patch.copy(alloc)?.same(&patch)  // true
    /// ```
    pub fn copy(&self, alloc: Global) -> Result<JsonPatch, AllocError>
        ensures equal { IfOk result (λ p. operations_of p ≡ operations_of self.now) }
    {
        let mut ops = Vec::with_capacity(alloc, self.ops.len())?;
        for op in self.ops() {
            ops.push(op.copy(alloc)?)?;
        }
        Ok(JsonPatch { ops })
    }

    /// Whether the two have the same operations in the same order, as `Op::same` compares them.
    ///
    /// It takes no memory, looks at each part once at most, and stops at the first difference.
    ///
    /// ```text
    /// // where `one` was read from [{"op":"remove","path":"/a"}], and `two` from
    /// // [{"path":"/a","op":"remove","note":"a further member, which is ignored"}]
    /// one.same(&two)  // true
    /// ```
    pub fn same(&self, other: &JsonPatch) -> bool
        ensures same { IsTrue result ↔ (operations_of self.now ≡ operations_of other.now) }
    {
        if self.ops.len() != other.ops.len() {
            return false;
        }
        for (op, other_op) in self.ops().iter().zip(other.ops()) {
            if !op.same(other_op) {
                return false;
            }
        }
        true
    }

    /// The operations, in order, moved out of the patch. Takes no memory.
    ///
    /// ```text
    /// apply_within(alloc, doc, patch.into_ops(), 1_000)
    /// ```
    pub fn into_ops(self) -> Vec<Op>
        ensures { result.items ≡ self }
    {
        self.ops
    }

    /// The patch that the document is a form of (RFC 6902 section 3): an array of objects, one for each operation, with
    /// the members `op`, `path` and, if the operation needs it, `value` or `from`. Further members are ignored.
    /// The document is copied once: `Op::list_from` copies no value.
    ///
    /// `NotAnArray` if the document is not an array; `Form` with the first element that is not an operation, counted from
    /// 0, and its first cause; `OutOfMemory` may come at any point.
    ///
    /// ```text
    /// JsonPatch::from_doc(alloc, &doc)  // for [{"op":"remove","path":"/a"}]: a list of one Op::Remove
    /// JsonPatch::from_doc(alloc, &doc)  // for [{"op":"add","path":""}]: Form { op: 0, cause: NoValue }
    /// ```
    pub fn from_doc(alloc: Global, doc: &Doc) -> Result<JsonPatch, FormFault>
        ensures { MatchResult result (λ p. AreForms (document doc.now) (operations_of p))
            (λ fault. IsFormFault fault (document doc.now)) }
    {
        Ok(JsonPatch {
            ops: Op::list_from(alloc, doc.copy(alloc)?)?,
        })
    }

    /// The array of objects with exactly the members that the operations need (RFC 6902 sections 3 and 4).
    /// `from_doc` of it gives the same list. `AllocError` if memory ran out.
    ///
    /// ```text
    /// patch.to_doc(alloc)  // [{"op":"remove","path":"/a"}], for a list of one Op::Remove
    /// ```
    pub fn to_doc(&self, alloc: Global) -> Result<Doc, AllocError>
        ensures document { IfOk result (λ d. document d ≡ shapes (operations_of self.now)) }
        // At most two deeper than the deepest value, and at most 2 if there is none.
        ensures depth { IfOk result (λ d.
            depth (document d) ≤ 2 + deepest (operations_of self.now)) }
    {
        Ok(Doc::Items(docs_of(self.ops(), alloc)?))
    }

    // Of the memory that the list itself takes.
    pub(crate) fn allocator(&self) -> Global {
        *self.ops.allocator()
    }
}
