//! Applying a patch to a document, with or without a limit.
ghost use Rattle.std.specs.Prelude.{◌≤◌, List, MatchResult, IfOk};
ghost use Rattle.std.specs.Iterator.{AlwaysYields, UpTo};
ghost use Rattle.mp_tree.specs.Document.{IsDocument, depth, depth_limit};
ghost use Rattle.mp_tree.specs.View.{document};
ghost use Rattle.mp_patch.specs.Operation.{Operation};
ghost use Rattle.mp_patch.specs.Run.{Runs, IsApplyFault};
ghost use Rattle.mp_patch.specs.View.{operations_by, operations_of};
ghost use Rattle.mp_patch.specs.Within.{RunsWithin, IsApplyWithinFault};

use crate::bound::DepthBound;
use crate::fault::{ApplyFault, ApplyWithinFault};
use crate::op::Op;
use crate::patch::JsonPatch;
use crate::scale::Scale;
use crate::steps::StepOwned;
use crate::steps_within::step_under;
use mp_tree::{Doc, Node};
use std::alloc::Global;

/// The document after all operations of the patch, in order, each on what the one before left (RFC 6902 sections 3
/// to 5). The document that is borrowed stays as it is.
///
/// `Refused` with the first operation that is refused, counted from 0, and its cause: then there is no result.
/// `OutOfMemory` may come at any point.
///
/// ```text
/// apply(alloc, &doc, &patch)  // {"l":[1,3]}, for {"l":[1,2]} and [{"op":"replace","path":"/l/1","value":3}]
/// ```
pub fn apply(alloc: Global, doc: &Doc, patch: &JsonPatch) -> Result<Doc, ApplyFault>
    ensures runs { MatchResult result
        (λ e. Runs (document doc.now) (operations_of patch.now) (document e))
        (λ fault. IsApplyFault fault (document doc.now) (operations_of patch.now)) }
    ensures depth { IfOk result (λ e. depth (document doc.now) ≤ depth_limit
        → depth (document e) ≤ depth_limit) }
{
    apply_owned(alloc, doc.copy(alloc)?, patch)
}

/// As `apply`, of a document that is owned: it is changed in place, and is dropped if an operation is refused.
pub fn apply_owned(alloc: Global, doc: Doc, patch: &JsonPatch) -> Result<Doc, ApplyFault>
    ensures runs { MatchResult result
        (λ e. Runs (document doc) (operations_of patch.now) (document e))
        (λ fault. IsApplyFault fault (document doc) (operations_of patch.now)) }
    ensures depth { IfOk result (λ e. depth (document doc) ≤ depth_limit
        → depth (document e) ≤ depth_limit) }
{
    match run(doc, patch.ops().iter(), usize::MAX, alloc) {
        Ok(result) => Ok(result),
        Err(fault) => Err(fault.without_limit()),
    }
}

/// The node after the operations, as `apply` has it, if the result of each operation weighs no more than `limit`, and the work of all
/// is at most 16 times `limit`. A limit of `usize::MAX` bounds nothing: nothing is weighed, and the answer is that of `apply`.
/// `mp_tree::left_of` says what a node weighs. The work is what a `copy` copies, as its weight, and 1 for each element of an array
/// that an addition, a removal or a move shifts.
///
/// The node is changed in place, and is dropped if there is no result. The values of the operations are moved into it, and not
/// copied. `JsonPatch::into_ops` gives those of a patch.
///
/// `Refused` as `apply` has it, if nothing before it was too much. `TooLarge` with the first operation, counted from 0, that
/// is not refused, and whose result weighs more, or by which the work is more; what `doc` itself weighs is no error.
/// `OutOfMemory` may come at any point.
///
/// Within a limit the node is walked once, to weigh it, and then what each operation adds, removes or replaces. What `add`, `copy` and
/// `replace` add is weighed before it is added or copied, so that no result is made that weighs more than `limit`. So the time is at
/// most in proportion to `limit`, and to what the node and the operations weigh.
///
/// ```text
/// apply_within(alloc, doc, ops, usize::MAX)  // {"a":1}, for {} and [{"op":"add","path":"/a","value":1}]
/// apply_within(alloc, doc, ops, 1_000)       // Err(TooLarge { op: 0 })
/// ```
pub fn apply_within<T: Node>(
    alloc: Global,
    doc: T,
    ops: Vec<Op<T>>,
    limit: usize,
) -> Result<T, ApplyWithinFault>
    ensures runs { let operations = operations_by T.means ops.items in
        MatchResult result
        (λ e. RunsWithin limit (T.means doc) operations (T.means e))
        (λ fault. IsApplyWithinFault limit fault (T.means doc) operations) }
    ensures depth { IfOk result (λ e. depth (T.means doc) ≤ depth_limit
        → depth (T.means e) ≤ depth_limit) }
{
    // Each node means a document, as `members` ensures.
    let _members = doc.members();
    run(doc, ops.into_iter(), limit, alloc)
}

// The operations in order, on a node that is owned: each is counted as it is taken.
fn run<T: Node, O: StepOwned<T>, I: Iterator<Item = O> + Drop>(
    doc: T,
    ops: I,
    limit: usize,
    alloc: Global,
) -> Result<T, ApplyWithinFault>
    requires documents { (d : T) → IsDocument (T.means d) }
    requires can_next { I.can_next ops }
    requires few { UpTo (I.remaining ops) usize.MAX }
    ensures runs { (operations : List Operation)
        → AlwaysYields I.next_gives O.means ops operations
        → MatchResult result
        (λ e. RunsWithin limit (T.means doc) operations (T.means e))
        (λ fault. IsApplyWithinFault limit fault (T.means doc) operations) }
    ensures depth { IfOk result (λ e. depth (T.means doc) ≤ depth_limit
        → depth (T.means e) ≤ depth_limit) }
{
    let mut result = doc;
    let mut bound = DepthBound::unknown();
    let mut scale = Scale::of(&result, limit)?;
    let mut done = 0;
    for op in ops {
        scale = step_under(op, done, &mut result, &mut bound, scale, alloc)?;
        done += 1;
    }
    Ok(result)
}
