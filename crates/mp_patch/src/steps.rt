// One operation at a time (RFC 6902 section 4), on a document that is owned.
ghost use Rattle.std.specs.Prelude.{◌≡◌, ◌≢◌, ◌+◌, ◌≤◌, ◌↔◌, ◌++◌, ◌∷◌, [], length, take, IsTrue, Some, MatchOption, MatchResult, IfOk, IfSome, OnOk, Err};
ghost use Rattle.mp_tree.specs.Document.{IsDocument, depth, depth_limit};
ghost use Rattle.mp_pointer.specs.Part.{part};
ghost use Rattle.mp_patch.specs.Operation.{Operation, add as add_operation, remove as remove_operation, replace as replace_operation, move as move_operation, copy as copy_operation, test as test_operation, Removes};
ghost use Rattle.mp_patch.specs.Refusal.{RefusedBy};
ghost use Rattle.mp_patch.specs.Run.{IsRefused};
ghost use Rattle.mp_patch.specs.Private.Bounds.{Bounds};
ghost use Rattle.mp_patch.specs.Private.Steps.{Answers};
ghost use Rattle.mp_patch.specs.Private.Within.{TakesToMove};
ghost use Rattle.mp_patch.specs.View.{operation_by};

use crate::bound::DepthBound;
use crate::containers::{insert, set, take};
use crate::fault::{Cause, Refusal};
use crate::op::Op;
use crate::parts::part_at;
use mp_pointer::{Pointer, edit_part_in};
use mp_tree::Node;
use std::alloc::Global;

// On an error the document is not used again.
fn step<T: Node>(
    op: &Op<T>,
    doc: &mut T,
    bound: &mut DepthBound,
    alloc: Global,
) -> Result<(), Refusal<Cause>>
    requires documents { (d : T) → IsDocument (T.means d) }
    requires bounds { Bounds bound.old.most 0 (T.means doc.old) }
    ensures answer { Answers result (T.means doc.old) (operation_by T.means op.now)
        (T.means doc.new) }
    ensures bounds { OnOk result (Bounds bound.new.most 0 (T.means doc.new)) }
{
    match op {
        Op::Add(path, value) => add(doc, path, value.copied(alloc)?, bound, alloc),
        Op::Remove(path) => {
            drop(remove(doc, path, alloc)?);
            Ok(())
        }
        Op::Replace(path, value) => replace(doc, path, value.copied(alloc)?, bound),
        Op::Move { origin, path } => move_part(doc, origin, path, bound, alloc),
        Op::Copy { origin, path } => copy_part(doc, origin, path, bound, alloc),
        Op::Test(path, value) => check(doc, path, value),
    }
}

// An operation that is taken on a node. If it is owned, its value is moved into the node.
pub(crate) trait StepOwned<T: Node>: Drop {
    ghost means: { Self → Operation };

    // The operation itself, to look at before it is taken.
    fn as_op(&self) -> &Op<T>
        ensures { operation_by T.means result.now ≡ means self.now };

    fn step_owned(
        self,
        doc: &mut T,
        bound: &mut DepthBound,
        alloc: Global,
    ) -> Result<(), Refusal<Cause>>
        requires documents { (d : T) → IsDocument (T.means d) }
        requires bounds { Bounds bound.old.most 0 (T.means doc.old) }
        ensures answer { Answers result (T.means doc.old) (means self) (T.means doc.new) }
        ensures bounds { OnOk result (Bounds bound.new.most 0 (T.means doc.new)) };
}

impl<T: Node> StepOwned<T> for Op<T> {
    ghost means = { operation_by T.means };

    fn as_op(&self) -> &Op<T> {
        self
    }

    fn step_owned(
        self,
        doc: &mut T,
        bound: &mut DepthBound,
        alloc: Global,
    ) -> Result<(), Refusal<Cause>> {
        match self {
            Op::Add(path, value) => add(doc, &path, value, bound, alloc),
            Op::Replace(path, value) => replace(doc, &path, value, bound),
            other => step(&other, doc, bound, alloc),
        }
    }
}

// If it is borrowed, its value is copied.
impl<T: Node> StepOwned<T> for &Op<T> {
    ghost means = { λ op. operation_by T.means op.now };

    fn as_op(&self) -> &Op<T> {
        *self
    }

    fn step_owned(
        self,
        doc: &mut T,
        bound: &mut DepthBound,
        alloc: Global,
    ) -> Result<(), Refusal<Cause>> {
        step(self, doc, bound, alloc)
    }
}

fn add<T: Node>(
    doc: &mut T,
    path: &Pointer,
    value: T,
    bound: &mut DepthBound,
    alloc: Global,
) -> Result<(), Refusal<Cause>>
    requires documents { (d : T) → IsDocument (T.means d) }
    requires bounds { Bounds bound.old.most 0 (T.means doc.old) }
    ensures answer { Answers result (T.means doc.old) (add_operation path.now (T.means value))
        (T.means doc.new) }
    ensures bounds { OnOk result (Bounds bound.new.most 0 (T.means doc.new)) }
{
    let fits = bound.admit(&value, path.len());
    put(doc, path, value, fits, alloc)
}

// Adds a value of which is known whether it fits. The token is copied for an array too: so each operation that shifts elements
// asks for memory, and an allocator that refuses it can end a long patch.
pub(crate) fn put<T: Node>(
    doc: &mut T,
    path: &Pointer,
    value: T,
    fits: bool,
    alloc: Global,
) -> Result<(), Refusal<Cause>>
    requires { IsTrue fits ↔ (length path.now + depth (T.means value) ≤ depth_limit) }
    ensures { Answers result (T.means doc.old) (add_operation path.now (T.means value))
        (T.means doc.new) }
{
    let Some((last, token)) = last_token(path) else {
        return set(doc, value, fits);
    };
    let token = String::from_str(alloc, token)?;
    match edit_part_in(
        doc,
        path,
        last,
        |container| insert(container, token, value, fits),
    ) {
        Some(inserted) => inserted,
        None => Err(Refusal::By(Cause::NoPlace)),
    }
}

// The part that was at the place. The token is copied as in `put`.
fn remove<T: Node>(doc: &mut T, path: &Pointer, alloc: Global) -> Result<T, Refusal<Cause>>
    ensures { MatchResult result
        (λ x. (path.now ≢ []) × (part (T.means doc.old) path.now ≡ Some (T.means x))
        × Removes path.now (T.means doc.old) (T.means doc.new))
        (λ fault. Answers (Err fault) (T.means doc.old) (remove_operation path.now)
        (T.means doc.new)) }
{
    let Some((last, token)) = last_token(path) else {
        return Err(Refusal::By(Cause::RemoveRoot));
    };
    let token = String::from_str(alloc, token)?;
    let Some(taken) = edit_part_in(doc, path, last, |container| take(container, token.as_str()))
    else {
        return Err(Refusal::By(Cause::Missing));
    };
    match taken {
        Some(part) => Ok(part),
        None => Err(Refusal::By(Cause::Missing)),
    }
}

fn replace<T: Node>(
    doc: &mut T,
    path: &Pointer,
    value: T,
    bound: &mut DepthBound,
) -> Result<(), Refusal<Cause>>
    requires documents { (d : T) → IsDocument (T.means d) }
    requires bounds { Bounds bound.old.most 0 (T.means doc.old) }
    ensures answer { Answers result (T.means doc.old)
        (replace_operation path.now (T.means value)) (T.means doc.new) }
    ensures bounds { OnOk result (Bounds bound.new.most 0 (T.means doc.new)) }
{
    let fits = bound.admit(&value, path.len());
    match edit_part_in(doc, path, path.len(), |part| set(part, value, fits)) {
        Some(outcome) => outcome,
        None => Err(Refusal::By(Cause::Missing)),
    }
}

// The part itself goes to its new place: nothing of it is copied.
fn move_part<T: Node>(
    doc: &mut T,
    origin: &Pointer,
    path: &Pointer,
    bound: &mut DepthBound,
    alloc: Global,
) -> Result<(), Refusal<Cause>>
    requires documents { (d : T) → IsDocument (T.means d) }
    requires bounds { Bounds bound.old.most 0 (T.means doc.old) }
    ensures answer { Answers result (T.means doc.old) (move_operation origin.now path.now)
        (T.means doc.new) }
    ensures bounds { OnOk result (Bounds bound.new.most 0 (T.means doc.new)) }
{
    match take_to_move(doc, origin, path, bound, alloc)? {
        Some((part, fits)) => put(doc, path, part, fits, alloc),
        None => Ok(()),
    }
}

// Takes out the part that moves, and says whether it fits at its new place. None if it stays where it is.
pub(crate) fn take_to_move<T: Node>(
    doc: &mut T,
    origin: &Pointer,
    path: &Pointer,
    bound: &mut DepthBound,
    alloc: Global,
) -> Result<Option<(T, bool)>, Refusal<Cause>>
    requires documents { (d : T) → IsDocument (T.means d) }
    requires bounds { Bounds bound.old.most 0 (T.means doc.old) }
    ensures taken { TakesToMove T.means result (T.means doc.old) origin.now path.now
        (T.means doc.new) }
    ensures bounds { OnOk result (Bounds bound.new.most 0 (T.means doc.new)) }
    ensures fits { IfOk result (λ taken. IfSome taken (λ x. IsTrue x.1
        → Bounds bound.new.most (length path.now) (T.means x.0))) }
{
    if origin.is_proper_prefix_of(path) {
        return Err(Refusal::By(Cause::IntoItself));
    }
    if origin == path {
        return match part_at(doc, origin) {
            Some(_) => Ok(None),
            None => Err(Refusal::By(Cause::Missing)),
        };
    }
    let part = remove(doc, origin, alloc)?;
    let fits = bound.admit_part(&part, origin.len(), doc, path.len());
    Ok(Some((part, fits)))
}

fn copy_part<T: Node>(
    doc: &mut T,
    origin: &Pointer,
    path: &Pointer,
    bound: &mut DepthBound,
    alloc: Global,
) -> Result<(), Refusal<Cause>>
    requires documents { (d : T) → IsDocument (T.means d) }
    requires bounds { Bounds bound.old.most 0 (T.means doc.old) }
    ensures answer { Answers result (T.means doc.old) (copy_operation origin.now path.now)
        (T.means doc.new) }
    ensures bounds { OnOk result (Bounds bound.new.most 0 (T.means doc.new)) }
{
    let part = match part_at(doc, origin) {
        Some(part) => part.copied(alloc)?,
        None => return Err(Refusal::By(Cause::Missing)),
    };
    add(doc, path, part, bound, alloc)
}

// RFC 6902's `test`.
fn check<T: Node>(doc: &T, path: &Pointer, value: &T) -> Result<(), Refusal<Cause>>
    ensures { Answers result (T.means doc.now) (test_operation path.now (T.means value.now))
        (T.means doc.now) }
{
    match part_at(doc, path) {
        Some(part) => if part.equals(value) {
            Ok(())
        } else {
            Err(Refusal::By(Cause::TestFailed))
        },
        None => Err(Refusal::By(Cause::Missing)),
    }
}

// The last token, with its number: the tokens before it lead to the object or the array that it names a part of.
pub(crate) fn last_token(path: &Pointer) -> Option<(usize, &str)>
    ensures { MatchOption result (path.now ≡ [])
        (λ last. path.now ≡ take last.0 path.now ++ last.1.now ∷ []) }
{
    let last = path.len().checked_sub(1)?;
    Some((last, path.token(last).unwrap()))
}
