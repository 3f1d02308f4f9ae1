// One operation at a time within a limit on the weight of its result, and within the work that is left.
ghost use Rattle.std.specs.Prelude.{◌≡◌, IfSome, MatchResult, OnOk};
ghost use Rattle.mp_tree.specs.Document.{IsDocument};
ghost use Rattle.mp_tree.specs.Weight.{weight};
ghost use Rattle.mp_patch.specs.Operation.{Step, move as move_operation};
ghost use Rattle.mp_patch.specs.Run.{IsRefused};
ghost use Rattle.mp_patch.specs.Private.Bounds.{Bounds};
ghost use Rattle.mp_patch.specs.Private.Within.{AnswersWithin, EndsBy, Follows};

use crate::bound::DepthBound;
use crate::fault::{ApplyWithinFault, Cause, Refusal};
use crate::op::Op;
use crate::scale::Scale;
use crate::steps::{StepOwned, put, take_to_move};
use crate::weighing::{judge, judge_arrival, name_at};
use crate::working::{shifted_after, shifted_from, work_of};
use mp_pointer::Pointer;
use mp_tree::Node;
use std::alloc::Global;

// Takes the operation of that number, within the scale if there is one, and answers the scale that follows. On an error the document
// is not used again.
#[inline(always)]
pub(crate) fn step_under<T: Node, O: StepOwned<T>>(
    op: O,
    number: usize,
    doc: &mut T,
    bound: &mut DepthBound,
    scale: Option<Scale>,
    alloc: Global,
) -> Result<Option<Scale>, ApplyWithinFault>
    requires documents { (d : T) → IsDocument (T.means d) }
    requires weight { IfSome scale (λ s. s.weight ≡ weight (T.means doc.old)) }
    requires bounds { Bounds bound.old.most 0 (T.means doc.old) }
    ensures answer { let d = T.means doc.old in
        MatchResult result
        (λ next. ¬ IsRefused d (O.means op) × Step d (O.means op) (T.means doc.new)
        × Follows scale next d (O.means op) (T.means doc.new))
        (λ fault. EndsBy scale number fault d (O.means op)) }
    ensures bounds { OnOk result (Bounds bound.new.most 0 (T.means doc.new)) }
{
    let Some(within) = scale else {
        return match op.step_owned(doc, bound, alloc) {
            Ok(()) => Ok(None),
            Err(refusal) => Err(refusal.of_operation(number)),
        };
    };
    match step_within(op, doc, bound, within, alloc) {
        Ok(Some(next)) => Ok(Some(next)),
        Ok(None) => Err(ApplyWithinFault::TooLarge { op: number }),
        Err(refusal) => Err(refusal.of_operation(number)),
    }
}

// Takes the operation if its result weighs no more than the limit, and answers the scale that follows. None if it weighs more, or
// if the work is more than what is left: then the document is not used again, as on an error. The work is counted before the
// operation is done, and asked for after it: only an operation that is not refused is too much.
fn step_within<T: Node, O: StepOwned<T>>(
    op: O,
    doc: &mut T,
    bound: &mut DepthBound,
    scale: Scale,
    alloc: Global,
) -> Result<Option<Scale>, Refusal<Cause>>
    requires documents { (d : T) → IsDocument (T.means d) }
    requires weight { scale.weight ≡ weight (T.means doc.old) }
    requires bounds { Bounds bound.old.most 0 (T.means doc.old) }
    ensures answer { AnswersWithin scale result (T.means doc.old) (O.means op)
        (T.means doc.new) }
    ensures bounds { OnOk result (Bounds bound.new.most 0 (T.means doc.new)) }
{
    match op.as_op() {
        Op::Move { origin, path } => move_within(doc, origin, path, bound, scale, alloc),
        change => {
            let work = work_of(change, doc, scale);
            let Some(next) = judge(change, doc, bound, scale) else {
                return Ok(None);
            };
            op.step_owned(doc, bound, alloc)?;
            Ok(scale.after(next, work))
        }
    }
}

// The part is not weighed: only its name changes, and what is at the new place.
fn move_within<T: Node>(
    doc: &mut T,
    origin: &Pointer,
    path: &Pointer,
    bound: &mut DepthBound,
    scale: Scale,
    alloc: Global,
) -> Result<Option<Scale>, Refusal<Cause>>
    requires documents { (d : T) → IsDocument (T.means d) }
    requires weight { scale.weight ≡ weight (T.means doc.old) }
    requires bounds { Bounds bound.old.most 0 (T.means doc.old) }
    ensures answer { AnswersWithin scale result (T.means doc.old)
        (move_operation origin.now path.now) (T.means doc.new) }
    ensures bounds { OnOk result (Bounds bound.new.most 0 (T.means doc.new)) }
{
    let named = name_at(doc, origin);
    let removal = shifted_after(doc, origin);
    let Some((part, fits)) = take_to_move(doc, origin, path, bound, alloc)? else {
        return Ok(scale.unchanged());
    };
    let unnamed = Scale {
        weight: scale.weight - named,
        ..scale
    };
    let Some(next) = judge_arrival(doc, path, fits, unnamed) else {
        return Ok(None);
    };
    let work = removal as u128 + shifted_from(doc, path) as u128;
    put(doc, path, part, fits, alloc)?;
    Ok(scale.after(next, work))
}
