// The work of an operation, found before it is done: nothing is allocated.
ghost use Rattle.std.specs.Prelude.{◌≡◌, ◌≢◌, ◌-◌};
ghost use Rattle.mp_tree.specs.Document.{IsDocument};
ghost use Rattle.mp_tree.specs.Weight.{weight};
ghost use Rattle.mp_patch.specs.Operation.{copy as copy_operation};
ghost use Rattle.mp_patch.specs.Work.{shifted_at, shifted_in};
ghost use Rattle.mp_patch.specs.Private.Within.{CountsWork};
ghost use Rattle.mp_patch.specs.View.{operation_by};

use crate::op::Op;
use crate::parts::part_at;
use crate::scale::Scale;
use crate::steps::last_token;
use crate::weighing::weight_of;
use mp_pointer::{Pointer, index_of, part_in};
use mp_tree::Node;

// The work of the operation, which is no move, if it is not refused: else the number says nothing.
pub(crate) fn work_of<T: Node>(op: &Op<T>, doc: &T, scale: Scale) -> u128
    requires documents { (d : T) → IsDocument (T.means d) }
    requires change { (s t : _) → op.now ≢ Op.Move s t }
    requires weight { scale.weight ≡ weight (T.means doc.now) }
    ensures { CountsWork result (T.means doc.now) (operation_by T.means op.now) }
{
    match op {
        Op::Add(path, _) => shifted_from(doc, path) as u128,
        Op::Remove(path) => shifted_after(doc, path) as u128,
        Op::Move { .. } => unreachable!(),
        Op::Copy { origin, path } => work_of_copy(doc, origin, path, scale),
        Op::Replace(_, _) | Op::Test(_, _) => 0,
    }
}

// What is copied is weighed, and then its addition shifts elements.
fn work_of_copy<T: Node>(doc: &T, origin: &Pointer, path: &Pointer, scale: Scale) -> u128
    requires documents { (d : T) → IsDocument (T.means d) }
    requires weight { scale.weight ≡ weight (T.means doc.now) }
    ensures { CountsWork result (T.means doc.now) (copy_operation origin.now path.now) }
{
    match part_at(doc, origin) {
        Some(part) => {
            let copied = weight_of(part, scale.weight) as u128;
            copied + shifted_from(doc, path) as u128
        }
        None => 0,
    }
}

// How many elements a removal at the place shifts.
pub(crate) fn shifted_after<T: Node>(doc: &T, path: &Pointer) -> usize
    ensures { result ≡ shifted_at path.now (T.means doc.now) - 1 }
{
    shifted_from(doc, path).saturating_sub(1)
}

// How many elements an addition at the place shifts: those from there on in the array that has it.
pub(crate) fn shifted_from<T: Node>(doc: &T, path: &Pointer) -> usize
    ensures { result ≡ shifted_at path.now (T.means doc.now) }
{
    let Some((last, token)) = last_token(path) else {
        return 0;
    };
    match part_in(doc, path, last) {
        Some(container) => shifted_from_in(container, token),
        None => 0,
    }
}

fn shifted_from_in<T: Node>(container: &T, token: &str) -> usize
    ensures { result ≡ shifted_in token.now (T.means container.now) }
{
    let Some(elements) = container.items() else {
        return 0;
    };
    match index_of(token) {
        Some(index) => elements.len().saturating_sub(index),
        None => 0,
    }
}
