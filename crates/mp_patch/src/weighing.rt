// What a document weighs once an operation is done, found before it is done: nothing is allocated.
ghost use Rattle.std.specs.Prelude.{◌≡◌, ◌≢◌, ◌≤◌, ◌<◌, ◌+◌, length, MatchOption, IfOk, Some};
ghost use Rattle.mp_tree.specs.Document.{Document, IsDocument};
ghost use Rattle.mp_tree.specs.Weight.{name_weight, weight};
ghost use Rattle.mp_patch.specs.Operation.{add as add_operation, remove as remove_operation, replace as replace_operation, test as test_operation};
ghost use Rattle.mp_patch.specs.Refusal.{HasNoPlace, LacksPlace};
ghost use Rattle.mp_patch.specs.Private.Bounds.{Bounds};
ghost use Rattle.mp_patch.specs.Private.Exchange.{IsExchange, TakesAt, gives_at, takes_at};
ghost use Rattle.mp_patch.specs.Private.Within.{Fits, Judges};
ghost use Rattle.mp_patch.specs.View.{operation_by};

use crate::bound::DepthBound;
use crate::containers::index_in;
use crate::op::Op;
use crate::parts::part_at;
use crate::scale::Scale;
use crate::steps::last_token;
use mp_pointer::{Pointer, part_in};
use mp_tree::{Node, left_of, left_of_name};
use std::alloc::AllocError;

// What the document weighs once the operation, which is no move, is done, if that is not refused: None if it is not refused, and the weight is more than
// the limit. If it is refused, the number says nothing. Only a value that weighs too much is asked for its depth.
pub(crate) fn judge<T: Node>(
    op: &Op<T>,
    doc: &T,
    bound: &mut DepthBound,
    scale: Scale,
) -> Option<usize>
    requires documents { (d : T) → IsDocument (T.means d) }
    requires change { (s t : _) → op.now ≢ Op.Move s t }
    requires weight { scale.weight ≡ weight (T.means doc.now) }
    ensures judged { Judges scale.limit result (T.means doc.now) (operation_by T.means op.now) }
    ensures kept { (d : Document) → Bounds bound.old.most 0 d → Bounds bound.new.most 0 d }
{
    match op {
        Op::Add(path, value) => judge_addition(doc, path, value, bound, scale),
        Op::Remove(path) => judge_removal(doc, path, scale),
        Op::Replace(path, value) => judge_replacement(doc, path, value, bound, scale),
        Op::Move { .. } => unreachable!(),
        Op::Copy { origin, path } => match part_at(doc, origin) {
            Some(part) => judge_addition(doc, path, part, bound, scale),
            None => Some(scale.weight),
        },
        Op::Test(path, value) => judge_test(doc, path, value, scale),
    }
}

// The same of a part that was taken out of the document, and is added to what was left: `weight` counts it too.
pub(crate) fn judge_arrival<T: Node>(
    left: &T,
    path: &Pointer,
    fits: bool,
    scale: Scale,
) -> Option<usize>
    requires documents { (d : T) → IsDocument (T.means d) }
    requires weight { weight (T.means left.now) ≤ scale.weight }
    ensures { (v : Document) → IsDocument v
        → weight (T.means left.now) + weight v ≡ scale.weight
        → Fits fits path.now v
        → Judges scale.limit result (T.means left.now) (add_operation path.now v) }
{
    if !fits {
        return Some(scale.weight);
    }
    match exchange(left, path, scale.weight) {
        Some((gives, takes)) => sum_within(scale.weight - gives, takes, scale.limit),
        None => Some(scale.weight),
    }
}

fn judge_addition<T: Node>(
    doc: &T,
    path: &Pointer,
    value: &T,
    bound: &mut DepthBound,
    scale: Scale,
) -> Option<usize>
    requires documents { (d : T) → IsDocument (T.means d) }
    requires weight { scale.weight ≡ weight (T.means doc.now) }
    ensures judged { Judges scale.limit result (T.means doc.now)
        (add_operation path.now (T.means value.now)) }
    ensures kept { (d : Document) → Bounds bound.old.most 0 d → Bounds bound.new.most 0 d }
{
    let Some((gives, takes)) = exchange(doc, path, scale.weight) else {
        return Some(scale.weight);
    };
    match weight_with(value, scale.weight - gives, takes, scale.limit) {
        Some(next) => Some(next),
        None => if bound.admit(value, path.len()) {
            None
        } else {
            Some(scale.weight)
        },
    }
}

fn judge_removal<T: Node>(doc: &T, path: &Pointer, scale: Scale) -> Option<usize>
    requires documents { (d : T) → IsDocument (T.means d) }
    requires weight { scale.weight ≡ weight (T.means doc.now) }
    ensures { Judges scale.limit result (T.means doc.now) (remove_operation path.now) }
{
    if path.is_empty() {
        return Some(scale.weight);
    }
    match part_at(doc, path) {
        Some(part) => {
            let unnamed = scale.weight - name_at(doc, path);
            at_most(unnamed - weight_of(part, unnamed), scale.limit)
        }
        None => Some(scale.weight),
    }
}

fn judge_replacement<T: Node>(
    doc: &T,
    path: &Pointer,
    value: &T,
    bound: &mut DepthBound,
    scale: Scale,
) -> Option<usize>
    requires documents { (d : T) → IsDocument (T.means d) }
    requires weight { scale.weight ≡ weight (T.means doc.now) }
    ensures judged { Judges scale.limit result (T.means doc.now)
        (replace_operation path.now (T.means value.now)) }
    ensures kept { (d : Document) → Bounds bound.old.most 0 d → Bounds bound.new.most 0 d }
{
    let Some(part) = part_at(doc, path) else {
        return Some(scale.weight);
    };
    match weight_with(
        value,
        scale.weight - weight_of(part, scale.weight),
        0,
        scale.limit,
    ) {
        Some(next) => Some(next),
        None => if bound.admit(value, path.len()) {
            None
        } else {
            Some(scale.weight)
        },
    }
}

fn judge_test<T: Node>(doc: &T, path: &Pointer, value: &T, scale: Scale) -> Option<usize>
    requires { scale.weight ≡ weight (T.means doc.now) }
    ensures { Judges scale.limit result (T.means doc.now)
        (test_operation path.now (T.means value.now)) }
{
    if scale.weight <= scale.limit {
        return Some(scale.weight);
    }
    match part_at(doc, path) {
        Some(part) if part.equals(value) => None,
        _ => Some(scale.weight),
    }
}

// What a value that is added at the place gives back, and what it takes besides its own weight. None if there is no
// place.
fn exchange<T: Node>(doc: &T, path: &Pointer, limit: usize) -> Option<(usize, usize)>
    requires documents { (d : T) → IsDocument (T.means d) }
    requires weight { weight (T.means doc.now) ≤ limit }
    ensures { MatchOption result (HasNoPlace (T.means doc.now) path.now)
        (λ x. IsExchange (T.means doc.now) path.now x.0 x.1) }
{
    let Some((last, token)) = last_token(path) else {
        return Some((weight_of(doc, limit), 0));
    };
    match part_in(doc, path, last) {
        Some(container) => exchange_in(container, token, limit),
        None => None,
    }
}

fn exchange_in<T: Node>(container: &T, token: &str, limit: usize) -> Option<(usize, usize)>
    requires { weight (T.means container.now) ≤ limit }
    ensures { MatchOption result (LacksPlace token.now (Some (T.means container.now)))
        (λ x. (¬ LacksPlace token.now (Some (T.means container.now)))
        × (x.0 ≡ gives_at token.now (T.means container.now))
        × (x.1 ≡ takes_at token.now (T.means container.now))) }
{
    if let Some(elements) = container.items() {
        index_in(elements.len(), token)?;
        return Some((0, 0));
    }
    let entries = container.members()?;
    let takes = weight_of_name(token);
    match entries.get(token) {
        Some(old) => Some((takes + weight_of(old, limit), takes)),
        None => Some((0, takes)),
    }
}

// What the place takes besides the value: the weight of its name, if it is in an object.
pub(crate) fn name_at<T: Node>(doc: &T, path: &Pointer) -> usize
    ensures { TakesAt (T.means doc.now) path.now result }
{
    let Some((last, token)) = last_token(path) else {
        return 0;
    };
    match part_in(doc, path, last) {
        Some(container) => name_in(container, token),
        None => 0,
    }
}

fn name_in<T: Node>(container: &T, token: &str) -> usize
    ensures { result ≡ takes_at token.now (T.means container.now) }
{
    if container.members().is_some() {
        weight_of_name(token)
    } else {
        0
    }
}

// The weight of a node. `AllocError` if it is over `usize::MAX`: there is no memory for so much.
pub(crate) fn whole_weight<T: Node>(node: &T) -> Result<usize, AllocError>
    ensures { IfOk result (λ n. n ≡ weight (T.means node.now)) }
{
    match left_of(node, usize::MAX) {
        Some(left) => Ok(usize::MAX - left),
        None => Err(AllocError),
    }
}

// The weight of a node that weighs no more than the limit.
pub(crate) fn weight_of<T: Node>(node: &T, limit: usize) -> usize
    requires { weight (T.means node.now) ≤ limit }
    ensures { result ≡ weight (T.means node.now) }
{
    limit - left_of(node, limit).unwrap()
}

// The weight of a name beside its value.
fn weight_of_name(name: &str) -> usize
    ensures { result ≡ name_weight + length name.now }
{
    usize::MAX - left_of_name(name, usize::MAX).unwrap()
}

// What the value weighs together with what is left and with a name. None if that is more than the limit.
fn weight_with<T: Node>(value: &T, left: usize, named: usize, limit: usize) -> Option<usize>
    ensures { MatchOption result (limit < left + named + weight (T.means value.now))
        (λ n. (n ≡ left + named + weight (T.means value.now)) × (n ≤ limit)) }
{
    let unused = left_of(value, limit.checked_sub(left)?.checked_sub(named)?)?;
    Some(limit - unused)
}

fn sum_within(weight: usize, more: usize, limit: usize) -> Option<usize>
    ensures { MatchOption result (limit < weight + more)
        (λ n. (n ≡ weight + more) × (n ≤ limit)) }
{
    let left = limit.checked_sub(weight)?.checked_sub(more)?;
    Some(limit - left)
}

fn at_most(weight: usize, limit: usize) -> Option<usize>
    ensures { MatchOption result (limit < weight) (λ n. (n ≡ weight) × (n ≤ limit)) }
{
    if weight <= limit { Some(weight) } else { None }
}
