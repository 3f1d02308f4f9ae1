// How many bytes the text of a patch has, found without writing it: nothing is allocated, and the first part that is too long ends it.
ghost use Rattle.std.specs.Prelude.{◌≡◌, ◌<◌, ◌≤◌, ◌+◌, ◌-◌, ◌^◌, ◌⊎◌, length, MatchBool, MatchOption};
ghost use Rattle.mp_tree.specs.Text.{text};
ghost use Rattle.mp_patch.specs.Form.{shapes};
ghost use Rattle.mp_patch.specs.Private.Lengths.{origin_length, shape_length, value_length};
ghost use Rattle.mp_patch.specs.View.{operations_of};

use crate::op::Op;
use crate::shape::{Shape, shape_of};

// Of `{"op":"","path":}`.
const COMMON_LENGTH: usize = 17;

// Of `"from":,`.
const ORIGIN_LENGTH: usize = 8;

// Of `"value":,`.
const VALUE_LENGTH: usize = 9;

// Whether the text of the operations has more bytes than the limit. With `usize::MAX` nothing is measured.
pub(crate) fn is_longer(ops: &[Op], limit: usize) -> bool
    ensures { MatchBool result (limit < length (text (shapes (operations_of ops.now))))
        ((limit ≡ 2 ^ 64 - 1) ⊎ (length (text (shapes (operations_of ops.now))) ≤ limit)) }
{
    if limit == usize::MAX {
        return false;
    }
    left_of_text(ops, limit).is_none()
}

// What remains of so many bytes after the text. None if it has more.
fn left_of_text(ops: &[Op], budget: usize) -> Option<usize>
    ensures { MatchOption result (budget < length (text (shapes (operations_of ops.now))))
        (λ left. left + length (text (shapes (operations_of ops.now))) ≡ budget) }
{
    if ops.is_empty() {
        return budget.checked_sub(2);
    }
    let mut left = budget.checked_sub(1)?;
    for op in ops {
        left = left_of_shape(&shape_of(op), left)?.checked_sub(1)?;
    }
    Some(left)
}

// The same, of one operation.
fn left_of_shape(shape: &Shape<'_>, budget: usize) -> Option<usize>
    ensures { MatchOption result (budget < shape_length shape.now)
        (λ left. left + shape_length shape.now ≡ budget) }
{
    let left = budget.checked_sub(COMMON_LENGTH)?;
    let named = left.checked_sub(shape.name.as_str().len())?;
    let placed = shape.path.left_of_text(named)?;
    left_of_value(shape, left_of_origin(shape, placed)?)
}

// What remains of so many bytes after the member `from`, if there is one.
fn left_of_origin(shape: &Shape<'_>, budget: usize) -> Option<usize>
    ensures { MatchOption result (budget < origin_length shape.now.origin)
        (λ left. left + origin_length shape.now.origin ≡ budget) }
{
    match shape.origin {
        Some(origin) => origin.left_of_text(budget.checked_sub(ORIGIN_LENGTH)?),
        None => Some(budget),
    }
}

// What remains of so many bytes after the member `value`, if there is one.
fn left_of_value(shape: &Shape<'_>, budget: usize) -> Option<usize>
    ensures { MatchOption result (budget < value_length shape.now.value)
        (λ left. left + value_length shape.now.value ≡ budget) }
{
    match shape.value {
        Some(value) => value.left_of_text(budget.checked_sub(VALUE_LENGTH)?),
        None => Some(budget),
    }
}
