//! The operations of a JSON Patch (RFC 6902 section 4).
ghost use Rattle.std.specs.Prelude.{◌≡◌, ◌<◌, ◌+◌, ◌↔◌, IfOk, IsTrue, MatchOption};
ghost use Rattle.mp_patch.specs.View.{operation_by};
ghost use Rattle.mp_patch.specs.Weight.{operation_weight};

use mp_pointer::Pointer;
use mp_tree::{Doc, Node, left_of};
use std::alloc::{AllocError, Global};

/// One operation of a JSON Patch (RFC 6902 section 4), with the place where it works. Its value is a `Doc`, or another `Node`, as
/// the `Value` that `serde_json` reads.
#[derive(Debug, Drop)]
pub enum Op<T = Doc> {
    /// The value is added at the place: the document itself, a member of an object, or an element that is inserted
    /// into an array (section 4.1).
    Add(Pointer, T),
    /// What is at the place goes away (section 4.2).
    Remove(Pointer),
    /// What is at the place becomes the value (section 4.3).
    Replace(Pointer, T),
    /// What is at `origin` is removed, and added at `path` in the document that is left (section 4.4). If both
    /// are one place, the document stays as it is. `origin` is the member `from`.
    Move {
        /// The pointer to the part that moves.
        origin: Pointer,
        /// The pointer to its new place.
        path: Pointer,
    },
    /// What is at `origin` is added at `path` too (section 4.5).
    Copy {
        /// The pointer to the part that is copied.
        origin: Pointer,
        /// The pointer to the place of the copy.
        path: Pointer,
    },
    /// What is at the place has to equal the value (section 4.6).
    Test(Pointer, T),
}

impl<T: Node> Op<T> {
    /// An equal operation, which shares nothing with this one. `AllocError` if memory runs out.
    ///
    /// It copies each pointer, and the value if the operation has one.
    ///
    /// ```text
    /// op.copy(alloc)?.same(&op)  // true
    /// ```
    pub fn copy(&self, alloc: Global) -> Result<Op<T>, AllocError>
        ensures equal { IfOk result (λ op. operation_by T.means op
            ≡ operation_by T.means self.now) }
    {
        match self {
            Op::Add(path, value) => Ok(Op::Add(path.copy(alloc)?, value.copied(alloc)?)),
            Op::Remove(path) => Ok(Op::Remove(path.copy(alloc)?)),
            Op::Replace(path, value) => Ok(Op::Replace(path.copy(alloc)?, value.copied(alloc)?)),
            Op::Move { origin, path } => Ok(Op::Move {
                origin: origin.copy(alloc)?,
                path: path.copy(alloc)?,
            }),
            Op::Copy { origin, path } => Ok(Op::Copy {
                origin: origin.copy(alloc)?,
                path: path.copy(alloc)?,
            }),
            Op::Test(path, value) => Ok(Op::Test(path.copy(alloc)?, value.copied(alloc)?)),
        }
    }

    /// Whether the two are one operation: of one kind, with the same pointers, and with values that
    /// mean equal documents.
    ///
    /// It takes no memory, looks at each part once at most, and stops at the first difference.
    ///
    /// ```text
    /// // where `one` is Op::Remove of `/a`, and `two` is Op::Remove of `/b`
    /// one.same(&two)  // false
    /// ```
    pub fn same(&self, other: &Op<T>) -> bool
        ensures same { IsTrue result
            ↔ (operation_by T.means self.now ≡ operation_by T.means other.now) }
    {
        match (self, other) {
            (Op::Add(path, value), Op::Add(other_path, other_value)) => {
                are_equal(path, other_path) && value.equals(other_value)
            }
            (Op::Remove(path), Op::Remove(other_path)) => are_equal(path, other_path),
            (Op::Replace(path, value), Op::Replace(other_path, other_value)) => {
                are_equal(path, other_path) && value.equals(other_value)
            }
            (
                Op::Move { origin, path },
                Op::Move {
                    origin: other_origin,
                    path: other_path,
                },
            ) => are_equal(origin, other_origin) && are_equal(path, other_path),
            (
                Op::Copy { origin, path },
                Op::Copy {
                    origin: other_origin,
                    path: other_path,
                },
            ) => are_equal(origin, other_origin) && are_equal(path, other_path),
            (Op::Test(path, value), Op::Test(other_path, other_value)) => {
                are_equal(path, other_path) && value.equals(other_value)
            }
            _ => false,
        }
    }

    /// What remains of a budget in bytes once the weight of this operation is taken from it: that of its places, as
    /// `Pointer::left_of` has it, and that of its value, as `Doc::left_of` has it. None exactly if that is more than the budget.
    ///
    /// It takes no memory, looks at each part once at most, and stops at the first part that is too heavy.
    ///
    /// ```text
    /// op.left_of(200)  // Some(62), where `op` is Op::Remove of `/a`
    /// ```
    pub fn left_of(&self, budget: usize) -> Option<usize>
        ensures left { let o = operation_by T.means self.now in
            MatchOption result (budget < operation_weight o)
            (λ left. left + operation_weight o ≡ budget) }
    {
        match self {
            Op::Add(path, value) | Op::Replace(path, value) | Op::Test(path, value) => {
                left_of(value, path.left_of(budget)?)
            }
            Op::Remove(path) => path.left_of(budget),
            Op::Move { origin, path } | Op::Copy { origin, path } => {
                path.left_of(origin.left_of(budget)?)
            }
        }
    }
}

// Equality of pointers, in the words of the clause of `same`.
fn are_equal(pointer: &Pointer, other: &Pointer) -> bool
    ensures { IsTrue result ↔ (pointer.now ≡ other.now) }
{
    pointer == other
}
