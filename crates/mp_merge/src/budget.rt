//! A limit in bytes on what a walk makes, and what is left of it.
ghost use Rattle.std.specs.Prelude.{◌≡◌, ◌↔◌, ◌+◌, IsTrue};
ghost use Rattle.mp_tree.specs.Weight.{weight};
ghost use Rattle.mp_pointer.specs.Weight.{place_weight};
ghost use Rattle.mp_patch.specs.View.{operation_of};
ghost use Rattle.mp_patch.specs.Weight.{operation_weight};
ghost use Rattle.mp_merge.specs.Private.Budgets.{IsBudget, budget_of, left_after};

use mp_patch::Op;
use mp_pointer::Pointer;
use mp_tree::{Node, left_of};

/// What a walk may still make.
#[derive(Clone, Copy)]
pub(crate) enum Budget {
    /// Anything: there is no limit.
    Unlimited,
    /// What weighs at most that many bytes.
    Left(usize),
    /// Nothing more, since something weighed more than what was left.
    Over,
}

impl Budget {
    // That of a call with this limit in bytes. `usize::MAX` is none, and then nothing is weighed.
    pub(crate) fn within(limit: usize) -> Budget
        ensures { IsBudget limit result }
    {
        if limit == usize::MAX {
            return Budget::Unlimited;
        }
        Budget::Left(limit)
    }

    pub(crate) fn is_over(self) -> bool
        ensures { IsTrue result ↔ (self ≡ Budget.Over) }
    {
        matches!(self, Budget::Over)
    }

    // What is left once a place is taken from it.
    pub(crate) fn after_place(self, place: &Pointer) -> Budget
        ensures { result ≡ left_after (place_weight place.now) self }
    {
        match self {
            Budget::Left(budget) => left_or_over(place.left_of(budget)),
            _ => self,
        }
    }

    // What is left once a document is taken from it.
    pub(crate) fn after_node<T: Node>(self, node: &T) -> Budget
        ensures { result ≡ left_after (weight (T.means node.now)) self }
    {
        match self {
            Budget::Left(budget) => left_or_over(left_of(node, budget)),
            _ => self,
        }
    }

    // What is left once an operation is taken from it.
    pub(crate) fn after_op(self, op: &Op) -> Budget
        ensures { result ≡ left_after (operation_weight (operation_of op.now)) self }
    {
        match op {
            Op::Add(path, value) => self.after_place(path).after_node(value),
            Op::Replace(path, value) => self.after_place(path).after_node(value),
            Op::Test(path, value) => self.after_place(path).after_node(value),
            Op::Remove(path) => self.after_place(path),
            Op::Move { origin, path } => self.after_place(origin).after_place(path),
            Op::Copy { origin, path } => self.after_place(origin).after_place(path),
        }
    }
}

fn left_or_over(left: Option<usize>) -> Budget
    ensures { result ≡ budget_of left }
{
    match left {
        Some(left) => Budget::Left(left),
        None => Budget::Over,
    }
}
