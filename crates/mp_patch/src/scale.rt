// What a document weighs, and what the operations that follow may do.
ghost use Rattle.std.specs.Prelude.{◌≡◌, ◌+◌, ◌≤◌, ◌<◌, IfOk, MatchOption};
ghost use Rattle.mp_patch.specs.Private.Within.{IsScale};

use crate::weighing::whole_weight;
use mp_tree::Node;
use std::alloc::AllocError;

// So much work is allowed for each byte of a limit.
const WORK_FACTOR: u128 = 16;

// What a document weighs, what a result may weigh, and what work is left.
#[derive(Clone, Copy, Drop)]
pub(crate) struct Scale {
    pub(crate) weight: usize,
    pub(crate) limit: usize,
    pub(crate) work: u128,
}

impl Scale {
    // Before the first operation. None if the limit bounds nothing: then nothing is weighed. `AllocError` as `whole_weight` has it.
    pub(crate) fn of<T: Node>(node: &T, limit: usize) -> Result<Option<Scale>, AllocError>
        ensures { IfOk result (λ scale. IsScale limit 0 scale (T.means node.now)) }
    {
        if limit == usize::MAX {
            return Ok(None);
        }
        Ok(Some(Scale {
            weight: whole_weight(node)?,
            limit,
            work: WORK_FACTOR * limit as u128,
        }))
    }

    // The scale once the document weighs so much, and so much work is done. None if that is more than what is left.
    pub(crate) fn after(self, weight: usize, work: u128) -> Option<Scale>
        ensures { MatchOption result (self.work < work)
            (λ next. (next.weight ≡ weight) × (next.limit ≡ self.limit)
            × (next.work + work ≡ self.work)) }
    {
        Some(Scale {
            weight,
            limit: self.limit,
            work: self.work.checked_sub(work)?,
        })
    }

    // The scale after an operation that changes nothing. None if the document weighs more than the limit.
    pub(crate) fn unchanged(self) -> Option<Scale>
        ensures { MatchOption result (self.limit < self.weight)
            (λ next. (next ≡ self) × (self.weight ≤ self.limit)) }
    {
        if self.weight <= self.limit {
            Some(self)
        } else {
            None
        }
    }
}
