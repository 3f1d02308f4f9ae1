//! What a replica does with a decision that arrives, perhaps early, late or more than once.
ghost use Rattle.std.specs.Prelude.{◌≡◌, ◌≢◌, IsOk, IfErr, OnOk, OnErr};
ghost use Rattle.mp_replica.specs.PatchLog.{Begins, IsDecideFault};

use mp_replica::{DecideFault, Identity, PatchLog};
use std::alloc::Global;

// What the places of a conflict that are reported weigh at most, in bytes.
const PLACES_BOUND: usize = 65_536;

/// Follows the decision that the start with this number ends with the chosen patches. A decision about another start changes
/// nothing: one about an earlier start was followed before, and one about a later start waits for that.
pub fn follow_decision(
    alloc: Global,
    log: &mut PatchLog,
    epoch: u64,
    chosen: &[Identity],
) -> Result<(), DecideFault>
    ensures begins { epoch ≡ log.old.epoch → OnOk result (Begins log.old chosen.now log.new) }
    ensures refused { IfErr result (λ fault. IsDecideFault 65536 fault log.old chosen.now) }
    ensures other { epoch ≢ log.old.epoch → IsOk result × (log.new ≡ log.old) }
    ensures unchanged { OnErr result (log.new ≡ log.old) }
{
    if epoch != log.epoch() {
        return Ok(());
    }
    log.decide(alloc, chosen, PLACES_BOUND)
}
