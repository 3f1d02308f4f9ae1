//! Why a patch log begins no new start, with the numbers at which the chosen patches stand.
ghost use Rattle.std.specs.List.{Contains};
ghost use Rattle.mp_replica.specs.PatchLog.{HeldLog, IsDecideFault};
ghost use Rattle.mp_c.specs.OnLogs.{IsLeastNumber, IsUndecided};
ghost use Rattle.mp_c.specs.Replies.{DecideReplies};

use crate::replying::{Clash, MISSING, REFUSED, Reply, report_no_memory, report_places, write};
use mp_replica::{DecideFault, Identity};
use std::alloc::Global;

// Why no new start is begun, by numbers in place of identities.
pub(crate) fn report_undecided(
    alloc: Global,
    fault: DecideFault,
    chosen: &[Identity],
    out: &mut [u8],
    limit: usize,
) -> Reply
    ensures { (log : HeldLog) → IsDecideFault limit fault log chosen.now
        → DecideReplies (IsUndecided limit log chosen.now) result out.old out.new }
{
    match fault {
        DecideFault::NotReceived(identity) => {
            write(MISSING, number_of(identity, chosen), "missing", out)
        }
        DecideFault::Conflict {
            first,
            second,
            conflicts,
        } => {
            let clash = Clash {
                numbers: Some((number_of(first, chosen), number_of(second, chosen))),
                total: conflicts.total,
                more: false,
            };
            report_places(alloc, clash, conflicts.places.as_slice(), out, limit)
        }
        DecideFault::LastEpoch => write(REFUSED, 0, "no number is left for a start", out),
        DecideFault::OutOfMemory => report_no_memory(out),
    }
}

// The least number at which the identity stands; how many there are if it stands nowhere.
fn number_of(identity: Identity, chosen: &[Identity]) -> usize
    ensures { Contains chosen.now identity → IsLeastNumber chosen.now identity result }
{
    for number in 0..chosen.len() {
        if chosen[number] == identity {
            return number;
        }
    }
    chosen.len()
}
