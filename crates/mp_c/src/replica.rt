//! Exports on a replica that stays in memory.
#![tactic(auto, using(crate::proofs::Started::not_started))]

ghost use Rattle.std.specs.Prelude.{◌≡◌, None};
ghost use Rattle.mp_c.specs.OnHandles.{HasReceived, IsStarted, OfStarted, ShowsDocument, ShowsJoin, ShowsPart};
ghost use Rattle.mp_c.specs.Private.Reporting.{ReportsConflicts, live_answer};
ghost use Rattle.mp_c.specs.Replies.{HandleReplies};
ghost use Rattle.mp_c.specs.Report.{a_document, a_patch};

use crate::replica_handle::ReplicaHandle;
use crate::replying::{
    Clash, Reply, report_live, report_live_fault, report_no_memory, report_not_started,
    report_not_utf8, report_places, report_unread_text, write_result,
};
use mp_merge::Conflicts;
use mp_replica::{LiveFault, Received, Replica};
use std::alloc::{AllocError, Global};

/// Starts a replica from the text of a document, in the place of one that was started before.
#[unsafe(no_mangle)]
pub extern "C" fn mergejoin_replica_start(
    alloc: Global,
    replica: &mut ReplicaHandle,
    start: &[u8],
    out: &mut [u8],
    limit: usize,
) -> Reply
    ensures { HandleReplies limit a_document
        (λ answer. IsStarted start.now replica.old.value answer replica.new.value)
        result out.old out.new }
{
    let started = match Replica::from_text(alloc, start) {
        Ok(started) => started,
        Err(fault) => return report_unread_text(alloc, fault, None, start, out),
    };
    let Ok(held) = Box::new(alloc, started) else {
        return report_no_memory(out);
    };
    replica.put(alloc, held);
    write_result("", out, limit)
}

/// Receives the patch of a text, as `mp_replica::Replica::receive_text` does.
#[unsafe(no_mangle)]
pub extern "C" fn mergejoin_replica_receive(
    alloc: Global,
    replica: &mut ReplicaHandle,
    patch: &[u8],
    out: &mut [u8],
    limit: usize,
) -> Reply
    ensures { HandleReplies limit a_patch
        (λ answer. OfStarted (HasReceived limit patch.now) replica.old.value answer
        replica.new.value)
        result out.old out.new }
{
    let Some(mut held) = replica.take(alloc) else {
        return report_not_started(out);
    };
    let reply = receive(alloc, &mut held, patch, out, limit);
    replica.put(alloc, held);
    reply
}

fn receive(
    alloc: Global,
    replica: &mut Replica,
    patch: &[u8],
    out: &mut [u8],
    limit: usize,
) -> Reply
    ensures { HandleReplies limit a_patch
        (λ answer. HasReceived limit patch.now replica.old answer replica.new)
        result out.old out.new }
{
    let received = match replica.receive_text(alloc, patch) {
        Ok(received) => received,
        Err(fault) => return report_unread_text(alloc, fault, Some(0), patch, out),
    };
    match received {
        Received::Taken => write_result("", out, limit),
        Received::Conflict(back) => {
            let found = replica.conflicts_within(alloc, &back, limit);
            report_conflicts(alloc, found, out, limit)
        }
        Received::Pending => report_live_fault(alloc, LiveFault::Pending, Some(0), out),
        Received::Refused => report_no_memory(out),
    }
}

// Where a patch conflicts with what was received. It is a conflict still if there is no memory for the places.
fn report_conflicts(
    alloc: Global,
    found: Result<Conflicts, AllocError>,
    out: &mut [u8],
    limit: usize,
) -> Reply
    ensures { ReportsConflicts limit found result out.old out.new }
{
    match found {
        Ok(Conflicts { places, total }) => {
            let clash = Clash {
                numbers: None,
                total,
                more: false,
            };
            report_places(alloc, clash, places.as_slice(), out, limit)
        }
        Err(_) => report_live_fault(alloc, LiveFault::Conflict, Some(0), out),
    }
}

/// The text of what a replica shows.
#[unsafe(no_mangle)]
pub extern "C" fn mergejoin_replica_document(
    alloc: Global,
    replica: &mut ReplicaHandle,
    out: &mut [u8],
    limit: usize,
) -> Reply
    ensures { HandleReplies limit a_document
        (λ answer. OfStarted (ShowsDocument limit) replica.old.value answer replica.new.value)
        result out.old out.new }
{
    let Some(mut held) = replica.take(alloc) else {
        return report_not_started(out);
    };
    let answer = document(alloc, &mut held, limit);
    replica.put(alloc, held);
    report_live(alloc, answer, out, limit)
}

fn document(alloc: Global, replica: &mut Replica, limit: usize) -> Result<String, LiveFault>
    ensures { ShowsDocument limit replica.old (live_answer result) replica.new }
{
    let _settled = replica.settle(alloc);
    replica.document_text(alloc, limit)
}

/// The text of the join of what a replica received.
#[unsafe(no_mangle)]
pub extern "C" fn mergejoin_replica_joined(
    alloc: Global,
    replica: &mut ReplicaHandle,
    out: &mut [u8],
    limit: usize,
) -> Reply
    ensures { HandleReplies limit a_document
        (λ answer. OfStarted (ShowsJoin limit) replica.old.value answer replica.new.value)
        result out.old out.new }
{
    let Some(mut held) = replica.take(alloc) else {
        return report_not_started(out);
    };
    let answer = joined(alloc, &mut held, limit);
    replica.put(alloc, held);
    report_live(alloc, answer, out, limit)
}

fn joined(alloc: Global, replica: &mut Replica, limit: usize) -> Result<String, LiveFault>
    ensures { ShowsJoin limit replica.old (live_answer result) replica.new }
{
    let _settled = replica.settle(alloc);
    replica.joined_text(alloc, limit)
}

/// The text of the part of what a replica shows that the pointer names (RFC 6901).
#[unsafe(no_mangle)]
pub extern "C" fn mergejoin_replica_get(
    alloc: Global,
    replica: &mut ReplicaHandle,
    pointer: &[u8],
    out: &mut [u8],
    limit: usize,
) -> Reply
    ensures { HandleReplies limit a_document
        (λ answer. OfStarted (ShowsPart limit pointer.now) replica.old.value answer
        replica.new.value)
        result out.old out.new }
{
    let Some(mut held) = replica.take(alloc) else {
        return report_not_started(out);
    };
    let reply = part(alloc, &mut held, pointer, out, limit);
    replica.put(alloc, held);
    reply
}

fn part(alloc: Global, replica: &mut Replica, pointer: &[u8], out: &mut [u8], limit: usize) -> Reply
    ensures { HandleReplies limit a_document
        (λ answer. ShowsPart limit pointer.now replica.old answer replica.new)
        result out.old out.new }
{
    match str::from_utf8(pointer) {
        Ok(pointer) => {
            let _settled = replica.settle(alloc);
            report_live(alloc, replica.get_text(alloc, pointer, limit), out, limit)
        }
        Err(fault) => report_not_utf8(alloc, fault.valid_up_to(), out),
    }
}

/// Frees the replica, if one is held.
#[unsafe(no_mangle)]
pub extern "C" fn mergejoin_replica_free(alloc: Global, replica: &mut ReplicaHandle)
    ensures { replica.new.value ≡ None }
{
    let _freed = replica.take(alloc);
}
