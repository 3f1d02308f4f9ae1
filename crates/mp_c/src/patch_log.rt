//! Exports on a patch log that stays in memory.
#![tactic(auto, using(crate::proofs::Started::not_started))]

ghost use Rattle.std.specs.Prelude.{◌≡◌, None, Some};
ghost use Rattle.mp_c.specs.OnHandles.{OfStarted};
ghost use Rattle.mp_c.specs.OnLogs.{Decides, GivesConflicts, GivesCount, GivesLogDocument, HasDecided, IsStartedLog, OnlyReads, SaysArrival, arrival_word};
ghost use Rattle.mp_c.specs.Private.Reporting.{ReportsPairs, live_answer};
ghost use Rattle.mp_c.specs.Replies.{DecideReplies, HandleReplies};
ghost use Rattle.mp_c.specs.Report.{a_document, a_patch};

use crate::patch_log_handle::PatchLogHandle;
use crate::replying::{
    RESULT, Reply, report_live, report_live_fault, report_no_memory, report_not_started,
    report_unread_text, write, write_first, write_result,
};
use crate::undecided::report_undecided;
use mp_replica::{Arrival, Identity, LiveFault, PairsText, PatchLog};
use mp_tree::{Doc, Whole, write_doc};
use std::alloc::Global;

/// Starts a patch log from the text of a document and the number of that start, in the place of one that was started before.
#[unsafe(no_mangle)]
pub extern "C" fn mergejoin_patch_log_start(
    alloc: Global,
    log: &mut PatchLogHandle,
    epoch: u64,
    start: &[u8],
    out: &mut [u8],
    limit: usize,
) -> Reply
    ensures { HandleReplies limit a_document
        (λ answer. IsStartedLog epoch start.now log.old.value answer log.new.value)
        result out.old out.new }
{
    let started = match PatchLog::from_text(alloc, epoch, start) {
        Ok(started) => started,
        Err(fault) => return report_unread_text(alloc, fault, None, start, out),
    };
    let Ok(held) = Box::new(alloc, started) else {
        return report_no_memory(out);
    };
    log.put(alloc, held);
    write_result("", out, limit)
}

/// Receives the message whose patch is a text, as `mp_replica::PatchLog::receive_text` does.
#[unsafe(no_mangle)]
pub extern "C" fn mergejoin_patch_log_receive(
    alloc: Global,
    log: &mut PatchLogHandle,
    epoch: u64,
    sender: u64,
    number: u64,
    patch: &[u8],
    out: &mut [u8],
    limit: usize,
) -> Reply
    ensures { HandleReplies limit a_patch
        (λ answer. OfStarted
        (SaysArrival epoch (record { sender = sender; number = number }) patch.now)
        log.old.value answer log.new.value)
        result out.old out.new }
{
    let Some(mut held) = log.take(alloc) else {
        return report_not_started(out);
    };
    let identity = Identity { sender, number };
    let reply = receive(alloc, &mut held, epoch, identity, patch, out, limit);
    log.put(alloc, held);
    reply
}

// The word takes no memory, so that none can run out once the patch is stored.
fn receive(
    alloc: Global,
    log: &mut PatchLog,
    epoch: u64,
    identity: Identity,
    patch: &[u8],
    out: &mut [u8],
    limit: usize,
) -> Reply
    ensures { HandleReplies limit a_patch
        (λ answer. SaysArrival epoch identity patch.now log.old answer log.new)
        result out.old out.new }
{
    match log.receive_text(alloc, epoch, identity, patch) {
        Ok(arrival) => write_result(word_of(arrival), out, limit),
        Err(fault) => report_unread_text(alloc, fault, Some(0), patch, out),
    }
}

fn word_of(arrival: Arrival) -> &'static str
    ensures { result.now ≡ arrival_word arrival }
{
    match arrival {
        Arrival::Stored => "stored",
        Arrival::Repeat => "repeat",
        Arrival::Late => "late",
        Arrival::Early => "early",
    }
}

/// The text of what a patch log shows.
#[unsafe(no_mangle)]
pub extern "C" fn mergejoin_patch_log_document(
    alloc: Global,
    log: &mut PatchLogHandle,
    out: &mut [u8],
    limit: usize,
) -> Reply
    ensures { HandleReplies limit a_document
        (λ answer. OfStarted (OnlyReads (GivesLogDocument limit)) log.old.value answer
        log.new.value)
        result out.old out.new }
{
    let Some(mut held) = log.take(alloc) else {
        return report_not_started(out);
    };
    let answer = document(alloc, &mut held, limit);
    log.put(alloc, held);
    report_live(alloc, answer, out, limit)
}

fn document(alloc: Global, log: &mut PatchLog, limit: usize) -> Result<String, LiveFault>
    ensures { OnlyReads (GivesLogDocument limit) log.old (live_answer result) log.new }
{
    log.document_text(alloc, limit)
}

/// The text of each two patches of a log that conflict, as `mp_replica::PatchLog::conflicts_text_within` gives it.
#[unsafe(no_mangle)]
pub extern "C" fn mergejoin_patch_log_conflicts(
    alloc: Global,
    log: &mut PatchLogHandle,
    out: &mut [u8],
    limit: usize,
) -> Reply
    ensures { HandleReplies limit a_document
        (λ answer. OfStarted (OnlyReads (GivesConflicts None limit)) log.old.value answer
        log.new.value)
        result out.old out.new }
{
    let Some(held) = log.take(alloc) else {
        return report_not_started(out);
    };
    let answer = held.conflicts_text_within(alloc, limit);
    log.put(alloc, held);
    report_conflicts(alloc, answer, out, limit)
}

/// The text of those of these pairs that have one identity, as `mp_replica::PatchLog::conflicts_of_text_within` gives it.
#[unsafe(no_mangle)]
pub extern "C" fn mergejoin_patch_log_conflicts_of(
    alloc: Global,
    log: &mut PatchLogHandle,
    sender: u64,
    number: u64,
    out: &mut [u8],
    limit: usize,
) -> Reply
    ensures { HandleReplies limit a_document
        (λ answer. OfStarted
        (OnlyReads (GivesConflicts (Some (record { sender = sender; number = number })) limit))
        log.old.value answer log.new.value)
        result out.old out.new }
{
    let Some(held) = log.take(alloc) else {
        return report_not_started(out);
    };
    let answer = held.conflicts_of_text_within(alloc, Identity { sender, number }, limit);
    log.put(alloc, held);
    report_conflicts(alloc, answer, out, limit)
}

fn report_conflicts(
    alloc: Global,
    answer: Result<PairsText, LiveFault>,
    out: &mut [u8],
    limit: usize,
) -> Reply
    ensures { ReportsPairs limit answer result out.old out.new }
{
    match answer {
        Ok(PairsText { text, more: true }) => write_first(text.as_str(), out, limit),
        Ok(PairsText { text, more: false }) => write_result(text.as_str(), out, limit),
        Err(fault) => report_live_fault(alloc, fault, None, out),
    }
}

/// How many patches a log stores, as the text of a whole number.
#[unsafe(no_mangle)]
pub extern "C" fn mergejoin_patch_log_count(
    alloc: Global,
    log: &mut PatchLogHandle,
    out: &mut [u8],
    limit: usize,
) -> Reply
    ensures { HandleReplies limit a_document
        (λ answer. OfStarted (OnlyReads GivesCount) log.old.value answer log.new.value)
        result out.old out.new }
{
    let Some(held) = log.take(alloc) else {
        return report_not_started(out);
    };
    let answer = count(alloc, &held);
    log.put(alloc, held);
    report_live(alloc, answer, out, limit)
}

fn count(alloc: Global, log: &PatchLog) -> Result<String, LiveFault>
    ensures { GivesCount log.now (live_answer result) }
{
    let count = Doc::Whole(Whole::from_u64(log.count() as u64));
    Ok(write_doc(alloc, &count)?)
}

/// Begins the new start, with which the old one ends by the chosen patches, as `mp_replica::PatchLog::decide` does.
#[unsafe(no_mangle)]
pub extern "C" fn mergejoin_patch_log_decide(
    alloc: Global,
    log: &mut PatchLogHandle,
    chosen: &[Identity],
    out: &mut [u8],
    limit: usize,
) -> Reply
    ensures { DecideReplies
        (λ answer. HasDecided limit chosen.now log.old.value answer log.new.value)
        result out.old out.new }
{
    let Some(mut held) = log.take(alloc) else {
        return report_not_started(out);
    };
    let decided = held.decide(alloc, chosen, limit);
    log.put(alloc, held);
    match decided {
        Ok(()) => write(RESULT, 0, "", out),
        Err(fault) => report_undecided(alloc, fault, chosen, out, limit),
    }
}

/// Frees the patch log, if one is held.
#[unsafe(no_mangle)]
pub extern "C" fn mergejoin_patch_log_free(alloc: Global, log: &mut PatchLogHandle)
    ensures { log.new.value ≡ None }
{
    let _freed = log.take(alloc);
}
