//! Exports on patches without a start that stay in memory, for reduces and aggregates.
ghost use Rattle.std.specs.Prelude.{◌≡◌, MatchResult, None};
ghost use Rattle.mp_replica.specs.Held.{held_places};
ghost use Rattle.mp_c.specs.OnHandles.{GivesJoin, GivesKept, HasAdded, HasCombined, IsMadeOfKept, OfPatches, patches_in};
ghost use Rattle.mp_c.specs.Private.Reporting.{ReportsAdded, ReportsConflict, ReportsFirstPlaces, ReportsNoJoin, live_answer};
ghost use Rattle.mp_c.specs.Replies.{HandleReplies};
ghost use Rattle.mp_c.specs.Report.{a_document, a_patch};

use crate::patches_handle::PatchesHandle;
use crate::replying::{
    Clash, Reply, report_live, report_live_fault, report_no_memory, report_places,
    report_unread_text, write_result,
};
use mp_replica::{Added, FirstPlaces, LiveFault, Patches, laws as live};
use mp_tree::laws as tree;
use std::alloc::{AllocFailed, Global};

// What is held, or no patches.
fn held_or_none(
    alloc: Global,
    patches: &mut PatchesHandle,
) -> Result<Box<Patches>, AllocFailed<Patches>>
    ensures { MatchResult result (λ held. held.value ≡ patches_in patches.old.value)
        (λ refused. patches.new.value ≡ patches.old.value) }
{
    match patches.take(alloc) {
        Some(held) => Ok(held),
        None => Box::new(alloc, Patches::new()),
    }
}

/// Takes the patch of a text, as `mp_replica::Patches::add_text` does.
#[unsafe(no_mangle)]
pub extern "C" fn mergejoin_patches_add(
    alloc: Global,
    patches: &mut PatchesHandle,
    patch: &[u8],
    out: &mut [u8],
    limit: usize,
) -> Reply
    ensures { HandleReplies limit a_patch
        (λ answer. OfPatches (HasAdded limit patch.now) patches.old.value answer patches.new.value)
        result out.old out.new }
{
    let Ok(mut held) = held_or_none(alloc, patches) else {
        return report_no_memory(out);
    };
    let reply = add(alloc, &mut held, patch, out, limit);
    patches.put(alloc, held);
    reply
}

fn add(alloc: Global, patches: &mut Patches, patch: &[u8], out: &mut [u8], limit: usize) -> Reply
    ensures { HandleReplies limit a_patch
        (λ answer. HasAdded limit patch.now patches.old answer patches.new)
        result out.old out.new }
{
    match patches.add_text(alloc, patch) {
        Ok(added) => report_added(alloc, added, patches, out, limit),
        Err(fault) => report_unread_text(alloc, fault, Some(0), patch, out),
    }
}

// What is said of patches that were to be taken.
fn report_added(
    alloc: Global,
    added: Added,
    patches: &Patches,
    out: &mut [u8],
    limit: usize,
) -> Reply
    ensures { ReportsAdded limit added patches.now result out.old out.new }
{
    match added {
        Added::Joined => write_result("", out, limit),
        Added::Conflict => report_conflict(alloc, patches, out, limit),
        Added::Pending => report_live_fault(alloc, LiveFault::Pending, None, out),
        Added::Refused => report_no_memory(out),
    }
}

// Where patches conflict, if they do.
fn report_conflict(alloc: Global, patches: &Patches, out: &mut [u8], limit: usize) -> Reply
    ensures { ReportsConflict limit patches.now.places result out.old out.new }
{
    match patches.places() {
        Some(found) => report_first_places(alloc, found, out, limit),
        None => write_result("", out, limit),
    }
}

// The places of a conflict that were found, as many as the limit allows, and whether there are more.
fn report_first_places(alloc: Global, found: &FirstPlaces, out: &mut [u8], limit: usize) -> Reply
    ensures { ReportsFirstPlaces limit (held_places found.now) result out.old out.new }
{
    let places = found.places.as_slice();
    let clash = Clash {
        numbers: None,
        total: places.len(),
        more: found.more,
    };
    report_places(alloc, clash, places, out, limit)
}

/// Takes all that other patches have taken, and leaves them without patches, as `mp_replica::Patches::combine` does.
#[unsafe(no_mangle)]
pub extern "C" fn mergejoin_patches_combine(
    alloc: Global,
    patches: &mut PatchesHandle,
    other: &mut PatchesHandle,
    out: &mut [u8],
    limit: usize,
) -> Reply
    ensures { HandleReplies limit a_document
        (λ answer. HasCombined limit (patches_in patches.old.value) (patches_in other.old.value)
        answer (patches_in patches.new.value) (patches_in other.new.value))
        result out.old out.new }
{
    let Ok(mut held) = held_or_none(alloc, patches) else {
        return report_no_memory(out);
    };
    let reply = combine_into(alloc, &mut held, other, out, limit);
    patches.put(alloc, held);
    reply
}

fn combine_into(
    alloc: Global,
    patches: &mut Patches,
    other: &mut PatchesHandle,
    out: &mut [u8],
    limit: usize,
) -> Reply
    ensures { HandleReplies limit a_document
        (λ answer. HasCombined limit patches.old (patches_in other.old.value) answer patches.new
        (patches_in other.new.value))
        result out.old out.new }
{
    let Ok(mut held) = held_or_none(alloc, other) else {
        return report_no_memory(out);
    };
    let added = patches.combine(alloc, &mut held);
    other.put(alloc, held);
    report_added(alloc, added, patches, out, limit)
}

/// The text of the join of all that was taken, as `mp_replica::Patches::text` gives it.
#[unsafe(no_mangle)]
pub extern "C" fn mergejoin_patches_text(
    alloc: Global,
    patches: &mut PatchesHandle,
    out: &mut [u8],
    limit: usize,
) -> Reply
    ensures { HandleReplies limit a_document
        (λ answer. OfPatches (GivesJoin limit) patches.old.value answer patches.new.value)
        result out.old out.new }
{
    live::holds_join();
    let Some(mut held) = patches.take(alloc) else {
        return report_live_fault(alloc, LiveFault::NoPatches, None, out);
    };
    let reply = text(alloc, &mut held, out, limit);
    patches.put(alloc, held);
    reply
}

fn text(alloc: Global, patches: &mut Patches, out: &mut [u8], limit: usize) -> Reply
    ensures { HandleReplies limit a_document
        (λ answer. GivesJoin limit patches.old answer patches.new) result out.old out.new }
{
    let _settled = patches.settle(alloc);
    match patches.text(alloc, limit) {
        Ok(joined) => write_result(joined.as_str(), out, limit),
        Err(fault) => report_no_join(alloc, fault, patches, out, limit),
    }
}

// Why there is no join: of a conflict, where.
fn report_no_join(
    alloc: Global,
    fault: LiveFault,
    patches: &Patches,
    out: &mut [u8],
    limit: usize,
) -> Reply
    ensures { ReportsNoJoin limit fault patches.now result out.old out.new }
{
    match fault {
        LiveFault::Conflict => report_conflict(alloc, patches, out, limit),
        other => report_live_fault(alloc, other, None, out),
    }
}

/// The kept form of what was taken, as `mp_replica::Patches::kept` gives it.
#[unsafe(no_mangle)]
pub extern "C" fn mergejoin_patches_kept(
    alloc: Global,
    patches: &mut PatchesHandle,
    out: &mut [u8],
    limit: usize,
) -> Reply
    ensures { HandleReplies limit a_document
        (λ answer. OfPatches (GivesKept limit) patches.old.value answer patches.new.value)
        result out.old out.new }
{
    live::holds_join();
    let Some(mut held) = patches.take(alloc) else {
        return write_result("", out, limit);
    };
    let answer = kept(alloc, &mut held, limit);
    patches.put(alloc, held);
    report_live(alloc, answer, out, limit)
}

fn kept(alloc: Global, patches: &mut Patches, limit: usize) -> Result<String, LiveFault>
    ensures { GivesKept limit patches.old (live_answer result) patches.new }
{
    tree::readings_are_documents();
    let _settled = patches.settle(alloc);
    patches.kept(alloc, limit)
}

/// The patches of a kept form, in the place of what was taken before, as `mp_replica::Patches::from_kept` gives them.
#[unsafe(no_mangle)]
pub extern "C" fn mergejoin_patches_from_kept(
    alloc: Global,
    patches: &mut PatchesHandle,
    kept: &[u8],
    out: &mut [u8],
    limit: usize,
) -> Reply
    ensures { HandleReplies limit a_document
        (λ answer. OfPatches (IsMadeOfKept limit kept.now) patches.old.value answer
        patches.new.value)
        result out.old out.new }
{
    let made = match Patches::from_kept(alloc, kept) {
        Ok(made) => made,
        Err(fault) => return report_live_fault(alloc, fault, None, out),
    };
    let Ok(held) = Box::new(alloc, made) else {
        return report_no_memory(out);
    };
    let reply = report_conflict(alloc, &held, out, limit);
    patches.put(alloc, held);
    reply
}

/// Frees the patches, if some are held.
#[unsafe(no_mangle)]
pub extern "C" fn mergejoin_patches_free(alloc: Global, patches: &mut PatchesHandle)
    ensures { patches.new.value ≡ None }
{
    let _freed = patches.take(alloc);
}
