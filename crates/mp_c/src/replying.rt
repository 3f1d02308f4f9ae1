//! What a call leaves: the reply, and the text in the caller's buffer. The text of an error is its line, and after it the array of its
//! places.
ghost use Rattle.std.specs.Prelude.{◌≡◌, ◌++◌, ◌∷◌, [], ℕ, IfOk, List, None, Option, Some, codes, length, string_bytes};
ghost use Rattle.mp_tree.specs.Text.{text as compact};
ghost use Rattle.mp_pointer.specs.Part.{numeral};
ghost use Rattle.mp_pointer.specs.Spelling.{Tokens};
ghost use Rattle.mp_texts.specs.Answers.{places_list};
ghost use Rattle.mp_texts.specs.Lines.{conflict_text, placed_line, texts_line};
ghost use Rattle.mp_texts.specs.PlacesTexts.{AreShown};
ghost use Rattle.mp_texts.specs.Texts.{given};
ghost use Rattle.mp_c.specs.Answered.{IsPlaceIn};
ghost use Rattle.mp_c.specs.OnHandles.{AreShownOrNone};
ghost use Rattle.mp_c.specs.Private.Reporting.{Reports, ReportsCall, ReportsFault, Lists, ReportsList, ReportsLive, ReportsRead, ReportsUnread, ReportsUnreadText, WritesConflict};
ghost use Rattle.mp_c.specs.Replies.{IsReply};
ghost use Rattle.mp_c.specs.Report.{a_document, no_memory, not_started, numbered, placed, report_of_first, report_of_form, report_of_apply, report_of_pointer, report_of_said, report_of_text, report_of_unread, report_of_utf8, rest_of};

use mp_merge::{Conflicts, ListFault};
use mp_patch::{ApplyFault, FormFault};
use mp_pointer::{Pointer, PointerFault};
use mp_replica::LiveFault;
use mp_texts::{
    TextsFault, conflict_line, fault_line, fault_place, places_within, push_place, write_places,
};
use mp_tree::ReadFault;
use std::alloc::{AllocError, Global};

/// What a call returns in addition to the text in the buffer.
#[repr(C)]
#[derive(Clone, Copy, Drop)]
pub struct Reply {
    /// Of the whole text in bytes: if it is more than the buffer, the buffer has the text's first bytes alone.
    pub length: usize,
    /// What the status says: the number of a patch or of an operation, or an offset in bytes; else 0.
    pub first: usize,
    /// The number of the second of two patches that conflict; else 0.
    pub second: usize,
    /// How many places there are: at which two patches conflict, as far as they are known; 1 if a text is no document for a value at a
    /// place; else 0.
    pub total: usize,
    /// How many bytes at the end of the text are the JSON array of places; 0 if the text has none.
    pub places: usize,
    /// 0 if the text is the result, and else why there is none.
    pub status: u32,
    /// 1 (MORE) if there is more than what is reported: more places than `total`, or more pairs than the text has; else 0.
    pub flags: u32,
}

/// There is more than what is reported.
pub(crate) const MORE: u32 = 1;

/// There is a result.
pub(crate) const RESULT: u32 = 0;

/// Two merge patches conflict: `first` and `second` are their numbers, and `total` is at how many places.
const CONFLICT: u32 = 1;

/// There is no patch to join.
const NO_PATCHES: u32 = 2;

/// The operation of number `first` is refused, or a new start is.
pub(crate) const REFUSED: u32 = 3;

/// The document has no part there, or under the identity of number `first` no patch is stored.
pub(crate) const MISSING: u32 = 4;

/// The document, or the start, is not a document.
pub(crate) const DOCUMENT: u32 = 5;

/// The patch of number `first` is not a document.
pub(crate) const PATCH: u32 = 6;

/// The document given as JSON Patch is not one: `first` is the number of the operation.
const FORM: u32 = 7;

/// The text is not a pointer: `first` is the offset in bytes.
const POINTER: u32 = 8;

/// Memory ran out.
const NO_MEMORY: u32 = 9;

/// A patch is received, or taken, and memory ran out before it can be shown.
const PENDING: u32 = 10;

/// The result, or something on the way to it, is larger than the caller allows: `first` is the number of the operation whose result
/// weighs more, or how many operations of a rewriting fit, or 0 if the text is longer.
const TOO_LARGE: u32 = 11;

/// There is no replica, or no patch log, yet.
const NOT_STARTED: u32 = 12;

// The answer of a call over these texts, within a limit.
pub(crate) fn report(
    alloc: Global,
    answer: Result<String, TextsFault>,
    document: &[u8],
    patches: &[&[u8]],
    out: &mut [u8],
    limit: usize,
) -> Reply
    ensures { ReportsCall limit document.now (given patches.now) answer result
        out.old out.new }
{
    match answer {
        Ok(text) => write(RESULT, 0, text.as_str(), out),
        Err(fault) => report_fault(alloc, fault, document, patches, out, limit),
    }
}

fn report_fault(
    alloc: Global,
    fault: TextsFault,
    document: &[u8],
    patches: &[&[u8]],
    out: &mut [u8],
    limit: usize,
) -> Reply
    ensures { ReportsFault limit document.now (given patches.now) fault result out.old out.new }
{
    match fault {
        TextsFault::Document(why) => report_unread(alloc, None, why, document, out),
        TextsFault::Patch { number, fault: why } => match patches.get(number) {
            Some(text) => report_unread(alloc, Some(number), why, text, out),
            None => write_unread(alloc, Some(number), why, None, out),
        },
        TextsFault::List(fault) => report_list_fault(alloc, fault, out, limit),
        TextsFault::Form(fault) => report_form_fault(alloc, fault, out),
        TextsFault::Refused(fault) => report_run_fault(alloc, fault, out),
        TextsFault::Pointer(fault) => report_pointer_fault(alloc, fault, out),
        TextsFault::Missing => write(MISSING, 0, "missing", out),
        TextsFault::TooLarge { number } => write(TOO_LARGE, number, "too large", out),
        TextsFault::OutOfMemory => report_no_memory(out),
    }
}

// ---- texts that are no documents

// A text is no document: why, and where it has the value for which it is none. `number` is that of a patch.
pub(crate) fn report_unread(
    alloc: Global,
    number: Option<usize>,
    why: ReadFault,
    text: &[u8],
    out: &mut [u8],
) -> Reply
    ensures { ReportsUnread (report_of_unread number why) (IsPlaceIn why text.now) result
        out.old out.new }
{
    match fault_place(alloc, text, why) {
        Ok(place) => write_unread(alloc, number, why, place, out),
        Err(_) => report_no_memory(out),
    }
}

fn write_unread(
    alloc: Global,
    number: Option<usize>,
    why: ReadFault,
    place: Option<Pointer>,
    out: &mut [u8],
) -> Reply
    ensures { Reports (report_of_unread number why place) result out.old out.new }
{
    if why == ReadFault::OutOfMemory {
        return report_no_memory(out);
    }
    match number {
        None => write_placed(alloc, DOCUMENT, 0, TextsFault::Document(why), place, out),
        Some(number) => {
            let fault = TextsFault::Patch { number, fault: why };
            write_placed(alloc, PATCH, number, fault, place, out)
        }
    }
}

// The line of an error, and its place if there is one.
fn write_placed(
    alloc: Global,
    status: u32,
    number: usize,
    fault: TextsFault,
    place: Option<Pointer>,
    out: &mut [u8],
) -> Reply
    ensures { Reports
        (placed (numbered status number (placed_line (texts_line fault) place)) place)
        result out.old out.new }
{
    let Some(place) = place else {
        return write_line(alloc, status, number, fault, out);
    };
    match placed_text(alloc, fault, place) {
        Ok(Listing { text, places }) => Reply {
            total: 1,
            places,
            ..write(status, number, text.as_str(), out)
        },
        Err(_) => report_no_memory(out),
    }
}

// The line of an error that has a number in it.
fn write_line(alloc: Global, status: u32, number: usize, fault: TextsFault, out: &mut [u8]) -> Reply
    ensures { Reports (numbered status number (texts_line fault)) result out.old out.new }
{
    match fault_line(alloc, &fault) {
        Ok(line) => write(status, number, line.as_str(), out),
        Err(_) => report_no_memory(out),
    }
}

// A line with an array of places after it, and how many bytes that has.
#[derive(Drop)]
pub(crate) struct Listing {
    text: String,
    places: usize,
}

fn placed_text(alloc: Global, fault: TextsFault, place: Pointer) -> Result<Listing, AllocError>
    ensures { IfOk result (λ said. Lists said
        (placed_line (texts_line fault) (Some place)) (place ∷ [])) }
{
    let mut line = fault_line(alloc, &fault)?;
    push_place(alloc, &mut line, &place)?;
    with_array(alloc, line, &[place])
}

fn with_array(alloc: Global, mut text: String, places: &[Pointer]) -> Result<Listing, AllocError>
    ensures { IfOk result (λ said. Lists said (string_bytes text) places.now) }
{
    let array = write_places(alloc, places)?;
    text.push_str(array.as_str())?;
    Ok(Listing {
        text,
        places: array.len(),
    })
}

// ---- conflicts

// Two patches conflict: their numbers if they have any, at how many places, and whether there are more.
#[derive(Clone, Copy, Drop)]
pub(crate) struct Clash {
    pub(crate) numbers: Option<(usize, usize)>,
    pub(crate) total: usize,
    pub(crate) more: bool,
}

fn report_list_fault(
    alloc: Global,
    fault: ListFault<Conflicts>,
    out: &mut [u8],
    limit: usize,
) -> Reply
    ensures { ReportsList limit fault result out.old out.new }
{
    match fault {
        ListFault::NoPatches => write(NO_PATCHES, 0, "no patches", out),
        ListFault::ConflictOf {
            first,
            second,
            places: Conflicts { places, total },
        } => {
            let clash = Clash {
                numbers: Some((first, second)),
                total,
                more: false,
            };
            match conflict_listing(alloc, clash, places.as_slice(), limit) {
                Ok(said) => write_conflict(clash, Some(said), out),
                Err(_) => report_no_memory(out),
            }
        }
        ListFault::OutOfMemory => report_no_memory(out),
    }
}

// A conflict, and those of these places that the limit allows; without a text if there is no memory for it.
pub(crate) fn report_places(
    alloc: Global,
    clash: Clash,
    places: &[Pointer],
    out: &mut [u8],
    limit: usize,
) -> Reply
    ensures { (said : Option (List Tokens)) × AreShownOrNone limit places.now said
        × IsReply (report_of_said clash.numbers clash.total clash.more said)
        result out.old out.new }
{
    let said = conflict_listing(alloc, clash, places, limit);
    write_conflict(clash, said.ok(), out)
}

fn conflict_listing(
    alloc: Global,
    clash: Clash,
    places: &[Pointer],
    limit: usize,
) -> Result<Listing, AllocError>
    ensures { IfOk result (λ said. (shown : List Tokens) × AreShown limit places.now shown
        × Lists said (conflict_text clash.numbers shown (rest_of clash.more clash.total shown))
        shown) }
{
    let shown = places_within(places, limit);
    let rest = if clash.more {
        None
    } else {
        Some(clash.total.saturating_sub(shown.len()))
    };
    let line = conflict_line(alloc, clash.numbers, shown, rest)?;
    with_array(alloc, line, shown)
}

// A conflict whose text is made, or had no memory.
fn write_conflict(clash: Clash, said: Option<Listing>, out: &mut [u8]) -> Reply
    ensures { WritesConflict clash said result out.old out.new }
{
    let (first, second) = clash.numbers.unwrap_or((0, 0));
    let (text, places) = match &said {
        Some(said) => (said.text.as_str(), said.places),
        None => ("", 0),
    };
    Reply {
        second,
        total: clash.total,
        places,
        flags: if clash.more { MORE } else { 0 },
        ..write(CONFLICT, first, text, out)
    }
}

// ---- other errors

fn report_form_fault(alloc: Global, fault: FormFault, out: &mut [u8]) -> Reply
    ensures { Reports (report_of_form fault) result out.old out.new }
{
    match fault {
        FormFault::NotAnArray => write(FORM, 0, "not an array", out),
        FormFault::Form { op, cause } => {
            let fault = TextsFault::Form(FormFault::Form { op, cause });
            write_line(alloc, FORM, op, fault, out)
        }
        FormFault::OutOfMemory => report_no_memory(out),
    }
}

fn report_run_fault(alloc: Global, fault: ApplyFault, out: &mut [u8]) -> Reply
    ensures { Reports (report_of_apply fault) result out.old out.new }
{
    match fault {
        ApplyFault::Refused { op, cause } => {
            let fault = TextsFault::Refused(ApplyFault::Refused { op, cause });
            write_line(alloc, REFUSED, op, fault, out)
        }
        ApplyFault::OutOfMemory => report_no_memory(out),
    }
}

fn report_pointer_fault(alloc: Global, fault: PointerFault, out: &mut [u8]) -> Reply
    ensures { Reports (report_of_pointer fault) result out.old out.new }
{
    match fault {
        PointerFault::NoSlash => write(POINTER, 0, "pointer: no slash", out),
        PointerFault::BadTilde(offset) => {
            let fault = TextsFault::Pointer(PointerFault::BadTilde(offset));
            write_line(alloc, POINTER, offset, fault, out)
        }
        PointerFault::OutOfMemory => report_no_memory(out),
    }
}

// The bytes of a pointer that are no text from the offset on.
pub(crate) fn report_not_utf8(alloc: Global, offset: usize, out: &mut [u8]) -> Reply
    ensures { Reports (report_of_utf8 offset) result out.old out.new }
{
    match utf8_line(alloc, offset) {
        Ok(line) => write(POINTER, offset, line.as_str(), out),
        Err(_) => report_no_memory(out),
    }
}

fn utf8_line(alloc: Global, offset: usize) -> Result<String, AllocError>
    ensures { IfOk result (λ line.
        string_bytes line ≡ codes "pointer: not UTF-8 at " ++ numeral offset) }
{
    format!(in alloc; "pointer: not UTF-8 at {offset}")
}

// No text, so that nothing is written.
pub(crate) fn report_no_memory(out: &mut [u8]) -> Reply
    ensures { IsReply no_memory result out.old out.new }
{
    write(NO_MEMORY, 0, "", out)
}

// As much of the text as the buffer holds, from its start on, and nothing after it.
pub(crate) fn write(status: u32, number: usize, text: &str, out: &mut [u8]) -> Reply
    ensures { IsReply (numbered status number text.now) result out.old out.new }
{
    let bytes = text.as_bytes();
    let shared = bytes.len().min(out.len());
    out[..shared].copy_from_slice(&bytes[..shared]);
    Reply {
        length: bytes.len(),
        first: number,
        second: 0,
        total: 0,
        places: 0,
        status,
        flags: 0,
    }
}

// ---- of calls on handles

// The text of a result on a handle, unless it is longer than the caller allows.
pub(crate) fn write_result(text: &str, out: &mut [u8], limit: usize) -> Reply
    ensures { IsReply (report_of_text limit text.now) result out.old out.new }
{
    if text.len() > limit {
        write(TOO_LARGE, 0, "too large", out)
    } else {
        write(RESULT, 0, text, out)
    }
}

// The same of what comes first of a result that has more.
pub(crate) fn write_first(text: &str, out: &mut [u8], limit: usize) -> Reply
    ensures { IsReply (report_of_first limit text.now) result out.old out.new }
{
    if limit < text.len() {
        return write(TOO_LARGE, 0, "too large", out);
    }
    Reply {
        flags: MORE,
        ..write(RESULT, 0, text, out)
    }
}

// No replica, or no patch log, is held.
pub(crate) fn report_not_started(out: &mut [u8]) -> Reply
    ensures { IsReply not_started result out.old out.new }
{
    write(NOT_STARTED, 0, "not started", out)
}

// The answer of a call that reads what is held.
pub(crate) fn report_live(
    alloc: Global,
    answer: Result<String, LiveFault>,
    out: &mut [u8],
    limit: usize,
) -> Reply
    ensures { ReportsRead limit answer result out.old out.new }
{
    match answer {
        Ok(text) => write_result(text.as_str(), out, limit),
        Err(fault) => report_live_fault(alloc, fault, None, out),
    }
}

// Why a call on a handle has no result; `number` is that of a text that had to be a patch.
pub(crate) fn report_live_fault(
    alloc: Global,
    fault: LiveFault,
    number: Option<usize>,
    out: &mut [u8],
) -> Reply
    ensures { ReportsLive number fault result out.old out.new }
{
    match fault {
        LiveFault::Document(why) => write_unread(alloc, number, why, None, out),
        LiveFault::Pointer(fault) => report_pointer_fault(alloc, fault, out),
        LiveFault::Missing => write(MISSING, 0, "missing", out),
        LiveFault::NoPatches => write(NO_PATCHES, 0, "no patches", out),
        LiveFault::Conflict => Reply {
            flags: MORE,
            ..write(CONFLICT, 0, "", out)
        },
        LiveFault::Pending => write(PENDING, 0, "pending", out),
        LiveFault::TooLarge => write(TOO_LARGE, 0, "too large", out),
        LiveFault::NotKept => write(DOCUMENT, 0, "not kept patches", out),
        LiveFault::OutOfMemory => report_no_memory(out),
    }
}

// Why a call on this text has no result: of a text that is no document, where it has the value for which it is none.
pub(crate) fn report_unread_text(
    alloc: Global,
    fault: LiveFault,
    number: Option<usize>,
    text: &[u8],
    out: &mut [u8],
) -> Reply
    ensures { ReportsUnreadText number text.now fault result out.old out.new }
{
    match fault {
        LiveFault::Document(why) => report_unread(alloc, number, why, text, out),
        other => report_live_fault(alloc, other, number, out),
    }
}
