//! Laws over replies: each function runs nothing, and its contract is the law.
ghost use Rattle.std.specs.Prelude.{Option};
ghost use Rattle.mp_c.specs.Laws.{EachBeginsTheLarger, EachHasOneReply, EachHasReport, LogsAgreeInTheirBuffers, ReplaysAgreeInTheirBuffers};
ghost use Rattle.mp_c.specs.OnLogs.{GivesConflicts, GivesLogDocument};
ghost use Rattle.mp_c.specs.Private.LawsOfTexts.{LawsOfTexts, PlaceLaws};
ghost use Rattle.mp_replica.specs.declared.message.Identity.{Identity};

use mp_replica::laws as live;
use mp_texts::laws as texts;
use mp_tree::laws as tree;

/// Replays agree: two callers that replay texts of the same documents, in any order and with any repeats, on texts of one
/// start, and that have a result and a buffer as long as it, have the same bytes.
pub fn replays_agree_in_their_buffers()
    ensures { ReplaysAgreeInTheirBuffers }
{
    texts::replays_agree();
}

/// Patch logs agree: two logs of one start that store the same patches under the same identities, in whatever order they
/// arrived, show the same bytes and report the same bytes, of all that conflicts and of one identity, if each call has a result of
/// which its limit left nothing out, and a buffer as long as it.
pub fn logs_agree_in_their_buffers()
    ensures document { LogsAgreeInTheirBuffers GivesLogDocument }
    ensures conflicts { (of : Option Identity) → LogsAgreeInTheirBuffers (GivesConflicts of) }
{
    live::alike_logs_agree();
}

/// One reply: of each of the six exports, two calls with the same arguments have the same status, numbers, length and
/// text, unless memory runs out in one of them. What a buffer has afterwards depends on nothing but that text, on its
/// capacity and on what it had before: each has the text's first bytes, as many as fit. So a caller whose buffer was
/// too small may call again with one of `length` bytes, and has the whole of the text whose beginning it saw.
pub fn one_reply()
    ensures one { EachHasOneReply }
    ensures again { EachBeginsTheLarger }
{
    laws_of_texts();
}

/// A reply exists: each of the six exports, whatever bytes its arguments are, may report something other than out of
/// memory, as the contract of its call over texts has it; and every reply reports that, unless memory runs out.
pub fn reply_exists()
    ensures { EachHasReport }
{
    laws_of_texts();
}

fn laws_of_texts()
    ensures { LawsOfTexts }
{
    tree::bytes_have_faults();
    texts::answer_exists();
    texts::one_answer();
    place_laws();
}

fn place_laws()
    ensures { PlaceLaws }
{
    texts::fault_places();
    texts::places_are_shown();
}
