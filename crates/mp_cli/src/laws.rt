//! Laws of the program: each function runs nothing, and its contract is the law.
ghost use Rattle.mp_cli.specs.Laws.{AnswerExists, HasOneAnswer, TakesEachCommand, ReplicasPrintTheSame, JoinsPrintTheSame, ClashesAreReported, JoinReportsClashes, JoinPrintedIsRead, RewritingPrintedIsRead};
ghost use Rattle.mp_cli.specs.Private.LawsBelow.{TextLaws, PointerLaws, PatchLaws, MergeLaws, RewritingLaws};

use mp_merge::laws as merge;
use mp_patch::laws as patch;
use mp_pointer::laws as pointer;
use mp_tree::laws as tree;

/// A command and an input have an answer, whatever the bytes are.
pub fn answer_exists()
    ensures { AnswerExists }
{
    laws_below();
}

/// A command and an input have at most one answer: its bytes and its status are a function of the command and of the
/// input bytes. So unless memory runs out, each run of `answer` on them gives the same.
pub fn one_answer()
    ensures { HasOneAnswer }
{
    laws_below();
}

/// The command line takes the arguments of each of the six commands, with the program's name first, and for `get` the
/// spelling of every pointer: so on them `command_of` gives the command, unless memory runs out.
pub fn takes_each_command()
    ensures { TakesEachCommand }
{}

/// Replicas print the same: if two inputs are one start, followed by lists with the same members, at least one, in
/// any orders and with any repeats, no two of which conflict, each answer of `replay` to the one is each to the other, byte
/// for byte, with status 0; and so it is with `join` and the lists alone.
pub fn replicas_print_the_same()
    ensures replay { ReplicasPrintTheSame }
    ensures join { JoinsPrintTheSame }
{
    laws_below();
}

/// Conflicts are reported: if two members of a list conflict, each answer of `replay` and of `join` has status 1 and is the
/// line of the pair that is reported of the list. It is never a document.
pub fn conflicts_are_reported()
    ensures replay { ClashesAreReported }
    ensures join { JoinReportsClashes }
{
    laws_below();
}

/// What `join` prints can take the place of the list: the start's text and that line, with a comma between them, in
/// brackets and with any white space around each, as `bin/feed` puts files together, are an input that `merge` and
/// `replay` answer with what `replay` answers to the start and the list.
pub fn join_printed_is_read()
    ensures { JoinPrintedIsRead }
{
    laws_below();
}

/// What `rewrite` prints of a document and a patch is taken by `patch`: the document's text and that line, put together
/// in the same way, are answered with what `merge` answers to the document and the patch, if no value of the
/// rewriting is more than 124 deep. A deeper one nests more than what is read may, and the answer is
/// `input: not JSON`.
pub fn rewriting_printed_is_read()
    ensures { RewritingPrintedIsRead }
{
    laws_below();
}

fn laws_below()
    ensures texts { TextLaws }
    ensures pointers { PointerLaws }
    ensures patches { PatchLaws }
    ensures merges { MergeLaws }
    ensures rewritings { RewritingLaws }
{
    laws_of_texts();
    laws_of_merges();
}

fn laws_of_texts()
    ensures texts { TextLaws }
    ensures pointers { PointerLaws }
    ensures patches { PatchLaws }
{
    tree::readings_are_documents();
    tree::bytes_have_faults();
    tree::arrays_read_back();
    pointer::one_spelling();
    pointer::spells_or_is_faulty();
    pointer::spellings_have_no_fault();
    pointer::one_fault();
    patch::one_reading();
    patch::is_form_or_faulty();
    patch::forms_have_documents();
    patch::forms_have_no_fault();
    patch::one_fault();
    patch::shapes_are_forms();
    patch::shapes_are_readable();
    patch::one_end();
    patch::runs_are_not_refused();
    patch::one_refusal();
    patch::runs_or_is_refused();
}

fn laws_of_merges()
    ensures merges { MergeLaws }
    ensures rewritings { RewritingLaws }
{
    merge::application_is_outcome();
    merge::merged_is_readable();
    merge::one_outcome();
    merge::outcome_exists();
    merge::replicas_agree();
    merge::reported_pair();
    merge::empty_has_no_join();
    merge::one_join();
    merge::join_exists();
    merge::join_gives_outcome();
    merge::join_is_readable();
    merge::rewriting_exists();
    merge::one_rewriting();
    merge::rewritings_have_documents();
    merge::rewritings_are_writable();
    merge::rewriting_runs();
}
