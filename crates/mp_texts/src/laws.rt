//! Laws over texts alone: each function runs nothing, and its contract is the law.
ghost use Rattle.mp_texts.specs.Laws.{AllPlacesAreListed, CallHasAnswer, CallHasOneAnswer, EachPartHasAJoin, FaultHasOnePlace, FaultHasPlace, FaultsShowTheAnswer, HasPlaceOrNone, NoPlaceIsNone, JoinOfTwoJoins, JoinTextsAreShared, OneJoinText, OneReplayText, ReducesAgree, ReducesDecide, ReducesExist, ReducesGiveTheJoin, ReplayIsMerge, ReplayIsPatch, SomeAreShown, TheseAreShown};
ghost use Rattle.mp_texts.specs.Private.LawsBelow.{AnswerLaws, ExistenceLaws, JoinLaws, ReplayLaws};

use mp_merge::laws as merge;
use mp_patch::laws as patch;
use mp_pointer::laws as pointer;
use mp_tree::laws as tree;

/// One join: lists whose texts read as the same documents, in any order and with any repeats, have one join text, byte for
/// byte; and one list has one exactly if the other has.
pub fn one_join_text()
    ensures one { OneJoinText }
    ensures shared { JoinTextsAreShared }
{
    join_laws();
}

/// Joins of joins: the join text of two join texts is that of all the texts; and if all have one, so has each part of
/// them that is not empty. So texts may be joined in groups, and the joins in the groups' places.
pub fn joins_of_joins()
    ensures two { JoinOfTwoJoins }
    ensures parts { EachPartHasAJoin }
{
    join_laws();
}

/// Reduces agree: however texts are shared out, repeated, grouped and joined in a tree, each tree that is joined
/// through gives the join text of all its texts, and two trees whose texts read as the same documents give the same
/// text, byte for byte. Every tree, whatever bytes it has, is joined through exactly if all of its texts are documents
/// and no two of them conflict as patches; any list of texts that read as the same documents decides it as well. This
/// is what a parallel reduce, a combiner and a stored aggregate ask for.
pub fn reduces_agree()
    ensures agree { ReducesAgree }
    ensures all { ReducesGiveTheJoin }
    ensures exists { ReducesExist }
    ensures decide { ReducesDecide }
{
    join_laws();
}

/// Replays agree: replays of texts of one start and of lists whose texts read as the same documents are one text, byte for
/// byte. It is what `merge_texts` gives of the start and their join text; and, if no value of the rewriting is more than
/// 124 deep, what `patch_text` gives of the start and of what `rewrite_text` gives of the start and that join text.
pub fn replays_agree()
    ensures one { OneReplayText }
    ensures merge { ReplayIsMerge }
    ensures patch { ReplayIsPatch }
{
    join_laws();
    replay_laws();
}

/// An answer exists: each of the six calls, whatever bytes its arguments are and whatever its limit, has an answer that its
/// contract admits and that is not out of memory. Texts that are not UTF-8 or not JSON have one too, an error.
pub fn answer_exists()
    ensures { CallHasAnswer }
{
    existence_laws();
}

/// One answer: unless memory runs out, what a call answers is a function of its arguments. Two answers to the same call
/// with the same arguments are both texts and equal byte for byte, or both errors of the same kind, with the same
/// numbers and, of a conflict, the same places and the same number of all. `IsCallAnswer` says of each of the six calls which answers its contract
/// admits.
pub fn one_answer()
    ensures one { CallHasOneAnswer }
    ensures faults { FaultsShowTheAnswer }
{
    answer_laws();
}

/// A text that is no document since a number is not whole, or since it is too deep, has a place of that error, and one alone:
/// what `fault_place` answers of it is the place, unless memory runs out.
pub fn fault_places()
    ensures exists { FaultHasPlace }
    ensures one { FaultHasOnePlace }
    ensures some_or_none { HasPlaceOrNone }
    ensures not_both { NoPlaceIsNone }
{}

/// Places are shown: of each list of places, and within each limit, `places_within` shows some, and these alone.
pub fn places_are_shown()
    ensures some { SomeAreShown }
    ensures these { TheseAreShown }
{}

/// The line of a conflict with all its places lists these, as the program prints it.
pub fn all_places_are_listed()
    ensures { AllPlacesAreListed }
{}

fn join_laws()
    ensures { JoinLaws }
{
    tree::readings_are_documents();
    tree::texts_read_back();
    merge::one_join();
    merge::empty_has_no_join();
    merge::join_exists();
    merge::join_is_readable();
}

fn replay_laws()
    ensures { ReplayLaws }
{
    merge::replicas_agree();
    merge::one_outcome();
    merge::join_gives_outcome();
    merge::merged_is_readable();
    merge::rewritings_have_documents();
    merge::rewriting_runs();
    patch::one_reading();
    patch::one_end();
    patch::shapes_are_forms();
}

fn answer_laws()
    ensures { AnswerLaws }
{
    tree::readings_are_documents();
    pointer::one_spelling();
    pointer::spellings_have_no_fault();
    pointer::one_fault();
    patch::one_reading();
    patch::forms_have_documents();
    patch::forms_have_no_fault();
    patch::one_fault();
    patch::one_end();
    patch::one_answer_within();
    merge::one_outcome();
    merge::outcome_exists();
    merge::reported_pair();
    merge::empty_has_no_join();
    merge::one_join();
    merge::join_exists();
    merge::one_rewriting();
    merge::first_conflicts();
    merge::rewritings_within();
}

fn existence_laws()
    ensures { ExistenceLaws }
{
    join_laws();
    pointer::spells_or_is_faulty();
    pointer::parts_are_readable();
    patch::forms_have_documents();
    patch::limits_change_nothing();
    patch::one_answer_within();
    patch::forms_are_writable();
    patch::runs_are_readable();
    patch::is_form_or_faulty();
    patch::shapes_are_readable();
    merge::reported_pair();
    merge::applied_in_turn();
    merge::merged_is_readable();
    merge::rewriting_exists();
    merge::rewritings_are_writable();
    merge::first_conflicts();
    merge::rewritings_within();
}
