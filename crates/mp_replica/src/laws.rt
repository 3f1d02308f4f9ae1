//! Laws over runs of calls: each function runs nothing, and its contract is the law.
ghost use Rattle.mp_replica.specs.Laws.{AlikeBeginTheSame, AlikeRefuseTheSame, AlikeReportTheSame, AlikeShowTheSame, FollowersAgree, FollowsSame, HeldWereTaken, HoldsJoin, KeptAreTaken, LogsAreAlike, ShowsOutcome, ShowsReadable, TakenSame, TakersAgree};
ghost use Rattle.mp_replica.specs.PairsRead.{PairsReadBack, PairsReadUtf8Back, TextIsOfOnePairs};
ghost use Rattle.mp_replica.specs.Private.LawsBelow.{MergeLaws, TextLaws};

use mp_merge::laws as merge;
use mp_pointer::laws as pointer;
use mp_tree::laws as tree;

/// While nothing is pending, a replica shows the outcome of its start and of exactly the patches that it received, and has
/// their join. If the start and the patches can be read, what it shows can be read too: written, it is read back.
pub fn shows_outcome()
    ensures outcome { ShowsOutcome }
    ensures readable { ShowsReadable }
{
    text_laws();
}

/// Neither the order nor the repeats of what a replica received count.
pub fn follows_same()
    ensures { FollowsSame }
{
    merge_laws();
}

/// Two replicas of one start that received the same patches, in any orders and with any repeats, show the same document, and
/// have the same join.
pub fn followers_agree()
    ensures { FollowersAgree }
{
    merge_laws();
}

/// What is held of patches is their join, if no two of them conflict and nothing is pending, and else places at which two of
/// them conflict: a conflict is held exactly if there is one.
pub fn holds_join()
    ensures { HoldsJoin }
{
    merge_laws();
}

/// Neither the order nor the repeats of what was taken count.
pub fn taken_same()
    ensures { TakenSame }
{
    merge_laws();
}

/// Two that took the same patches, in any orders, groups and repeats, hold the same join, or both a conflict: so a tree of
/// `combine` calls answers as adding one patch after another does.
pub fn takers_agree()
    ensures { TakersAgree }
{
    merge_laws();
}

/// What is held of a conflict are places as a kept form has them. So [`Patches::from_kept`](crate::Patches::from_kept) takes each form that
/// [`Patches::kept`](crate::Patches::kept) makes.
/// And there are patches that were taken where a form is held: so what is said of them is said of something.
pub fn kept_forms_are_taken()
    ensures kept { KeptAreTaken }
    ensures taken { HeldWereTaken }
{
    merge_laws();
}

/// Two patch logs of one start that received the same messages of that start, in any orders and with any repeats, are alike: they
/// store the same patches. Messages of other starts do not count. The premise is that an identity has one patch for this start: of
/// two patches under one identity each log stores the one that it received first.
pub fn logs_are_alike()
    ensures { LogsAreAlike }
{}

/// Two patch logs that are alike show the same document and report the same conflicts, of all patches and of one identity. After one
/// decision they are alike again; and a decision that one refuses, for another reason than memory, the other refuses for that reason.
pub fn alike_logs_agree()
    ensures shown { AlikeShowTheSame }
    ensures reported { AlikeReportTheSame }
    ensures begun { AlikeBeginTheSame }
    ensures refused { AlikeRefuseTheSame }
{
    merge_laws();
    tree::docs_are_documents();
}

/// The text that `PatchLog::conflicts_text` or `conflicts_text_within` gives of pairs is read as an array of objects: `first` and
/// `second` are arrays of the sender and the number, and `places` is the array of the places' spellings. So it is the text of these
/// pairs alone. The premises hold of what such a call gives, since an identity has two `u64`, and a `String` is UTF-8.
pub fn conflicts_text_reads_back()
    ensures readable { PairsReadBack }
    ensures utf8 { PairsReadUtf8Back }
    ensures one { TextIsOfOnePairs }
{
    tree::any_order_reads_back();
    pointer::one_spelling();
}

pub(crate) fn merge_laws()
    ensures { MergeLaws }
{
    merge::one_outcome();
    merge::outcome_grows();
    merge::only_members_count();
    merge::applies_at_each_name();
    merge::merging_again();
    merge::all_conflicts();
    merge::conflict_with_a_join();
    merge::join_exists();
    merge::join_grows();
    merge::join_in_parts();
    merge::joining_again();
    merge::one_join();
    merge::empty_has_no_join();
}

pub(crate) fn text_laws()
    ensures { TextLaws }
{
    merge_laws();
    tree::docs_are_documents();
    tree::readings_are_documents();
    tree::texts_read_back();
    merge::join_is_readable();
    merge::merged_is_readable();
    merge::join_gives_outcome();
    pointer::parts_are_readable();
    pointer::one_spelling();
}
