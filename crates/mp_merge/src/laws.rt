//! Laws over documents and merge patches alone: each function runs nothing, and its contract is the law.
ghost use Rattle.mp_merge.specs.Convergence.{ReplicasConverge};
ghost use Rattle.mp_merge.specs.Laws.{JoinIsReadable, MergedIsDocument, MergedIsReadable, RewritingIsNoDeeper, RewritingIsWritable, AppliesAtEachName, OthersReplace, MergesIntoNull, AppliedOnce, TriesResume, ApplicationIsOutcome, HasOneOutcome, AppliedInTurn, OutcomeExists, ReplicasAgree, Exchange, ClashesExist, HaveOneList, EmptyIfCompatible, CompatibleOrReported, CompatibleHaveNone, HasOneReportedPair, ClashWithAJoin, CompatibleByNames, CompatibleIfEqual, JoinByNames, JoinOfEqual, JoinIsIdempotent, JoinIsCommutative, JoinIsAssociative, JoinGrows, JoinInParts, JoinOfSame, JoinOfOne, JoinAbsorbs, JoinTriesResume, OutcomeGrows, OutcomeOfNone, OutcomeOfSame, HasOneJoin, EmptyHasNoJoin, JoinExists, PairHasJoin, JoinIsNoDeeper, JoinGivesOutcome, RewritingExists, HasOneRewriting, RewritingHasDocuments, GuardedList, RefusedGuardShows, EmptyRewriting, EditsInAnyOrder, RewritingRuns, FirstConflictsExist, HaveOneFront, AllIfWithin, ReportedWithin, ReportedWithoutLimit, HasOneReportWithin, RewritingIsWithinOrNot, WithinIsNotTooLarge, HasOneFitting};

/// Application in the words of RFC 7396 section 2: a patch that is not an object is the result. An object makes an
/// object of every target, in which a name that the patch does not carry stays as it was, a null removes it, and any
/// other value is merged with what stood there. The result of a document and a patch that is one is a document.
pub fn applies_at_each_name()
    ensures objects { AppliesAtEachName }
    ensures others { OthersReplace }
    ensures document { MergedIsDocument }
{}

/// Merging a patch into null gives what merging it into nothing gives, and applying it twice is applying it once. So a
/// merge in place that ran out of memory, however often, is made whole by one that succeeds.
pub fn merging_again()
    ensures into_null { MergesIntoNull }
    ensures twice { AppliedOnce }
    ensures tries { TriesResume }
{}

/// What a patch makes of a document can be read if both can: written, it is read back, so it can be a new start.
pub fn merged_is_readable()
    ensures { MergedIsReadable }
{}

/// One application of a patch is what the outcome of that patch alone asks for at every path: its values are set, its
/// objects entered, its nulls remove, and the rest stays.
pub fn application_is_outcome()
    ensures { ApplicationIsOutcome }
{}

/// A document and a collection of patches have at most one outcome.
pub fn one_outcome()
    ensures { HasOneOutcome }
{}

/// Patches, no two of which conflict, that are applied one after another make their outcome of the start: so what a
/// replica has that applies each patch as it arrives is what any other has.
pub fn applied_in_turn()
    ensures { AppliedInTurn }
{}

/// The outcome of no patch is the start; the outcome of patches and one more, no two of which conflict, is what that one
/// makes of their outcome: so a replica may merge each patch into what it shows as it arrives.
pub fn outcome_grows()
    ensures none { OutcomeOfNone }
    ensures more { OutcomeGrows }
{}

/// Patches have an outcome exactly if no two of them conflict, and then on every document.
pub fn outcome_exists()
    ensures { OutcomeExists }
{}

/// Replicas that start from one document and receive the same patches, in any orders and with any repeats, end with
/// the same document, if each ends with the outcome.
pub fn replicas_agree()
    ensures { ReplicasAgree }
{}

/// Two patches can be applied in either order with one result exactly if they do not conflict: then on every document,
/// and else on none.
pub fn exchange()
    ensures { Exchange }
{}

/// Two patches have one list of all their conflicts, so every replica that compares them reports the same; it is empty
/// exactly if they are compatible.
pub fn all_conflicts()
    ensures exist { ClashesExist }
    ensures one { HaveOneList }
    ensures empty { EmptyIfCompatible }
{}

/// A list of patches is pairwise compatible, or there is the pair that is reported of it, and not both; that pair is one
/// alone, and so are its conflicts: so each replica that holds the list in this order reports the same.
pub fn reported_pair()
    ensures exists { CompatibleOrReported }
    ensures none { CompatibleHaveNone }
    ensures one { HasOneReportedPair }
{}

/// Whatever the limit, two patches have conflicts that come first within it, and these alone; they are all conflicts exactly if
/// there is no limit, or all weigh at most the limit together. Of a list of patches the same pair is reported within a limit as
/// without one, with one list of conflicts and one number of all; without a limit that list has all of them.
pub fn first_conflicts()
    ensures exist { FirstConflictsExist }
    ensures one { HaveOneFront }
    ensures all { AllIfWithin }
    ensures reported { ReportedWithin }
    ensures one_report { HasOneReportWithin }
    ensures without_limit { ReportedWithoutLimit }
{}

/// A patch conflicts with a join exactly if it conflicts with one of the patches that were joined: so a replica that
/// keeps only the join of what it received still learns of every conflict.
pub fn conflict_with_a_join()
    ensures { ClashWithAJoin }
{}

/// The rule of compatibility: two objects are compatible exactly if each name that both carry has compatible values,
/// and what is not an object, on either side, is compatible with its equal alone.
pub fn compatible_by_names()
    ensures objects { CompatibleByNames }
    ensures others { CompatibleIfEqual }
{}

/// The rule of joining: the join of two objects has at each name what one of them carries there alone, or the join of
/// both values; if a patch is not an object, the join is the one value that both are.
pub fn join_by_names()
    ensures objects { JoinByNames }
    ensures others { JoinOfEqual }
{}

/// The join of a patch with itself is that patch: a patch that arrives twice changes nothing.
pub fn join_is_idempotent()
    ensures { JoinIsIdempotent }
{}

/// The join of p and q is the join of q and p: it does not matter which patch arrives first.
pub fn join_is_commutative()
    ensures { JoinIsCommutative }
{}

/// Joining p and q and then r is joining p with the join of q and r: one exists exactly if the other does, and they
/// are equal. So replicas may join what they received in groups.
pub fn join_is_associative()
    ensures { JoinIsAssociative }
{}

/// The join of patches and one more is the join of their join with it, and exists exactly if that does: so a replica
/// may keep the join of what it received, and join each patch to it as it arrives.
pub fn join_grows()
    ensures { JoinGrows }
{}

/// The join of patches and others is the join of the first with the join of the others: so joins that were made apart
/// are joined, and not the patches again.
pub fn join_in_parts()
    ensures { JoinInParts }
{}

/// A join in place that ran out of memory, however often, is made whole by one that succeeds: that leaves a join of what
/// was there at first with the patch. One patch is its own join, and a join that has a patch already takes it again
/// unchanged.
pub fn joining_again()
    ensures one { JoinOfOne }
    ensures absorbs { JoinAbsorbs }
    ensures tries { JoinTriesResume }
{}

/// Neither the order nor the repeats of patches count: lists with the same members have the same outcomes of each start,
/// and the same joins.
pub fn only_members_count()
    ensures outcomes { OutcomeOfSame }
    ensures joins { JoinOfSame }
{}

/// Lists of the same patches, in any orders and with any repeats, have at most one join: replicas that join the same
/// patches hold the same patch.
pub fn one_join()
    ensures { HasOneJoin }
{}

/// The empty collection has no join: no patch leaves every document as it is, and even `{}` turns `5` into `{}`.
pub fn empty_has_no_join()
    ensures { EmptyHasNoJoin }
{}

/// Patches, at least one, have a join exactly if no two of them conflict: so compatible patches can always be kept as one.
pub fn join_exists()
    ensures { JoinExists }
{}

/// A join is no deeper than the deepest patch that was joined, so it can be written and read wherever they can.
pub fn join_is_no_deeper()
    ensures { JoinIsNoDeeper }
{}

/// A join of patches that can be read can be read: written, it is read back, and can be sent in their place.
pub fn join_is_readable()
    ensures { JoinIsReadable }
{}

/// One application of the join gives the outcome of all the patches that were joined: a replica may keep the join and
/// apply it once.
pub fn join_gives_outcome()
    ensures { JoinGivesOutcome }
{}

/// A document and a patch have a rewriting.
pub fn rewriting_exists()
    ensures { RewritingExists }
{}

/// A document and a patch have at most one rewriting, so replicas that rewrite the same send the same JSON Patch.
pub fn one_rewriting()
    ensures { HasOneRewriting }
{}

/// A rewriting is within a limit, or it is too large for it, and not both; and if it is too large, one number of its operations
/// fits. So a limit changes nothing of a rewriting that is within it.
pub fn rewritings_within()
    ensures one_of_both { RewritingIsWithinOrNot }
    ensures not_both { WithinIsNotTooLarge }
    ensures one_fitting { HasOneFitting }
{}

/// The values of a rewriting are documents, so what is a law of such JSON Patches is a law of it.
pub fn rewritings_have_documents()
    ensures { RewritingHasDocuments }
{}

/// The operations of a rewriting can be written if the document and the patch can be read: their values can be read,
/// their tokens are UTF-8. And their values are no deeper than the deeper of the two: so its text is read back where
/// both are at most 124 deep.
pub fn rewritings_are_writable()
    ensures writable { RewritingIsWritable }
    ensures depth { RewritingIsNoDeeper }
{
    mp_pointer::laws::parts_are_readable();
    mp_pointer::laws::parts_are_shallower();
}

/// The tests at the head of a rewriting guard it: if it runs on another document, each place that it changes and
/// where the document of the rewriting has something has the same there. And if a test is refused, that document
/// differs at its place, and nothing of it was changed: the number of the operation shows where.
///
/// Not promised: that a place which is added is free, since it has no test, and what is there is overwritten; that a
/// document which passes the tests takes every add, as `{"a":5}` does not take one at `/a/b`, where the start has
/// `{"a":{}}`; nor what the edits do to one that has an array where the start has an object with names that spell
/// indices, as `{"a":[1,2]}` for `{"a":{"0":1}}`.
pub fn guards_show()
    ensures passed { GuardedList }
    ensures refused { RefusedGuardShows }
{
    mp_patch::laws::operations_are_taken();
}

/// The rewriting has no operation exactly if the patch leaves the document as it is.
pub fn empty_rewriting()
    ensures { EmptyRewriting }
{}

/// The tests and then each edit once and nothing else, in whatever order, run from the document to what the patch
/// makes of it: no edit is refused, and none undoes another.
pub fn edits_in_any_order()
    ensures { EditsInAnyOrder }
{
    mp_patch::laws::operations_are_taken();
}

/// The rewriting of a patch that is at most 126 deep runs from the document to what the patch makes of it.
pub fn rewriting_runs()
    ensures { RewritingRuns }
{
    mp_patch::laws::operations_are_taken();
}

/// Replicas that start from one document and receive the same patches, at least one and no two of which conflict, in any
/// orders and with any repeats, are not refused and end with the same document, whether they apply each patch as it
/// comes or all at once: one application of the patches' join to the start. The join, rewritten against the start, is a
/// JSON Patch that is not refused and leads from the start to that document alone, if the patches are at most 126
/// deep.
///
/// Join is commutative, associative and idempotent, and two patches have one exactly if they are compatible.
pub fn replicas_converge()
    ensures replicas { ReplicasConverge }
    ensures commutative { JoinIsCommutative }
    ensures associative { JoinIsAssociative }
    ensures idempotent { JoinIsIdempotent }
    ensures refuses { PairHasJoin }
{
    rewriting_runs();
    mp_patch::laws::one_end();
    mp_patch::laws::runs_are_not_refused();
}
