//! Laws of patches alone: each function runs nothing, and its contract is the law.
ghost use Rattle.mp_patch.specs.Laws.{FormsAreWritable, FormsHaveDocuments, FormsHaveNoFault, HasOneEnd, HasOneFormFault, HasOneReading, HasOneRefusal, IsFormOrFaulty, LimitsChangeNoAnswer, OperationsAreTaken, PatchesHaveDocuments, RunsAreReadable, RunsOrIsRefused, RunsUnrefused, ShapesAreForms, ShapesAreReadable, StaysShallow, HasOneStopWithin, RunsAreNotStopped, RunsWithinOrStops};

/// The values of a patch are documents: so the other laws speak of every `JsonPatch`.
pub fn patches_have_documents()
    ensures { PatchesHaveDocuments }
{}

/// An operation is not refused if what it names is there, and what it adds has a place and fits (RFC 6902 section 4).
/// `Cause` lists what else refuses one.
pub fn operations_are_taken()
    ensures { OperationsAreTaken }
{}

/// A patch leads from a document to one end alone (RFC 6902 section 5).
pub fn one_end()
    ensures { HasOneEnd }
{}

/// On each document a patch leads to an end, or is refused.
pub fn runs_or_is_refused()
    ensures { RunsOrIsRefused }
{}

/// A patch that leads to an end is not refused.
pub fn runs_are_not_refused()
    ensures { RunsUnrefused }
{}

/// A patch is refused at one operation alone, and by one cause.
pub fn one_refusal()
    ensures { HasOneRefusal }
{}

/// No patch leads from a document of depth at most 126 to a deeper one.
pub fn runs_stay_shallow()
    ensures { StaysShallow }
{}

/// A document is a form of one list of operations alone (RFC 6902 sections 3 and 4).
pub fn one_reading()
    ensures { HasOneReading }
{}

/// If a form is a document, the values of its operations are documents.
pub fn forms_have_documents()
    ensures { FormsHaveDocuments }
{}

/// What operations are written as is a form of them.
pub fn shapes_are_forms()
    ensures { ShapesAreForms }
{}

/// A document that is a form of operations has no error but out of memory.
pub fn forms_have_no_fault()
    ensures { FormsHaveNoFault }
{}

/// A document is a form of operations, or has an error that is not out of memory.
pub fn is_form_or_faulty()
    ensures { IsFormOrFaulty }
{}

/// A document has one error alone that is not out of memory.
pub fn one_fault()
    ensures { HasOneFormFault }
{}

/// A JSON Patch whose values can be read and whose tokens are UTF-8 has a document that can be read, and so is read back
/// from its text, if its values are at most 124 deep: an operation and the array are two levels around each.
pub fn shapes_are_readable()
    ensures { ShapesAreReadable }
{
    mp_pointer::laws::spellings_are_texts();
}

/// The operations of a form that can be read have tokens in UTF-8, and values that can be read.
pub fn forms_are_writable()
    ensures { FormsAreWritable }
{
    mp_pointer::laws::parts_are_readable();
    mp_pointer::laws::tokens_are_texts();
}

/// A JSON Patch whose values can be read and whose tokens are UTF-8 leads from a document that can be read to one that can be
/// read, and so is read back from its text.
pub fn runs_are_readable()
    ensures { RunsAreReadable }
{}

/// A limit changes no answer below it: if it allows the weight of each result on the way, and the work of all operations, a patch
/// that leads to an end leads there within the limit; what it leads to within the limit it leads to without one; and an operation
/// that is refused within the limit is refused without one, by the same cause. The limit `usize::MAX` ends no patch.
pub fn limits_change_nothing()
    ensures { LimitsChangeNoAnswer }
{}

/// Within a limit each patch runs to an end or is stopped, by a refusal or by an operation that is too much, and not both; and it is
/// stopped at one operation alone, by one error. So a call within a limit has one answer, unless memory runs out.
pub fn one_answer_within()
    ensures some { RunsWithinOrStops }
    ensures unstopped { RunsAreNotStopped }
    ensures one_stop { HasOneStopWithin }
{}
