//! The answer to an input: the checks in their order, and then the command's work.
ghost use Rattle.std.specs.Prelude.{map, IfOk};
ghost use Rattle.mp_tree.specs.Values.{value_document, value_items};
ghost use Rattle.mp_patch.specs.View.{operations_by};
ghost use Rattle.mp_cli.specs.Answered.{IsAnswered, IsGetAnswerTo, IsJoinAnswer, IsPatchAnswer, IsPatchAnswerTo, IsReplayAnswerTo, IsRewriteAnswer, IsRewriteAnswerTo, IsRunAnswer, answered_by, merge_answer};
ghost use Rattle.mp_cli.specs.Private.Answers.{Gives};

use crate::answers::Answer;
use crate::command::Command;
use crate::inputs::{first_and_rest, pair, single};
use crate::lines::{
    apply_fault, form_fault, input_fault, list_fault, part_line, result_line, spelling_fault,
    wrong_shape,
};
use mp_merge::{
    RewriteFault, join_all_within, laws as merging, merge_owned, replay_within, rewrite_within,
};
use mp_patch::{Op, apply_within, laws as patching, write_patch};
use mp_pointer::{Pointer, part_in};
use mp_tree::{read_values, write_value};
use serde_json::Value;
use std::alloc::{AllocError, Global};

/// The answer of the program to these input bytes.
///
/// The checks come in this order: the input is JSON; its numbers are whole; it is an array of the
/// right length, and for `patch` its second element is an array; for `get` the spelling of the
/// pointer; for `patch` the form of all operations; then the work. `AllocError` if memory ran out,
/// which may be at any point.
///
/// ```text
/// answer(alloc, &Command::Merge, b"[{\"a\":1},{\"a\":null}]")  // "{}\n", status 0
/// answer(alloc, &Command::Merge, b"[]")                        // "input: wrong shape\n", status 2
/// answer(alloc, &Command::Join, b"[{\"a\":1},{\"b\":2}]")      // "{\"a\":1,\"b\":2}\n", status 0
/// answer(alloc, &Command::Join, b"[1,2]")                     // "conflict: patches 0 and 1 at \"\"\n", status 1
/// answer(alloc, &Command::Get(pointer), b"[{\"a\":1}]")       // for the text "/a": "1\n", status 0
/// ```
#[tactic(auto, unfolding(crate::specs::Answered::IsAnswered))]
pub fn answer(alloc: Global, command: &Command, input: &[u8]) -> Result<Answer, AllocError>
    ensures { IfOk result (λ a. IsAnswered command.now input.now (answered_by a)) }
{
    match read_values(alloc, input) {
        Ok(values) => match command {
            Command::Get(pointer) => get(alloc, pointer.as_str(), values),
            Command::Patch => patch(alloc, values),
            Command::Merge => merge(alloc, values),
            Command::Join => join(alloc, values.as_slice()),
            Command::Replay => replay(alloc, values),
            Command::Rewrite => rewrite(alloc, values),
        },
        Err(fault) => input_fault(alloc, fault),
    }
}

fn get(alloc: Global, pointer: &str, values: Vec<Value>) -> Result<Answer, AllocError>
    ensures { IfOk result (λ a.
        IsGetAnswerTo pointer.now (value_items values.items) (answered_by a)) }
{
    let Some(doc) = single(values) else {
        return wrong_shape(alloc);
    };
    match Pointer::parse(alloc, pointer) {
        Ok(pointer) => part_line(alloc, part_in(&doc, &pointer, pointer.len())),
        Err(fault) => spelling_fault(alloc, fault),
    }
}

fn patch(alloc: Global, values: Vec<Value>) -> Result<Answer, AllocError>
    ensures { IfOk result (λ a. IsPatchAnswerTo (value_items values.items) (answered_by a)) }
{
    let Some((doc, patch)) = pair(values) else {
        return wrong_shape(alloc);
    };
    read_and_apply(alloc, doc, patch)
}

fn read_and_apply(alloc: Global, doc: Value, patch: Value) -> Result<Answer, AllocError>
    ensures { IfOk result (λ a.
        IsPatchAnswer (value_document doc) (value_document patch) (answered_by a)) }
{
    match Op::list_from(alloc, patch) {
        Ok(ops) => apply_patch(alloc, doc, ops),
        Err(fault) => form_fault(alloc, fault),
    }
}

fn apply_patch(alloc: Global, doc: Value, ops: Vec<Op<Value>>) -> Result<Answer, AllocError>
    ensures { IfOk result (λ a. IsRunAnswer (value_document doc)
        (operations_by value_document ops.items) (answered_by a)) }
{
    patching::limits_change_nothing();
    match apply_within(alloc, doc, ops, usize::MAX) {
        Ok(result) => result_line(write_value(alloc, &result)?),
        Err(fault) => apply_fault(alloc, fault.without_limit()),
    }
}

fn merge(alloc: Global, values: Vec<Value>) -> Result<Answer, AllocError>
    ensures { Gives result (merge_answer (value_items values.items)) }
{
    let Some((mut value, patches)) = first_and_rest(values) else {
        return wrong_shape(alloc);
    };
    for patch in patches {
        value = merge_owned(alloc, Some(value), patch)?;
    }
    result_line(write_value(alloc, &value)?)
}

fn join(alloc: Global, patches: &[Value]) -> Result<Answer, AllocError>
    ensures { IfOk result (λ a. IsJoinAnswer (map value_document patches.now) (answered_by a)) }
{
    merging::first_conflicts();
    match join_all_within(alloc, patches, usize::MAX) {
        Ok(joined) => result_line(write_value(alloc, &joined)?),
        Err(fault) => list_fault(alloc, fault),
    }
}

fn replay(alloc: Global, values: Vec<Value>) -> Result<Answer, AllocError>
    ensures { IfOk result (λ a. IsReplayAnswerTo (value_items values.items) (answered_by a)) }
{
    let Some((start, patches)) = first_and_rest(values) else {
        return wrong_shape(alloc);
    };
    merging::first_conflicts();
    match replay_within(alloc, start, patches.as_slice(), usize::MAX) {
        Ok(value) => result_line(write_value(alloc, &value)?),
        Err(fault) => list_fault(alloc, fault),
    }
}

fn rewrite(alloc: Global, values: Vec<Value>) -> Result<Answer, AllocError>
    ensures { IfOk result (λ a. IsRewriteAnswerTo (value_items values.items) (answered_by a)) }
{
    let Some((doc, patch)) = pair(values) else {
        return wrong_shape(alloc);
    };
    rewrite_patch(alloc, &doc, &patch)
}

fn rewrite_patch(alloc: Global, doc: &Value, patch: &Value) -> Result<Answer, AllocError>
    ensures { IfOk result (λ a.
        IsRewriteAnswer (value_document doc.now) (value_document patch.now) (answered_by a)) }
{
    match rewrite_within(alloc, doc, patch, usize::MAX) {
        Ok(edits) => result_line(write_patch(alloc, &edits)?),
        Err(RewriteFault::TooLarge { fitting: _ }) => unreachable!(),
        Err(RewriteFault::OutOfMemory) => Err(AllocError),
    }
}
