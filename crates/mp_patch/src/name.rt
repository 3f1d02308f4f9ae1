// The names of operations (RFC 6902 section 4), as the member `op` has them.
ghost use Rattle.std.specs.Prelude.{◌≡◌, MatchOption};
ghost use Rattle.mp_patch.specs.Form.{NamesOp};
ghost use Rattle.mp_patch.specs.Private.Names.{name_of};

#[derive(Clone, Copy, Drop)]
pub(crate) enum OpName {
    Add,
    Remove,
    Replace,
    Move,
    Copy,
    Test,
}

impl OpName {
    pub(crate) fn as_str(self) -> &'static str
        ensures { result.now ≡ name_of self }
    {
        match self {
            OpName::Add => "add",
            OpName::Remove => "remove",
            OpName::Replace => "replace",
            OpName::Move => "move",
            OpName::Copy => "copy",
            OpName::Test => "test",
        }
    }
}

pub(crate) fn op_named(word: &str) -> Option<OpName>
    ensures { MatchOption result ((need : _) → ¬ NamesOp need word.now)
        (λ name. word.now ≡ name_of name) }
{
    match word {
        "add" => Some(OpName::Add),
        "remove" => Some(OpName::Remove),
        "replace" => Some(OpName::Replace),
        "move" => Some(OpName::Move),
        "copy" => Some(OpName::Copy),
        "test" => Some(OpName::Test),
        _ => None,
    }
}
