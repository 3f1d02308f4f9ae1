//! The join of stored patches, which grows by a patch where it is stored.
ghost use Rattle.std.specs.Prelude.{◌≡◌, ◌↔◌, None, Some, IfSome, IsFalse, IsTrue, option_map};
ghost use Rattle.mp_tree.specs.View.{document};
ghost use Rattle.mp_merge.specs.Clash.{Compatible};
ghost use Rattle.mp_replica.specs.Private.Steps.{JoinsStay, SameJoins};
ghost use Rattle.mp_replica.specs.Private.StoredPatches.{join_in};

use crate::laws::merge_laws;
use crate::message::Identity;
use mp_merge::{compatible, join_into};
use mp_tree::Doc;
use std::alloc::Global;
use std::collections::BTreeMap;

// What is joined of some patches, each stored under its identity.
#[derive(Drop)]
pub(crate) struct StoredJoin {
    // The join, if anything is joined.
    pub(crate) joined: Option<Doc>,
    // The identity of a patch of which a part may be joined, since memory ran out. It is compatible with what is joined.
    pub(crate) unjoined: Option<Identity>,
}

impl StoredJoin {
    // Whether the patch is compatible with what is joined.
    pub(crate) fn fits(&self, patch: &Doc) -> bool
        ensures { IsTrue result
            ↔ IfSome (option_map document self.now.joined) (Compatible (document patch.now)) }
    {
        match &self.joined {
            Some(joined) => compatible(patch, joined),
            None => true,
        }
    }

    // Joins the patch that is not joined whole. False if memory ran out: it is not joined whole still.
    pub(crate) fn settle(&mut self, alloc: Global, patches: &BTreeMap<Identity, Doc>) -> bool
        ensures settled { IsTrue result ↔ (self.new.unjoined ≡ None) }
        ensures stays { JoinsStay (join_in patches.now.entries self.old)
            (join_in patches.now.entries self.new) }
    {
        let Some(identity) = self.unjoined else {
            return true;
        };
        let Some(patch) = patches.get(&identity) else {
            self.unjoined = None;
            return true;
        };
        if !grow_by(alloc, &mut self.joined, patch) {
            return false;
        }
        self.unjoined = None;
        true
    }
}

// Joins the patch to what is joined. False if memory ran out: a part of it may be joined, and the call can be made again.
pub(crate) fn grow_by(alloc: Global, joined: &mut Option<Doc>, patch: &Doc) -> bool
    ensures grown { IsTrue result → SameJoins (option_map document joined.old)
        (Some (document patch.now)) (option_map document joined.new) None }
    ensures resumes { IsFalse result → SameJoins (option_map document joined.old)
        (Some (document patch.now)) (option_map document joined.new) (Some (document patch.now)) }
{
    merge_laws();
    match joined {
        Some(before) => match join_into(alloc, before, patch) {
            Ok(united) => united,
            Err(_) => false,
        },
        None => match patch.copy(alloc) {
            Ok(copy) => {
                *joined = Some(copy);
                true
            }
            Err(_) => false,
        },
    }
}
