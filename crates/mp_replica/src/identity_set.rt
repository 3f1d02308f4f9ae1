//! The identities of a list as a set.
ghost use Rattle.std.specs.Prelude.{◌↔◌, IfOk};
ghost use Rattle.mp_replica.specs.Private.Identities.{HasThese};

use crate::message::Identity;
use std::alloc::{AllocError, Global};
use std::collections::BTreeSet;

// To look one up costs a search: a walk over the list for each stored patch would cost their product.
pub(crate) fn set_of(
    alloc: Global,
    identities: &[Identity],
) -> Result<BTreeSet<Identity>, AllocError>
    ensures { IfOk result (λ set. HasThese set identities.now) }
{
    let mut set = BTreeSet::new(alloc);
    for identity in identities {
        let _is_new = set.insert(*identity)?;
    }
    Ok(set)
}
