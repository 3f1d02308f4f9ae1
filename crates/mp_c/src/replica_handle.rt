//! The handle of a replica: what C keeps between two calls.
ghost use Rattle.std.specs.Prelude.{◌≡◌, Option, Some, None, option_map};
ghost use Rattle.std.specs.Coded.{coded_option};
ghost use Rattle.mp_replica.specs.Held.{HeldReplica};
ghost use Rattle.mp_replica.specs.contracts.replica.Replica.{the_row};
ghost use Rattle.mp_c.specs.Owned.{owned_at};

use crate::box_at::{BoxAt, needs_send};
use mp_replica::Replica;
use std::alloc::Global;
use std::marker::Model;
use std::mem;

/// A pointer that C neither reads nor writes: null while no replica is held.
#[repr(C)]
pub struct ReplicaHandle {
    at: *mut u8,
    pub ghost value: { Option HeldReplica } by { coded_option the_row.coded },
}

impl Model for ReplicaHandle {
    ghost also_owns = { λ h. owned_at the_row h.at h.value };
}

impl ReplicaHandle {
    pub fn of(owned: BoxAt<Replica>) -> ReplicaHandle
        ensures { result.value ≡ owned.value }
    {
        let BoxAt { at } = owned;
        ReplicaHandle { at: at as *mut u8 }
    }

    pub fn into_box_at(self) -> BoxAt<Replica>
        ensures { result.value ≡ self.value }
    {
        let ReplicaHandle { at } = self;
        BoxAt {
            at: at as *mut Replica,
        }
    }

    /// Takes what is held, and leaves nothing.
    pub fn take(&mut self, alloc: Global) -> Option<Box<Replica>>
        ensures value { option_map (λ b. b.value) result ≡ self.old.value }
        ensures rest { self.new.value ≡ None }
    {
        mem::replace(self, ReplicaHandle::of(BoxAt::none()))
            .into_box_at()
            .into_box(alloc)
    }

    /// Holds the box. What was held before is dropped.
    pub fn put(&mut self, alloc: Global, owned: Box<Replica>)
        ensures { self.new.value ≡ Some owned.value }
    {
        let _before = mem::replace(self, ReplicaHandle::of(BoxAt::of(owned)))
            .into_box_at()
            .into_box(alloc);
    }
}

unsafe impl Send for ReplicaHandle {}

// That a handle may move to another thread: this is refused if `Send` of what it owns is not proved.
pub(crate) fn crosses(handle: ReplicaHandle) -> ReplicaHandle {
    needs_send(handle)
}
