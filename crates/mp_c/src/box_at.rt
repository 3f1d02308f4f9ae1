//! A box as its pointer, or nothing.
ghost use Rattle.std.specs.Prelude.{◌≡◌, Option, Some, None, option_map};
ghost use Rattle.mp_c.specs.Owned.{owned_at};

use std::alloc::Global;
use std::marker::Model;

/// What stays in memory between two calls: a box, or nothing, which is the null pointer.
pub struct BoxAt<T> {
    pub(crate) at: *mut T,
    pub ghost value: { Option T },
}

impl<T> Model for BoxAt<T> {
    ghost also_owns = { λ b. owned_at T.row b.at b.value };
}

impl<T: Drop> BoxAt<T> {
    /// Nothing.
    pub fn none() -> BoxAt<T>
        ensures { result.value ≡ None }
    {
        BoxAt {
            at: std::ptr::null_mut(),
        }
    }

    /// A box, whose owner this is from now on.
    pub fn of(owned: Box<T>) -> BoxAt<T>
        ensures { result.value ≡ Some owned.value }
    {
        let at = Box::into_raw(owned);
        BoxAt { at }
    }

    /// The box again.
    pub fn into_box(self, alloc: Global) -> Option<Box<T>>
        ensures { option_map (λ b. b.value) result ≡ self.value }
    {
        let BoxAt { at } = self;
        if at.is_null() {
            return None;
        }
        let owned = unsafe { Box::from_raw(alloc, at) };
        Some(owned)
    }
}

pub(crate) fn needs_send<T: Send>(value: T) -> T {
    value
}
