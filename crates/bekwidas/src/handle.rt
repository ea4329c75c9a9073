//! The part of an end that C holds: a pointer to a station, whose content it does not see.

ghost use Rattle.std.specs.Prelude.{◌≡◌, ◌≢◌, ◌==◌, IsSome, IfSome, IfNone, Some, None, Option};
ghost use Rattle.bekwidas.specs.Held.{Held, holds, held_coded};

mod parts;

use end_for_callers::Station;
use parts::Parts;
use std::alloc::Global;
use std::marker::Model;

/// The type at the pointer, as C sees it.
#[repr(C)]
pub struct Opaque {
    octet: u8,
}

/// A box of which C sees only the pointer, or nothing.
#[repr(C)]
#[derive(Drop)]
pub struct Handle {
    ptr: *mut Opaque,
    alloc: Global,
    ghost held: { Option Held } by { held_coded },
}

impl Model for Handle {
    ghost also_owns = { λ h. holds h.alloc h.ptr h.held };
}

impl Handle {
    /// Makes a handle from the parts of a box.
    fn of_parts(parts: Parts<Station, Global>) -> Handle
        ensures { result.held ≡ Some parts.value }
    {
        let Parts { ptr, alloc } = parts;
        Handle {
            ptr: ptr as *mut Opaque,
            alloc,
        }
    }

    /// Returns the parts of the box that a handle holds.
    fn into_parts(self) -> Parts<Station, Global>
        requires { IsSome self.held }
        ensures { Some result.value ≡ self.held }
    {
        let Handle { ptr, alloc } = self;
        Parts {
            ptr: ptr as *mut Station,
            alloc,
        }
    }

    /// Makes a handle without a station.
    fn empty(alloc: Global) -> Handle
        ensures { result.held ≡ None }
    {
        Handle {
            ptr: std::ptr::null_mut(),
            alloc,
        }
    }
}

/// The place of a station in the memory of C. A slot of zeros holds none.
#[repr(C)]
#[derive(Drop)]
pub struct Slot {
    handle: Handle,
    is_open: u32,
    ghost stands: { is_open ≡ 1 → IsSome handle.held },
}

impl Slot {
    /// Returns true if the slot holds a station.
    pub fn is_open(&self) -> bool
        // `is_open` is true if and only if the flag is 1.
        ensures { result ≡ (self.now.is_open == 1) }
    {
        self.is_open == 1
    }

    /// Takes the station out of the slot, if there is one.
    pub fn take(&mut self, alloc: Global) -> Option<Box<Station>>
        // A station that `take` returns is the one that the slot held.
        ensures some { IfSome result (λ station. Some station.value ≡ self.old.handle.held) }
        // `take` returns a station only if the slot held one.
        ensures was_open { IfSome result (λ _. self.old.is_open ≡ 1) }
        // `take` returns `None` only if the slot held no station.
        ensures none { IfNone result (self.old.is_open ≢ 1) }
        // After `take` the slot holds no station.
        ensures empty { self.new.is_open ≡ 0 }
    {
        let empty = Slot {
            handle: Handle::empty(alloc),
            is_open: 0,
        };
        let was = std::mem::replace(self, empty);
        if was.is_open != 1 {
            return None;
        }
        Some(was.handle.into_parts().into_box())
    }

    /// Puts a station into the slot, which its callers have emptied before.
    pub fn put(&mut self, station: Box<Station>)
        // After `put` the slot holds this station.
        ensures held { self.new.handle.held ≡ Some station.value }
        // After `put` the slot is open.
        ensures open { self.new.is_open ≡ 1 }
    {
        let filled = Slot {
            handle: Handle::of_parts(Parts::of(station)),
            is_open: 1,
        };
        let _was = std::mem::replace(self, filled);
    }
}
