//! The handle that C holds: empty, or a boxed machine.
ghost use Rattle.std.specs.Prelude.{◌≡◌, Option, Some, None, IsSome, IfSome};
ghost use Rattle.iol_ffi.specs.declared.Machine.{Machine};
ghost use Rattle.iol_ffi.specs.Handles.{held_coded, handle_owns};

use crate::Machine;
use crate::raw_box::RawBox;
use std::alloc::Global;
use std::marker::Model;
use std::ptr;

/// The handle that C holds: a pointer to a boxed machine, or none. It is opaque to C.
#[repr(C)]
#[derive(Drop)]
pub struct Handle {
    at: *mut (),
    alloc: Global,
    pub ghost value: { Option Machine } by { held_coded },
}

impl Model for Handle {
    ghost also_owns = { λ h. handle_owns h.alloc h.at h.value };
}

impl Handle {
    pub(crate) fn of(b: Box<Machine>) -> Handle
        ensures { result.value ≡ Some b.value }
    {
        Handle::of_raw(RawBox::of(b))
    }

    pub(crate) fn into_box(self) -> Box<Machine>
        requires { IsSome self.value }
        ensures { IfSome self.value (λ x. result.value ≡ x) }
    {
        self.into_raw().into_box()
    }

    pub(crate) fn none(alloc: Global) -> Handle
        ensures { result.value ≡ None }
    {
        Handle {
            at: ptr::null_mut(),
            alloc,
        }
    }

    fn of_raw(raw: RawBox<Machine, Global>) -> Handle
        ensures { result.value ≡ Some raw.value }
    {
        let RawBox { ptr, alloc } = raw;
        Handle {
            at: ptr as *mut (),
            alloc,
        }
    }

    fn into_raw(self) -> RawBox<Machine, Global>
        requires { IsSome self.value }
        ensures { IfSome self.value (λ x. result.value ≡ x) }
    {
        let Handle { at, alloc } = self;
        RawBox {
            ptr: at as *mut Machine,
            alloc,
        }
    }
}

// A handle owns its machine, and a machine shares nothing, so either may go to another thread.
unsafe impl Send for Handle {}
