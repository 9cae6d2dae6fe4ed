// A reference as its pointer.
ghost use Rattle.std.specs.Prelude.{◌≡◌, Option, Some as Just, None, IsSome};
ghost use Rattle.std.specs.Borrow.{MutBor};
ghost use Rattle.spg_c.specs.declared.shell.Kept.{Kept as Inside};
ghost use Rattle.spg_c.specs.Behind.{behind};

use crate::any::AnyIndex;
use std::marker::Model;
use std::ptr;

/// What is kept between calls.
#[derive(Drop)]
pub struct Kept {
    pub(crate) index: AnyIndex,
}

/// The pointer of a reference that never ends, or none.
#[repr(C)]
#[derive(Drop)]
pub struct Shell {
    at: *mut u8,
    ghost value: { Option (MutBor Inside) },
}

impl Model for Shell {
    ghost use Rattle.spg_c.specs.Owned.{owned};
    ghost use Rattle.spg_c.specs.contracts.shell.Kept.{the_row as kept_row};

    ghost also_owns = { λ l. owned kept_row l.at l.value };
}

impl Shell {
    /// No reference.
    pub(crate) fn none() -> Shell
        ensures { result.value ≡ None }
    {
        Shell {
            at: ptr::null_mut(),
        }
    }

    /// This reference as its pointer.
    pub(crate) fn of(kept: &'static mut Kept) -> Shell
        ensures { behind result.value ≡ Just kept.old }
    {
        let at = kept as *mut Kept;
        Shell { at: at as *mut u8 }
    }

    /// The reference that its pointer was made of.
    pub(crate) fn into_ref(self) -> &'static mut Kept
        requires some { IsSome self.value }
        ensures { behind self.value ≡ Just result.now }
    {
        let Shell { at } = self;
        unsafe { &mut *(at as *mut Kept) }
    }
}
