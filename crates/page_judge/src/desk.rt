//! The place of a station between two questions.
ghost use Rattle.std.specs.Prelude.{◌≡◌, Option, Some, None};
ghost use Rattle.page_judge.specs.Desk.{desk_owns, IsOpen};
ghost use Rattle.page_judge.specs.declared.kept.Kept.{Kept as Held};

use crate::kept::Kept;
use crate::parts::Parts;
use std::alloc::Global;
use std::marker::Model;

/// The place of a station from one question to the next. It holds none, or one that `page_open` put there. The page has
/// it in its memory, and neither reads nor writes it; before the first call it is all zeros.
#[repr(C)]
#[derive(Drop)]
pub struct Desk {
    place: *mut u8,
    alloc: Global,
    pub ghost kept: { Option Held },
}

impl Model for Desk {
    ghost also_owns = { λ d. desk_owns d.alloc d.place d.kept };
}

impl Desk {
    // A desk that holds nothing.
    fn empty(alloc: Global) -> Desk
        ensures { result.kept ≡ None }
    {
        Desk {
            place: std::ptr::null_mut(),
            alloc,
        }
    }

    // A desk that holds what is in the parts of a box.
    fn of_parts(parts: Parts<Kept, Global>) -> Desk
        ensures { result.kept ≡ Some parts.value }
    {
        let Parts { ptr, alloc } = parts;
        Desk {
            place: ptr as *mut u8,
            alloc,
        }
    }

    // The parts of the box that is held.
    fn into_parts(self) -> Parts<Kept, Global>
        requires { IsOpen self.kept }
        ensures { self.kept ≡ Some result.value }
    {
        let Desk { place, alloc } = self;
        Parts {
            ptr: place as *mut Kept,
            alloc,
        }
    }

    // Takes what is held, and holds nothing.
    pub(crate) fn take(&mut self, alloc: Global) -> Box<Kept>
        requires { IsOpen self.old.kept }
        ensures taken { self.old.kept ≡ Some result.value }
        ensures empty { self.new.kept ≡ None }
    {
        std::mem::replace(self, Desk::empty(alloc))
            .into_parts()
            .into_box()
    }

    // Holds this from now on.
    pub(crate) fn put(&mut self, kept: Box<Kept>)
        ensures { self.new.kept ≡ Some kept.value }
    {
        *self = Desk::of_parts(Parts::of(kept));
    }
}
