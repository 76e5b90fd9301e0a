//! What another language holds of a member.
ghost use Rattle.std.specs.Prelude.{◌≡◌, IsSome, Some, None, Option};
ghost use Rattle.library_boards.specs.Handles.{MaybeMember, member_coded};

use crate::loose::Loose;
use crate::member::Member;
use std::alloc::Global;
use std::marker::Model;
use std::{mem, ptr};

/// A member, as another language holds it: one pointer, which that language never looks behind; or
/// nothing yet, or no more. It owns the member: dropping it frees nothing.
#[repr(C)]
#[derive(Drop)]
pub struct Handle {
    at: *mut u8,
    alloc: Global,
    pub ghost member: { MaybeMember } by { member_coded },
}

impl Model for Handle {
    ghost use Rattle.library_boards.specs.Handles.{handle_owns};

    ghost also_owns = { λ h. handle_owns h.alloc h.at h.member };
}

impl Handle {
    /// The handle of a member.
    pub fn of(member: Box<Member, Global>) -> Handle
        ensures { result.member ≡ Some member.value }
    {
        Handle::of_loose(Loose::of(member))
    }

    /// The member, which the handle has no more.
    pub fn take(&mut self, alloc: Global) -> Box<Member, Global>
        requires { IsSome self.old.member }
        ensures member { self.old.member ≡ Some result.value }
        ensures none { self.new.member ≡ None }
    {
        mem::replace(self, Handle::none(alloc))
            .into_loose()
            .into_box()
    }

    // The handle of nothing.
    fn none(alloc: Global) -> Handle
        ensures { result.member ≡ None }
    {
        Handle {
            at: ptr::null_mut(),
            alloc,
        }
    }

    fn of_loose(loose: Loose<Member, Global>) -> Handle
        ensures { result.member ≡ Some loose.value }
    {
        let Loose { at, alloc } = loose;
        Handle {
            at: at.cast(),
            alloc,
        }
    }

    fn into_loose(self) -> Loose<Member, Global>
        requires { IsSome self.member }
        ensures { self.member ≡ Some result.value }
    {
        let Handle { at, alloc } = self;
        Loose {
            at: at.cast(),
            alloc,
        }
    }
}

unsafe impl Send for Handle {}
