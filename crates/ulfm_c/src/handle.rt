//! The handle that a program in C holds: a pointer to a rank or the outside of a world, or null.
ghost use Rattle.std.specs.Prelude.{◌≡◌, None, Some, MatchOption};
ghost use Rattle.std.specs.declared.option.Option.{Option};
ghost use Rattle.std.specs.Coded.{coded_option};
ghost use Rattle.ulfm_c.specs.Owned.{owned_at};
ghost use Rattle.ulfm_c.specs.contracts.party.Party.{the_row};

use crate::loose::Loose;
use crate::party::Party;
use std::alloc::Global;
use std::marker::Model;
use std::{mem, ptr};

/// A handle, as C has it: one pointer, null where it holds nothing.
#[repr(C)]
#[derive(Drop)]
pub struct Handle {
    at: *mut u8,
    pub ghost party: { Option (the_row.Denot) } by { coded_option the_row.coded },
}

impl Model for Handle {
    ghost also_owns = { λ h. owned_at the_row h.at h.party };
}

/// The answer of the party that a handle holds; the code for none, where it holds nothing.
macro_rules! held {
    ($handle:ident, $party:ident => $answer:expr) => {
        match $handle.party() {
            None => $crate::code::NO_HANDLE,
            Some($party) => $answer,
        }
    };
}

pub(crate) use held;

impl Handle {
    ghost use Rattle.std.specs.Borrow.{sem};
    ghost use Rattle.ulfm_c.specs.Lends.{lends_party};

    // What it holds, lent: what is left there is what it holds afterwards, and its pointer is as it was.
    pub(crate) fn party(&mut self) -> Option<&mut Party>
        ensures* writes_back { sem 𝓛 (lends_party self.entry result) }
        ensures lent { MatchOption result (self.old.party ≡ None) (λ p. self.old.party ≡ Some p.now) }
    {
        let at = self.at;
        if at == ptr::null_mut() {
            return None;
        }
        Some(unsafe { &mut *(at as *mut Party) })
    }

    // The box, for C to hold.
    pub(crate) fn of(party: Box<Party>) -> Handle
        ensures { result.party ≡ Some party.value }
    {
        Handle::holding(Loose::of(party))
    }

    // The box again, if it holds one.
    pub(crate) fn into_party(self, alloc: Global) -> Option<Box<Party>>
        ensures { MatchOption result (self.party ≡ None) (λ b. self.party ≡ Some b.value) }
    {
        match self.into_loose(alloc) {
            None => None,
            Some(loose) => Some(loose.into_box()),
        }
    }

    // What it holds, which it holds no more.
    pub(crate) fn take(&mut self, alloc: Global) -> Option<Box<Party>>
        ensures taken { MatchOption result (self.old.party ≡ None) (λ b. self.old.party ≡ Some b.value) }
        ensures empty { self.new.party ≡ None }
    {
        mem::replace(self, Handle::empty()).into_party(alloc)
    }

    // From now on it holds this. What it held before is dropped.
    pub(crate) fn hold(&mut self, alloc: Global, party: Box<Party>)
        ensures { self.new.party ≡ Some party.value }
    {
        let _ = self.take(alloc);
        *self = Handle::of(party);
    }

    fn holding(loose: Loose<Party, Global>) -> Handle
        ensures { result.party ≡ Some loose.value }
    {
        let Loose { at, alloc: _ } = loose;
        Handle { at: at as *mut u8 }
    }

    // One that holds none.
    pub(crate) fn empty() -> Handle
        ensures { result.party ≡ None }
    {
        Handle {
            at: ptr::null_mut(),
        }
    }

    fn into_loose(self, alloc: Global) -> Option<Loose<Party, Global>>
        ensures { MatchOption result (self.party ≡ None) (λ l. self.party ≡ Some l.value) }
    {
        let Handle { at } = self;
        if at == ptr::null_mut() {
            return None;
        }
        Some(Loose {
            at: at as *mut Party,
            alloc,
        })
    }
}

unsafe impl Send for Handle {}

// Takes what may go to another thread.
fn crosses<T: Send>(_it: &T) {}

// A handle may. Without a caller nothing would ask for the proof of `Send`.
pub(crate) fn handle_crosses(handle: &Handle) {
    crosses(handle);
}
