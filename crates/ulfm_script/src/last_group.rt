//! The text of the group that was printed last.
ghost use Rattle.std.specs.Prelude.{◌≡◌, ◌++◌, [], OnOk};
ghost use Rattle.ulfm_script.specs.Printed.{ranks_text};

use crate::printing::print_ranks;
use std::alloc::{AllocError, Allocator};

/// The group that was printed last, and its text. Where the same group comes again, as to each member of a new communicator, no
/// rank is printed anew.
#[derive(Drop)]
pub struct LastGroup<A: Allocator> {
    group: Vec<u16, A>,
    text: Vec<u8, A>,
    ghost printed: { text.items ≡ ranks_text group.items },
}

impl<A: Allocator + Copy> LastGroup<A> {
    /// No group was printed yet. It takes no memory.
    pub fn new(alloc: A) -> LastGroup<A>
        ensures { result.group.items ≡ [] }
    {
        LastGroup {
            group: Vec::new(alloc),
            text: Vec::new(alloc),
        }
    }
}

impl<A: Allocator> LastGroup<A> {
    /// Appends each rank of a group behind a space.
    pub(crate) fn put(&mut self, text: &mut Vec<u8, A>, group: &[u16]) -> Result<(), AllocError>
        ensures { OnOk result (text.new.items ≡ text.old.items ++ ranks_text group.now) }
    {
        if self.group.as_slice() != group {
            self.print(group)?;
        }
        text.extend_from_slice(&self.text)
    }

    /// Prints a group in the place of the last.
    #[inline(never)]
    fn print(&mut self, group: &[u16]) -> Result<(), AllocError>
        ensures { OnOk result (self.new.group.items ≡ group.now) }
    {
        self.group.clear();
        self.text.clear();
        let printed = print_ranks(&mut self.text, group);
        if printed.is_err() || self.group.extend_from_slice(group).is_err() {
            self.text.clear();
            return Err(AllocError);
        }
        Ok(())
    }
}
