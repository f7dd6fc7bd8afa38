//! The lines that a step machine tells, as text.
ghost use Rattle.std.specs.Prelude.{◌≡◌, ◌++◌, ◌∷◌, [], IfOk, OnOk};
ghost use Rattle.ulfm_lines.specs.LineTexts.{line_text};

use crate::printing::print_line;
use std::alloc::{AllocError, Allocator};
use ulfm_laws::FlagAnd;
use ulfm_model::Line;
use ulfm_script::LastGroup;

/// The lines of a trace that were told and not yet written.
#[derive(Drop)]
pub struct Teller<A: Allocator> {
    /// The bytes of these lines, each with its newline.
    pub text: Vec<u8, A>,
    last: LastGroup<A>,
}

impl<A: Allocator + Copy> Teller<A> {
    /// Nothing was told yet. It takes no memory.
    pub fn new(alloc: A) -> Teller<A>
        ensures { result.text.items ≡ [] }
    {
        Teller {
            text: Vec::new(alloc),
            last: LastGroup::new(alloc),
        }
    }
}

impl<A: Allocator> Teller<A> {
    /// Tells a line with the ranks that it lists: a communicator's failed group for `FailedGroup`, a new one's members for `Shrunk`,
    /// else nobody. After an error nothing is said of the text.
    pub fn tell(&mut self, line: &Line<FlagAnd>, group: &[u16]) -> Result<(), AllocError>
        ensures { OnOk result (self.new.text.items ≡ self.old.text.items ++ (line_text group.now line.now ++ 10 ∷ [])) }
    {
        print_line(&mut self.text, line, group, &mut self.last)?;
        self.text.push(b'\n')?;
        Ok(())
    }

    /// Nothing is told and not written any more.
    pub fn clear(&mut self)
        ensures { self.new.text.items ≡ [] }
    {
        self.text.clear();
    }
}
