// The lines of a step script, typed.
ghost use Rattle.std.specs.Prelude.{◌≡◌, Ok};

use crate::call::Call;
use crate::step_name::StepName;
use std::alloc::AllocError;

/// A line behind the header.
#[derive(Copy)]
pub enum StepLine<P> {
    /// A rank begins a call.
    Called {
        call: Call<P>,
        /// Whether its flag is spelled with all digits though the upper half is 0, and would be printed without.
        padded: bool,
    },
    /// Up to so many atomic steps of a rank's call.
    Stepped {
        rank: u16,
        count: u16,
    },
    /// The steps of a rank's call up to its next one of this name, which isn't made.
    Before {
        rank: u16,
        name: StepName,
    },
    /// All steps of a rank's call.
    Finished {
        rank: u16,
    },
    /// The outside declares a rank, whole.
    Failed {
        rank: u16,
    },
}

impl<P: Copy> Clone for StepLine<P> {
    fn clone(&self) -> Result<Self, AllocError>
        ensures { result ≡ Ok self.now }
    {
        Ok(*self)
    }
}
