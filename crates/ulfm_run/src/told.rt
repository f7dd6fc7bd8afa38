// What one atomic step of a call tells.
ghost use Rattle.std.specs.Prelude.{◌≡◌, Ok};

use std::alloc::AllocError;
use ulfm_model::event::Event;
use ulfm_model::reply::Reply;

/// The reply to a call, and its point: on how many events it rests.
#[derive(Clone, Copy)]
pub struct Answer<P> {
    /// On how many events the reply rests: the first so many.
    pub point: u32,
    /// What the call is answered.
    pub reply: Reply<P>,
}

/// What one atomic step of a call tells, in the order of its lines.
pub struct StepTold<P> {
    /// The look has ended, and found so many failures.
    pub look: Option<u16>,
    /// The step made an event.
    pub event: Option<Event<P>>,
    /// The call is answered.
    pub reply: Option<Answer<P>>,
}

impl<P: Copy> Copy for StepTold<P> {}

impl<P: Copy> Clone for StepTold<P> {
    fn clone(&self) -> Result<Self, AllocError>
        ensures { result ≡ Ok self.now }
    {
        Ok(*self)
    }
}
