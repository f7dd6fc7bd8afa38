// What replies tell of their rounds. Each function does nothing: what it ensures is a law.

ghost use Rattle.ulfm_model.specs.Told.{AgreesOpen, AgreesTell, PendingKeeps, PollsRefuse, RepliesStay, SelfFailedIsDeclared};
ghost use Rattle.ulfm_model.specs.Told.{ShrinksOpen, ShrinksTell, StartsRefuse};

use ulfm_laws::meld::Meld;

/// An agree or a shrink that started is open in the round that was next.
pub fn starts_open<P: Meld>()
    ensures agree { AgreesOpen P.meld }
    ensures shrink { ShrinksOpen P.meld }
{}

/// A pending poll leaves what is held.
pub fn pending_keeps<P: Meld>()
    ensures { PendingKeeps P.meld }
{}

/// The poll of an agree that is answered tells what its round decided, and that of a shrink what was made of its round.
pub fn polls_tell<P: Meld>()
    ensures agree { AgreesTell P.meld }
    ensures shrink { ShrinksTell P.meld }
{}

/// A rank that is refused as self-failed is declared.
pub fn self_failed_is_declared<P: Meld>()
    ensures { SelfFailedIsDeclared P.meld }
{}

/// Replies stay what they are in every longer legal history.
pub fn replies_stay<P: Meld>()
    ensures { RepliesStay P.meld }
{}

/// What is refused is refused with its reason: a start that the record doesn't refuse, and a poll of an agree or a shrink.
pub fn refusals_have_reasons<P: Meld>()
    ensures start { StartsRefuse P.meld }
    ensures poll { PollsRefuse P.meld }
{}
