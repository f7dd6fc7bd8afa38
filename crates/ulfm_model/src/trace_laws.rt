// The laws of legal traces. Each function does nothing: what it ensures is a law, proved for every sort of contribution.
ghost use Rattle.ulfm_model.specs.TraceLaws.{EventsAreLegal, LinesHaveOneReason, RepliesAreAnswers};

use ulfm_laws::meld::Meld;

/// Each reply of a legal trace is an answer of the sequential object: a call that began where the trace says, among the events of
/// others, with its point where the reply says.
pub fn replies_are_answers<P: Meld>()
    ensures { RepliesAreAnswers P.meld }
{}

/// The events of a legal trace are a legal history.
pub fn events_are_legal<P: Meld>()
    ensures { EventsAreLegal P.meld }
{}

/// A line may come, or is bad for one reason: never both, and never for two.
pub fn lines_have_one_reason<P: Meld>()
    ensures { LinesHaveOneReason P.meld }
{}
