//! What follows from the contracts of runs and of the check, as functions whose contracts are these laws.
ghost use Rattle.ulfm_filters.specs.Written.{EventsAreFew, FailingEndsAreLegal, FailingTracesAreLegal, PrintedTracesAreLegal, WrittenTracesAreLegal};

use ulfm_laws::meld::Meld;

/// A legal history has no more events than its world has words, which is what `Limits::size` tells.
pub fn events_are_few<P: Meld>()
    ensures { EventsAreFew P.meld }
{}

/// The text of a legal trace, its header and its lines as they are printed, is found legal by whatever checks it, and answers. A script may have
/// each of its calls; and the size of the world and three lines for each of the calls come to less than 5,000,000.
pub fn printed_traces_are_legal()
    ensures { PrintedTracesAreLegal }
{}

/// What a run of a step script has written is a legal trace, where it ended well: whatever checks it, and answers, answers so. At a fault it is a
/// legal trace or nothing, and a beginning of that where the writer failed.
pub fn written_traces_are_legal()
    ensures { WrittenTracesAreLegal }
{}

/// What a run that ended well has written is a legal trace, too, where a rank was declared failed in between.
pub fn failing_traces_are_legal()
    ensures { FailingTracesAreLegal }
{}

/// What such a run has written that ended in a fault is a legal trace or nothing, too, and a beginning of that where the writer failed.
pub fn failing_ends_are_legal()
    ensures { FailingEndsAreLegal }
{}
