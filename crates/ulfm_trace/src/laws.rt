//! What follows from the texts of traces, as functions whose contracts are these laws.
ghost use Rattle.ulfm_trace.specs.Laws.{TextsHaveOneVerdict};

/// A text is a legal trace, or it is bad at one line for one reason: never both, never neither, and never at two lines or for two. The lines
/// before the bad one are a legal trace, or there is none before it, and with it they aren't; whole first lines of a legal trace are one. A
/// line is bad for its text only where it isn't of the grammar.
pub fn texts_have_one_verdict()
    ensures { TextsHaveOneVerdict }
{}
