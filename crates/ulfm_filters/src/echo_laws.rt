//! What follows from the definition of echoes, as functions whose contracts are these laws.
ghost use Rattle.ulfm_filters.specs.EchoLaws.{EchoesAreTakenAway};

/// A script is read alike with echoes and without, and it has the same fault. What is printed with echoes is what is printed without them, line by
/// line and byte for byte, each line behind its call. And each echo is the line that asked for its call.
pub fn echoes_are_taken_away()
    ensures { EchoesAreTakenAway }
{}
