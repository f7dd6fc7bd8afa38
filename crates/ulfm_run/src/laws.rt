// The laws of ranks that sit as lines say. Each function does nothing: what it ensures is a law, proved for every sort of contribution.
ghost use Rattle.ulfm_run.specs.Seats.{SeatsBegin, SeatsLast};

use ulfm_laws::meld::Meld;

/// Lines of others leave a rank where it sits.
pub fn seats_last<P: Meld>()
    ensures { SeatsLast P.meld }
{}

/// Each new rank of a world sits idle where nothing is said.
pub fn seats_begin<P: Meld>()
    ensures { SeatsBegin P.meld }
{}
