//! The laws of the object. Each function does nothing: what it ensures is a law, proved for every sort of contribution.
ghost use Rattle.ulfm_model.specs.Laws.{CallsHaveOneStep, CallsKeepRecords, CommunicatorsStay, ContextsAreIds, DecisionsAreCombined, DecisionsStay};
ghost use Rattle.ulfm_model.specs.Laws.{EventsHappenOnce, HoldersAgree, RecordsStay, ShrinksExcludeFailures, StatesStaySound, SurvivorsAreSpawned};
ghost use Rattle.ulfm_model.specs.Laws.{UnheldIdsAreOffered, WordsTellEvents};

use ulfm_laws::meld::Meld;

/// What a rank's record says stays right, whatever others do.
pub fn records_stay<P: Meld>()
    ensures { RecordsStay P.meld }
{}

/// A decided round stays decided, and its decision is the same for whoever reads it later.
pub fn decisions_stay<P: Meld>()
    ensures { DecisionsStay P.meld }
{}

/// A communicator that exists keeps its members and its context id.
pub fn communicators_stay<P: Meld>()
    ensures { CommunicatorsStay P.meld }
{}

/// A communicator that exists has one context id, below 64.
pub fn contexts_are_ids<P: Meld>()
    ensures { ContextsAreIds P.meld }
{}

/// A spawned communicator's members are its parent's survivors, in the parent's order.
pub fn survivors_are_spawned<P: Meld>()
    ensures { SurvivorsAreSpawned P.meld }
{}

/// A round's decision is read off all contributions and marks combined: an error is raised exactly where the least
/// acknowledged is below the greatest known.
pub fn decisions_are_combined<P: Meld>()
    ensures { DecisionsAreCombined P.meld }
{}

/// Nothing happens twice: no rank fails twice, is settled twice in a round or arrives twice in a barrier; no communicator is
/// revoked twice; no two communicators are made of one round.
pub fn events_happen_once<P: Meld>()
    ensures { EventsHappenOnce P.meld }
{}

/// A shrink offers exactly the context ids that its rank doesn't hold.
pub fn unheld_ids_are_offered<P: Meld>()
    ensures { UnheldIdsAreOffered P.meld }
{}

/// The words tell the events: each event sets one word, which was 0; no other event sets it again.
pub fn words_tell_events<P: Meld>()
    ensures { WordsTellEvents P.meld }
{}

/// A new object's state is sound, and so is each that a call leads to: its history is legal, and each rank's record fits it.
pub fn states_stay_sound<P: Meld>()
    ensures { StatesStaySound P.meld }
{}

/// Where nobody else steps, each call has one reply and one next state, and the function `next` computes them.
pub fn calls_have_one_step<P: Meld>()
    ensures { CallsHaveOneStep P.meld }
{}

/// What a call leaves of its rank's record fits what was seen by then, whatever others do in between.
pub fn calls_keep_records<P: Meld>()
    ensures { CallsKeepRecords P.meld }
{}

/// All who hold a communicator are members of it, and hold it with one group and one context id.
pub fn holders_agree<P: Meld>()
    ensures { HoldersAgree P.meld }
{}

/// The round of a shrink that starts leaves out every rank that was failed on its communicator in what its caller had seen
/// before, as in the answers to its earlier calls: no communicator that is made of the round has such a rank as a member.
pub fn shrinks_exclude_failures<P: Meld>()
    ensures { ShrinksExcludeFailures P.meld }
{}
