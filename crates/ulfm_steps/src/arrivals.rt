// Reading who has arrived in a barrier round: first the members among the declared ranks, in the order of their failures,
// then the others, in the group's order, up to the first who is missing. A member that was found there stays there; that one
// is missing holds at its load alone.
ghost use Rattle.std.specs.Prelude.{◌≡◌, ◌-◌, ◌<◌, ◌≤◌, [], false, true, length, IfSome, MatchBool};
ghost use Rattle.std.specs.List.{list_all};
ghost use Rattle.std.specs.List.Sorted.{IsStrictlyIncreasing};
ghost use Rattle.ulfm_model.specs.History.{has_arrived};
ghost use Rattle.ulfm_words.specs.Steps.{view_of, IsView, Goes, seen_in, steps_in};
ghost use Rattle.ulfm_steps.specs.Arriving.{ArrivalsTake, AtArrival, IsAsked, IsFurther, IsNextOther, IsPosition, MissingAre, asked_before, asked_members, asks, in_order};
ghost use Rattle.ulfm_steps.specs.Rounds.{IsRoundIn};
ghost use Rattle.ulfm_steps.specs.Among.{among};
ghost use Rattle.ulfm_steps.specs.Turns.{WhileOn};

use crate::blocks::next_member;
use crate::group::{has_rank, is_member};
use std::alloc::Allocator;
use ulfm_laws::meld::Packed;
use ulfm_words::{Words, load_arrival};

/// Who is missing in a barrier round.
#[derive(Clone, Copy, Debug, PartialEq, Eq)]
pub enum Missing {
    Nobody,
    /// Somebody, but nobody of the declared ranks.
    Others,
    /// Somebody of the declared ranks.
    Declared,
}

/// A reading of arrivals that is under way.
#[derive(Clone, Copy, Debug, PartialEq, Eq)]
pub struct Arrivals {
    /// The communicator's number.
    pub comm: u16,
    /// The barrier round, counted from 0.
    pub round: u16,
    /// Whether the declared members were found there, so that the others are read.
    pub others: bool,
    /// Where the next member to be read stands: among the declared ranks, or, of the others, in the group.
    pub next: usize,
}

// Where the next member who isn't declared stands in the group, from a place on.
#[inline(always)]
fn next_other(group: &[u16], declared: &[u16], start: usize) -> usize
    requires { start ≤ length group.now }
    ensures { IsNextOther group.now declared.now start result }
{
    for at in start..group.len() {
        if !has_rank(declared, group[at]) {
            return at;
        }
    }
    group.len()
}

// Whether a rank is asked about: a declared one where it is a member, and a member of the group where it isn't declared.
#[inline(always)]
fn is_asked(group: &[u16], declared: &[u16], others: bool, rank: u16) -> bool
    requires { IsStrictlyIncreasing group.now }
    ensures { result ≡ asks group.now declared.now others rank }
{
    if others {
        return !has_rank(declared, rank);
    }
    is_member(group, rank)
}

// Reads the declared members, or the others, from a place on, up to the first who is missing: whether all have arrived.
#[inline(always)]
fn arrived_from<P: Packed, A: Allocator, W: Words<P, A>>(
    words: &W,
    pass: &mut W::Pass,
    comm: u16,
    round: u16,
    group: &[u16],
    declared: &[u16],
    others: bool,
    start: usize,
) -> bool
    requires of { IsView P.meld (view_of P.pack (W.name words.now) (W.sight pass.old)) }
    requires round { IsRoundIn (view_of P.pack (W.name words.now) (W.sight pass.old)) comm round group.now }
    requires within { IsPosition group.now declared.now others start }
    requires before { list_all (has_arrived (seen_in (view_of P.pack (W.name words.now) (W.sight pass.old))) comm round)
        (asked_before group.now declared.now others start) ≡ true }
    ensures goes { Goes P.meld W.alone false (length (asked_members group.now declared.now others) - length (asked_before group.now declared.now others start))
        (view_of P.pack (W.name words.now) (W.sight pass.old)) (view_of P.pack (W.name words.now) (W.sight pass.new)) }
    ensures more { IsAsked group.now declared.now others start
        → steps_in (view_of P.pack (W.name words.now) (W.sight pass.old)) < steps_in (view_of P.pack (W.name words.now) (W.sight pass.new)) }
    ensures arrived { result ≡ list_all (has_arrived (seen_in (view_of P.pack (W.name words.now) (W.sight pass.new))) comm round)
        (asked_members group.now declared.now others) }
{
    let ranks = if others { group } else { declared };
    for at in start..ranks.len() {
        let rank = ranks[at];
        let asked = is_asked(group, declared, others, rank);
        if !asked {
            continue;
        }
        if !load_arrival(words, pass, comm, round, rank) {
            return false;
        }
    }
    true
}

impl Arrivals {
    /// A reading that has read nothing yet, of a group that has a member, and whose ranks rise, as the members of each
    /// communicator do.
    pub fn new(comm: u16, round: u16, group: &[u16], declared: &[u16]) -> Arrivals
        requires some { 0 < length group.now }
        requires rises { IsStrictlyIncreasing group.now }
        ensures comm { result.comm ≡ comm }
        ensures round { result.round ≡ round }
        ensures asked { IsAsked group.now declared.now result.others result.next }
        ensures first { asked_before group.now declared.now result.others result.next ≡ [] }
    {
        let mut arrivals = Arrivals {
            comm,
            round,
            others: false,
            next: 0,
        };
        arrivals.move_on(group, declared);
        arrivals
    }

    // Moves on past the ranks that aren't asked about, without a load: whether a member is left.
    #[inline(always)]
    fn move_on(&mut self, group: &[u16], declared: &[u16]) -> bool
        requires rises { IsStrictlyIncreasing group.now }
        requires within { IsPosition group.now declared.now self.old.others self.old.next }
        ensures comm { self.new.comm ≡ self.old.comm }
        ensures round { self.new.round ≡ self.old.round }
        ensures none_between { asked_before group.now declared.now self.new.others self.new.next ≡ asked_before group.now declared.now self.old.others
            self.old.next }
        ensures next { MatchBool result (IsAsked group.now declared.now self.new.others self.new.next)
            (asked_before group.now declared.now self.new.others self.new.next ≡ in_order group.now declared.now) }
    {
        if !self.others {
            self.next = next_member(group, declared, self.next);
            if self.next < declared.len() {
                return true;
            }
            self.others = true;
            self.next = 0;
        }
        self.next = next_other(group, declared, self.next);
        self.next < group.len()
    }

    // One load, of the next member's place: who is missing, in the step after which nothing is left.
    #[inline(always)]
    fn step<P: Packed, A: Allocator, W: Words<P, A>>(
        &mut self,
        words: &W,
        pass: &mut W::Pass,
        group: &[u16],
        declared: &[u16],
    ) -> Option<Missing>
        requires of { IsView P.meld (view_of P.pack (W.name words.now) (W.sight pass.old)) }
        requires round { IsRoundIn (view_of P.pack (W.name words.now) (W.sight pass.old)) self.old.comm self.old.round group.now }
        requires at { AtArrival group.now declared.now self.old (seen_in (view_of P.pack (W.name words.now) (W.sight pass.old))) }
        ensures goes { Goes P.meld W.alone false 1 (view_of P.pack (W.name words.now) (W.sight pass.old)) (view_of P.pack (W.name words.now) (W.sight pass.new)) }
        ensures takes { ArrivalsTake false (among group.now declared.now) self.old result self.new (view_of P.pack (W.name words.now) (W.sight pass.old))
            (view_of P.pack (W.name words.now) (W.sight pass.new)) }
        ensures same { (self.new.comm ≡ self.old.comm) × (self.new.round ≡ self.old.round) }
        ensures further { WhileOn result (IsFurther group.now declared.now self.old self.new) }
        ensures at { WhileOn result (AtArrival group.now declared.now self.new (seen_in (view_of P.pack (W.name words.now) (W.sight pass.new)))) }
        ensures are { IfSome result (λ m. MissingAre (seen_in (view_of P.pack (W.name words.now) (W.sight pass.new))) self.old.comm self.old.round group.now
            declared.now m) }
    {
        let rank = if self.others {
            group[self.next]
        } else {
            declared[self.next]
        };
        if !load_arrival(words, pass, self.comm, self.round, rank) {
            return Some(if self.others {
                Missing::Others
            } else {
                Missing::Declared
            });
        }
        self.next += 1;
        if self.move_on(group, declared) {
            return None;
        }
        Some(Missing::Nobody)
    }

    /// One step, or, where the whole call is made at once, all that are left. Each member is loaded at most once.
    #[inline(always)]
    pub fn advance<P: Packed, A: Allocator, W: Words<P, A>>(
        &mut self,
        words: &W,
        pass: &mut W::Pass,
        group: &[u16],
        declared: &[u16],
        whole: bool,
    ) -> Option<Missing>
        requires of { IsView P.meld (view_of P.pack (W.name words.now) (W.sight pass.old)) }
        requires round { IsRoundIn (view_of P.pack (W.name words.now) (W.sight pass.old)) self.old.comm self.old.round group.now }
        requires at { AtArrival group.now declared.now self.old (seen_in (view_of P.pack (W.name words.now) (W.sight pass.old))) }
        ensures goes { Goes P.meld W.alone false (length (in_order group.now declared.now) - length
            (asked_before group.now declared.now self.old.others self.old.next)) (view_of P.pack (W.name words.now) (W.sight pass.old))
            (view_of P.pack (W.name words.now) (W.sight pass.new)) }
        ensures takes { ArrivalsTake whole (among group.now declared.now) self.old result self.new (view_of P.pack (W.name words.now) (W.sight pass.old))
            (view_of P.pack (W.name words.now) (W.sight pass.new)) }
        ensures comm { self.new.comm ≡ self.old.comm }
        ensures round { self.new.round ≡ self.old.round }
        ensures further { WhileOn result (IsFurther group.now declared.now self.old self.new) }
        ensures at { WhileOn result (AtArrival group.now declared.now self.new (seen_in (view_of P.pack (W.name words.now) (W.sight pass.new)))) }
        ensures are { IfSome result (λ m. MissingAre (seen_in (view_of P.pack (W.name words.now) (W.sight pass.new))) self.old.comm self.old.round group.now
            declared.now m) }
        ensures done { WhileOn result (whole ≡ false) }
    {
        if whole {
            return Some(self.finish(words, pass, group, declared));
        }
        self.step(words, pass, group, declared)
    }

    // All steps that are left: who is missing. Each member is loaded at most once.
    #[inline(never)]
    fn finish<P: Packed, A: Allocator, W: Words<P, A>>(
        self,
        words: &W,
        pass: &mut W::Pass,
        group: &[u16],
        declared: &[u16],
    ) -> Missing
        requires of { IsView P.meld (view_of P.pack (W.name words.now) (W.sight pass.old)) }
        requires round { IsRoundIn (view_of P.pack (W.name words.now) (W.sight pass.old)) self.comm self.round group.now }
        requires at { AtArrival group.now declared.now self (seen_in (view_of P.pack (W.name words.now) (W.sight pass.old))) }
        ensures goes { Goes P.meld W.alone false (length (in_order group.now declared.now) - length (asked_before group.now declared.now self.others self.next))
            (view_of P.pack (W.name words.now) (W.sight pass.old)) (view_of P.pack (W.name words.now) (W.sight pass.new)) }
        ensures more { steps_in (view_of P.pack (W.name words.now) (W.sight pass.old)) < steps_in (view_of P.pack (W.name words.now) (W.sight pass.new)) }
        ensures are { MissingAre (seen_in (view_of P.pack (W.name words.now) (W.sight pass.new))) self.comm self.round group.now declared.now result }
    {
        let mut start = self.next;
        if !self.others {
            if !arrived_from(
                words, pass, self.comm, self.round, group, declared, false, start,
            ) {
                return Missing::Declared;
            }
            start = 0;
        }
        if !arrived_from(
            words, pass, self.comm, self.round, group, declared, true, start,
        ) {
            return Missing::Others;
        }
        Missing::Nobody
    }
}
