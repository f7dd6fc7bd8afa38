//! What a log says of its calls, its rounds and its communicators, before any search.
use crate::acts::{Act, Kind};
use std::alloc::{AllocError, Allocator};
use ulfm_graph::tables::{NONE, at, number, put};
use ulfm_model::Limits;

/// A round: its communicator, and its number there.
#[derive(Clone, Copy)]
pub struct Round {
    /// The number of its communicator.
    pub comm: u16,
    /// Its number there, from 0.
    pub round: u16,
}

/// The rounds of one sort that were begun, and who began each.
#[derive(Drop)]
pub struct Rounds<A: Allocator> {
    /// How many ranks the world has.
    ranks: usize,
    /// How many rounds a communicator may have.
    rounds: usize,
    /// For each communicator's rounds their places in the list; `NONE` where one wasn't begun.
    places: Vec<u32, A>,
    /// The rounds that were begun, in the order of their first starts.
    pub list: Vec<Round, A>,
    /// For each round of the list and each rank the call that began it: its place among the calls; `NONE` where none did.
    starts: Vec<u32, A>,
}

impl<A: Allocator + Copy> Rounds<A> {
    /// None was begun.
    pub(crate) fn new(alloc: A, limits: Limits) -> Result<Self, AllocError> {
        let ranks = limits.ranks as usize;
        let rounds = limits.rounds as usize;
        let places = vec![in alloc; NONE; rounds.wrapping_mul(limits.comms as usize)]?;
        Ok(Rounds {
            ranks,
            rounds,
            places,
            list: Vec::new(alloc),
            starts: Vec::new(alloc),
        })
    }

    /// The place of a round, which is made where it is new.
    pub(crate) fn place(&mut self, comm: u16, round: u16) -> Result<u32, AllocError> {
        let cell = (comm as usize)
            .wrapping_mul(self.rounds)
            .wrapping_add(round as usize);
        let old = at(&self.places, cell);
        if old != NONE {
            return Ok(old);
        }
        let place = number(self.list.len());
        put(&mut self.places, cell, place);
        self.list.push(Round { comm, round })?;
        for _ in 0..self.ranks {
            self.starts.push(NONE)?;
        }
        Ok(place)
    }

    /// The call by which a rank began a round; none where it didn't.
    pub fn start(&self, place: u32, rank: usize) -> u32 {
        at(
            &self.starts,
            (place as usize).wrapping_mul(self.ranks).wrapping_add(rank),
        )
    }

    /// Writes it down.
    pub(crate) fn begin(&mut self, place: u32, rank: u16, act: u32) {
        let cell = (place as usize)
            .wrapping_mul(self.ranks)
            .wrapping_add(rank as usize);
        put(&mut self.starts, cell, act);
    }

    /// The round at a place.
    pub fn round(&self, place: usize) -> Round {
        match self.list.get(place) {
            Some(round) => *round,
            None => Round { comm: 0, round: 0 },
        }
    }
}

/// What is known of a log.
#[derive(Drop)]
pub struct Study<A: Allocator> {
    /// Where tables are allocated.
    pub alloc: A,
    /// How large its world is.
    pub(crate) limits: Limits,
    /// How many ranks the world has.
    pub ranks: usize,
    /// How many communicators the world may have.
    pub comms: usize,
    /// How many lines the log has.
    pub lines: usize,
    /// Whether the order of lines is one in time.
    pub timed: bool,
    /// Whether all declarations are logged.
    pub logged: bool,
    /// Whether the end of some rank's lines was lost.
    pub lost: bool,
    /// The calls, in the order of their lines.
    pub acts: Vec<Act, A>,
    /// For each line its call, or the one that it answers: its place among the calls; `NONE` where it has none.
    pub act_at: Vec<u32, A>,
    /// For each line the one before it of the same caller, from 0; `NONE` where it is the first, or isn't a caller's.
    pub(crate) before: Vec<u32, A>,
    /// The rounds that agrees and shrinks began.
    pub agreements: Rounds<A>,
    /// The rounds that barriers began.
    pub barriers: Rounds<A>,
    /// For each communicator the round that made it: its place among those of agreement; `NONE` where nobody was told.
    pub made_by: Vec<u32, A>,
    /// For each communicator how many of the world's ranks it lacks; `NONE` where nobody was told of it.
    pub(crate) lacks: Vec<u32, A>,
    /// For each communicator the first line that told of it, from 0; `NONE` where none did.
    pub told_at: Vec<u32, A>,
    /// For each communicator and each rank 1 where the rank is a member; else 0.
    pub(crate) members: Vec<u32, A>,
    /// For each round of agreement the number of the communicator that it made; `NONE` where nobody was told.
    pub(crate) makes: Vec<u32, A>,
    /// For each rank the call that declared it, or else the open one: its place among the calls; `NONE` where there is none.
    pub declared: Vec<u32, A>,
    /// For each rank its place in the line of failures, from 1, where a reply names it as failed, or 0 where that isn't told; `NONE` where
    /// none names it.
    pub named: Vec<u32, A>,
    /// For each line, 1 where its reply counts for nothing; else 0.
    pub muted: Vec<u32, A>,
}

impl<A: Allocator + Copy> Study<A> {
    /// Nothing is known yet.
    pub(crate) fn new(alloc: A, limits: Limits, lines: usize) -> Result<Self, AllocError> {
        let ranks = limits.ranks as usize;
        let comms = limits.comms as usize;
        let mut study = Study {
            alloc,
            limits,
            ranks,
            comms,
            lines,
            timed: true,
            logged: false,
            lost: false,
            acts: Vec::new(alloc),
            act_at: vec![in alloc; NONE; lines]?,
            before: vec![in alloc; NONE; lines]?,
            agreements: Rounds::new(alloc, limits)?,
            barriers: Rounds::new(alloc, limits)?,
            made_by: vec![in alloc; NONE; comms]?,
            lacks: vec![in alloc; NONE; comms]?,
            told_at: vec![in alloc; NONE; comms]?,
            members: vec![in alloc; 0; comms.wrapping_mul(ranks)]?,
            makes: Vec::new(alloc),
            declared: vec![in alloc; NONE; ranks]?,
            named: vec![in alloc; NONE; ranks]?,
            muted: vec![in alloc; 0; lines]?,
        };
        put(&mut study.lacks, 0, 0);
        for rank in 0..ranks {
            put(&mut study.members, rank, 1);
        }
        Ok(study)
    }

    /// Whether a rank is a member of a communicator.
    pub fn is_member(&self, comm: u16, rank: usize) -> bool {
        rank < self.ranks
            && at(
                &self.members,
                (comm as usize).wrapping_mul(self.ranks).wrapping_add(rank),
            ) == 1
    }

    /// How many ranks a communicator lacks; they are the first failures.
    pub fn lacking(&self, comm: u16) -> u32 {
        let lacks = at(&self.lacks, comm as usize);
        if lacks == NONE { 0 } else { lacks }
    }

    /// The call at a place.
    pub fn act(&self, place: u32) -> Option<Act> {
        match self.acts.get(place as usize) {
            Some(act) => Some(*act),
            None => None,
        }
    }

    /// Writes a call down at its place.
    pub(crate) fn put_act(&mut self, place: u32, act: Act) {
        if let Some(old) = self.acts.get_mut(place as usize) {
            *old = act;
        }
    }

    /// Whether the reply to a call counts.
    pub fn counts(&self, act: &Act) -> bool {
        act.reply != NONE && at(&self.muted, act.reply as usize) == 0
    }

    /// Whether a call polls, or was answered by its poll's reply.
    pub fn polls(&self, act: &Act) -> bool {
        act.blocking || act.is(Kind::Poll)
    }

    /// What a poll asks for: the kind of its start.
    pub fn asked_by(&self, act: &Act) -> Kind {
        match self.act(act.start) {
            Some(start) => start.kind,
            None => act.kind,
        }
    }

    /// The communicator that a round of agreement made.
    pub fn made(&self, place: u32) -> u32 {
        at(&self.makes, place as usize)
    }
}
