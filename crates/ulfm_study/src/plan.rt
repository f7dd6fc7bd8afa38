//! What a log asks of an order: its nodes, its edges, and where each rank may stand in the line of failures.
use crate::study::Study;
use std::alloc::{AllocError, Allocator};
use ulfm_graph::Graph;
use ulfm_graph::tables::{NONE, at, greatest, number, put, small};

/// A rank, and a node: one comes before the other.
#[derive(Clone, Copy)]
pub(crate) struct Tie {
    /// The rank.
    pub(crate) rank: u16,
    /// The number of the node.
    pub(crate) node: u32,
}

/// Two ranks of which one stands before the other in the line of failures, if that fails.
#[derive(Clone, Copy)]
pub(crate) struct Pair {
    /// The rank that stands before.
    pub(crate) first: u16,
    /// The rank that stands behind, if it fails.
    pub(crate) then: u16,
}

/// What is asked.
#[derive(Drop)]
pub struct Plan<A: Allocator> {
    /// The nodes, and which comes before which.
    pub graph: Graph<A>,
    /// How many lines the log has: each is a node.
    lines: usize,
    /// How many ranks the world has.
    ranks: usize,
    /// How many calls the log has: each has three nodes.
    acts: usize,
    /// How many rounds of agreement were begun: each has a node.
    rounds: usize,
    /// How many communicators the world may have: each has two nodes.
    comms: usize,
    /// Ranks, each with a node that comes before its failure.
    pub(crate) alive: Vec<Tie, A>,
    /// Ranks that must have failed, each with a node that comes behind its failure.
    pub(crate) shows: Vec<Tie, A>,
    /// Ranks that must have failed, and ranks that may only fail behind them.
    pub(crate) pairs: Vec<Pair, A>,
    /// The first place where each rank may stand in the line of failures, from 1.
    pub(crate) least: Vec<u32, A>,
    /// The node by which each rank may not stand before that; `NONE` where no node says so.
    pub(crate) least_by: Vec<u32, A>,
    /// The last place where each rank may stand in the line of failures, from 1.
    pub(crate) most: Vec<u32, A>,
    /// The node by which each rank may not stand behind that; `NONE` where no node says so.
    pub(crate) most_by: Vec<u32, A>,
    /// For each rank, 1 where it must have failed; else 0.
    pub(crate) must: Vec<u32, A>,
    /// How many failures there must be at least.
    pub(crate) need: u32,
    /// The place of each rank in the line of failures, from 1; `NONE` where it has none.
    pub place: Vec<u32, A>,
    /// The rank at each place of the line of failures, from 1; `NONE` where none stands there.
    pub ranked: Vec<u32, A>,
}

impl<A: Allocator + Copy> Plan<A> {
    /// Nothing is asked yet.
    pub fn new(study: &Study<A>) -> Result<Plan<A>, AllocError> {
        let alloc = study.alloc;
        let lines = study.lines;
        let ranks = study.ranks;
        let acts = study.acts.len();
        let rounds = study.agreements.list.len();
        let comms = study.comms;
        let nodes = lines
            .wrapping_add(ranks.wrapping_add(2))
            .wrapping_add(acts.wrapping_mul(3))
            .wrapping_add(rounds)
            .wrapping_add(comms.wrapping_mul(2));
        Ok(Plan {
            graph: Graph::new(alloc, nodes)?,
            lines,
            ranks,
            acts,
            rounds,
            comms,
            alive: Vec::new(alloc),
            shows: Vec::new(alloc),
            pairs: Vec::new(alloc),
            least: vec![in alloc; 1; ranks]?,
            least_by: vec![in alloc; NONE; ranks]?,
            most: vec![in alloc; number(ranks); ranks]?,
            most_by: vec![in alloc; NONE; ranks]?,
            must: vec![in alloc; 0; ranks]?,
            need: 0,
            place: vec![in alloc; NONE; ranks]?,
            ranked: vec![in alloc; NONE; ranks.saturating_add(2)]?,
        })
    }

    /// The declaration of a number, from 1; those behind the last possible one are none.
    pub fn failure(&self, count: u32) -> u32 {
        if count == 0 || (count as usize) > self.ranks.saturating_add(1) {
            return NONE;
        }
        number(self.lines.wrapping_add(count as usize))
    }

    /// What node a place behind all lines and failures is.
    fn behind(&self, place: usize) -> u32 {
        number(
            self.lines
                .wrapping_add(self.ranks)
                .wrapping_add(2)
                .wrapping_add(place),
        )
    }

    /// The look of a call.
    pub fn look(&self, act: u32) -> u32 {
        self.behind((act as usize).wrapping_mul(3))
    }

    /// Its settlement or arrival.
    pub fn settle(&self, act: u32) -> u32 {
        self.behind((act as usize).wrapping_mul(3).wrapping_add(1))
    }

    /// The point of its reply, or the look of its poll.
    pub fn point(&self, act: u32) -> u32 {
        self.behind((act as usize).wrapping_mul(3).wrapping_add(2))
    }

    /// The decision of a round of agreement.
    pub fn decision(&self, round: u32) -> u32 {
        self.behind(self.acts.wrapping_mul(3).wrapping_add(round as usize))
    }

    /// The making of a communicator.
    pub fn spawn(&self, comm: u16) -> u32 {
        let rest = self.acts.wrapping_mul(3).wrapping_add(self.rounds);
        self.behind(rest.wrapping_add(comm as usize))
    }

    /// Its revocation.
    pub fn revocation(&self, comm: u16) -> u32 {
        let rest = self.acts.wrapping_mul(3).wrapping_add(self.rounds);
        self.behind(rest.wrapping_add(self.comms).wrapping_add(comm as usize))
    }

    /// What a node is: a line, a failure, or one behind them.
    pub fn part(&self, node: u32) -> Part {
        let place = node as usize;
        if place < self.lines {
            return Part::Line(node);
        }
        let place = place.wrapping_sub(self.lines);
        if place < self.ranks.saturating_add(2) {
            return Part::Failure(number(place));
        }
        let place = place.wrapping_sub(self.ranks.saturating_add(2));
        let acts = self.acts.wrapping_mul(3);
        if place < acts {
            let act = number(place / 3);
            return match place % 3 {
                0 => Part::Look(act),
                1 => Part::Settle(act),
                _ => Part::Point(act),
            };
        }
        let place = place.wrapping_sub(acts);
        if place < self.rounds {
            return Part::Decision(number(place));
        }
        let place = place.wrapping_sub(self.rounds);
        if place < self.comms {
            return Part::Spawn(small(number(place)));
        }
        Part::Revocation(small(number(place.wrapping_sub(self.comms))))
    }

    /// A node comes before another.
    pub fn edge(&mut self, from: u32, to: u32) -> Result<(), AllocError> {
        self.graph.edge(from, to)
    }

    /// So many failures are declared before a node.
    pub fn after_failures(&mut self, count: u32, node: u32) -> Result<(), AllocError> {
        if count == 0 {
            return Ok(());
        }
        self.need = greatest(self.need, count);
        let failure = self.failure(count);
        self.graph.edge(failure, node)
    }

    /// No more than so many failures are declared before a node.
    pub(crate) fn before_failure(&mut self, count: u32, node: u32) -> Result<(), AllocError> {
        let failure = self.failure(count.wrapping_add(1));
        self.graph.edge(node, failure)
    }

    /// A node comes before the failure of a rank.
    pub fn alive(&mut self, rank: u16, node: u32) -> Result<(), AllocError> {
        self.alive.push(Tie { rank, node })?;
        Ok(())
    }

    /// A rank failed before a node.
    pub fn shows(&mut self, rank: u16, node: u32) -> Result<(), AllocError> {
        put(&mut self.must, rank as usize, 1);
        self.shows.push(Tie { rank, node })?;
        Ok(())
    }

    /// A rank fails before another, if that fails.
    pub(crate) fn ahead(&mut self, first: u16, then: u16) -> Result<(), AllocError> {
        put(&mut self.must, first as usize, 1);
        self.pairs.push(Pair { first, then })?;
        Ok(())
    }

    /// A rank stands behind so many failures, if it fails, by a line.
    pub fn not_before(&mut self, rank: u16, place: u32, line: u32) {
        if at(&self.least, rank as usize) < place {
            put(&mut self.least, rank as usize, place);
            put(&mut self.least_by, rank as usize, line);
        }
    }

    /// A rank is one of so many first failures, by a line.
    pub(crate) fn not_behind(&mut self, rank: u16, place: u32, line: u32) {
        put(&mut self.must, rank as usize, 1);
        if at(&self.most, rank as usize) > place {
            put(&mut self.most, rank as usize, place);
            put(&mut self.most_by, rank as usize, line);
        }
    }
}

/// What a node is.
#[derive(Clone, Copy)]
pub enum Part {
    /// A line of the log: its place, from 0.
    Line(u32),
    /// The declaration at a place of the line of failures, from 1.
    Failure(u32),
    /// The look of a call: the call's place among the calls.
    Look(u32),
    /// The settlement or the arrival of a start: the call's place among the calls.
    Settle(u32),
    /// The point of a call's reply, or the look of its poll: the call's place among the calls.
    Point(u32),
    /// The decision of a round: its place among the rounds of agreement.
    Decision(u32),
    /// The making of a communicator: its number.
    Spawn(u16),
    /// The revocation of a communicator: its number.
    Revocation(u16),
}
