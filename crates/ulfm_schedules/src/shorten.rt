//! A path made shorter: a rank's steps are left out, or put beside others of the same rank, where the outcome stays and its script gets shorter.
use crate::choices::Act;
use crate::engine::Engine;
use crate::finding::Part;
use crate::paths::{Taken, take_path};
use std::alloc::{AllocError, Allocator};

/// So many times at most a path is made shorter.
const MOST_TIMES: u16 = 1000;

/// A part of a path whose acts are all the same.
#[derive(Clone, Copy)]
struct Block {
    start: usize,
    end: usize,
    act: Act,
}

/// The parts of a path whose acts are the same.
fn blocks_of<A: Allocator + Copy>(alloc: A, acts: &[Act]) -> Result<Vec<Block, A>, AllocError> {
    let mut blocks: Vec<Block, A> = Vec::new(alloc);
    for (at, act) in acts.iter().enumerate() {
        let end = at.saturating_add(1);
        match blocks.last_mut() {
            Some(block) if block.act == *act => block.end = end,
            _ => blocks.push(Block {
                start: at,
                end,
                act: *act,
            })?,
        }
    }
    Ok(blocks)
}

/// A part of a path; nothing where it has no such part.
fn part(acts: &[Act], start: usize, end: usize) -> &[Act] {
    acts.get(start..end).unwrap_or(&[])
}

/// A path without a block.
fn without<A: Allocator + Copy>(
    alloc: A,
    acts: &[Act],
    block: Block,
) -> Result<Vec<Act, A>, AllocError> {
    let mut rest = Vec::from_slice(alloc, part(acts, 0, block.start))?;
    rest.extend_from_slice(part(acts, block.end, acts.len()))?;
    Ok(rest)
}

/// A path with a block put to a place outside it.
fn moved<A: Allocator + Copy>(
    alloc: A,
    acts: &[Act],
    block: Block,
    place: usize,
) -> Result<Vec<Act, A>, AllocError> {
    let early = place <= block.start;
    let first = if early { place } else { block.start };
    let mut path = Vec::from_slice(alloc, part(acts, 0, first))?;
    if early {
        path.extend_from_slice(part(acts, block.start, block.end))?;
        path.extend_from_slice(part(acts, place, block.start))?;
        path.extend_from_slice(part(acts, block.end, acts.len()))?;
    } else {
        path.extend_from_slice(part(acts, block.end, place))?;
        path.extend_from_slice(part(acts, block.start, block.end))?;
        path.extend_from_slice(part(acts, place, acts.len()))?;
    }
    Ok(path)
}

/// A path that is made shorter.
#[derive(Drop)]
struct Shortening<'a, 'b, 'c, A: Allocator> {
    alloc: A,
    engine: &'a mut Engine<'b, A>,
    // The outcome, which stays.
    parts: &'c [Part],
    // The best path, and what it comes to.
    acts: Vec<Act, A>,
    taken: Taken<A>,
}

impl<'a, 'b, 'c, A: Allocator + Copy + Drop> Shortening<'a, 'b, 'c, A> {
    /// Whether a path's script is shorter than the best one's: it has fewer lines, or as many and the path has fewer acts.
    fn is_shorter(&self, lines: usize, acts: usize) -> bool {
        let most = self.taken.lines.len();
        lines < most || (lines == most && acts < self.acts.len())
    }

    /// Takes a path in place of the best one, where it comes to the same outcome and is shorter.
    fn try_path(&mut self, acts: Vec<Act, A>) -> Result<bool, AllocError> {
        let Some(taken) = take_path(self.alloc, self.engine, &acts)? else {
            return Ok(false);
        };
        let same = match &taken.parts {
            Some(found) => found.as_slice() == self.parts,
            None => false,
        };
        if !same || !self.is_shorter(taken.lines.len(), acts.len()) {
            return Ok(false);
        }
        self.acts = acts;
        self.taken = taken;
        Ok(true)
    }

    /// Tries to put a block beside another of the same rank.
    fn try_beside(&mut self, block: Block, other: Block) -> Result<bool, AllocError> {
        if other.act != block.act || other.start == block.start {
            return Ok(false);
        }
        let before = moved(self.alloc, &self.acts, block, other.start)?;
        if self.try_path(before)? {
            return Ok(true);
        }
        let behind = moved(self.alloc, &self.acts, block, other.end)?;
        self.try_path(behind)
    }

    /// Tries to leave out a block, or to put it beside another.
    fn try_block(&mut self, blocks: &[Block], block: Block) -> Result<bool, AllocError> {
        let rest = without(self.alloc, &self.acts, block)?;
        if self.try_path(rest)? {
            return Ok(true);
        }
        for other in blocks {
            if self.try_beside(block, *other)? {
                return Ok(true);
            }
        }
        Ok(false)
    }

    /// Makes the best path shorter once, and says whether it could.
    fn try_once(&mut self) -> Result<bool, AllocError> {
        let blocks = blocks_of(self.alloc, &self.acts)?;
        for block in &blocks {
            if self.try_block(&blocks, *block)? {
                return Ok(true);
            }
        }
        Ok(false)
    }
}

/// What a path with this outcome comes to once it is made short; none where it doesn't come to the outcome.
pub(crate) fn shortest<'a, 'b, A: Allocator + Copy + Drop>(
    alloc: A,
    engine: &'a mut Engine<'b, A>,
    acts: Vec<Act, A>,
    parts: &[Part],
) -> Result<Option<Taken<A>>, AllocError> {
    let Some(taken) = take_path(alloc, engine, &acts)? else {
        return Ok(None);
    };
    let mut shortening = Shortening {
        alloc,
        engine,
        parts,
        acts,
        taken,
    };
    for _ in 0..MOST_TIMES {
        if !shortening.try_once()? {
            break;
        }
    }
    Ok(Some(shortening.taken))
}
