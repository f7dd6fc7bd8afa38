//! The nodes of a graph that may be taken next, by their class.
use crate::tables::{NONE, at, count_up, number, put};
use std::alloc::{AllocError, Allocator};

/// Nodes in the order in which they came, each taken once.
#[derive(Drop)]
struct Queue<A: Allocator> {
    /// All that came, in their order.
    nodes: Vec<u32, A>,
    /// How many of them were taken: the first ones.
    taken: usize,
}

impl<A: Allocator + Copy> Queue<A> {
    /// None came yet.
    fn new(alloc: A) -> Queue<A> {
        Queue {
            nodes: Vec::new(alloc),
            taken: 0,
        }
    }

    /// The next node; none where all were taken.
    fn take(&mut self) -> u32 {
        let node = at(&self.nodes, self.taken);
        if node != NONE {
            self.taken = self.taken.wrapping_add(1);
        }
        node
    }
}

/// The nodes that may be taken next, and for each other one how many have to be taken before it.
#[derive(Drop)]
pub(crate) struct Ready<A: Allocator> {
    /// For each node how many have yet to be taken before it.
    left: Vec<u32, A>,
    /// Those of class 0, which are taken before all others.
    low: Queue<A>,
    /// Those of class 1.
    middle: Queue<A>,
    /// Those of class 2 or more, which are taken last.
    high: Queue<A>,
}

impl<A: Allocator + Copy> Ready<A> {
    /// No node has to be taken before another.
    pub(crate) fn new(alloc: A, nodes: usize) -> Result<Ready<A>, AllocError> {
        Ok(Ready {
            left: vec![in alloc; 0; nodes]?,
            low: Queue::new(alloc),
            middle: Queue::new(alloc),
            high: Queue::new(alloc),
        })
    }

    /// A node has one more to be taken before it.
    pub(crate) fn count(&mut self, node: u32) {
        count_up(&mut self.left, node as usize);
    }

    /// All may be taken that have none to be taken before them.
    pub(crate) fn begin(&mut self, class: &[u32]) -> Result<(), AllocError> {
        for node in 0..self.left.len() {
            if at(&self.left, node) == 0 {
                self.push(at(class, node), number(node))?;
            }
        }
        Ok(())
    }

    /// A node may be taken.
    fn push(&mut self, class: u32, node: u32) -> Result<(), AllocError> {
        let queue = match class {
            0 => &mut self.low,
            1 => &mut self.middle,
            _ => &mut self.high,
        };
        queue.nodes.push(node)?;
        Ok(())
    }

    /// The next node: one of the lowest class; none where none may be taken.
    pub(crate) fn take(&mut self) -> u32 {
        let low = self.low.take();
        if low != NONE {
            return low;
        }
        let middle = self.middle.take();
        if middle != NONE {
            return middle;
        }
        self.high.take()
    }

    /// Each of these has one fewer to be taken before it.
    pub(crate) fn free(&mut self, class: &[u32], nodes: &[u32]) -> Result<(), AllocError> {
        for node in nodes {
            let node = *node;
            let left = at(&self.left, node as usize).wrapping_sub(1);
            put(&mut self.left, node as usize, left);
            if left == 0 {
                self.push(at(class, node as usize), node)?;
            }
        }
        Ok(())
    }
}
