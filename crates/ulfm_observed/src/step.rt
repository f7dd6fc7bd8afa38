//! The lines of an explanation.
use std::alloc::Allocator;
use ulfm_laws::FlagAnd;
use ulfm_model::Line;

/// A line of the trace that is to explain a log.
#[derive(Drop)]
pub struct Step<A: Allocator> {
    /// What it tells.
    pub line: Line<FlagAnd>,
    /// The ranks that it lists where it is a reply.
    pub group: Vec<u16, A>,
    /// Whether the log has it: a call or a reply that is a line of the log.
    pub logged: bool,
}
