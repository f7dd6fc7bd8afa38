// Worked rows of the tests: scripts and traces, and what the program gives for each.

/// A text that the program reads, and what it gives for it.
#[derive(Clone, Copy)]
pub struct Row {
    /// What the worked case is called, as `one_rank`.
    pub name: &'static str,
    /// A script or a trace.
    pub script: &'static str,
    /// What is printed.
    pub output: &'static str,
    /// What is told on standard error.
    pub errors: &'static str,
    /// The exit status.
    pub status: u8,
}
