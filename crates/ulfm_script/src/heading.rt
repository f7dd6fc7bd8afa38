//! What the first line of a script gives.

use crate::version::Version;
use ulfm_model::Limits;

/// The first line of a script, as it is read.
#[derive(Clone, Copy, Debug, PartialEq, Eq)]
pub struct Heading {
    /// In which version the other lines are.
    pub version: Version,
    /// The limits of the world in which the script is run.
    pub limits: Limits,
}
